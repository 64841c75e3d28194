//! Miss registers: which lines a cache waits for, and which accesses wait for each of them.
//!
//! A lockup-free cache (Kroft 1981) continues while misses are outstanding, since each has a register. A
//! first miss to a line opens one, and further accesses to the line join it as targets.
//!
//! - [`MissFile`] is what a cache needs of its registers. Its contracts see a list of them, each a line with its
//!   targets in order, in which no line occurs twice and each has a target (`IsMissFile` of specs/Miss.antt).
//! - [`MissFile::lines`] lists the lines that are waited for.
//! - [`MissFile::admit`] says what a request for a line is to do: join its register, open one, or wait for room.
//! - [`MissFile::open`] and [`MissFile::join`] add a target to one line at the end (`AddsTarget`),
//!   [`MissFile::take_first`], [`MissFile::take_loads`] and [`MissFile::close`] take the first ones of a line
//!   (`TakesTargets`). Nothing else changes, and no target is lost or doubled.
//!
//! There are two files. They differ in when they have room (`can_open`, `can_join`), and in nothing else that a caller
//! sees:
//!
//! - [`ExplicitFile`] has a number of registers with a number of target fields each: the explicitly addressed registers
//!   of Farkas and Jouppi (1994).
//! - [`InvertedFile`] has an entry for each tag of the core, their inverted organisation, and so it has room whenever
//!   the tag is free.
//!
//! [`MissKind`] names one of them, and [`EitherFile`] is one of either kind.
//!
//! Only [`MissFile::make`], [`MissFile::try_clone`] and [`MissFile::lines`] allocate: registers and their rows are in boxed slices, which
//! have no call that lets them grow, and entries are in the value. A call searches a row of 16 bytes for each register
//! of its file, at most 32, or for each entry that is in use, at most 64. A target is taken where it is, and no
//! other target moves; only [`MissFile::targets`], [`MissFile::take_loads`] and [`MissFile::close`] return a list,
//! 3 KB by value.
//!
//! What follows for callers from `AddsTarget` and `TakesTargets` is in proofs/Changes.antt.
#![tactic(auto)]

pub use admission::Admission;
pub use either::EitherFile;
pub use explicit::ExplicitFile;
pub use inverted::InvertedFile;
pub use kind::MissKind;
pub use miss_file::MissFile;
pub use target_list::Target;
pub use waiting::Waiting;

mod admission;
mod either;
mod entry_table;
mod explicit;
mod inverted;
mod kind;
mod miss_file;
mod registers;
mod waiting;
