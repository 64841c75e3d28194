//! The parts of one slice and the exact steps on them.
//!
//! [`Parts`] puts the directory, the channels, each core's cache and the log together. A call decides first, by a pure
//! function of the state, then changes what was decided, and counts it. The contracts here say exactly what each call
//! returns and leaves, by the definitions of `slice_core_spec`, and nothing of why that is right: `slice_core` builds
//! on them.
//!
//! All memory is taken by [`Parts::new`] and [`Parts::try_clone`], but for the log, which grows in [`Parts::issue`]
//! alone, before anything changes, the lists of [`Parts::core_lines`], and what [`Parts::begin_log`] allocates. A call
//! looks at its own line and core: no call searches lines or cores, but [`Parts::deliver_next`] and [`Parts::next`],
//! which look at the lines with pending messages from the front of their ring, and [`Parts::waiting`], which goes
//! through all lines. What a call would decide can be asked without it: [`Parts::decide`], [`Parts::plan_at`] and
//! [`Parts::next`] change nothing.
#![tactic(auto)]

pub use core_lines::CoreLines;
pub use line_view::LineView;
pub use parts::Parts;

mod core_lines;
mod line_view;
mod parts;
mod room;
mod send;
