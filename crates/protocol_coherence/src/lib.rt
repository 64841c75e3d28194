//! Why the protocol is coherent: theorems on one line and any number of cores, up to the 64 that the sharers of a
//! directory's entry can be.
//!
//! The definitions are a machine. A line (`specs/Line.antt`) is the directory's entry, a block on its way home, and for
//! each core the state of its copy, its channels and its count of acknowledgements. A step (`specs/LineSteps.antt`) takes
//! one row of one of the two tables, `cache_table`'s or `directory_table`'s, whose event is at hand: it sets the state
//! that the row says, takes the message, and puts what the row sends into its channels. The machine starts with nothing
//! cached, and takes any steps in any order. `specs/Values.antt` moves the blocks along. What is promised of all that
//! the machine reaches is in `specs/Promise.antt`.
//!
//! The functions here do nothing and cost nothing: each has a theorem for its contract. The proofs rest on what
//! `specs/Coherent.antt` says of a line and `specs/Fit.antt` of each core, which every step keeps.
#![tactic(auto)]

ghost use Rattle.std.specs.Prelude.{◌≤◌, ◌<◌, ℕ, Bool};
ghost use Rattle.address_map.specs.declared.block.Block.{Block};
ghost use Rattle.protocol_coherence.specs.Line.{Line};
ghost use Rattle.protocol_coherence.specs.LineSteps.{Reached};
ghost use Rattle.protocol_coherence.specs.Promise.{CanBeRead, CanBeWritten, HasOneWriter, HasRoom, HasRows, IsSettled};
ghost use Rattle.protocol_coherence.specs.Promise.{NothingIsEarly};
ghost use Rattle.protocol_coherence.specs.Values.{Blocks, HasBlocks, IsCurrent, ReachedWith};

/// Whatever a line reaches, a core that may write it is the only one that may read it.
pub fn one_writer()
    ensures one { (exclusive : Bool) (cores : ℕ) (line : Line) → 0 < cores → cores ≤ 64
        → Reached exclusive cores line → HasOneWriter cores line }
{}

/// Whatever a line reaches, the tables have a row for each message at the front of its channel, or it has to wait.
pub fn each_message_has_a_row()
    ensures rows { (exclusive : Bool) (cores : ℕ) (line : Line) → 0 < cores → cores ≤ 64
        → Reached exclusive cores line → HasRows exclusive cores line }
{}

/// Whatever a line reaches, each channel that a step sends to has room, and what it sends overtakes nothing.
pub fn each_send_has_room()
    ensures room { (exclusive : Bool) (cores : ℕ) (line : Line) → 0 < cores → cores ≤ 64
        → Reached exclusive cores line → HasRoom exclusive cores line }
{}

/// Whatever a line reaches, data and Put-Acks are there only for a core that has no request waiting.
pub fn nothing_comes_early()
    ensures early { (exclusive : Bool) (cores : ℕ) (line : Line) → 0 < cores → cores ≤ 64
        → Reached exclusive cores line → NothingIsEarly cores line }
{}

/// Whatever a line reaches, once nothing is in flight its owner has the only copy, or it has no owner and the directory
/// waits for nothing.
pub fn owner_has_the_line()
    ensures settled { (exclusive : Bool) (cores : ℕ) (line : Line) → 0 < cores → cores ≤ 64
        → Reached exclusive cores line → IsSettled cores line }
{}

/// Whatever a line and its blocks reach, each block that a core may read, that is on its way to a core or home, or that
/// the home copy serves from, is what the last write left.
pub fn each_block_is_newest()
    ensures current { (exclusive : Bool) (cores : ℕ) (line : Line) (blocks : Blocks) (newest : Block) → 0 < cores
        → cores ≤ 64 → ReachedWith exclusive cores line blocks newest → IsCurrent cores line blocks newest }
    // The blocks change nothing of what a line reaches.
    ensures without { (exclusive : Bool) (cores : ℕ) (line : Line) (blocks : Blocks) (newest : Block)
        → ReachedWith exclusive cores line blocks newest → Reached exclusive cores line }
    ensures with { (exclusive : Bool) (cores : ℕ) (line : Line) → Block → Reached exclusive cores line
        → HasBlocks exclusive cores line }
{}

/// The machine moves, at both settings: some run makes a core a writer, and some run lets two cores read.
pub fn cores_read_and_write()
    ensures written { (exclusive : Bool) → CanBeWritten exclusive }
    ensures read { (exclusive : Bool) → CanBeRead exclusive }
{}
