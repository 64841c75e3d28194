//! A prompt at which a machine is tried out, line by line.
//!
//! - [`run_prompt`] reads lines, and answers each at once. It plays lines of a script, with what happened after each
//!   answer, and has words of its own ([`Own`]): those play lines of a script too, which they show first.
//! - [`Session`] is a machine with the script so far: each line that is played is kept, so that the script can be
//!   saved, and be played anew without its last lines.
//! - A [`Saver`] puts a text into a file.
#![tactic(auto)]

pub use asked::{Asked, read_asked};
pub use own::Own;
pub use prompt::run_prompt;
pub use saver::Saver;
pub use session::Session;

mod asked;
mod help;
mod hint;
mod machine;
mod own;
mod prompt;
mod saver;
mod session;
