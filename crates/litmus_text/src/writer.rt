//! Writes the lines of scripts: those that configure a machine, and its commands.
//!
//! A line is written as its parts, keywords and numbers, with one blank between two of them (specs/Line.antt).
//! `litmus_text` reads a line as the same parts.
//!
//! - [`write_settings`] writes the whole configuration of a machine, each setting once.
//! - [`write_command`] writes one command. [`Delivery`] is the command that delivers a message, without its line end.
pub use command::write_command;
pub use delivery::Delivery;
pub use settings::write_settings;

mod command;
mod delivery;
mod line;
mod settings;
