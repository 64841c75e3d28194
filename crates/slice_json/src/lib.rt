//! What a slice has, as data: JSON values (RFC 8259).
//!
//! [`write_line_in`] writes a line with its directory entry and its messages (specs/Line.antt, specs/Message.antt),
//! [`write_copy_in`] a core's copy of it with the accesses that wait (specs/Copy.antt), and [`write_log`] accesses that
//! were performed (specs/Access.antt). A channel is [`Ends`], an access [`Asked`]. Words, operands and replies are
//! strings of digits, since they have 64 bits; bytes that a script has are a string by [`write_json`], in which no HTML
//! tag begins (specs/Json.antt).
#![tactic(auto)]

pub use access::{Asked, write_log};
pub use copy::write_copy_in;
pub use json::{CoreList, write_json, write_lines};
pub use line::write_line_in;
pub use message::{Ends, fate_by};

mod access;
mod copy;
mod json;
mod line;
mod message;
