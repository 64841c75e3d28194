//! Draws a script's run as a sequence diagram, in Mermaid's syntax, or one line of it as a space-time diagram, in SVG.
//!
//! [`run_chart`] and [`run_svg`] play a script on a machine, and look before each call at what it can change: the
//! message at the front of its channel, and the lines as they are. [`line_count`] is the number of lines to draw.
//! [`write_drawing`] draws a [`SpaceTime`] that was recorded elsewhere.
//!
//! - `chart` draws the commands, `picture` the messages and the changes of lines; `names` keeps the lines that were
//!   requested;
//! - `seen` is what was looked at before a call;
//! - `arrow` says who takes part and what an arrow says, `note` what the notes say;
//! - `svg` records the rows of a space-time diagram, which `space_time` keeps and `drawing` draws; `sends` says what a
//!   step sends.
#![tactic(auto)]

pub use arrow::{Participant, sender};
pub use chart::run_chart;
pub use drawing::write_drawing;
pub use space_time::{SpaceTime, State, What};
pub use svg::{line_count, run_svg};

mod arrow;
mod chart;
mod drawing;
mod names;
mod note;
mod picture;
mod seen;
mod sends;
mod space_time;
mod style;
mod svg;
