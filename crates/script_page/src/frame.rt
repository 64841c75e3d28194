//! The page's own code: what a browser shows, and how. It takes what it shows from the texts of the steps alone.

pub mod arrows;
pub mod controls;
pub mod diagram;
pub mod focus;
pub mod guess;
pub mod head;
pub mod labels;
pub mod lanes;
pub mod legend;
pub mod marks;
pub mod place;
pub mod run;
pub mod time;
