//! What a step of a slice does, as a text: which row of the tables was done, effect by effect.
//!
//! A text begins with the case that was met, [`Case`]: who, in which state, at which event. What was done follows, in
//! the words of the tables that `lockup table` prints, from the slice's own plan ([`ExplainedDelivery`]), decision
//! ([`Issue`]) or answer ([`Eviction`]). The contracts say what each displays byte for byte (specs/Case.antt,
//! Effects.antt, Delivery.antt and Issue.antt). [`Performed`] is an access that was performed, [`MessageName`] a
//! message under its name in the tables, and [`Cores`] the cores of a set. A text doesn't allocate.
pub use case::{Case, Event, Who};
pub use cores::Cores;
pub use delivery::ExplainedDelivery;
pub use effects::Done;
pub use issue::{Eviction, Issue};
pub use message::MessageName;
pub use performed::{Asked, Performed};

mod case;
mod cores;
mod delivery;
mod effects;
mod issue;
mod message;
mod performed;
