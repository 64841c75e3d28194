//! What a copy meets, by its names.
ghost use Rattle.std.specs.Prelude.{◌≡◌};
ghost use Rattle.litmus_text.specs.Table.{value_named};
ghost use Rattle.murphi_trace.specs.Rule.{event_of, events_by_name, first_part};

use super::fired::parted;
use litmus_text::value_named;

/// What a copy meets.
#[derive(Clone, Copy)]
pub(crate) enum Event {
    Load,
    Write,
    Eviction,
    Forwarded,
    Data,
    InvAck,
}

/// Each event, by the names that rules have for it.
static EVENTS: [(&[u8], Event); 10] = [
    (b"load", Event::Load),
    (b"write", Event::Write),
    (b"eviction", Event::Eviction),
    (b"Fwd-GetS", Event::Forwarded),
    (b"Fwd-GetM", Event::Forwarded),
    (b"Inv", Event::Forwarded),
    (b"Put-Ack", Event::Forwarded),
    (b"Data", Event::Data),
    (b"Data-E", Event::Data),
    (b"Inv-Ack", Event::InvAck),
];

impl Event {
    /// Returns what the copy meets, by the name `STATE, EVENT: what is done` of a rule.
    pub(crate) fn of(name: &[u8]) -> Option<Event>
        ensures { result ≡ event_of name.now }
    {
        let Some((cell, _)) = parted(name, b": ") else {
            return None;
        };
        let Some((_, event)) = parted(cell, b", ") else {
            return None;
        };
        Event::named(first_part(event))
    }

    fn named(name: &[u8]) -> Option<Event>
        ensures { result ≡ value_named events_by_name name.now }
    {
        value_named(&EVENTS, name)
    }
}

/// Returns what comes before the first comma.
fn first_part(text: &[u8]) -> &[u8]
    ensures { result.now ≡ first_part text.now }
{
    match parted(text, b",") {
        Some((first, _)) => first,
        None => text,
    }
}
