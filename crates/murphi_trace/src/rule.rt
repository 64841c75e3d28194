//! The rules that a trace reports.
ghost use Rattle.std.specs.Prelude.{◌≡◌, ◌<◌, IfSome};
ghost use Rattle.murphi_trace.specs.declared.event.Event.{Event};
ghost use Rattle.murphi_trace.specs.declared.rule.Rule.{Rule};
ghost use Rattle.murphi_trace.specs.Fired.{name_and_cores};
ghost use Rattle.murphi_trace.specs.Rule.{copy_rule, core_behind, core_of, directory_event, directory_rule, last_core};
ghost use Rattle.murphi_trace.specs.Rule.{rule_at, rule_of};

use super::event::Event;
use super::fired::{Fired, behind, parted};
use address_map::{CoreId, LineAddr};
use slice_queues::Pick;

/// The model's only line.
pub(crate) const LINE: LineAddr = LineAddr(0);

/// What a rule of the model does.
#[derive(Clone, Copy, Debug, PartialEq, Eq)]
pub enum Rule {
    Load(CoreId),
    Write(CoreId),
    Evict(CoreId),
    Deliver(Pick),
}

impl Rule {
    /// Returns the rule of this name, for these cores, if it is one by which something happens.
    pub(crate) fn of(fired: Fired<'_>) -> Option<Rule>
        ensures value { result ≡ rule_of (name_and_cores fired.entry) }
        ensures small { IfSome result (λ rule. last_core rule < 10) }
    {
        match behind(fired.name, b"directory ") {
            Some(told) => of_directory(told),
            None => of_core(fired),
        }
    }

    /// Returns the greatest number of a core that takes part.
    pub(crate) fn last_core(self) -> u8
        ensures { result ≡ last_core self }
    {
        match self {
            Rule::Load(core) | Rule::Write(core) | Rule::Evict(core) => core.0,
            Rule::Deliver(pick) => last_core_of(pick),
        }
    }
}

/// Returns the greatest number of a core that a channel names.
fn last_core_of(pick: Pick) -> u8
    ensures { result ≡ last_core (Rule.Deliver pick) }
{
    match pick {
        Pick::Req(_, core) | Pick::Fwd(_, core) | Pick::Data(_, core) => core.0,
        Pick::Ack { to, from, .. } => { if to.0 < from.0 { from.0 } else { to.0 } }
        Pick::Home(_) => 0,
    }
}

/// `ENTRY; EVENT: what is done`.
fn of_directory(told: &[u8]) -> Option<Rule>
    ensures value { result ≡ directory_rule told.now }
    ensures small { IfSome result (λ rule. last_core rule < 10) }
{
    let Some((_, event)) = parted(told, b"; ") else {
        return None;
    };
    let Some((event, _)) = parted(event, b": ") else {
        return None;
    };
    at_directory(event)
}

/// An event is a request, `GetS of 1`, or the block that comes home.
fn at_directory(event: &[u8]) -> Option<Rule>
    ensures value { result ≡ directory_event event.now }
    ensures small { IfSome result (λ rule. last_core rule < 10) }
{
    let Some((_, core)) = parted(event, b" of ") else {
        return Some(Rule::Deliver(Pick::Home(LINE)));
    };
    let Some(core) = core_of(core) else {
        return None;
    };
    Some(Rule::Deliver(Pick::Req(LINE, core)))
}

/// `STATE, EVENT: what is done`, for the core `c`, and `f` where another core takes part.
fn of_core(fired: Fired<'_>) -> Option<Rule>
    ensures value { result ≡ copy_rule (name_and_cores fired.entry) }
    ensures small { IfSome result (λ rule. last_core rule < 10) }
{
    let Some(event) = Event::of(fired.name) else {
        return None;
    };
    let Some(core) = core_behind(fired.cores, b", c: ") else {
        return None;
    };
    at_core(event, core, fired.cores)
}

/// The event comes to this core.
#[tactic(auto, unfolding(crate::specs::Rule::rule_at))]
fn at_core(event: Event, core: CoreId, cores: &[u8]) -> Option<Rule>
    requires { core.0 < 10 }
    ensures value { result ≡ rule_at cores.now event core }
    ensures small { IfSome result (λ rule. last_core rule < 10) }
{
    match event {
        Event::Load => Some(Rule::Load(core)),
        Event::Write => Some(Rule::Write(core)),
        Event::Eviction => Some(Rule::Evict(core)),
        Event::Forwarded => Some(Rule::Deliver(Pick::Fwd(LINE, core))),
        Event::Data => Some(Rule::Deliver(Pick::Data(LINE, core))),
        Event::InvAck => acknowledged(core, cores),
    }
}

/// The acknowledgement of the core `f` comes to this core.
fn acknowledged(to: CoreId, cores: &[u8]) -> Option<Rule>
    requires { to.0 < 10 }
    ensures value { result ≡ rule_at cores.now Event.InvAck to }
    ensures small { IfSome result (λ rule. last_core rule < 10) }
{
    let Some(from) = core_behind(cores, b", f: ") else {
        return None;
    };
    Some(Rule::Deliver(Pick::Ack {
        line: LINE,
        to,
        from,
    }))
}

/// Returns the core whose number follows a mark.
fn core_behind(text: &[u8], mark: &[u8]) -> Option<CoreId>
    ensures value { result ≡ core_behind mark.now text.now }
    ensures small { IfSome result (λ core. core.0 < 10) }
{
    let Some((_, behind)) = parted(text, mark) else {
        return None;
    };
    core_of(behind)
}

/// Returns the core whose number, of one digit, a text begins with.
fn core_of(text: &[u8]) -> Option<CoreId>
    ensures value { result ≡ core_of text.now }
    ensures small { IfSome result (λ core. core.0 < 10) }
{
    let Some(first) = text.first() else {
        return None;
    };
    let digit = *first;
    if digit.is_ascii_digit() {
        Some(CoreId(digit - b'0'))
    } else {
        None
    }
}
