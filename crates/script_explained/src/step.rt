//! A command that was played, as a value.
ghost use Rattle.std.specs.Prelude.{◌≡◌};

use super::unrest::Unrest;
use address_map::{CoreId, LineAddr, SliceId, WordAddr};
use litmus_script::{Issued, Pumped};
use litmus_text::{Command, Look};
use slice_core::{Delivered, Numbered, Pick};
use slice_text::{Eviction, ExplainedDelivery, Issue};

/// A command that was played: what it names, what was decided of it, and what it came to.
#[derive(Drop)]
pub enum Step {
    Issue(AccessStep),
    Evict(EvictionStep),
    Deliver(DeliveryStep),
    Hand(HandStep),
    Word(WordStep),
    /// What a pump left, after its deliveries, each of which is a step of its own.
    Pump { calls: u64, pumped: Pumped },
    /// What a command shows of the machine, which is as it was.
    Show { command: Command, text: Vec<u8> },
}

impl Step {
    ghost use Rattle.script_explained.specs.Step.{command_of};

    /// Returns its command.
    pub const fn command(&self) -> Command
        ensures { result ≡ command_of self.now }
    {
        match self {
            Step::Issue(access) => Command::Issue {
                core: access.core,
                request: access.decided.request,
            },
            Step::Evict(eviction) => Command::Evict {
                core: eviction.core,
                line: eviction.line,
            },
            Step::Deliver(delivery) => Command::Deliver(delivery.pick),
            Step::Hand(hand) => Command::Hand {
                core: hand.core,
                slice: hand.slice,
            },
            Step::Word(word) => Command::Look(Look::Word(word.word)),
            Step::Pump { calls, .. } => Command::Pump(*calls),
            Step::Show { command, .. } => *command,
        }
    }
}

/// An access that a core asked for.
#[derive(Clone, Copy)]
pub struct AccessStep {
    pub core: CoreId,
    /// The request, the case that it met, and what was decided of it.
    pub decided: Issue,
    pub issued: Issued,
}

/// An eviction that a core asked for.
#[derive(Clone, Copy)]
pub struct EvictionStep {
    pub core: CoreId,
    pub line: LineAddr,
    pub eviction: Eviction,
}

/// A delivery at a channel.
#[derive(Clone, Copy)]
pub struct DeliveryStep {
    pub pick: Pick,
    pub delivered: Delivered,
    /// The case that the message in front met, its plan, and what was done of that; none where no message waits.
    pub told: Option<ExplainedDelivery>,
}

/// A reply that was handed out, or that there was none.
#[derive(Clone, Copy)]
pub struct HandStep {
    pub core: CoreId,
    pub slice: SliceId,
    pub handed: Option<Numbered>,
}

/// The value of a word; none where its slice isn't quiet.
#[derive(Clone, Copy)]
pub struct WordStep {
    pub word: WordAddr,
    pub shown: Option<u64>,
    /// What keeps its slice from being quiet.
    pub unrest: Option<Unrest>,
}
