ghost use Rattle.std.specs.Prelude.{◌≡◌, IfOk};
ghost use Rattle.program_run.specs.Tally.{
  core_of,
  counted_at,
  counted_of,
  counts_together,
  delivered_of,
  line_of,
  misses_of,
  no_counts,
  one_more,
  one_more_miss,
  one_more_stall,
  requests_of,
  stalls_of,
  totals_of,
};
ghost use Rattle.slice_answer.specs.Stats.{one_more_message};
ghost use Rattle.slice_queues.specs.Pick.{channel_of};
ghost use Rattle.stats_report.specs.Report.{sum_of};

use super::cause::Cause;
use address_map::{Checked, CoreId, LineAddr};
use slice_answer::{MessageCounts, Stall};
use slice_queues::Pick;
use std::alloc::{AllocError, Global};
use std::marker::Model;

/// What is counted once.
#[derive(Clone, Copy)]
pub(crate) enum Counted {
    /// An access that was done at once.
    Hit(CoreId, LineAddr),
    /// An access that had to wait.
    Miss(CoreId, LineAddr, Cause),
    /// An access that waited with another, and was performed by the same delivery.
    Secondary(CoreId, LineAddr),
    /// An access that had to be asked again.
    Stall(CoreId, LineAddr, Stall),
    /// A line that was evicted to make room.
    Eviction(CoreId, LineAddr),
    /// A message that was delivered.
    Message(Pick),
}

impl Counted {
    /// Returns the core it is counted for: for a message the sender of a request, or the receiver of any other; a
    /// block on its way home has none.
    fn core(self) -> Option<CoreId>
        ensures { result ≡ core_of self }
    {
        match self {
            Counted::Hit(core, _)
            | Counted::Miss(core, _, _)
            | Counted::Secondary(core, _)
            | Counted::Stall(core, _, _)
            | Counted::Eviction(core, _) => Some(core),
            Counted::Message(Pick::Req(_, core) | Pick::Fwd(_, core) | Pick::Data(_, core)) => Some(
                core,
            ),
            Counted::Message(Pick::Ack { to, .. }) => Some(to),
            Counted::Message(Pick::Home(_)) => None,
        }
    }

    /// Returns the line it is counted for.
    fn line(self) -> LineAddr
        ensures { result ≡ line_of self }
    {
        match self {
            Counted::Hit(_, line)
            | Counted::Miss(_, line, _)
            | Counted::Secondary(_, line)
            | Counted::Stall(_, line, _)
            | Counted::Eviction(_, line) => line,
            Counted::Message(pick) => pick.line(),
        }
    }
}

/// What was counted of a core, or of a line. A count stops at 2^64 - 1.
// What most lines count is kept together, so that fewer cache lines are written.
#[derive(Clone, Copy)]
pub struct Counts {
    pub hits: u64,
    pub cold: u64,
    pub replaced: u64,
    pub upgrade: u64,
    pub true_sharing: u64,
    pub false_sharing: u64,
    pub evictions: u64,
    pub messages: MessageCounts,
    pub secondary: u64,
    pub no_register: u64,
    pub no_target: u64,
    pub no_way: u64,
    pub write_back_full: u64,
    pub write_back_busy: u64,
}

impl Counts {
    /// Nothing is counted.
    pub fn none() -> Self
        ensures { result ≡ no_counts }
    {
        Counts {
            hits: 0,
            cold: 0,
            replaced: 0,
            upgrade: 0,
            true_sharing: 0,
            false_sharing: 0,
            secondary: 0,
            no_register: 0,
            no_target: 0,
            no_way: 0,
            write_back_full: 0,
            write_back_busy: 0,
            evictions: 0,
            messages: MessageCounts::default(),
        }
    }

    /// Returns the misses of all causes.
    pub fn misses(&self) -> u64
        ensures { result ≡ misses_of self.now }
    {
        self.cold
            .saturating_add(self.replaced)
            .saturating_add(self.upgrade)
            .saturating_add(self.true_sharing)
            .saturating_add(self.false_sharing)
    }

    /// Returns the accesses.
    pub fn requests(&self) -> u64
        ensures { result ≡ requests_of self.now }
    {
        self.hits
            .saturating_add(self.misses())
            .saturating_add(self.secondary)
    }

    /// Returns the stalls for all reasons.
    pub fn stalls(&self) -> u64
        ensures { result ≡ stalls_of self.now }
    {
        self.no_register
            .saturating_add(self.no_target)
            .saturating_add(self.no_way)
            .saturating_add(self.write_back_full)
            .saturating_add(self.write_back_busy)
    }

    /// Returns the messages delivered, of all kinds.
    pub fn delivered(&self) -> u64
        ensures { result ≡ delivered_of self.now }
    {
        self.messages
            .requests
            .saturating_add(self.messages.forwarded)
            .saturating_add(self.messages.data_replies)
            .saturating_add(self.messages.acknowledgements)
            .saturating_add(self.messages.home)
    }

    /// Counts one more.
    fn count(&mut self, what: Counted)
        ensures { self.new ≡ one_more what self.old }
    {
        match what {
            Counted::Hit(_, _) => self.hits = self.hits.saturating_add(1),
            Counted::Miss(_, _, cause) => self.count_miss(cause),
            Counted::Secondary(_, _) => self.secondary = self.secondary.saturating_add(1),
            Counted::Stall(_, _, stall) => self.count_stall(stall),
            Counted::Eviction(_, _) => self.evictions = self.evictions.saturating_add(1),
            Counted::Message(pick) => count_message(&mut self.messages, pick),
        }
    }

    fn count_miss(&mut self, cause: Cause)
        ensures { self.new ≡ one_more_miss cause self.old }
    {
        match cause {
            Cause::Cold => self.cold = self.cold.saturating_add(1),
            Cause::Replaced => self.replaced = self.replaced.saturating_add(1),
            Cause::Upgrade => self.upgrade = self.upgrade.saturating_add(1),
            Cause::TrueSharing => self.true_sharing = self.true_sharing.saturating_add(1),
            Cause::FalseSharing => self.false_sharing = self.false_sharing.saturating_add(1),
        }
    }

    fn count_stall(&mut self, stall: Stall)
        ensures { self.new ≡ one_more_stall stall self.old }
    {
        match stall {
            Stall::NoRegister => self.no_register = self.no_register.saturating_add(1),
            Stall::NoTarget => self.no_target = self.no_target.saturating_add(1),
            Stall::NoWay => self.no_way = self.no_way.saturating_add(1),
            Stall::WriteBackFull => self.write_back_full = self.write_back_full.saturating_add(1),
            Stall::WriteBackBusy => self.write_back_busy = self.write_back_busy.saturating_add(1),
        }
    }

    /// Adds other counts.
    fn add(&mut self, other: &Counts)
        ensures { self.new ≡ counts_together self.old other.now }
    {
        self.hits = self.hits.saturating_add(other.hits);
        self.cold = self.cold.saturating_add(other.cold);
        self.replaced = self.replaced.saturating_add(other.replaced);
        self.upgrade = self.upgrade.saturating_add(other.upgrade);
        self.true_sharing = self.true_sharing.saturating_add(other.true_sharing);
        self.false_sharing = self.false_sharing.saturating_add(other.false_sharing);
        self.secondary = self.secondary.saturating_add(other.secondary);
        self.no_register = self.no_register.saturating_add(other.no_register);
        self.no_target = self.no_target.saturating_add(other.no_target);
        self.no_way = self.no_way.saturating_add(other.no_way);
        self.write_back_full = self.write_back_full.saturating_add(other.write_back_full);
        self.write_back_busy = self.write_back_busy.saturating_add(other.write_back_busy);
        self.evictions = self.evictions.saturating_add(other.evictions);
        add_messages(&mut self.messages, &other.messages);
    }
}

fn count_message(messages: &mut MessageCounts, pick: Pick)
    ensures { messages.new ≡ one_more_message (channel_of pick) messages.old }
{
    match pick {
        Pick::Req(_, _) => messages.requests = messages.requests.saturating_add(1),
        Pick::Fwd(_, _) => messages.forwarded = messages.forwarded.saturating_add(1),
        Pick::Data(_, _) => messages.data_replies = messages.data_replies.saturating_add(1),
        Pick::Ack { .. } => {
            messages.acknowledgements = messages.acknowledgements.saturating_add(1);
        }
        Pick::Home(_) => messages.home = messages.home.saturating_add(1),
    }
}

fn add_messages(messages: &mut MessageCounts, other: &MessageCounts)
    ensures { messages.new ≡ sum_of messages.old other.now }
{
    messages.requests = messages.requests.saturating_add(other.requests);
    messages.forwarded = messages.forwarded.saturating_add(other.forwarded);
    messages.data_replies = messages.data_replies.saturating_add(other.data_replies);
    messages.acknowledgements = messages
        .acknowledgements
        .saturating_add(other.acknowledgements);
    messages.home = messages.home.saturating_add(other.home);
}

/// What was counted, of each core and of each line of the machine.
#[derive(Drop)]
pub(crate) struct Tally {
    cores: Vec<Counts>,
    lines: Vec<Counts>,
}

impl Model for Tally {
    ghost use Rattle.program_run.specs.Tally.{TallyView};

    ghost Value = { TallyView };

    ghost view = { λ own. record { cores = own.cores.items; lines = own.lines.items } };
}

impl Tally {
    ghost use Rattle.program_run.specs.Tally.{new_tally, tally_with};

    /// Nothing is counted.
    pub fn new(alloc: Global, config: &Checked) -> Result<Self, AllocError>
        ensures { IfOk result (λ tally. tally ≡ new_tally config.now.cores config.now.lines) }
    {
        Ok(Tally {
            cores: vec![in alloc; Counts::none(); config.cores()]?,
            lines: vec![in alloc; Counts::none(); config.lines()]?,
        })
    }

    /// Returns the counts of each core.
    pub fn cores(&self) -> &[Counts]
        ensures { result.now ≡ self.now.cores }
    {
        self.cores.as_slice()
    }

    /// Returns the counts of each line.
    pub fn lines(&self) -> &[Counts]
        ensures { result.now ≡ self.now.lines }
    {
        self.lines.as_slice()
    }

    /// Counts one more, of its core and of its line.
    pub fn count(&mut self, what: Counted)
        ensures { self.new ≡ tally_with self.old what }
    {
        count_of(&mut self.cores, what.core(), what);
        count_at(&mut self.lines, what.line().0 as usize, what);
    }

    /// Returns the sums over all lines.
    pub fn all(&self) -> Counts
        ensures { result ≡ totals_of self.now.lines }
    {
        total(self.lines.as_slice())
    }
}

fn count_of(cores: &mut Vec<Counts>, core: Option<CoreId>, what: Counted)
    ensures { cores.new.items ≡ counted_of cores.old.items core what }
{
    match core {
        Some(core) => count_at(cores, core.0 as usize, what),
        None => {}
    }
}

fn count_at(all: &mut Vec<Counts>, place: usize, what: Counted)
    ensures { all.new.items ≡ counted_at all.old.items place what }
{
    if place >= all.len() {
        return;
    }
    let counts = &mut all[place];
    counts.count(what);
}

fn total(lines: &[Counts]) -> Counts
    ensures { result ≡ totals_of lines.now }
{
    let mut all = Counts::none();
    for counts in lines {
        all.add(counts);
    }
    all
}
