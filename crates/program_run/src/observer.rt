ghost use Rattle.std.specs.Prelude.{◌≡◌, IfOk};
ghost use Rattle.address_map.specs.declared.config.Config.{Config};
ghost use Rattle.program_run.specs.History.{
  History,
  HasSeen,
  after_eviction,
  after_hit,
  after_loss,
  after_message,
  after_miss,
  after_performing,
  after_stalling,
  after_taking,
  after_waiting,
  after_write,
  after_count,
  has_line,
  no_history,
  after_event,
  takes_away,
  writes,
};

use super::cause::Event;
use super::memory::Memory;
use super::tally::{Counted, Tally};
use address_map::{Checked, CoreId, LineAddr, Op, WordAddr};
use slice_answer::Stall;
use slice_core::{Entry, ForwardedMessage, Message, Pick};
use std::alloc::{AllocError, Global};

/// Sees what happens in a run: notes what becomes of the cores' copies of lines, and counts.
#[derive(Drop)]
pub(crate) struct Observer {
    memory: Memory,
    pub tally: Tally,
}

impl Observer {
    /// Nothing happened yet.
    pub fn new(alloc: Global, config: &Checked) -> Result<Self, AllocError>
        ensures { IfOk result (HasSeen config.now no_history) }
    {
        Ok(Observer {
            memory: Memory::new(alloc, config.lines())?,
            tally: Tally::new(alloc, config)?,
        })
    }

    /// An access was done at once.
    pub fn hit(&mut self, core: CoreId, word: WordAddr, op: Op, reply: u64)
        ensures { (config : Config) (history : History) → HasSeen config history self.old
            → HasSeen config (after_hit config.lines core word op reply history) self.new }
    {
        self.count(Counted::Hit(core, word.line()));
        self.write(core, word, op, reply);
    }

    /// An access has to be asked again.
    pub fn stall(&mut self, core: CoreId, word: WordAddr, stall: Stall)
        ensures { (config : Config) (history : History) → HasSeen config history self.old
            → HasSeen config (after_stalling core word stall history) self.new }
    {
        self.count(Counted::Stall(core, word.line(), stall));
    }

    /// A line was evicted to make room.
    pub fn evict(&mut self, core: CoreId, line: LineAddr)
        ensures { (config : Config) (history : History) → HasSeen config history self.old
            → HasSeen config (after_eviction config.lines core line history) self.new }
    {
        self.count(Counted::Eviction(core, line));
        self.note(Event::GaveUp(core, line));
    }

    /// The message that was in front at the pick was delivered.
    pub fn deliver(&mut self, pick: Pick, front: Option<Message>)
        ensures { (config : Config) (history : History) → HasSeen config history self.old
            → HasSeen config (after_message config.lines pick front history) self.new }
    {
        self.count(Counted::Message(pick));
        self.take_away(pick, front);
    }

    // A core that takes this message may lose its copy to the requester.
    fn take_away(&mut self, pick: Pick, front: Option<Message>)
        ensures { (config : Config) (history : History) → HasSeen config history self.old
            → HasSeen config (after_taking config.lines pick front history) self.new }
    {
        match pick {
            Pick::Fwd(line, core) if takes_away(front) => self.lose(core, line),
            Pick::Req(_, _)
            | Pick::Fwd(_, _)
            | Pick::Data(_, _)
            | Pick::Ack { .. }
            | Pick::Home(_) => {}
        }
    }

    fn lose(&mut self, core: CoreId, line: LineAddr)
        ensures { (config : Config) (history : History) → HasSeen config history self.old
            → HasSeen config (after_loss config.lines core line history) self.new }
    {
        if !self.has_line(core, line) {
            return;
        }
        self.note(Event::Lost(core, line));
    }

    /// An access that waited is performed, as the first of its delivery or after others.
    pub fn perform(&mut self, entry: Entry, is_first: bool)
        ensures { (config : Config) (history : History) → HasSeen config history self.old
            → HasSeen config (after_performing config.lines is_first entry history) self.new }
    {
        let Entry {
            core,
            word,
            op,
            reply,
            ..
        } = entry;
        self.wait(core, word, is_first);
        self.note(Event::Took(core, word.line()));
        self.write(core, word, op, reply);
    }

    // What was waited for is counted as a miss, or as a secondary one after the first of its delivery.
    fn wait(&mut self, core: CoreId, word: WordAddr, is_first: bool)
        ensures { (config : Config) (history : History) → HasSeen config history self.old
            → HasSeen config (after_waiting config.lines is_first core word history) self.new }
    {
        if is_first {
            self.miss(core, word);
        } else {
            self.count(Counted::Secondary(core, word.line()));
        }
    }

    fn miss(&mut self, core: CoreId, word: WordAddr)
        ensures { (config : Config) (history : History) → HasSeen config history self.old
            → HasSeen config (after_miss config.lines core word history) self.new }
    {
        match self.memory.cause(core, word) {
            Some(cause) => self.count(Counted::Miss(core, word.line(), cause)),
            None => {}
        }
    }

    fn write(&mut self, core: CoreId, word: WordAddr, op: Op, reply: u64)
        ensures { (config : Config) (history : History) → HasSeen config history self.old
            → HasSeen config (after_write config.lines core word op reply history) self.new }
    {
        if !writes(op, reply) {
            return;
        }
        self.note(Event::Wrote(core, word));
    }

    fn count(&mut self, what: Counted)
        ensures { (config : Config) (history : History) → HasSeen config history self.old
            → HasSeen config (after_count what history) self.new }
    {
        self.tally.count(what);
    }

    fn note(&mut self, event: Event)
        ensures { (config : Config) (history : History) → HasSeen config history self.old
            → HasSeen config (after_event config.lines event history) self.new }
    {
        self.memory.note(event);
    }

    /// Whether the core has the line: it took it last.
    pub fn has_line(&self, core: CoreId, line: LineAddr) -> bool
        ensures { (config : Config) (history : History) → HasSeen config history self.now
            → result ≡ has_line config.lines core line history }
    {
        self.memory.holds(core, line)
    }
}

// Whether an access with this reply wrote its word.
fn writes(op: Op, reply: u64) -> bool
    ensures { result ≡ writes op reply }
{
    match op {
        Op::Load => false,
        Op::Store(_) | Op::Add(_) => true,
        Op::Cas { expect, .. } => reply == expect,
    }
}

// Whether the message takes a copy away, for a core that writes.
fn takes_away(message: Option<Message>) -> bool
    ensures { result ≡ takes_away message }
{
    matches!(
        message,
        Some(Message::Forwarded(ForwardedMessage::Inv(_) | ForwardedMessage::FwdGetM(_)))
    )
}
