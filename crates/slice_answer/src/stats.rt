ghost use Rattle.std.specs.Prelude.{◌≡◌, ◌<◌, length, IfOk};

use super::answer::Stall;
use address_map::CoreId;
use slice_queues::Channel;
use std::alloc::{AllocError, Global};
use std::boxed::BoxedSlice;
use std::marker::Model;

/// What became of one core's requests.
#[derive(Clone, Copy, Debug, PartialEq, Eq)]
pub struct CoreStats {
    pub hits: u64,
    /// Misses that opened a miss register.
    pub primary: u64,
    /// Misses that joined one.
    pub secondary: u64,
    /// Requests that had to wait, for each stall in the order of their numbers.
    pub stalls: [u64; 5],
    /// Lines that left, victims too.
    pub evictions: u64,
    /// Those of the hits that changed an exclusive copy to a modified one.
    pub silent: u64,
}

/// A core that has done nothing.
impl Default for CoreStats {
    ghost use Rattle.std.specs.Prelude.{◌≡◌};
    ghost use Rattle.slice_answer.specs.Stats.{no_counts};

    ghost is_default = { λ counts. counts ≡ no_counts };

    fn default() -> Self {
        let stalls = [0; 5];
        CoreStats {
            hits: 0,
            primary: 0,
            secondary: 0,
            stalls,
            evictions: 0,
            silent: 0,
        }
    }
}

/// How many messages were taken, by the kind of the channel.
#[derive(Clone, Copy, Debug, Default, PartialEq, Eq)]
pub struct MessageCounts {
    pub requests: u64,
    pub forwarded: u64,
    pub data_replies: u64,
    pub acknowledgements: u64,
    pub home: u64,
}

/// What a slice has counted.
#[derive(Debug, Drop)]
pub struct Stats {
    cores: BoxedSlice<CoreStats>,
    messages: MessageCounts,
    exclusive: bool,
}

impl Model for Stats {
    ghost use Rattle.std.specs.Box.{boxed_slice_items};
    ghost use Rattle.slice_answer.specs.Stats.{StatsView};

    ghost Value = { StatsView };

    ghost view = { λ own. record {
      cores = boxed_slice_items own.cores;
      messages = own.messages;
      exclusive = own.exclusive;
    } };
}

impl Stats {
    ghost use Rattle.slice_answer.specs.Stats.{
      no_stats,
      after_hit,
      after_primary,
      after_secondary,
      after_stall,
      after_eviction,
      after_message,
    };

    /// Returns the counts of a slice that has done nothing, with `cores` cores, of a machine with the exclusive state
    /// or without it.
    pub fn new(alloc: Global, cores: usize, exclusive: bool) -> Result<Self, AllocError>
        ensures { IfOk result (λ stats. stats ≡ no_stats cores exclusive) }
    {
        let cores = vec![in alloc; CoreStats::default(); cores]?;
        Ok(Stats {
            cores: cores.into_boxed_slice(),
            messages: MessageCounts::default(),
            exclusive,
        })
    }

    /// The same counts, in memory of their own.
    pub fn try_clone(&self, alloc: Global) -> Result<Self, AllocError>
        ensures { IfOk result (λ copy. copy ≡ self.now) }
    {
        let cores = Vec::from_slice(alloc, self.cores.as_slice())?;
        Ok(Stats {
            cores: cores.into_boxed_slice(),
            messages: self.messages,
            exclusive: self.exclusive,
        })
    }

    /// The counts of each core.
    pub fn cores(&self) -> &[CoreStats]
        ensures { result.now ≡ self.now.cores }
    {
        self.cores.as_slice()
    }

    pub fn messages(&self) -> &MessageCounts
        ensures { result.now ≡ self.now.messages }
    {
        &self.messages
    }

    /// Whether the machine has the exclusive state.
    pub fn exclusive(&self) -> bool
        ensures { result ≡ self.now.exclusive }
    {
        self.exclusive
    }

    /// Counts a hit; `silent` says whether it changed an exclusive copy to a modified one.
    pub fn count_hit(&mut self, core: CoreId, silent: bool)
        requires { core.0 < length self.old.cores }
        ensures { self.new ≡ after_hit self.old core silent }
    {
        let counts = &mut self.cores[core.0 as usize];
        counts.hits = counts.hits.saturating_add(1);
        if silent {
            counts.silent = counts.silent.saturating_add(1);
        }
    }

    /// Counts a miss that opened a register.
    pub fn count_primary(&mut self, core: CoreId)
        requires { core.0 < length self.old.cores }
        ensures { self.new ≡ after_primary self.old core }
    {
        let counts = &mut self.cores[core.0 as usize];
        counts.primary = counts.primary.saturating_add(1);
    }

    /// Counts a miss that joined a register.
    pub fn count_secondary(&mut self, core: CoreId)
        requires { core.0 < length self.old.cores }
        ensures { self.new ≡ after_secondary self.old core }
    {
        let counts = &mut self.cores[core.0 as usize];
        counts.secondary = counts.secondary.saturating_add(1);
    }

    /// Counts a request that had to wait.
    pub fn count_stall(&mut self, core: CoreId, stall: Stall)
        requires { core.0 < length self.old.cores }
        ensures { self.new ≡ after_stall self.old core stall }
    {
        let counts = &mut self.cores[core.0 as usize];
        let count = &mut counts.stalls[stall as usize];
        *count = count.saturating_add(1);
    }

    /// Counts a line that left.
    pub fn count_eviction(&mut self, core: CoreId)
        requires { core.0 < length self.old.cores }
        ensures { self.new ≡ after_eviction self.old core }
    {
        let counts = &mut self.cores[core.0 as usize];
        counts.evictions = counts.evictions.saturating_add(1);
    }

    /// Counts a message that was taken from this channel.
    pub fn count_message(&mut self, channel: Channel)
        ensures { self.new ≡ after_message self.old channel }
    {
        let messages = &mut self.messages;
        match channel {
            Channel::Req(_) => messages.requests = messages.requests.saturating_add(1),
            Channel::Fwd(_) => messages.forwarded = messages.forwarded.saturating_add(1),
            Channel::Data(_) => messages.data_replies = messages.data_replies.saturating_add(1),
            Channel::Ack { .. } => {
                messages.acknowledgements = messages.acknowledgements.saturating_add(1);
            }
            Channel::Home => messages.home = messages.home.saturating_add(1),
        }
    }
}
