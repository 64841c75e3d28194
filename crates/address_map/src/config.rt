ghost use Rattle.std.specs.Prelude.{◌≡◌, ◌<◌, ◌↔◌, IfOk, IsTrue, OnOk, Contains};

use super::address::WordAddr;
use super::words::{CounterWords, InitialValues};
use std::alloc::{AllocError, Global};
use std::error::Error;
use std::fmt;
use std::marker::Model;

/// The most cores that a machine may have: a set of them is 64 bits.
pub const MOST_CORES: u64 = 64;

/// The field of a configuration that was refused: the first invalid one, in this order.
#[derive(Clone, Copy, Debug, PartialEq, Eq)]
pub enum ConfigError {
    Cores,
    Slices,
    Lines,
    Sets,
    Ways,
    Mshrs,
    Targets,
    Writebacks,
    Init,
    Counters,
}

impl fmt::Display for ConfigError {
    ghost use Rattle.std.specs.Prelude.{Some};
    ghost use Rattle.address_map.specs.Config.{text_of_error};

    ghost output = { λ error. Some (text_of_error error) };

    fn fmt<W: fmt::Write>(&self, f: &mut fmt::Formatter<W>) -> fmt::Result {
        f.write_str(match self {
            ConfigError::Cores => "1 Cores",
            ConfigError::Slices => "2 Slices",
            ConfigError::Lines => "3 Lines",
            ConfigError::Sets => "4 Sets",
            ConfigError::Ways => "5 Ways",
            ConfigError::Mshrs => "6 Mshrs",
            ConfigError::Targets => "7 Targets",
            ConfigError::Writebacks => "8 Writebacks",
            ConfigError::Init => "9 Init",
            ConfigError::Counters => "10 Counters",
        })
    }
}

impl Error for ConfigError {}

/// Which line of a full set a miss replaces.
#[derive(Clone, Copy, Debug, PartialEq, Eq)]
pub enum PolicyKind {
    /// The one that was used longest ago.
    Lru,
    /// The one that came first.
    Fifo,
    /// One at random, from generators that this seed starts.
    Random(u64),
}

/// The shape of a machine, before it is checked.
#[derive(Debug, Drop)]
pub struct Config {
    /// Cores with a private cache each: 1 to `MOST_CORES`.
    pub cores: u64,
    /// Slices of the last level: 1, 2 or 4.
    pub slices: u64,
    /// Lines of the whole memory: 1 to 65536, and a multiple of the slices.
    pub lines: u64,
    /// Sets of a core's array in each slice: a power of two, 1 to 256.
    pub sets: u64,
    /// Lines of a set: 1 to 16.
    pub ways: u64,
    /// Miss registers (Kroft's MSHRs) of a core in each slice: 1 to 32.
    pub mshrs: u64,
    /// Targets of a miss register, each with its word (Farkas and Jouppi's explicit addressing): 1 to 32.
    pub targets: u64,
    /// Entries of a core's write-back buffer in each slice: 1 to 16.
    pub writebacks: u64,
    /// The replacement policy of all arrays.
    pub policy: PolicyKind,
    /// Whether a core that asks to read a line that no core has is given the only copy (state E). It is always valid.
    pub exclusive: bool,
    /// What memory begins with: words of it, strictly ascending.
    pub init: InitialValues,
    /// The counters: at most 8 words of the memory, strictly ascending.
    pub counters: CounterWords,
}

/// A configuration that was checked. Only `Config::check` makes one, and `try_clone` another of it.
#[derive(Debug, Drop)]
pub struct Checked {
    config: Config,
}

impl Model for Checked {
    ghost use Rattle.address_map.specs.declared.config.Config.{Config};

    ghost Value = { Config };

    ghost use Rattle.address_map.specs.Config.{IsAllowed};

    ghost view = { λ c. c.config };

    ghost invariant = { λ c. IsAllowed c.config };
}

impl Config {
    ghost use Rattle.address_map.specs.Config.{default_config, first_fault, checked_of, IsAllowed};

    /// The machine that a text has where it says nothing else: 2 cores, 1 slice of 16 lines, 4 sets of 2 ways,
    /// 4 miss registers of 4 targets, 2 write-back entries, LRU, no exclusive state, no initial value and no counter.
    pub fn new(alloc: Global) -> Self
        ensures { result ≡ default_config }
    {
        Config {
            cores: 2,
            slices: 1,
            lines: 16,
            sets: 4,
            ways: 2,
            mshrs: 4,
            targets: 4,
            writebacks: 2,
            policy: PolicyKind::Lru,
            exclusive: false,
            init: InitialValues::new(alloc),
            counters: CounterWords::new(alloc),
        }
    }

    /// Allocates nothing. A configuration that is refused is dropped.
    pub fn check(self) -> Result<Checked, ConfigError>
        ensures value { result ≡ checked_of self }
        ensures allowed { OnOk result (IsAllowed self) }
    {
        match self.first_fault() {
            Some(fault) => Err(fault),
            None => Ok(Checked { config: self }),
        }
    }

    fn first_fault(&self) -> Option<ConfigError>
        ensures { result ≡ first_fault self.now }
    {
        if !matches!(self.cores, 1..=MOST_CORES) {
            return Some(ConfigError::Cores);
        }
        if !matches!(self.slices, 1 | 2 | 4) {
            return Some(ConfigError::Slices);
        }
        if !matches!(self.lines, 1..=65536) || self.lines % self.slices != 0 {
            return Some(ConfigError::Lines);
        }
        if !self.sets.is_power_of_two() || self.sets > 256 {
            return Some(ConfigError::Sets);
        }
        if !matches!(self.ways, 1..=16) {
            return Some(ConfigError::Ways);
        }
        if !matches!(self.mshrs, 1..=32) {
            return Some(ConfigError::Mshrs);
        }
        if !matches!(self.targets, 1..=32) {
            return Some(ConfigError::Targets);
        }
        if !matches!(self.writebacks, 1..=16) {
            return Some(ConfigError::Writebacks);
        }
        let words = 8 * self.lines;
        if !self.init.is_ascending() || !self.init.is_below(words) {
            return Some(ConfigError::Init);
        }
        if self.counters.len() > 8
            || !self.counters.is_ascending()
            || !self.counters.is_below(words)
        {
            return Some(ConfigError::Counters);
        }
        None
    }
}

impl Checked {
    ghost use Rattle.address_map.specs.Config.{IsAllowed, slice_lines};
    ghost use Rattle.address_map.specs.Words.{initial_value};

    /// The same configuration, for another machine. It isn't checked again.
    pub fn try_clone(&self, alloc: Global) -> Result<Checked, AllocError>
        ensures { IfOk result (λ copy. copy ≡ self.now) }
    {
        let init = self.config.init.try_clone(alloc)?;
        let counters = self.config.counters.try_clone(alloc)?;
        Ok(Checked {
            config: Config {
                init,
                counters,
                ..self.config
            },
        })
    }

    pub fn cores(&self) -> usize
        ensures cores { result ≡ self.now.cores }
        ensures allowed { IsAllowed self.now }
    {
        self.config.cores as usize
    }

    pub fn slices(&self) -> usize
        ensures slices { result ≡ self.now.slices }
        ensures allowed { IsAllowed self.now }
    {
        self.config.slices as usize
    }

    /// How many lines the whole memory has.
    pub fn lines(&self) -> usize
        ensures lines { result ≡ self.now.lines }
        ensures allowed { IsAllowed self.now }
    {
        self.config.lines as usize
    }

    /// How many lines each slice has.
    pub fn slice_lines(&self) -> usize
        ensures lines { result ≡ slice_lines self.now }
        ensures allowed { IsAllowed self.now }
    {
        (self.config.lines / self.config.slices) as usize
    }

    /// How many sets a core's array has in each slice.
    pub fn sets(&self) -> usize
        ensures sets { result ≡ self.now.sets }
        ensures allowed { IsAllowed self.now }
    {
        self.config.sets as usize
    }

    /// How many lines a set has.
    pub fn ways(&self) -> usize
        ensures ways { result ≡ self.now.ways }
        ensures allowed { IsAllowed self.now }
    {
        self.config.ways as usize
    }

    /// How many miss registers a core has in each slice.
    pub fn mshrs(&self) -> usize
        ensures mshrs { result ≡ self.now.mshrs }
        ensures allowed { IsAllowed self.now }
    {
        self.config.mshrs as usize
    }

    /// How many targets a miss register has.
    pub fn targets(&self) -> usize
        ensures targets { result ≡ self.now.targets }
        ensures allowed { IsAllowed self.now }
    {
        self.config.targets as usize
    }

    /// How many entries the write-back buffer of a core has in each slice.
    pub fn writebacks(&self) -> usize
        ensures writebacks { result ≡ self.now.writebacks }
        ensures allowed { IsAllowed self.now }
    {
        self.config.writebacks as usize
    }

    pub fn policy(&self) -> PolicyKind
        ensures policy { result ≡ self.now.policy }
        ensures allowed { IsAllowed self.now }
    {
        self.config.policy
    }

    /// Whether there is the exclusive state.
    pub fn exclusive(&self) -> bool
        ensures exclusive { result ≡ self.now.exclusive }
        ensures allowed { IsAllowed self.now }
    {
        self.config.exclusive
    }

    /// The words that begin with a value of their own, ascending.
    pub fn init(&self) -> &[(WordAddr, u64)]
        ensures value { result.now ≡ self.now.init }
        ensures allowed { IsAllowed self.now }
    {
        self.config.init.as_slice()
    }

    /// The counters, ascending.
    pub fn counters(&self) -> &[WordAddr]
        ensures value { result.now ≡ self.now.counters }
        ensures allowed { IsAllowed self.now }
    {
        self.config.counters.as_slice()
    }

    /// The value that a word begins with.
    pub fn initial_word(&self, word: WordAddr) -> u64
        ensures { result ≡ initial_value self.now.init word }
    {
        self.config.init.value_of(word)
    }
}

/// Whether a word is a counter.
pub fn is_counter(config: &Checked, word: WordAddr) -> bool
    ensures { IsTrue result ↔ Contains config.now.counters word }
{
    config.counters().contains(&word)
}
