ghost use Rattle.std.specs.Prelude.{◌≡◌, ℕ, true, false, not, ◌<◌, ◌≤◌, ◌+◌, ◌*◌, ◌/◌, ◌==◌, ◌&&◌, List, [], ◌∷◌};
ghost use Rattle.std.specs.Prelude.{IfOk, IfSome, IsSome, IsTrue, ◌↔◌, vec_len, if◌then◌else◌};
ghost use Rattle.program_run.specs.Cause.{cause_by, cause_of, fate_of};
ghost use Rattle.program_run.specs.declared.cause.Event.{Event};
ghost use Rattle.program_run.specs.declared.cause.Fate.TheVariants as fates;

use super::cause::{Cause, Event, Fate};
use address_map::{CoreId, CoreSet, LineAddr, WordAddr};
use std::alloc::{AllocError, Global};

/// What must be known of the events to determine the cause of each miss that may come, for 64 cores.
#[derive(Drop)]
pub struct Memory {
    lines: usize,
    /// For each line, what last became of each core's copy.
    fates: Vec<Fate>,
    /// For each word, the cores for which it was written: by another core, since they lost the line.
    written: Vec<CoreSet>,
    ghost few: { lines ≤ 65536 },
    ghost each_line: { vec_len fates ≡ lines * 64 },
    ghost each_word: { vec_len written ≡ lines * 8 },
}

impl Memory {
    ghost use Rattle.program_run.specs.Memory.{HasPlace, Recalls, fate_in, written_in};

    /// Nothing has happened to `lines` lines.
    #[tactic(auto, using(crate::proofs::WordSets::word_sets))]
    pub fn new(alloc: Global, lines: usize) -> Result<Self, AllocError>
        requires { lines ≤ 65536 }
        ensures lines { IfOk result (λ memory. memory.lines ≡ lines) }
        ensures recalls { IfOk result (Recalls []) }
    {
        Ok(Memory {
            lines,
            fates: vec![in alloc; Fate::Never; lines * 64]?,
            written: vec![in alloc; CoreSet::none(); lines * 8]?,
        })
    }

    /// Records an event, if there is a place for its core and its line.
    pub fn note(&mut self, event: Event)
        ensures lines { self.new.lines ≡ self.old.lines }
        ensures recalls { HasPlace self.old.lines event → (before : List Event) → Recalls before self.old
            → Recalls (event ∷ before) self.new }
        ensures nothing { ¬ HasPlace self.old.lines event → self.new ≡ self.old }
    {
        if self.has_place(event) {
            self.keep(event);
        }
    }

    fn has_place(&self, event: Event) -> bool
        ensures { IsTrue result ↔ HasPlace self.now.lines event }
    {
        match event {
            Event::Took(core, line) | Event::GaveUp(core, line) | Event::Lost(core, line) => {
                self.has_line(core, line)
            }
            Event::Wrote(core, word) => self.has_word(core, word),
        }
    }

    fn has_line(&self, core: CoreId, line: LineAddr) -> bool
        ensures { IsTrue result ↔ ((core.0 < 64) × (line.0 < self.now.lines)) }
    {
        core.0 < 64 && line.0 < self.lines as u64
    }

    fn has_word(&self, core: CoreId, word: WordAddr) -> bool
        ensures { IsTrue result ↔ ((core.0 < 64) × (word.0 < self.now.lines * 8)) }
    {
        core.0 < 64 && word.0 < self.lines as u64 * 8
    }

    fn keep(&mut self, event: Event)
        requires { HasPlace self.old.lines event }
        ensures lines { self.new.lines ≡ self.old.lines }
        ensures recalls { (before : List Event) → Recalls before self.old → Recalls (event ∷ before) self.new }
    {
        match event {
            Event::Took(core, line) => self.set_fate(core, line, Fate::Held),
            Event::GaveUp(core, line) => self.set_fate(core, line, Fate::Replaced),
            Event::Lost(core, line) => {
                self.set_fate(core, line, Fate::Lost);
                self.forget_writes(core, line);
            }
            Event::Wrote(core, word) => self.write(core, word),
        }
    }

    fn set_fate(&mut self, core: CoreId, line: LineAddr, fate: Fate)
        requires core { core.0 < 64 }
        requires line { line.0 < self.old.lines }
        ensures lines { self.new.lines ≡ self.old.lines }
        ensures written { self.new.written ≡ self.old.written }
        ensures fates { (c l : ℕ) → c < 64 → fate_in self.new c l
            ≡ (if core.0 == c && line.0 == l then fate else fate_in self.old c l) }
    {
        let place = line.0 as usize * 64 + core.0 as usize;
        self.fates[place] = fate;
    }

    // The core lost the line: no write of its words came since.
    #[tactic(auto, using(crate::proofs::WordSets::word_sets))]
    fn forget_writes(&mut self, core: CoreId, line: LineAddr)
        requires line { line.0 < self.old.lines }
        ensures lines { self.new.lines ≡ self.old.lines }
        ensures fates { self.new.fates ≡ self.old.fates }
        ensures written { (c w : ℕ) → c < 64 → written_in self.new c w
            ≡ (if core.0 == c && line.0 == w / 8 then false else written_in self.old c w) }
    {
        for offset in 0..8 {
            self.written[line.0 as usize * 8 + offset].remove(core);
        }
    }

    // All cores but this one see the word written by another, and this one sees what it saw.
    #[tactic(auto, using(crate::proofs::WordSets::word_sets))]
    fn write(&mut self, core: CoreId, word: WordAddr)
        requires word { word.0 < self.old.lines * 8 }
        ensures lines { self.new.lines ≡ self.old.lines }
        ensures fates { self.new.fates ≡ self.old.fates }
        ensures written { (c w : ℕ) → c < 64 → written_in self.new c w
            ≡ (if not (core.0 == c) && word.0 == w then true else written_in self.old c w) }
    {
        let all = CoreSet::from_bits(u64::MAX);
        let others = all.without(core);
        let set = &mut self.written[word.0 as usize];
        *set = if set.has(core) { all } else { others };
    }

    fn fate(&self, core: CoreId, line: LineAddr) -> Fate
        requires core { core.0 < 64 }
        requires line { line.0 < self.now.lines }
        ensures { result ≡ fate_in self.now core.0 line.0 }
    {
        self.fates[line.0 as usize * 64 + core.0 as usize]
    }

    fn is_written(&self, core: CoreId, word: WordAddr) -> bool
        requires word { word.0 < self.now.lines * 8 }
        ensures { result ≡ written_in self.now core.0 word.0 }
    {
        self.written[word.0 as usize].has(core)
    }

    /// Whether the core has the line: it took it last.
    pub fn holds(&self, core: CoreId, line: LineAddr) -> bool
        ensures held { core.0 < 64 → line.0 < self.now.lines → (before : List Event) → Recalls before self.now
            → IsTrue result ↔ fate_of core.0 line.0 before ≡ fates.Held }
        ensures place { IsTrue result → (core.0 < 64) × (line.0 < self.now.lines) }
    {
        self.has_line(core, line) && self.fate(core, line) == Fate::Held
    }

    /// Returns why an access of the core to the word misses now: `None` if there is no place for them.
    pub fn cause(&self, core: CoreId, word: WordAddr) -> Option<Cause>
        ensures place { IsSome result ↔ ((core.0 < 64) × (word.0 < self.now.lines * 8)) }
        ensures cause { IfSome result (λ cause. (before : List Event) → Recalls before self.now
            → cause ≡ cause_of core.0 word.0 before) }
    {
        if self.has_word(core, word) {
            Some(cause_by(self.fate(core, word.line()), self.is_written(core, word)))
        } else {
            None
        }
    }
}

fn cause_by(fate: Fate, is_written: bool) -> Cause
    ensures { result ≡ cause_by fate is_written }
{
    match fate {
        Fate::Never => Cause::Cold,
        Fate::Held => Cause::Upgrade,
        Fate::Replaced => Cause::Replaced,
        Fate::Lost if is_written => Cause::TrueSharing,
        Fate::Lost => Cause::FalseSharing,
    }
}
