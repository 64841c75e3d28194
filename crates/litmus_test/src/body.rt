ghost use Rattle.std.specs.Prelude.{◌≡◌, ◌==◌, ◌⊎◌, ◌<◌, ◌≤◌, ◌/◌, ◌↔◌, IfErr, IfSome, IsTrue, OnErr, OnOk, length};
ghost use Rattle.std.specs.Prelude.{unwrap_or, vec_len};
ghost use Rattle.std.specs.List.{list_all, list_any, position};
ghost use Rattle.std.specs.Str.{bytes_eq};
ghost use Rattle.litmus_text.specs.Fault.{IsAtLine};
ghost use Rattle.litmus_test.specs.declared.claim.Claim.{Claim};
ghost use Rattle.litmus_test.specs.declared.test.NamedReply.{NamedReply};
ghost use Rattle.litmus_test.specs.declared.test.Thread.{Thread};
ghost use Rattle.litmus_test.specs.Fault.{HasAccessFault, HasCounterFault, HasEvictFault, HasFault, HasForbidFault};
ghost use Rattle.litmus_test.specs.Fault.{HasNameFault, HasStepFault, HasThreadFault, IsPlaceFault};
ghost use Rattle.litmus_test.specs.Reading.{HasNames};
ghost use Rattle.litmus_test.specs.Claim.{claims_of};
ghost use Rattle.litmus_test.specs.Line.{line_of, evict, thread, forbid};
ghost use Rattle.litmus_test.specs.Name.{is_name};
ghost use Rattle.litmus_test.specs.Reading.{IsNoMemoryOr};
ghost use Rattle.litmus_test.specs.Sound.{IsStepOf, reads_value};
ghost use Rattle.litmus_test.specs.Text.{MayFollow, MayBegin, MayStep, MayAccess, MayName, MayOverwrite, MayForbid};
ghost use Rattle.litmus_test.specs.Text.{said_by, said_line, said_step, said_named, last_steps};

use super::claim::Claim;
use super::line::Line;
use super::test::{
    Action, Forbidden, LitmusTest, MOST_NAMES, MOST_STEPS, NamedReply, Pair, Thread,
};
use address_map::{CoreId, LineAddr, Op, WordAddr, is_counter};
use litmus_text::{LineFault, TextFault, core_in, line_in, word_in};
use std::alloc::{AllocError, Global};

impl<'a> LitmusTest<'a> {
    /// Takes one more line, which has this number.
    pub(super) fn take(
        &mut self,
        alloc: Global,
        number: usize,
        line: Line<'a>,
    ) -> Result<(), TextFault>
        requires { HasNames (line_of line) }
        ensures may { OnOk result (MayFollow (said_by self.old) (line_of line.entry)) }
        ensures said { OnOk result (said_by self.new ≡ said_line (said_by self.old) (line_of line.entry)) }
        ensures refused { IfErr result (IsNoMemoryOr (¬ MayFollow (said_by self.old) (line_of line.entry))) }
        ensures line { IfErr result (IsAtLine (λ n. n ≡ number)) }
        ensures fault { IfErr result (IsPlaceFault (said_by self.old) number (line_of line.entry)) }
    {
        if let Err(fault) = self.judge(&line) {
            return Err(fault.at(number));
        }
        self.add(alloc, line)?;
        Ok(())
    }

    /// Whether the line may come next.
    #[tactic(auto, unfolding(crate::specs::Text::MayFollow, crate::specs::Fault::HasFault))]
    fn judge(&self, line: &Line<'_>) -> Result<(), LineFault>
        ensures may { OnOk result (MayFollow (said_by self.now) (line_of line.now)) }
        ensures refused { OnErr result (¬ MayFollow (said_by self.now) (line_of line.now)) }
        ensures fault { IfErr result (HasFault (said_by self.now) (line_of line.now)) }
    {
        match line {
            Line::Thread(core) => self.may_begin(*core),
            Line::Load(word, name) | Line::Add(word, _, name) => self.may_read(*word, name),
            Line::Store(word, _) => self.may_store(*word),
            Line::Cas { word, name, .. } => self.may_swap(*word, name),
            Line::Settle => self.may_step(),
            Line::Evict(line) => self.may_evict(*line),
            Line::Forbid(claims) => self.may_forbid(claims.as_slice()),
        }
    }

    // Checks what loads and adds need.
    fn may_read(&self, word: u64, name: &[u8]) -> Result<(), LineFault>
        ensures may { OnOk result (MayAccess (said_by self.now) word × MayName (said_by self.now) name.now) }
        ensures refused { OnErr result (¬ (MayAccess (said_by self.now) word × MayName (said_by self.now) name.now)) }
        ensures fault { IfErr result (λ fault. HasAccessFault (said_by self.now) word fault
            ⊎ (MayAccess (said_by self.now) word × HasNameFault (said_by self.now) name.now fault)) }
    {
        self.may_access(word)?;
        self.may_name(name)
    }

    // Checks what a store needs.
    fn may_store(&self, word: u64) -> Result<(), LineFault>
        ensures may { OnOk result (MayAccess (said_by self.now) word × MayOverwrite (said_by self.now) word) }
        ensures refused { OnErr result (¬ (MayAccess (said_by self.now) word × MayOverwrite (said_by self.now) word)) }
        ensures fault { IfErr result (λ fault. HasAccessFault (said_by self.now) word fault
            ⊎ (MayAccess (said_by self.now) word × HasCounterFault (said_by self.now) word fault)) }
    {
        self.may_access(word)?;
        self.may_overwrite(word)
    }

    // Checks what a compare-and-swap needs.
    fn may_swap(&self, word: u64, name: &[u8]) -> Result<(), LineFault>
        ensures may { OnOk result (MayAccess (said_by self.now) word × MayName (said_by self.now) name.now
            × MayOverwrite (said_by self.now) word) }
        ensures refused { OnErr result (¬ (MayAccess (said_by self.now) word × MayName (said_by self.now) name.now
            × MayOverwrite (said_by self.now) word)) }
        ensures fault { IfErr result (λ fault. HasAccessFault (said_by self.now) word fault
            ⊎ (MayAccess (said_by self.now) word × HasNameFault (said_by self.now) name.now fault)
            ⊎ (MayAccess (said_by self.now) word × MayName (said_by self.now) name.now
            × HasCounterFault (said_by self.now) word fault)) }
    {
        self.may_access(word)?;
        self.may_name(name)?;
        self.may_overwrite(word)
    }

    #[tactic(auto, unfolding(crate::specs::Text::said_by))]
    fn may_begin(&self, core: u64) -> Result<(), LineFault>
        ensures may { OnOk result (MayBegin (said_by self.now) core) }
        ensures refused { OnErr result (¬ MayBegin (said_by self.now) core) }
        ensures fault { IfErr result (HasThreadFault (said_by self.now) core) }
    {
        if !self.forbidden.is_empty() {
            return Err(LineFault::NotACommand);
        }
        let core = core_in(&self.config, core)?;
        if self.has_thread(core) {
            return Err(LineFault::OutOfRange);
        }
        Ok(())
    }

    fn has_thread(&self, core: CoreId) -> bool
        ensures { result ≡ list_any (λ (thread : Thread). thread.core.0 == core.0) self.now.threads.items }
    {
        self.threads.iter().any(|thread| thread.core.0 == core.0)
    }

    #[tactic(auto, unfolding(crate::specs::Text::said_by))]
    fn may_step(&self) -> Result<(), LineFault>
        ensures may { OnOk result (MayStep (said_by self.now)) }
        ensures refused { OnErr result (¬ MayStep (said_by self.now)) }
        ensures fault { IfErr result (HasStepFault (said_by self.now)) }
    {
        if self.threads.is_empty() || !self.forbidden.is_empty() {
            return Err(LineFault::NotACommand);
        }
        if self.last_steps() < MOST_STEPS {
            Ok(())
        } else {
            Err(LineFault::OutOfRange)
        }
    }

    // Returns the number of steps of the last thread.
    fn last_steps(&self) -> usize
        requires { 1 ≤ vec_len self.now.threads }
        ensures { result ≡ last_steps (said_by self.now).threads }
    {
        self.threads[self.threads.len() - 1].steps.len()
    }

    fn may_access(&self, word: u64) -> Result<(), LineFault>
        ensures may { OnOk result (MayAccess (said_by self.now) word) }
        ensures refused { OnErr result (¬ MayAccess (said_by self.now) word) }
        ensures fault { IfErr result (HasAccessFault (said_by self.now) word) }
    {
        self.may_step()?;
        self.has_word(word)
    }

    #[tactic(auto, unfolding(crate::specs::Text::said_by))]
    fn has_word(&self, word: u64) -> Result<(), LineFault>
        ensures may { OnOk result (word / 8 < (said_by self.now).settings.config.lines) }
        ensures refused { OnErr result (¬ (word / 8 < (said_by self.now).settings.config.lines)) }
        ensures fault { IfErr result (λ fault. fault ≡ LineFault.OutOfRange) }
    {
        word_in(&self.config, word)?;
        Ok(())
    }

    #[tactic(auto, unfolding(crate::specs::Text::MayFollow))]
    fn may_evict(&self, line: u64) -> Result<(), LineFault>
        ensures may { OnOk result (MayFollow (said_by self.now) (evict line)) }
        ensures refused { OnErr result (¬ MayFollow (said_by self.now) (evict line)) }
        ensures fault { IfErr result (HasEvictFault (said_by self.now) line) }
    {
        self.may_step()?;
        self.has_line(line)
    }

    #[tactic(auto, unfolding(crate::specs::Text::said_by))]
    fn has_line(&self, line: u64) -> Result<(), LineFault>
        ensures may { OnOk result (line < (said_by self.now).settings.config.lines) }
        ensures refused { OnErr result (¬ (line < (said_by self.now).settings.config.lines)) }
        ensures fault { IfErr result (λ fault. fault ≡ LineFault.OutOfRange) }
    {
        line_in(&self.config, line)?;
        Ok(())
    }

    fn may_name(&self, name: &[u8]) -> Result<(), LineFault>
        ensures may { OnOk result (MayName (said_by self.now) name.now) }
        ensures refused { OnErr result (¬ MayName (said_by self.now) name.now) }
        ensures fault { IfErr result (HasNameFault (said_by self.now) name.now) }
    {
        if self.knows(name) {
            return Err(LineFault::NameUsedTwice);
        }
        if self.has_all_names() {
            return Err(LineFault::TooManyNames);
        }
        Ok(())
    }

    #[tactic(auto, unfolding(crate::specs::Text::said_by))]
    fn has_all_names(&self) -> bool
        ensures { IsTrue result ↔ (MOST_NAMES ≤ length (said_by self.now).names) }
    {
        self.names.len() >= MOST_NAMES
    }

    // Whether a step has the name.
    fn knows(&self, name: &[u8]) -> bool
        ensures { result ≡ list_any (λ (named : NamedReply). bytes_eq named.name.now name.now) self.now.names.items }
    {
        self.names.iter().any(|reply| reply.name == name)
    }

    #[tactic(auto, unfolding(crate::specs::Text::said_by))]
    fn may_overwrite(&self, word: u64) -> Result<(), LineFault>
        ensures may { OnOk result (MayOverwrite (said_by self.now) word) }
        ensures refused { OnErr result (¬ MayOverwrite (said_by self.now) word) }
        ensures fault { IfErr result (HasCounterFault (said_by self.now) word) }
    {
        if is_counter(&self.config, WordAddr(word)) {
            Err(LineFault::StoreToACounter)
        } else {
            Ok(())
        }
    }

    fn may_forbid(&self, claims: &[Claim<'_>]) -> Result<(), LineFault>
        ensures may { OnOk result (MayForbid (said_by self.now) (claims_of claims.now)) }
        ensures refused { OnErr result (¬ MayForbid (said_by self.now) (claims_of claims.now)) }
        ensures fault { IfErr result (HasForbidFault (said_by self.now) (claims_of claims.now)) }
    {
        if self.knows_all(claims) {
            Ok(())
        } else {
            Err(LineFault::UnknownName)
        }
    }

    fn knows_all(&self, claims: &[Claim<'_>]) -> bool
        ensures { result ≡ list_all (λ (claim : Claim).
            list_any (λ (named : NamedReply). bytes_eq named.name.now claim.name.now) self.now.names.items) claims.now }
    {
        claims.iter().all(|claim| self.knows(claim.name))
    }

    /// Applies the line.
    #[tactic(auto, unfolding(crate::specs::Text::MayFollow))]
    fn add(&mut self, alloc: Global, line: Line<'a>) -> Result<(), AllocError>
        requires may { MayFollow (said_by self.old) (line_of line) }
        requires names { HasNames (line_of line) }
        ensures { OnOk result (said_by self.new ≡ said_line (said_by self.old) (line_of line.entry)) }
    {
        match line {
            Line::Thread(core) => self.push_thread(alloc, core),
            Line::Load(word, name) => {
                self.push_named(Action::Access(WordAddr(word), Op::Load), name)
            }
            Line::Store(word, value) => {
                self.push_step(Action::Access(WordAddr(word), Op::Store(value)))
            }
            Line::Add(word, delta, name) => {
                self.push_named(Action::Access(WordAddr(word), Op::Add(delta)), name)
            }
            Line::Cas {
                word,
                expect,
                new,
                name,
            } => self.push_named(
                Action::Access(WordAddr(word), Op::Cas { expect, new }),
                name,
            ),
            Line::Settle => self.push_step(Action::Settle),
            Line::Evict(line) => self.push_step(Action::Evict(LineAddr(line))),
            Line::Forbid(claims) => self.push_forbidden(alloc, claims.as_slice()),
        }
    }

    #[tactic(auto, unfolding(crate::specs::Text::said_by))]
    fn push_thread(&mut self, alloc: Global, core: u64) -> Result<(), AllocError>
        requires { MayBegin (said_by self.old) core }
        ensures { OnOk result (said_by self.new ≡ said_line (said_by self.old) (thread core)) }
    {
        self.threads.push(Thread {
            core: CoreId(core as u8),
            steps: Vec::new(alloc),
        })?;
        Ok(())
    }

    // Adds a step to the last thread.
    fn push_step(&mut self, action: Action) -> Result<(), AllocError>
        requires may { MayStep (said_by self.old) }
        requires is { IsStepOf self.old.config action }
        ensures ok { OnOk result (said_by self.new ≡ said_step (said_by self.old) action) }
        ensures names { self.new.names ≡ self.old.names }
    {
        let last = self.threads.len() - 1;
        self.threads[last].steps.push(action)?;
        Ok(())
    }

    fn push_named(&mut self, action: Action, name: &'a [u8]) -> Result<(), AllocError>
        requires may { MayStep (said_by self.old) }
        requires is { IsStepOf self.old.config action }
        requires reads { IsTrue (reads_value action) }
        requires fresh { MayName (said_by self.old) name.now }
        requires form { IsTrue (is_name name.now) }
        ensures { OnOk result (said_by self.new ≡ said_named (said_by self.old) action name.now) }
    {
        let thread = self.threads.len() - 1;
        let step = self.last_steps();
        self.push_step(action)?;
        self.names.push(NamedReply { name, thread, step })?;
        Ok(())
    }

    fn push_forbidden(&mut self, alloc: Global, claims: &[Claim<'_>]) -> Result<(), AllocError>
        requires may { MayForbid (said_by self.old) (claims_of claims.now) }
        requires some { 1 ≤ length claims.now }
        requires few { length claims.now ≤ 16 }
        ensures { OnOk result (said_by self.new ≡ said_line (said_by self.old) (forbid (claims_of claims.now))) }
    {
        let mut pairs = Vec::new(alloc);
        for claim in claims {
            let pair = self.pair_of(claim);
            pairs.push(pair)?;
        }
        self.forbidden.push(Forbidden { pairs })?;
        Ok(())
    }

    fn pair_of(&self, claim: &Claim<'_>) -> Pair
        requires { 1 ≤ vec_len self.now.names }
        ensures value { result ≡ record {
          name = unwrap_or (position (λ (named : NamedReply). bytes_eq named.name.now claim.now.name.now) self.now.names.items) 0;
          value = claim.now.value;
        } }
        ensures within { result.name < vec_len self.now.names }
    {
        Pair {
            name: self.place_of(claim.name).unwrap_or(0),
            value: claim.value,
        }
    }

    fn place_of(&self, name: &[u8]) -> Option<usize>
        ensures value { result ≡ position (λ (named : NamedReply). bytes_eq named.name.now name.now)
            self.now.names.items }
        ensures within { IfSome result (λ place. place < vec_len self.now.names) }
    {
        self.names.iter().position(|reply| reply.name == name)
    }
}
