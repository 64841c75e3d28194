ghost use Rattle.std.specs.Prelude.{◌≡◌, ◌==◌, ◌+◌, ◌&&◌, ◌||◌, false, IfErr, None, OnOk, Some, length, nat_le, nat_lt};
ghost use Rattle.std.specs.Prelude.{not, reverse};
ghost use Rattle.std.specs.List.{list_any};
ghost use Rattle.program_text.specs.declared.programs.CoreProgram.{CoreProgram};
ghost use Rattle.program_text.specs.Fault.{programs_of};
ghost use Rattle.program_text.specs.Judged.{access_faults, count_of, fault_of, first_so, has_counter, has_program};
ghost use Rattle.program_text.specs.Judged.{has_too_many, is_closed, is_early, is_late, lacks_core};
ghost use Rattle.program_text.specs.Judged.{lacks_range, lacks_word};
ghost use Rattle.program_text.specs.Judged.{overwrites as overwrites_word};
ghost use Rattle.program_text.specs.Line.{begin, end, limit, line_of, pace, repeat, settle};
ghost use Rattle.program_text.specs.Reading.{IsSoundReader, said_by};
ghost use Rattle.address_map.specs.declared.request.Op.{Op};
ghost use Rattle.program_text.specs.Text.{after_end, said_access, said_settle};
ghost use Rattle.program_text.specs.declared.programs.TheConstants.{MOST_ACCESSES, MOST_DEPTH, MOST_OUTSTANDING};
ghost use Rattle.program_text.specs.declared.programs.TheConstants.{MOST_PACE};

use super::line::Line;
use super::programs::{MOST_ACCESSES, MOST_DEPTH, MOST_OUTSTANDING, MOST_PACE};
use super::range::Range;
use super::reader::Reader;
use address_map::Op;
use litmus_text::LineFault;

impl Reader {
    /// Whether the line may come next.
    pub(super) fn judge(&self, line: Line) -> Result<(), LineFault>
        requires { IsSoundReader self.now }
        ensures may { OnOk result (fault_of (said_by self.now) (line_of line) ≡ None) }
        ensures fault { IfErr result (λ fault. fault_of (said_by self.now) (line_of line) ≡ Some fault) }
    {
        match line {
            Line::Outstanding(most) => self.may_limit(most),
            Line::Pace(most) => self.may_pace(most),
            Line::Core(core) => self.may_begin(core),
            Line::Access(range, op) => self.may_access(range, op),
            Line::Settle => self.may_settle(),
            Line::Repeat(times) => self.may_repeat(times),
            Line::End => self.may_end(),
        }
    }

    #[tactic(auto, using(crate::proofs::JudgedLemmas::in_order), unfolding(crate::specs::Judged::fault_of))]
    fn may_limit(&self, most: u64) -> Result<(), LineFault>
        ensures may { OnOk result (fault_of (said_by self.now) (limit most) ≡ None) }
        ensures fault { IfErr result (λ fault. fault_of (said_by self.now) (limit most) ≡ Some fault) }
    {
        if self.may_not_limit() {
            return Err(LineFault::LateConfiguration);
        }
        if is_no_limit(most) {
            return Err(LineFault::OutOfRange);
        }
        Ok(())
    }

    #[tactic(auto, using(crate::proofs::JudgedLemmas::in_order), unfolding(crate::specs::Judged::fault_of))]
    fn may_pace(&self, most: u64) -> Result<(), LineFault>
        ensures may { OnOk result (fault_of (said_by self.now) (pace most) ≡ None) }
        ensures fault { IfErr result (λ fault. fault_of (said_by self.now) (pace most) ≡ Some fault) }
    {
        if self.may_not_pace() {
            return Err(LineFault::LateConfiguration);
        }
        if is_no_pace(most) {
            return Err(LineFault::OutOfRange);
        }
        Ok(())
    }

    #[tactic(auto, using(crate::proofs::JudgedLemmas::in_order), unfolding(crate::specs::Judged::fault_of))]
    fn may_begin(&self, core: u64) -> Result<(), LineFault>
        ensures may { OnOk result (fault_of (said_by self.now) (begin core) ≡ None) }
        ensures fault { IfErr result (λ fault. fault_of (said_by self.now) (begin core) ≡ Some fault) }
    {
        if !self.is_closed() {
            return Err(LineFault::NotACommand);
        }
        if self.may_not_run(core) {
            return Err(LineFault::OutOfRange);
        }
        Ok(())
    }

    #[tactic(auto, using(crate::proofs::JudgedLemmas::in_order))]
    fn may_access(&self, range: Range, op: Op) -> Result<(), LineFault>
        requires { IsSoundReader self.now }
        ensures may { OnOk result (first_so (access_faults (said_by self.now) range.first range.last op) ≡ None) }
        ensures fault { IfErr result
            (λ fault. first_so (access_faults (said_by self.now) range.first range.last op) ≡ Some fault) }
    {
        if self.is_early() {
            return Err(LineFault::NotACommand);
        }
        if self.lacks_range(range) {
            return Err(LineFault::OutOfRange);
        }
        if self.spreads_too_far(range) {
            return Err(LineFault::OutOfRange);
        }
        if self.overwrites_counter(range, op) {
            return Err(LineFault::StoreToACounter);
        }
        Ok(())
    }

    #[tactic(auto, using(crate::proofs::JudgedLemmas::in_order), unfolding(crate::specs::Judged::fault_of))]
    fn may_settle(&self) -> Result<(), LineFault>
        requires { IsSoundReader self.now }
        ensures may { OnOk result (fault_of (said_by self.now) settle ≡ None) }
        ensures fault { IfErr result (λ fault. fault_of (said_by self.now) settle ≡ Some fault) }
    {
        if self.is_early() {
            return Err(LineFault::NotACommand);
        }
        if self.is_full() {
            return Err(LineFault::OutOfRange);
        }
        Ok(())
    }

    #[tactic(auto, using(crate::proofs::JudgedLemmas::in_order), unfolding(crate::specs::Judged::fault_of))]
    fn may_repeat(&self, times: u64) -> Result<(), LineFault>
        ensures may { OnOk result (fault_of (said_by self.now) (repeat times) ≡ None) }
        ensures fault { IfErr result (λ fault. fault_of (said_by self.now) (repeat times) ≡ Some fault) }
    {
        if self.is_early() {
            return Err(LineFault::NotACommand);
        }
        if self.is_deep() {
            return Err(LineFault::OutOfRange);
        }
        Ok(())
    }

    #[tactic(auto, using(crate::proofs::JudgedLemmas::in_order), unfolding(crate::specs::Judged::fault_of))]
    fn may_end(&self) -> Result<(), LineFault>
        requires { IsSoundReader self.now }
        ensures may { OnOk result (fault_of (said_by self.now) end ≡ None) }
        ensures fault { IfErr result (λ fault. fault_of (said_by self.now) end ≡ Some fault) }
    {
        if self.is_closed() {
            return Err(LineFault::NotACommand);
        }
        if self.repeats_too_often() {
            return Err(LineFault::OutOfRange);
        }
        Ok(())
    }

    // Whether it is too late to set how many accesses of a core may be under way.
    #[tactic(auto, unfolding(crate::specs::Reading::said_by))]
    fn may_not_limit(&self) -> bool
        ensures { result ≡ is_late (said_by self.now) (said_by self.now).limits.outstanding }
    {
        !(self.is_early() && !self.programs.limits.is_limited())
    }

    // .. how many deliveries each slice makes.
    #[tactic(auto, unfolding(crate::specs::Reading::said_by))]
    fn may_not_pace(&self) -> bool
        ensures { result ≡ is_late (said_by self.now) (said_by self.now).limits.pace }
    {
        !(self.is_early() && !self.programs.limits.is_paced())
    }

    // Whether no program was begun.
    #[tactic(auto, unfolding(crate::specs::Reading::said_by))]
    fn is_early(&self) -> bool
        ensures { result ≡ is_early (said_by self.now) }
    {
        self.programs.cores.is_empty()
    }

    // Whether no block is open.
    #[tactic(auto, unfolding(crate::specs::Reading::said_by))]
    fn is_closed(&self) -> bool
        ensures { result ≡ is_closed (said_by self.now) }
    {
        self.blocks.is_empty()
    }

    // Whether no further block may be opened.
    #[tactic(auto, unfolding(crate::specs::Reading::said_by))]
    fn is_deep(&self) -> bool
        ensures { result ≡ nat_le MOST_DEPTH (length (said_by self.now).blocks) }
    {
        self.blocks.len() >= MOST_DEPTH
    }

    // Whether the machine lacks the core, or it has a program.
    #[tactic(auto, unfolding(crate::specs::Reading::said_by))]
    fn may_not_run(&self, core: u64) -> bool
        ensures { result ≡ (lacks_core (said_by self.now).settings.config core
            || has_program core (said_by self.now).programs) }
    {
        self.lacks_core(core) || self.has_program(core)
    }

    fn lacks_core(&self, core: u64) -> bool
        ensures { result ≡ lacks_core self.now.programs.config core }
    {
        core >= self.programs.config.cores() as u64
    }

    fn has_program(&self, core: u64) -> bool
        ensures { result ≡ list_any (λ (program : CoreProgram). program.core.0 == core) self.now.programs.cores.items }
    {
        self.programs
            .cores
            .iter()
            .any(|program| program.core.0 as u64 == core)
    }

    // Whether the machine lacks the first word or the last, or the last is below the first.
    #[tactic(auto, unfolding(crate::specs::Reading::said_by))]
    fn lacks_range(&self, range: Range) -> bool
        ensures { result ≡ lacks_range (said_by self.now).settings.config range.first range.last }
    {
        self.lacks_word(range.first) || self.lacks_word(range.last) || range.last < range.first
    }

    fn lacks_word(&self, word: u64) -> bool
        ensures { result ≡ lacks_word self.now.programs.config word }
    {
        word / 8 >= self.programs.config.lines() as u64
    }

    // Whether a counter refuses the access.
    #[tactic(auto, unfolding(crate::specs::Reading::said_by))]
    fn overwrites_counter(&self, range: Range, op: Op) -> bool
        ensures { result ≡ (overwrites_word op
            && has_counter (said_by self.now).settings.config range.first range.last) }
    {
        overwrites(op) && self.has_counter(range.first, range.last)
    }

    fn has_counter(&self, first: u64, last: u64) -> bool
        ensures { result ≡ has_counter self.now.programs.config first last }
    {
        self.programs
            .config
            .counters()
            .iter()
            .any(|counter| first <= counter.0 && counter.0 <= last)
    }

    // Whether steps to the range are too many.
    fn spreads_too_far(&self, range: Range) -> bool
        requires counted { IsSoundReader self.now }
        requires begun { is_early (said_by self.now) ≡ false }
        requires range { lacks_range (said_by self.now).settings.config range.first range.last ≡ false }
        ensures { (op : Op) → result ≡ has_too_many (said_access (said_by self.now) range.first range.last op) }
    {
        self.has_too_many(range.last - range.first + 1)
    }

    // Whether a step that waits is one too many.
    fn is_full(&self) -> bool
        requires counted { IsSoundReader self.now }
        requires begun { is_early (said_by self.now) ≡ false }
        ensures { result ≡ has_too_many (said_settle (said_by self.now)) }
    {
        self.has_too_many(1)
    }

    // Whether the innermost block makes too many steps where it ends.
    fn repeats_too_often(&self) -> bool
        requires { IsSoundReader self.now }
        ensures { result ≡ has_too_many (after_end (said_by self.now).blocks (said_by self.now)) }
    {
        let blocks = self.blocks.as_slice();
        let Some(block) = blocks.last() else {
            return false;
        };
        let body = self.last_steps().saturating_sub(block.start);
        let rounds = block.times.saturating_sub(1);
        let more = (body as u64).saturating_mul(rounds);
        self.has_too_many(more)
    }

    // Whether `more` further steps are too many.
    fn has_too_many(&self, more: u64) -> bool
        requires { IsSoundReader self.now }
        ensures { result ≡ nat_lt MOST_ACCESSES (count_of (reverse (programs_of self.now.programs)) + more) }
    {
        (self.steps as u64).saturating_add(more) > MOST_ACCESSES as u64
    }
}

// Whether `most` deliveries are too many.
fn is_no_pace(most: u64) -> bool
    ensures { result ≡ nat_lt MOST_PACE most }
{
    most > MOST_PACE
}

// Whether `most` accesses can't be under way.
fn is_no_limit(most: u64) -> bool
    ensures { result ≡ (most == 0 || nat_lt MOST_OUTSTANDING most) }
{
    most == 0 || most > MOST_OUTSTANDING
}

// Whether an access overwrites a word.
fn overwrites(op: Op) -> bool
    ensures { result ≡ overwrites_word op }
{
    match op {
        Op::Store(_) | Op::Cas { .. } => true,
        Op::Load | Op::Add(_) => false,
    }
}
