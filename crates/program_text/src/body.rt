ghost use Rattle.std.specs.Prelude.{◌≡◌, ◌≢◌, ℕ, OnOk, None, length};
ghost use Rattle.program_text.specs.Judged.{access_faults, fault_of, first_so};
ghost use Rattle.program_text.specs.Line.{begin, end, limit, line_of, pace as pace_line, repeat as repeat_line, settle};
ghost use Rattle.program_text.specs.Reading.{IsSoundReader, said_by};
ghost use Rattle.program_text.specs.Text.{last_steps, said_access, said_line};

use super::line::Line;
use super::programs::CoreProgram;
use super::range::Range;
use super::reader::{Block, Reader};
use super::repeat::{push_accesses, push_settle, repeat};
use address_map::{CoreId, Op};
use std::alloc::{AllocError, Global};

impl Reader {
    /// Adds what the line with this number says.
    pub(super) fn add(&mut self, alloc: Global, number: usize, line: Line) -> Result<(), AllocError>
        requires counted { IsSoundReader self.old }
        requires may { fault_of (said_by self.old) (line_of line) ≡ None }
        ensures said { OnOk result (said_by self.new ≡ said_line (said_by self.old) number (line_of line)) }
        ensures counted { OnOk result (IsSoundReader self.new) }
    {
        match line {
            Line::Outstanding(most) => {
                self.limit(most);
                Ok(())
            }
            Line::Pace(most) => {
                self.pace(most);
                Ok(())
            }
            Line::Core(core) => self.begin(alloc, core),
            Line::Access(range, op) => self.access(range, op),
            Line::Settle => self.settle(),
            Line::Repeat(times) => {
                self.open_block(number, times);
                Ok(())
            }
            Line::End => self.close_block(),
        }
    }

    #[tactic(auto, unfolding(crate::specs::Reading::said_by))]
    fn limit(&mut self, most: u64)
        requires counted { IsSoundReader self.old }
        ensures said { (number : ℕ) → said_by self.new ≡ said_line (said_by self.old) number (limit most) }
        ensures counted { IsSoundReader self.new }
    {
        self.programs.limits.outstanding = Some(most);
    }

    #[tactic(auto, unfolding(crate::specs::Reading::said_by))]
    fn pace(&mut self, most: u64)
        requires counted { IsSoundReader self.old }
        ensures said { (number : ℕ) → said_by self.new ≡ said_line (said_by self.old) number (pace_line most) }
        ensures counted { IsSoundReader self.new }
    {
        self.programs.limits.pace = Some(most);
    }

    #[tactic(auto, unfolding(crate::specs::Reading::said_by))]
    fn begin(&mut self, alloc: Global, core: u64) -> Result<(), AllocError>
        requires counted { IsSoundReader self.old }
        requires may { fault_of (said_by self.old) (begin core) ≡ None }
        ensures said { OnOk result
            ((number : ℕ) → said_by self.new ≡ said_line (said_by self.old) number (begin core)) }
        ensures counted { OnOk result (IsSoundReader self.new) }
    {
        self.programs.cores.push(CoreProgram {
            core: CoreId(core as u8),
            steps: Vec::new(alloc),
        })?;
        Ok(())
    }

    fn access(&mut self, range: Range, op: Op) -> Result<(), AllocError>
        requires counted { IsSoundReader self.old }
        requires may { first_so (access_faults (said_by self.old) range.first range.last op) ≡ None }
        ensures said { OnOk result (said_by self.new ≡ said_access (said_by self.old) range.first range.last op) }
        ensures counted { OnOk result (IsSoundReader self.new) }
    {
        let last = self.programs.cores.len() - 1;
        push_accesses(&mut self.programs.cores[last].steps, range, op)?;
        self.steps += (range.last - range.first) as usize + 1;
        Ok(())
    }

    fn settle(&mut self) -> Result<(), AllocError>
        requires counted { IsSoundReader self.old }
        requires may { fault_of (said_by self.old) settle ≡ None }
        ensures said { OnOk result
            ((number : ℕ) → said_by self.new ≡ said_line (said_by self.old) number settle) }
        ensures counted { OnOk result (IsSoundReader self.new) }
    {
        let last = self.programs.cores.len() - 1;
        push_settle(&mut self.programs.cores[last].steps)?;
        self.steps += 1;
        Ok(())
    }

    #[tactic(auto, unfolding(crate::specs::Reading::said_by))]
    fn open_block(&mut self, number: usize, times: u64)
        requires counted { IsSoundReader self.old }
        requires may { fault_of (said_by self.old) (repeat_line times) ≡ None }
        ensures said { said_by self.new ≡ said_line (said_by self.old) number (repeat_line times) }
        ensures counted { IsSoundReader self.new }
    {
        let start = self.last_steps();
        self.blocks.push(Block {
            number,
            times,
            start,
        });
    }

    fn close_block(&mut self) -> Result<(), AllocError>
        requires counted { IsSoundReader self.old }
        requires may { fault_of (said_by self.old) end ≡ None }
        ensures said { OnOk result ((number : ℕ) → said_by self.new ≡ said_line (said_by self.old) number end) }
        ensures counted { OnOk result (IsSoundReader self.new) }
    {
        let Some(block) = self.blocks.pop() else {
            return Ok(());
        };
        let before = self.last_steps();
        let last = self.programs.cores.len() - 1;
        repeat(
            &mut self.programs.cores[last].steps,
            block.start,
            block.times,
        )?;
        let after = self.last_steps();
        self.steps = self.steps - before + after;
        Ok(())
    }

    /// How many steps the last program has.
    #[tactic(auto, unfolding(crate::specs::Reading::said_by))]
    pub(super) fn last_steps(&self) -> usize
        ensures { result ≡ last_steps (said_by self.now).programs }
    {
        match self.programs.cores.last() {
            Some(program) => program.steps.len(),
            None => 0,
        }
    }
}
