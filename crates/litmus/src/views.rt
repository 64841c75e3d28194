//! Views of schedules: a schedule is printed as a script, and that is shown in another form.
ghost use Rattle.std.specs.Prelude.{◌≡◌, ◌⊎◌, ◌-◌, ◌^◌, ℕ, IfErr, IfOk, unwrap_or};
ghost use Rattle.litmus.specs.Tests.{IsOfTest, IsTestNotRun};
ghost use Rattle.litmus.specs.Views.{HasPage, HasPageFault, HasView, HasViewFault};
ghost use Rattle.litmus.specs.Views.{IsViewCut, IsViewOfPrinted};
ghost use Rattle.mshr_file.specs.Miss.{bound_of};
ghost use Rattle.litmus_walk.specs.Script.{PrintsWalk};
ghost use Rattle.program_run.specs.Run.{IsProgramNotRun, PrintsSchedule, limited_to};
ghost use Rattle.program_text.specs.Fault.{IsProgramText, programs_of, settings_of};
ghost use Rattle.program_text.specs.declared.programs.Programs.{Programs};

use super::coverage::cover_script;
use super::tests::write_walk;
use super::traces::traces_of;
use litmus_text::TextFault;
use program_run::write_schedule;
use program_text::Limits;
use script_page::run_page;
use std::alloc::Global;
use std::io::Write;

/// What the script of a schedule is shown as.
#[derive(Clone, Copy, Debug, PartialEq, Eq)]
pub enum View {
    /// Its page, for a browser.
    Page,
    /// The log of each slice once it was played, as traces.
    Traces,
    /// How often its steps met each cell of the tables.
    Coverage,
}

/// Writes this view of the script that [`write_walk`] prints, after the lines of `head`. Returns the
/// exit status, which is 1 if the round is stuck or was given up.
pub fn view_walk<W: Write>(
    alloc: Global,
    view: View,
    head: Vec<u8>,
    input: &[u8],
    seed: u64,
    limit: Option<u64>,
    out: &mut W,
) -> Result<u8, TextFault>
    ensures done { IfOk result (λ status. IsOfTest input.now (λ test. IsViewOfPrinted view head.items
        (PrintsWalk test (bound_of test.misses test.config) seed (unwrap_or limit (2 ^ 64 - 1)) status)
        (W.contents out.old) (W.contents out.new))) }
    ensures fault { IfErr result (λ fault. IsTestNotRun input.now fault
        ⊎ ((status : ℕ) × IsOfTest input.now (λ test. IsViewCut view head.items
        (PrintsWalk test (bound_of test.misses test.config) seed (unwrap_or limit (2 ^ 64 - 1)) status) fault))) }
{
    let mut script = head;
    match write_walk(alloc, input, seed, limit, &mut script) {
        Ok(status) => write_view(alloc, view, script.as_slice(), status, out),
        // writing to memory fails only if it runs out
        Err(TextFault::CannotWrite) => Err(TextFault::NoMemory),
        Err(fault) => Err(fault),
    }
}

/// Writes this view of the script that [`write_schedule`] prints, after the lines of `head`. Returns
/// the exit status, which is 1 if nothing can move before the end.
pub fn view_schedule<W: Write>(
    alloc: Global,
    view: View,
    head: Vec<u8>,
    input: &[u8],
    given: Limits,
    seed: u64,
    out: &mut W,
) -> Result<u8, TextFault>
    ensures done { IfOk result (λ status. (programs : Programs)
        × IsProgramText input.now (settings_of programs) programs.limits (programs_of programs)
        × IsViewOfPrinted view head.items
        (PrintsSchedule (bound_of programs.misses programs.config) (limited_to given programs) seed status)
        (W.contents out.old) (W.contents out.new)) }
    ensures fault { IfErr result (λ fault. IsProgramNotRun input.now fault
        ⊎ ((status : ℕ) × (programs : Programs)
        × IsProgramText input.now (settings_of programs) programs.limits (programs_of programs)
        × IsViewCut view head.items
        (PrintsSchedule (bound_of programs.misses programs.config) (limited_to given programs) seed status)
        fault)) }
{
    let mut script = head;
    match write_schedule(alloc, input, given, seed, &mut script) {
        Ok(status) => write_view(alloc, view, script.as_slice(), status, out),
        // writing to memory fails only if it runs out
        Err(TextFault::CannotWrite) => Err(TextFault::NoMemory),
        Err(fault) => Err(fault),
    }
}

/// Writes this view of a script that was printed with this status, and returns that.
fn write_view<W: Write>(
    alloc: Global,
    view: View,
    script: &[u8],
    status: u8,
    out: &mut W,
) -> Result<u8, TextFault>
    ensures view { IfOk result (λ s. (s ≡ status)
        × HasView view script.now (W.contents out.old) (W.contents out.new)) }
    ensures fault { IfErr result (HasViewFault view script.now) }
{
    match view {
        View::Page => page_of(alloc, script, status, out),
        View::Traces => traces_of(alloc, script, status, out),
        View::Coverage => cover_script(alloc, script, status, out),
    }
}

fn page_of<W: Write>(alloc: Global, script: &[u8], status: u8, out: &mut W) -> Result<u8, TextFault>
    ensures page { IfOk result (λ s. (s ≡ status) × HasPage script.now (W.contents out.old) (W.contents out.new)) }
    ensures fault { IfErr result (HasPageFault script.now) }
{
    match run_page(alloc, script, false, out) {
        Ok(_) => Ok(status),
        Err(fault) => Err(fault),
    }
}
