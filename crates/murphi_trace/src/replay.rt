//! A trace as a script.
ghost use Rattle.std.specs.Prelude.{◌≡◌, ℕ, ◌+◌, ◌<◌, [], ◌∷◌, ◌++◌, IfErr, IfOk, List, OnOk, option_map};
ghost use Rattle.std.specs.Prelude.{true};
ghost use Rattle.std.specs.Io.KnownBytes.{Appends};
ghost use Rattle.std.specs.List.{list_any};
ghost use Rattle.std.specs.Str.Lines.{lines};
ghost use Rattle.address_map.specs.declared.request.Op.{Op};
ghost use Rattle.murphi_trace.specs.declared.rule.Rule.{Rule};
ghost use Rattle.murphi_trace.specs.Fired.{fired_by, fired_in, name_and_cores};
ghost use Rattle.murphi_trace.specs.Replay.{AreTags, IsAccess, core_told, data_e_told, last_tag, rules_with};
ghost use Rattle.murphi_trace.specs.Replay.{text_of_told};
ghost use Rattle.murphi_trace.specs.Rule.{last_core};
ghost use Rattle.murphi_trace.specs.Script.{IsTraceFault, access_of, accesses_of, commands_of, greatest_core};
ghost use Rattle.murphi_trace.specs.Script.{hand_before, is_trace};
ghost use Rattle.murphi_trace.specs.Script.{names_data_e, rule_in, script_of, step_by, steps_in, text_of_commands};
ghost use Rattle.murphi_trace.specs.Script.{text_of_steps};

use super::fired::{Fired, parted};
use super::output::{put_command, put_comment, put_machine};
use super::rule::{LINE, Rule};
use super::tag::next_tag;
use address_map::{CoreId, Op, Request, SliceId, WordAddr};
use litmus_text::{Command, LineFault, Lines, TextFault};
use std::fmt;
use std::io::Write;

/// One more than the greatest core that a trace can name by a digit.
const CORES: usize = 10;

/// The word that cores read and write, and the slice of its line.
const WORD: WordAddr = WordAddr(0);

const SLICE: SliceId = SliceId(0);

/// Writes the run that a trace reports as a script: for each rule its name as a comment, and the commands that do the
/// same. The machine has the cores that take part, and the exclusive state if a message of it occurs. All else of
/// a trace is passed over, but a text with nothing else in it is no trace. Returns the exit status.
pub fn run_trace<W: Write>(trace: &[u8], out: &mut W) -> Result<u8, TextFault>
    ensures status { IfOk result (λ status. status ≡ 0) }
    ensures trace { OnOk result (is_trace trace.now ≡ true) }
    ensures printed { OnOk result (Appends (W.contents out.old) (W.contents out.new) (script_of trace.now)) }
    ensures fault { IfErr result (IsTraceFault trace.now (W.contents out.old) (W.contents out.new)) }
{
    if !is_trace(trace) {
        return Err(LineFault::NotATrace.at(1));
    }
    match write_script(trace, out) {
        Ok(()) => Ok(0),
        Err(_) => Err(TextFault::CannotWrite),
    }
}

/// Returns the rule that a line of a trace reports, if it reports one by which something happens.
pub fn rule_told_by(line: &[u8]) -> Option<Rule>
    ensures { result ≡ option_map rule_in (step_by line.now) }
{
    let Some(fired) = Fired::told_by(line) else {
        return None;
    };
    Rule::of(fired)
}

/// Whether some line reports a rule that fired.
fn is_trace(trace: &[u8]) -> bool
    ensures { result ≡ is_trace trace.now }
{
    for line in Lines::of(trace) {
        if Fired::told_by(line).is_some() {
            return true;
        }
    }
    false
}

fn write_script<W: Write>(trace: &[u8], out: &mut W) -> fmt::Result
    ensures { OnOk result (Appends (W.contents out.old) (W.contents out.new) (script_of trace.now)) }
{
    let last = greatest_core(trace);
    let exclusive = is_exclusive(trace);
    put_machine(last + 1, exclusive, out)?;
    write_steps(trace, out)
}

/// Returns the greatest number of a core that takes part.
fn greatest_core(trace: &[u8]) -> u8
    ensures value { result ≡ greatest_core (steps_in (lines trace.now)) }
    ensures small { result < 10 }
{
    let mut last = 0;
    for line in Lines::of(trace) {
        let told = core_told(line);
        if last < told {
            last = told;
        }
    }
    last
}

fn core_told(line: &[u8]) -> u8
    ensures value { result ≡ core_told (step_by line.now) }
    ensures small { result < 10 }
{
    let Some(fired) = Fired::told_by(line) else {
        return 0;
    };
    match Rule::of(fired) {
        Some(rule) => rule.last_core(),
        None => 0,
    }
}

/// Whether a rule that fired sends or takes the exclusive state's message.
fn is_exclusive(trace: &[u8]) -> bool
    ensures { result ≡ list_any names_data_e (fired_in (lines trace.now)) }
{
    for line in Lines::of(trace) {
        if tells_of_data_e(line) {
            return true;
        }
    }
    false
}

fn tells_of_data_e(line: &[u8]) -> bool
    ensures { result ≡ data_e_told (fired_by line.now) }
{
    match Fired::told_by(line) {
        Some(fired) => parted(fired.name, b"Data-E").is_some(),
        None => false,
    }
}

/// Writes the steps.
fn write_steps<W: Write>(trace: &[u8], out: &mut W) -> fmt::Result
    ensures { OnOk result (Appends (W.contents out.old) (W.contents out.new)
        (text_of_steps [] (steps_in (lines trace.now)))) }
{
    let mut tags = [None; CORES];
    for line in Lines::of(trace) {
        write_line(line, &mut tags, out)?;
    }
    Ok(())
}

/// Writes the step that a line reports, if it reports one. Each core's last access had its tag.
fn write_line<W: Write>(line: &[u8], tags: &mut [Option<u8>; CORES], out: &mut W) -> fmt::Result
    ensures text { (before : List Rule) → AreTags tags.old before → OnOk result
        (Appends (W.contents out.old) (W.contents out.new) (text_of_told before (step_by line.now))) }
    ensures tags { (before : List Rule) → AreTags tags.old before → OnOk result
        (AreTags tags.new (rules_with before (step_by line.now))) }
{
    let Some(fired) = Fired::told_by(line) else {
        return Ok(());
    };
    let Some(rule) = Rule::of(fired) else {
        return Ok(());
    };
    put_comment(fired, out)?;
    write_rule(rule, tags, out)
}

/// Writes the commands that do what a rule does.
fn write_rule<W: Write>(rule: Rule, tags: &mut [Option<u8>; CORES], out: &mut W) -> fmt::Result
    requires { last_core rule < 10 }
    ensures text { (before : List Rule) → AreTags tags.old before → OnOk result
        (Appends (W.contents out.old) (W.contents out.new) (text_of_commands (commands_of before rule))) }
    ensures tags { (before : List Rule) → AreTags tags.old before → OnOk result
        (AreTags tags.new (before ++ rule ∷ [])) }
{
    match rule {
        Rule::Load(core) => write_access(core, Op::Load, tags, out),
        Rule::Write(core) => write_access(core, Op::Add(1), tags, out),
        Rule::Evict(core) => put_command(Command::Evict { core, line: LINE }, out),
        Rule::Deliver(pick) => put_command(Command::Deliver(pick), out),
    }
}

/// Writes an access, with the core's next tag.
fn write_access<W: Write>(
    core: CoreId,
    op: Op,
    tags: &mut [Option<u8>; CORES],
    out: &mut W,
) -> fmt::Result
    requires { core.0 < 10 }
    ensures text { (before : List Rule) → AreTags tags.old before → OnOk result
        (Appends (W.contents out.old) (W.contents out.new)
        (text_of_commands (access_of (accesses_of core.0 before) core op))) }
    ensures tags { (before : List Rule) (rule : Rule) → IsAccess core.0 rule → AreTags tags.old before
        → AreTags tags.new (before ++ rule ∷ []) }
{
    let place = core.0 as usize;
    let last = tags[place];
    let tag = next_tag(last);
    tags[place] = Some(tag);
    write_hand(last, core, out)?;
    let word = WORD;
    put_command(
        Command::Issue {
            core,
            request: Request { op, word, tag },
        },
        out,
    )
}

/// Hands out a reply before an access, if the core made one before, so that tags don't run out.
fn write_hand<W: Write>(last: Option<u8>, core: CoreId, out: &mut W) -> fmt::Result
    ensures { (accesses : ℕ) → last ≡ last_tag accesses → OnOk result
        (Appends (W.contents out.old) (W.contents out.new) (text_of_commands (hand_before accesses core))) }
{
    match last {
        Some(_) => put_command(Command::Hand { core, slice: SLICE }, out),
        None => Ok(()),
    }
}
