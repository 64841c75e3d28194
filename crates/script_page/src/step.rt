//! A step of a page.
ghost use Rattle.std.specs.Prelude.{◌≡◌, IfErr, IfOk, OnOk, codes};
ghost use Rattle.std.specs.Fmt.{WritesInCalls};
ghost use Rattle.std.specs.Io.KnownBytes.{Appends};
ghost use Rattle.litmus_script.specs.Play.{IsOfRun};
ghost use Rattle.script_page.specs.Step.{WritesStep, first_of, first_of_issued, first_of_told, no_changes, plan_of};
ghost use Rattle.script_page.specs.Step.{planned_of, text_of_begin, text_of_call, text_of_changes, text_of_core_by};
ghost use Rattle.script_page.specs.Step.{text_of_front, text_of_lines, text_of_next};

use super::call::{Call, Next, Planned};
use super::core_part::{victim_of, write_core_in, write_null, write_whole};
use super::scope::{Scope, scope_of};
use litmus_script::{Issued, Machine, TextWriter, written};
use litmus_text::{Command, TextFault};
use mshr_file::EitherFile;
use script_explained::Step;
use slice_core::{Class, DeliveredNext, Plan, SliceState};
use slice_json::{write_json, write_line_in, write_log};
use slice_text::ExplainedDelivery;
use stats_report::write_text;
use std::alloc::Global;
use std::fmt;
use std::io::Write;

/// A step as a page shows it: its place in the script, the text of its command, and its answer with what happened.
#[derive(Clone, Copy)]
pub(crate) struct PageStep<'a> {
    pub(crate) number: usize,
    pub(crate) line: &'a [u8],
    pub(crate) answer: &'a [u8],
    pub(crate) step: &'a Step,
}

/// Writes a step as an object of JSON, on a machine that has made it.
pub(crate) fn write_step<W: Write>(
    alloc: Global,
    machine: &Machine,
    told: &PageStep<'_>,
    out: &mut W,
) -> Result<(), TextFault>
    ensures written { OnOk result (WritesStep machine.now.config told.now.number told.now.line.now
        told.now.answer.now told.now.step.now machine.now.slices.items
        (W.contents out.old) (W.contents out.new)) }
    ensures fault { IfErr result IsOfRun }
{
    let scope = scope_of(&machine.config, told.step.command());
    // what takes memory comes first, so that a step is written whole or not at all
    let core = core_text(alloc, machine, scope)?;
    begin(machine, told, scope, out)?;
    tell(core.as_slice(), out)?;
    end(out)
}

/// Returns what the core has whose copy the command can have changed.
fn core_text(alloc: Global, machine: &Machine, scope: Option<Scope>) -> Result<Vec<u8>, TextFault>
    ensures text { IfOk result (λ text. text.items ≡ text_of_core_by scope machine.now.slices.items) }
    ensures fault { IfErr result IsOfRun }
{
    let mut text = Vec::new(alloc);
    match tell_core(alloc, machine, scope, &mut text) {
        Ok(()) => Ok(text),
        // writing to memory fails when there is none left
        Err(_) => Err(TextFault::NoMemory),
    }
}

fn tell<W: Write>(text: &[u8], out: &mut W) -> Result<(), TextFault>
    ensures told { OnOk result (Appends (W.contents out.old) (W.contents out.new) text.now) }
    ensures fault { IfErr result IsOfRun }
{
    match write_text(out, text) {
        Ok(()) => Ok(()),
        Err(_) => Err(TextFault::CannotWrite),
    }
}

/// Writes all of a step but what the core has.
fn begin<W: Write>(
    machine: &Machine,
    told: &PageStep<'_>,
    scope: Option<Scope>,
    out: &mut W,
) -> Result<(), TextFault>
    ensures begun { OnOk result (Appends (W.contents out.old) (W.contents out.new)
        (text_of_front told.now.number told.now.line.now told.now.answer.now told.now.step.now
        scope machine.now.slices.items)) }
    ensures fault { IfErr result IsOfRun }
{
    let mut answers = TextWriter { out };
    written(write_front(machine, told, scope, &mut answers))
}

fn write_front<W: fmt::Write>(
    machine: &Machine,
    told: &PageStep<'_>,
    scope: Option<Scope>,
    out: &mut W,
) -> fmt::Result
    ensures { OnOk result (WritesInCalls W.write_str_gives out.old
        (text_of_front told.now.number told.now.line.now told.now.answer.now told.now.step.now
        scope machine.now.slices.items) out.new) }
{
    write_place(told.number, out)?;
    write_json(told.line, out)?;
    write!(out, ",\"answer\":")?;
    write_json(told.answer, out)?;
    write_call(told.step.command(), planned_of(told.step), out)?;
    write_changes(machine, scope, told.step, out)
}

/// Returns what was planned for the message that a step delivers.
fn planned_of(step: &Step) -> Option<Planned>
    ensures { result ≡ planned_of step.now }
{
    let Step::Deliver(delivery) = step else {
        return None;
    };
    Some(Planned {
        pick: delivery.pick,
        plan: plan_of(delivery.told),
    })
}

const fn plan_of(told: Option<ExplainedDelivery>) -> Plan
    ensures { result ≡ plan_of told }
{
    match told {
        Some(told) => told.plan,
        None => Plan::Nothing,
    }
}

/// Returns the number of the first access that a step performed; the log's length if it performed none.
fn first_of(step: &Step, length: usize) -> usize
    ensures { result ≡ first_of step.now length }
{
    match step {
        Step::Issue(access) => first_of_issued(access.issued, length),
        Step::Deliver(delivery) => first_of_told(delivery.told, length),
        Step::Evict(_) | Step::Hand(_) | Step::Word(_) | Step::Pump { .. } | Step::Show { .. } =>
            length,
    }
}

const fn first_of_issued(issued: Issued, length: usize) -> usize
    ensures { result ≡ first_of_issued issued length }
{
    match issued {
        Issued::Done { number, .. } => number as usize,
        Issued::Pending(_) | Issued::Stall(_) | Issued::Refused(_) => length,
    }
}

const fn first_of_told(told: Option<ExplainedDelivery>, length: usize) -> usize
    ensures { result ≡ first_of_told told length }
{
    match told {
        Some(told) => told.done.first,
        None => length,
    }
}

fn write_place<W: fmt::Write>(number: usize, out: &mut W) -> fmt::Result
    ensures { OnOk result (WritesInCalls W.write_str_gives out.old (text_of_begin number) out.new) }
{
    write!(out, "{{\"at\":{number},\"command\":")
}

fn write_call<W: fmt::Write>(command: Command, planned: Option<Planned>, out: &mut W) -> fmt::Result
    ensures { OnOk result (WritesInCalls W.write_str_gives out.old (text_of_call command planned) out.new) }
{
    let call = Call(command);
    match planned {
        Some(planned) => write!(out, ",\"call\":{call},\"plan\":{planned},"),
        None => write!(out, ",\"call\":{call},\"plan\":null,"),
    }
}

/// Writes the lines that the command can have changed, and what it performed.
fn write_changes<W: fmt::Write>(
    machine: &Machine,
    scope: Option<Scope>,
    step: &Step,
    out: &mut W,
) -> fmt::Result
    ensures { OnOk result (WritesInCalls W.write_str_gives out.old
        (text_of_changes scope step.now machine.now.slices.items) out.new) }
{
    let Some(scope) = scope else {
        return write_nothing(out);
    };
    match machine.slices.get(scope.slice) {
        Some(state) => write_lines_of(state, scope, step, out),
        None => write_nothing(out),
    }
}

fn write_nothing<W: fmt::Write>(out: &mut W) -> fmt::Result
    ensures { OnOk result (WritesInCalls W.write_str_gives out.old no_changes out.new) }
{
    write!(
        out,
        "\"line\":null,\"victim\":null,\"performed\":null,\"next\":null,\"core\":"
    )
}

fn write_lines_of<W: fmt::Write>(
    state: &SliceState<EitherFile>,
    scope: Scope,
    step: &Step,
    out: &mut W,
) -> fmt::Result
    ensures { OnOk result (WritesInCalls W.write_str_gives out.old
        (text_of_lines scope step.now state.now) out.new) }
{
    let victim = victim_of(state, scope);
    let first = first_of(step, state.log().len());
    write!(out, "\"line\":")?;
    write_line_in(state, scope.line, out)?;
    write!(out, ",\"victim\":")?;
    write_line_in(state, victim, out)?;
    write!(out, ",\"performed\":")?;
    write_log(scope.slice, first, state.log(), out)?;
    write_next(state.next(Class::Any), out)
}

fn write_next<W: fmt::Write>(next: DeliveredNext, out: &mut W) -> fmt::Result
    ensures { OnOk result (WritesInCalls W.write_str_gives out.old (text_of_next next) out.new) }
{
    let next = Next(next);
    write!(out, ",\"next\":{next},\"core\":")
}

/// Writes what the core of a scope has.
fn tell_core<W: Write>(
    alloc: Global,
    machine: &Machine,
    scope: Option<Scope>,
    out: &mut W,
) -> Result<(), TextFault>
    ensures core { OnOk result (Appends (W.contents out.old) (W.contents out.new)
        (text_of_core_by scope machine.now.slices.items)) }
    ensures fault { IfErr result IsOfRun }
{
    let Some(scope) = scope else {
        return write_null(out);
    };
    match machine.slices.get(scope.slice) {
        Some(state) => write_core_in(alloc, state, scope, out),
        None => write_null(out),
    }
}

fn end<W: Write>(out: &mut W) -> Result<(), TextFault>
    ensures ended { OnOk result (Appends (W.contents out.old) (W.contents out.new) (codes "},\n")) }
    ensures fault { IfErr result IsOfRun }
{
    let mut answers = TextWriter { out };
    written(write_whole("},\n", &mut answers))
}
