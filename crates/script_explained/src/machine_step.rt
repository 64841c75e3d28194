//! The step that a machine makes for a command.
ghost use Rattle.std.specs.Prelude.{◌≡◌, ◌/◌, ◌<◌, length, true, IfErr, IfOk};
ghost use Rattle.litmus_script.specs.Machine.{OneSlice};
ghost use Rattle.litmus_script.specs.Play.{IsOfRun};
ghost use Rattle.litmus_text.specs.Command.{IsInRange, HasCore};
ghost use Rattle.litmus_text.specs.declared.command.Command.TheVariants as commands;
ghost use Rattle.litmus_text.specs.declared.look.Look.TheVariants as looks;
ghost use Rattle.script_explained.specs.Step.{IsAccess, IsDelivery, IsEviction, IsShown, MakesNext, MakesStep, is_look};

use super::step::{AccessStep, DeliveryStep, EvictionStep, HandStep, Step};
use super::{delivery, issue, unrest};
use address_map::{CoreId, LineAddr, Request, SliceId, WordAddr};
use litmus_script::Machine;
use litmus_text::{Command, Look, TextFault};
use slice_core::{DeliveredNext, Pick};
use std::alloc::Global;

/// Plays a command as one step. A pump is many: as one it does nothing.
pub fn make_step(alloc: Global, machine: &mut Machine, command: Command) -> Result<Step, TextFault>
    requires { IsInRange machine.old.config command }
    ensures config { machine.new.config ≡ machine.old.config }
    ensures fault { IfErr result IsOfRun }
    ensures step { IfOk result
        (MakesStep machine.old.config command machine.old.slices.items machine.new.slices.items) }
{
    match command {
        Command::Issue { core, request } => issue_step(machine, core, request),
        Command::Evict { core, line } => Ok(evict_step(machine, core, line)),
        Command::Deliver(pick) => Ok(deliver_step(machine, pick)),
        Command::Hand { core, slice } => Ok(hand_step(machine, core, slice)),
        Command::Look(Look::Word(word)) => Ok(word_step(machine, word)),
        Command::Pump(_) => Ok(Step::Show {
            command,
            text: Vec::new(alloc),
        }),
        Command::Look(Look::State(_) | Look::Log(_) | Look::Machine(_)) => {
            show(alloc, machine, command)
        }
    }
}

/// Shows what a command shows.
fn show(alloc: Global, machine: &mut Machine, command: Command) -> Result<Step, TextFault>
    requires range { IsInRange machine.old.config command }
    requires look { is_look command ≡ true }
    ensures config { machine.new.config ≡ machine.old.config }
    ensures fault { IfErr result IsOfRun }
    ensures step { IfOk result
        (MakesStep machine.old.config command machine.old.slices.items machine.new.slices.items) }
{
    let text = shown(alloc, machine, command)?;
    Ok(Step::Show { command, text })
}

fn shown(alloc: Global, machine: &mut Machine, command: Command) -> Result<Vec<u8>, TextFault>
    requires range { IsInRange machine.old.config command }
    requires look { is_look command ≡ true }
    ensures config { machine.new.config ≡ machine.old.config }
    ensures fault { IfErr result IsOfRun }
    ensures shown { IfOk result (λ text. IsShown (is_look command) machine.old.config command
        machine.old.slices.items machine.new.slices.items text.items) }
{
    let mut text = Vec::new(alloc);
    match machine.run(command, &mut text) {
        Ok(()) => Ok(text),
        // writing to memory fails when there is none left
        Err(_) => Err(TextFault::NoMemory),
    }
}

fn issue_step(machine: &mut Machine, core: CoreId, request: Request) -> Result<Step, TextFault>
    requires { HasCore machine.old.config core }
    ensures config { machine.new.config ≡ machine.old.config }
    ensures fault { IfErr result IsOfRun }
    ensures step { IfOk result (MakesStep machine.old.config (commands.Issue core request)
        machine.old.slices.items machine.new.slices.items) }
{
    let slice = machine.slice_of(request.word.line());
    let access = issue_in(machine, slice, core, request)?;
    Ok(Step::Issue(access))
}

fn issue_in(
    machine: &mut Machine,
    slice: usize,
    core: CoreId,
    request: Request,
) -> Result<AccessStep, TextFault>
    requires core { HasCore machine.old.config core }
    requires slice { slice < length machine.old.slices.items }
    ensures config { machine.new.config ≡ machine.old.config }
    ensures fault { IfErr result IsOfRun }
    ensures core { IfOk result (λ access. access.core ≡ core) }
    ensures request { IfOk result (λ access. access.decided.request ≡ request) }
    ensures made { IfOk result (λ access. OneSlice slice (IsAccess slice access)
        machine.old.slices.items machine.new.slices.items) }
{
    let Machine { slices, .. } = machine;
    issue::issue(&mut slices[slice], slice, core, request)
}

fn evict_step(machine: &mut Machine, core: CoreId, line: LineAddr) -> Step
    requires { HasCore machine.old.config core }
    ensures config { machine.new.config ≡ machine.old.config }
    ensures step { MakesStep machine.old.config (commands.Evict core line)
        machine.old.slices.items machine.new.slices.items result }
{
    let slice = machine.slice_of(line);
    Step::Evict(evict_in(machine, slice, core, line))
}

fn evict_in(machine: &mut Machine, slice: usize, core: CoreId, line: LineAddr) -> EvictionStep
    requires core { HasCore machine.old.config core }
    requires slice { slice < length machine.old.slices.items }
    ensures config { machine.new.config ≡ machine.old.config }
    ensures core { result.core ≡ core }
    ensures line { result.line ≡ line }
    ensures made { OneSlice slice (IsEviction slice result)
        machine.old.slices.items machine.new.slices.items }
{
    let Machine { slices, .. } = machine;
    issue::evict(&mut slices[slice], slice, core, line)
}

fn deliver_step(machine: &mut Machine, pick: Pick) -> Step
    ensures config { machine.new.config ≡ machine.old.config }
    ensures step { MakesStep machine.old.config (commands.Deliver pick)
        machine.old.slices.items machine.new.slices.items result }
{
    let slice = machine.slice_of(pick.line());
    Step::Deliver(deliver_in(machine, slice, pick))
}

fn deliver_in(machine: &mut Machine, slice: usize, pick: Pick) -> DeliveryStep
    requires { slice < length machine.old.slices.items }
    ensures config { machine.new.config ≡ machine.old.config }
    ensures pick { result.pick ≡ pick }
    ensures made { OneSlice slice (IsDelivery slice result)
        machine.old.slices.items machine.new.slices.items }
{
    delivery::deliver(&mut machine.slices[slice], slice, pick)
}

/// Makes the next delivery of a slice, where one can be made. Returns the slice's answer, and the delivery's step.
pub(crate) fn deliver_next(
    machine: &mut Machine,
    slice: usize,
) -> (DeliveredNext, Option<DeliveryStep>)
    requires { slice < machine.old.config.slices }
    ensures config { machine.new.config ≡ machine.old.config }
    ensures made { OneSlice slice (MakesNext slice result.0 result.1)
        machine.old.slices.items machine.new.slices.items }
{
    delivery::deliver_next(&mut machine.slices[slice], slice)
}

fn hand_step(machine: &mut Machine, core: CoreId, slice: SliceId) -> Step
    requires core { HasCore machine.old.config core }
    requires slice { slice.0 < machine.old.config.slices }
    ensures config { machine.new.config ≡ machine.old.config }
    ensures step { MakesStep machine.old.config (commands.Hand core slice)
        machine.old.slices.items machine.new.slices.items result }
{
    let handed = machine.hand(core, slice);
    Step::Hand(HandStep {
        core,
        slice,
        handed,
    })
}

fn word_step(machine: &Machine, word: WordAddr) -> Step
    requires { word.0 / 8 < machine.now.config.lines }
    ensures step { MakesStep machine.now.config (commands.Look (looks.Word word))
        machine.now.slices.items machine.now.slices.items result }
{
    let shown = machine.word_now(word);
    let slice = machine.slice_of(word.line());
    Step::Word(unrest::word(&machine.config, &machine.slices[slice], word, shown))
}
