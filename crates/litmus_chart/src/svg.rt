//! Draws the run of one line as a space-time diagram.
ghost use Rattle.std.specs.Prelude.{◌≡◌, ◌<◌, ◌⊎◌, IfErr, IfOk};
ghost use Rattle.std.specs.Str.Lines.{lines};
ghost use Rattle.litmus_chart.specs.Fault.{IsChartFault, ChartStopsAt};
ghost use Rattle.litmus_chart.specs.LineCount.{IsLineCount};
ghost use Rattle.litmus_script.specs.Play.{IsOfRun};
ghost use Rattle.litmus_script.specs.Script.{IsNotConfigured, commands_of};
ghost use Rattle.litmus_text.specs.Command.{HasCore, IsInRange};
ghost use Rattle.litmus_text.specs.Statement.{statements_from};

use super::arrow::{Participant, receiver};
use super::drawing::write_drawing;
use super::sends::Sends;
use super::space_time::{SpaceTime, What};
use address_map::{Checked, Config, CoreId, LineAddr, Request};
use litmus_script::{
    Commands, Deliverer, Issued, Machine, Player, Script, TextWriter, pump_slices, written,
};
use litmus_text::{Command, Statement, TextFault};
use slice_core::{Class, DeliveredNext, Message, Pick, Plan, Transition};
use std::alloc::Global;
use std::io::Write;

/// Draws what a script's run does to one line, as a space-time diagram in SVG: this line, or the one that a command
/// names first. Returns the exit status. A fault ends the run, and the picture shows what was before it.
#[tactic(auto, using(crate::proofs::FaultLemmas::fault_of_script))]
pub fn run_svg<W: Write>(
    alloc: Global,
    input: &[u8],
    line: Option<u64>,
    out: &mut W,
) -> Result<u8, TextFault>
    ensures status { IfOk result (λ status. status ≡ 0) }
    ensures fault { IfErr result (IsChartFault (statements_from 0 (lines input.now))) }
{
    let space = SpaceTime::new(alloc, line.map(LineAddr));
    match Script::read(alloc, input)? {
        Some(script) => draw_script(alloc, script, space, out)?,
        None => draw(&space, out)?,
    }
    Ok(0)
}

/// Returns the number of lines of a script's machine.
pub fn line_count(alloc: Global, input: &[u8]) -> Result<u64, TextFault>
    ensures count { IfOk result (IsLineCount (statements_from 0 (lines input.now))) }
    ensures fault { IfErr result (IsNotConfigured (statements_from 0 (lines input.now))) }
{
    match Script::read(alloc, input)? {
        Some(script) => Ok(script.config.lines() as u64),
        None => Ok(Config::new(alloc).lines),
    }
}

fn draw<W: Write>(space: &SpaceTime, out: &mut W) -> Result<(), TextFault>
    ensures fault { IfErr result IsOfRun }
{
    written(write_drawing(space, &mut TextWriter { out }))
}

fn draw_script<W: Write>(
    alloc: Global,
    script: Script<'_>,
    space: SpaceTime,
    out: &mut W,
) -> Result<(), TextFault>
    ensures fault { IfErr result
        (λ fault. IsOfRun fault ⊎ ChartStopsAt script.entry.config (commands_of script.entry.commands) fault) }
{
    let Script {
        config,
        misses,
        commands,
    } = script;
    let machine = Machine::build(alloc, config, misses)?;
    let mut recorder = Recorder { machine, space };
    match commands.play(&mut recorder, out) {
        Ok(()) => recorder.draw(out),
        Err(fault) => {
            // if this can't be written either, the error can't be reported
            let _ = recorder.draw(out);
            Err(fault)
        }
    }
}

/// A player that records what each command does to the line.
#[derive(Drop)]
struct Recorder {
    machine: Machine,
    space: SpaceTime,
}

impl Player for Recorder {
    ghost config_of = { λ recorder. recorder.machine.config };

    // What is drawn isn't specified.
    ghost plays = { λ old line command before after new. Unit {0} };

    fn config(&self) -> &Checked {
        &self.machine.config
    }

    fn play<W: Write>(
        &mut self,
        _statement: &Statement<'_>,
        command: Command,
        out: &mut W,
    ) -> Result<(), TextFault> {
        match command {
            Command::Issue { core, request } => self.issue(command, core, request),
            Command::Evict { core, line } => self.evict(command, core, line),
            Command::Deliver(pick) => self.deliver(pick),
            Command::Hand { core, slice } => {
                self.machine.hand(core, slice);
                Ok(())
            }
            Command::Pump(calls) => {
                pump_slices(self, calls, out)?;
                Ok(())
            }
            _ => Ok(()),
        }
    }
}

impl Deliverer for Recorder {
    ghost config_of = { λ recorder. recorder.machine.config };

    // What is drawn isn't specified.
    ghost delivers = { λ old slice answer before after new. Unit {0} };

    fn slices(&self) -> usize {
        self.machine.slices()
    }

    fn deliver_next<W: Write>(
        &mut self,
        slice: usize,
        out: &mut W,
    ) -> Result<DeliveredNext, TextFault> {
        let DeliveredNext::Moved(pick) = self.machine.slices[slice].next(Class::Any) else {
            return self.machine.deliver_next(slice, out);
        };
        if !self.space.follows(pick.line()) {
            return self.machine.deliver_next(slice, out);
        }
        let flight = self.flight(pick);
        let delivered = self.machine.deliver_next(slice, out)?;
        self.record(&flight)?;
        Ok(delivered)
    }
}

/// The message at the front of a channel, and what a delivery does with it.
#[derive(Drop)]
struct Flight {
    pick: Pick,
    message: Option<Message>,
    plan: Plan,
    /// Whether a request of the core that takes it was in flight already.
    asked: bool,
}

impl Recorder {
    fn draw<W: Write>(&mut self, out: &mut W) -> Result<(), TextFault>
        ensures fault { IfErr result IsOfRun }
    {
        self.space.name_open(&self.machine);
        draw(&self.space, out)
    }

    /// Whether a request of the core for the line is in flight.
    fn has_asked(&self, core: CoreId) -> bool {
        match self.space.line {
            Some(line) => self.machine.front(Pick::Req(line, core)).is_some(),
            None => false,
        }
    }

    /// An access to another line matters if it evicts this one.
    fn issue(&mut self, command: Command, core: CoreId, request: Request) -> Result<(), TextFault>
        requires { HasCore self.old.machine.config core }
        ensures config { self.new.machine.config ≡ self.old.machine.config }
        ensures fault { IfErr result IsOfRun }
    {
        let is_followed = self.space.follows(request.word.line());
        let asked = self.has_asked(core);
        let issued = self.machine.issue(core, request)?;
        if !is_followed && self.has_asked(core) == asked {
            return Ok(());
        }
        let row = self.begin_row(command)?;
        let who = Participant::Core(core);
        match issued {
            Issued::Stall(stall) => self.space.mark(who, row, What::Stalled(stall))?,
            Issued::Refused(refused) => self.space.mark(who, row, What::Refused(refused))?,
            _ => {}
        }
        self.end_row(core, asked, row)
    }

    fn evict(&mut self, command: Command, core: CoreId, line: LineAddr) -> Result<(), TextFault>
        requires { HasCore self.old.machine.config core }
        ensures config { self.new.machine.config ≡ self.old.machine.config }
        ensures fault { IfErr result IsOfRun }
    {
        let is_followed = self.space.follows(line);
        let asked = self.has_asked(core);
        self.machine.evict(core, line);
        if !is_followed {
            return Ok(());
        }
        let row = self.begin_row(command)?;
        self.end_row(core, asked, row)
    }

    fn deliver(&mut self, pick: Pick) -> Result<(), TextFault>
        ensures config { self.new.machine.config ≡ self.old.machine.config }
        ensures fault { IfErr result IsOfRun }
    {
        if !self.space.follows(pick.line()) {
            self.machine.deliver(pick);
            return Ok(());
        }
        let flight = self.flight(pick);
        self.machine.deliver(pick);
        self.record(&flight)
    }

    fn flight(&self, pick: Pick) -> Flight {
        let slice = self.machine.slice_of(pick.line());
        Flight {
            pick,
            message: self.machine.front(pick),
            plan: self.machine.slices[slice].plan(pick),
            asked: match receiver(slice, pick) {
                Participant::Core(core) => self.has_asked(core),
                Participant::Directory(_) => false,
            },
        }
    }

    /// Records a delivery that was made, or tried.
    fn record(&mut self, flight: &Flight) -> Result<(), TextFault>
        ensures config { self.new.machine.config ≡ self.old.machine.config }
        ensures fault { IfErr result IsOfRun }
    {
        let pick = flight.pick;
        let row = self.begin_row(Command::Deliver(pick))?;
        let who = receiver(self.space.slice, pick);
        match flight.plan {
            Plan::Moved(transition) => self.move_message(flight, transition, row)?,
            Plan::Blocked => {
                let state = self.space.state_of(who);
                self.space.mark(who, row, What::Blocked(state))?;
            }
            Plan::Broken(cell) => self.space.mark(who, row, What::Broken(cell))?,
            Plan::Nothing => self.space.mark(who, row, What::Nothing)?,
        }
        match who {
            Participant::Core(core) => self.end_row(core, flight.asked, row),
            Participant::Directory(_) => self.space.observe(&self.machine, row),
        }
    }

    /// Records that the message is taken, and what its receiver sends for it.
    fn move_message(
        &mut self,
        flight: &Flight,
        transition: Transition,
        row: usize,
    ) -> Result<(), TextFault>
        ensures config { self.new.machine.config ≡ self.old.machine.config }
        ensures fault { IfErr result IsOfRun }
    {
        let pick = flight.pick;
        self.space.take(pick, flight.message, row);
        let by = match receiver(self.space.slice, pick) {
            Participant::Core(core) => Some(core),
            Participant::Directory(_) => None,
        };
        self.space
            .send_all(Sends::of(pick, transition), pick.line(), by, row)
    }

    fn begin_row(&mut self, command: Command) -> Result<usize, TextFault>
        ensures config { self.new.machine.config ≡ self.old.machine.config }
        ensures fault { IfErr result IsOfRun }
    {
        if let Some(line) = self.space.line {
            self.space.slice = self.machine.slice_of(line);
        }
        self.space.begin_row(command)
    }

    /// Notes the request that a row had the core send, and what else it changed.
    fn end_row(&mut self, core: CoreId, asked: bool, row: usize) -> Result<(), TextFault>
        ensures config { self.new.machine.config ≡ self.old.machine.config }
        ensures fault { IfErr result IsOfRun }
    {
        if !asked && self.has_asked(core) {
            self.space.send_request(core, row)?;
        }
        self.space.observe(&self.machine, row)
    }
}
