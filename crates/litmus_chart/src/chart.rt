ghost use Rattle.std.specs.Prelude.{◌≡◌, ◌<◌, ◌⊎◌, IfErr, IfOk};
ghost use Rattle.std.specs.Str.Lines.{lines};
ghost use Rattle.litmus_chart.specs.Fault.{IsChartFault, ChartStopsAt};
ghost use Rattle.litmus_script.specs.Play.{IsOfRun};
ghost use Rattle.litmus_script.specs.Script.{commands_of};
ghost use Rattle.litmus_text.specs.Command.{HasCore};
ghost use Rattle.litmus_text.specs.Look.{HasSubject, subject_of};
ghost use Rattle.litmus_text.specs.Statement.{statements_from};

use super::arrow::{Fate, Participant};
use super::note::{begin_cross, begin_note, write_participants};
use super::picture::Picture;
use super::seen::{Flight, Seen};
use address_map::{Checked, CoreId, LineAddr, Request, SliceId};
use litmus_script::{
    Deliverer, Issued, Machine, Player, Script, TextWriter, pump_slices, write_delivered,
    write_evicted, write_handed, write_issued, write_pumped, written,
};
use litmus_text::{Command, Look, Settings, Statement, TextFault};
use mshr_file::MissKind;
use slice_core::{Class, Delivered, DeliveredNext, Pick};
use std::alloc::Global;
use std::fmt;
use std::io::Write;

/// Draws the run of a script as a sequence diagram in Mermaid's syntax. Returns the exit status. A fault ends the
/// chart; what was written before it stays.
#[tactic(auto, using(crate::proofs::FaultLemmas::fault_of_script))]
pub fn run_chart<W: Write>(alloc: Global, input: &[u8], out: &mut W) -> Result<u8, TextFault>
    ensures status { IfOk result (λ status. status ≡ 0) }
    ensures fault { IfErr result (IsChartFault (statements_from 0 (lines input.now))) }
{
    let mut answers = TextWriter { out };
    match Script::read(alloc, input)? {
        Some(script) => chart_of(alloc, script, &mut answers)?,
        None => chart_of_nothing(alloc, &mut answers)?,
    }
    Ok(0)
}

/// Writes the chart of an empty script, with the participants of the default machine.
fn chart_of_nothing<W: Write>(alloc: Global, out: &mut TextWriter<'_, W>) -> Result<(), TextFault>
    ensures fault { IfErr result IsOfRun }
{
    let Settings { config, .. } = Settings::new(alloc);
    let Ok(config) = config.check() else {
        unreachable!();
    };
    written(write_participants(&config, out))
}

fn chart_of<W: Write>(
    alloc: Global,
    script: Script<'_>,
    out: &mut TextWriter<'_, W>,
) -> Result<(), TextFault>
    ensures fault { IfErr result
        (λ fault. IsOfRun fault ⊎ ChartStopsAt script.entry.config (commands_of script.entry.commands) fault) }
{
    let Script {
        config,
        misses,
        commands,
    } = script;
    let mut chart = Chart::new(alloc, config, misses)?;
    written(write_participants(chart.config(), out))?;
    commands.play(&mut chart, out.out)
}

/// Draws an access that isn't accepted as an arrow of the core to itself, which ends in a cross.
fn note_issued<W: Write>(
    core: CoreId,
    statement: &Statement<'_>,
    issued: Issued,
    out: &mut TextWriter<'_, W>,
) -> fmt::Result {
    let who = Participant::Core(core);
    match issued {
        Issued::Done { .. } | Issued::Pending(_) => begin_note(who, statement, out)?,
        Issued::Stall(_) | Issued::Refused(_) => begin_cross(who, statement, out)?,
    }
    write_issued(issued, out)
}

/// A player that draws what each command does.
#[derive(Drop)]
struct Chart {
    machine: Machine,
    picture: Picture,
    alloc: Global,
}

impl Player for Chart {
    ghost config_of = { λ chart. chart.machine.config };

    // What is drawn isn't specified.
    ghost plays = { λ old line command before after new. Unit {0} };

    fn config(&self) -> &Checked {
        &self.machine.config
    }

    fn play<W: Write>(
        &mut self,
        statement: &Statement<'_>,
        command: Command,
        out: &mut W,
    ) -> Result<(), TextFault> {
        let out = &mut TextWriter { out };
        match command {
            Command::Issue { core, request } => self.issue(statement, core, request, out),
            Command::Evict { core, line } => self.evict(statement, core, line, out),
            Command::Deliver(pick) => self.deliver(statement, pick, out),
            Command::Hand { core, slice } => self.hand(statement, core, slice, out),
            Command::Look(look) => self.show(statement, look, out),
            Command::Pump(calls) => self.pump(statement, calls, out),
        }
    }
}

impl Deliverer for Chart {
    ghost config_of = { λ chart. chart.machine.config };

    // What is drawn isn't specified.
    ghost delivers = { λ old slice answer before after new. Unit {0} };

    fn slices(&self) -> usize {
        self.machine.slices()
    }

    fn deliver_next<W: Write>(
        &mut self,
        slice: usize,
        out: &mut W,
    ) -> Result<DeliveredNext, TextFault> {
        let DeliveredNext::Moved(pick) = self.machine.slices[slice].next(Class::Any) else {
            return self.machine.deliver_next(slice, out);
        };
        let flight = Flight::of(&self.machine, pick);
        let delivered = self.machine.deliver_next(slice, out)?;
        let out = &mut TextWriter { out };
        self.picture.deliver(&self.machine, &flight, out)?;
        Ok(delivered)
    }
}

impl Chart {
    fn new(alloc: Global, config: Checked, misses: MissKind) -> Result<Self, TextFault>
        ensures config { IfOk result (λ chart. chart.machine.config ≡ config) }
        ensures fault { IfErr result IsOfRun }
    {
        Ok(Chart {
            machine: Machine::build(alloc, config, misses)?,
            picture: Picture::new(alloc),
            alloc,
        })
    }

    /// Draws what a command shows of a line as a note over its directory.
    fn show<W: Write>(
        &self,
        statement: &Statement<'_>,
        look: Look,
        out: &mut TextWriter<'_, W>,
    ) -> Result<(), TextFault>
        requires { HasSubject self.now.machine.config (subject_of look) }
        ensures fault { IfErr result IsOfRun }
    {
        let Some(line) = look.line() else {
            return Ok(());
        };
        let directory = Participant::Directory(self.machine.slice_of(line));
        written(begin_note(directory, statement, out))?;
        self.machine.show(look, out.out)
    }

    fn issue<W: Write>(
        &mut self,
        statement: &Statement<'_>,
        core: CoreId,
        request: Request,
        out: &mut TextWriter<'_, W>,
    ) -> Result<(), TextFault>
        requires { HasCore self.old.machine.config core }
        ensures config { self.new.machine.config ≡ self.old.machine.config }
        ensures fault { IfErr result IsOfRun }
    {
        let line = request.word.line();
        let before = self.picture.look(self.alloc, &self.machine, core, line)?;
        let issued = self.machine.issue(core, request)?;
        written(note_issued(core, statement, issued, out))?;
        if let Issued::Pending(_) = issued {
            self.picture.name(line)?;
        }
        written(
            self.picture
                .write_access(&self.machine, core, before.as_slice(), out),
        )
    }

    fn evict<W: Write>(
        &mut self,
        statement: &Statement<'_>,
        core: CoreId,
        line: LineAddr,
        out: &mut TextWriter<'_, W>,
    ) -> Result<(), TextFault>
        requires { HasCore self.old.machine.config core }
        ensures config { self.new.machine.config ≡ self.old.machine.config }
        ensures fault { IfErr result IsOfRun }
    {
        let before = Seen::of(&self.machine, line);
        let evicted = self.machine.evict(core, line);
        written(begin_note(Participant::Core(core), statement, out))?;
        written(write_evicted(evicted, out))?;
        written(before.write_change(&self.machine, out))
    }

    /// If nothing waits, a note says so.
    fn deliver<W: Write>(
        &mut self,
        statement: &Statement<'_>,
        pick: Pick,
        out: &mut TextWriter<'_, W>,
    ) -> Result<(), TextFault>
        ensures config { self.new.machine.config ≡ self.old.machine.config }
        ensures fault { IfErr result IsOfRun }
    {
        let flight = Flight::of(&self.machine, pick);
        let delivered = self.machine.deliver(pick);
        match delivered {
            Delivered::Moved => self.picture.deliver(&self.machine, &flight, out),
            Delivered::Blocked => written(self.picture.write_arrow(&flight, Fate::Blocked, out)),
            Delivered::Broken(cell) => {
                written(self.picture.write_arrow(&flight, Fate::Broken(cell), out))
            }
            Delivered::Nothing => {
                written(begin_note(flight.receiver(), statement, out))?;
                written(write_delivered(delivered, out))
            }
        }
    }

    fn hand<W: Write>(
        &mut self,
        statement: &Statement<'_>,
        core: CoreId,
        slice: SliceId,
        out: &mut TextWriter<'_, W>,
    ) -> Result<(), TextFault>
        requires core { HasCore self.old.machine.config core }
        requires slice { slice.0 < self.old.machine.config.slices }
        ensures config { self.new.machine.config ≡ self.old.machine.config }
        ensures fault { IfErr result IsOfRun }
    {
        let handed = self.machine.hand(core, slice);
        written(begin_note(Participant::Core(core), statement, out))?;
        written(write_handed(handed, out))
    }

    /// Draws each delivery, and then what remains.
    fn pump<W: Write>(
        &mut self,
        statement: &Statement<'_>,
        calls: u64,
        out: &mut TextWriter<'_, W>,
    ) -> Result<(), TextFault>
        ensures config { self.new.machine.config ≡ self.old.machine.config }
        ensures fault { IfErr result IsOfRun }
    {
        let pumped = pump_slices(self, calls, out.out)?;
        let last = self.machine.config.cores() - 1;
        written(begin_note(format_args!("dir0,core{last}"), statement, out))?;
        written(write_pumped(pumped, out))
    }
}
