//! A machine, and the script that it has played.
ghost use Rattle.std.specs.Prelude.{◌≡◌, ◌++◌, ◌<◌, ℕ, List, Option, [], IfErr, IfOk, OnOk, codes};
ghost use Rattle.std.specs.Str.Lines.{lines};
ghost use Rattle.litmus_script.specs.Fault.{IsNotPlayed};
ghost use Rattle.litmus_script.specs.Script.{commands_of, said_by};
ghost use Rattle.litmus_text.specs.Command.{HasCore, IsFaultOfCommand};
ghost use Rattle.litmus_text.specs.Statement.{statements_from};
ghost use Rattle.mshr_file.specs.Miss.{bound_of};
ghost use Rattle.script_prompt.specs.Asked.{Asks};
ghost use Rattle.script_prompt.specs.Session.{IsAfter, IsContinued, IsPlayedTo, PlaysLine};
ghost use Rattle.script_prompt.specs.Session.{config_of, script_of, slices_of};

use super::asked::{Asked, read_asked};
use super::machine;
use super::own::Own;
use address_map::{Checked, CoreId, Op, Request, SliceId, WordAddr};
use litmus_script::{Commands, Echo, Machine, Player, Script, TextWriter, written};
use litmus_text::{
    Command, Settings, Statement, Statements, TextFault, parse_command, write_command,
};
use mshr_file::MissKind;
use script_explained::{Explaining, Stepper};
use slice_core::DeliveredNext;
use std::alloc::Global;
use std::fmt::Write as _;
use std::io::Write;

/// A machine, and the script so far: the lines that it was configured by and has played.
#[derive(Drop)]
pub struct Session {
    pub player: Stepper<Explaining>,
    /// Each line with its end.
    pub script: Vec<u8>,
}

impl Session {
    /// Plays a script on a new machine, each command's line before its answer with what happened.
    pub fn open<W: Write>(alloc: Global, script: Vec<u8>, out: &mut W) -> Result<Self, TextFault>
        ensures script { IfOk result (λ session. script_of session ≡ script.items) }
        ensures after { IfOk result (λ session. IsAfter script.items (config_of session) (slices_of session)
            (W.contents out.old) (W.contents out.new)) }
    {
        match Script::read(alloc, &script)? {
            None => Session::open_default(alloc, script),
            Some(
                Script {
                    config,
                    misses,
                    commands,
                },
            ) => {
                let player = play_on(alloc, config, misses, commands, out)?;
                Ok(Session { player, script })
            }
        }
    }

    /// Returns a session with the machine of an empty script.
    fn open_default(alloc: Global, script: Vec<u8>) -> Result<Self, TextFault>
        ensures script { IfOk result (λ session. script_of session ≡ script.items) }
        ensures after { IfOk result (λ session. statements_from 0 (lines script.items) ≡ [] → (before : Option (List ℕ))
            → IsAfter script.items (config_of session) (slices_of session) before before) }
    {
        let Settings { config, misses } = Settings::new(alloc);
        let config = config.check().map_err(TextFault::Config)?;
        let machine = Machine::build(alloc, config, misses)?;
        let player = Stepper::new(alloc, machine, Explaining { alloc });
        Ok(Session { player, script })
    }

    /// Returns the script so far.
    pub fn script(&self) -> &[u8]
        ensures { result.now ≡ script_of self.now }
    {
        self.script.as_slice()
    }

    pub fn config(&self) -> &Checked
        ensures { result.now ≡ self.now.player.machine.config }
    {
        self.player.config()
    }

    /// Answers a line that asks something of the machine: plays the lines of a script that it means. What any
    /// other asks for is left to do.
    pub fn answer<'a, W: Write>(
        &mut self,
        statement: &Statement<'a>,
        out: &mut W,
    ) -> Result<Asked<'a>, TextFault>
        ensures config { self.new.player.machine.config ≡ self.old.player.machine.config }
        ensures asks { IfOk result (Asks self.old.player.machine.config (said_by statement.now).1) }
        ensures plays { IfOk result (λ asked. IsContinued self.old.player.machine.config
            self.old.player.machine.slices.items
            self.new.player.machine.slices.items self.old.script.items self.new.script.items) }
    {
        let asked = match read_asked(self.config(), statement.words.as_slice()) {
            Ok(asked) => asked,
            Err(fault) => return Err(fault.at(statement.number)),
        };
        match asked {
            Asked::Command => self.answer_command(statement, out)?,
            Asked::Own(Own::Access { core, op, word }) => self.ask(core, op, word, out)?,
            Asked::Own(Own::Next(slice)) => self.deliver_next(slice, out)?,
            Asked::Nothing
            | Asked::Configuration
            | Asked::Own(Own::Undo | Own::Save(_) | Own::Help | Own::Quit) => {}
        }
        Ok(asked)
    }

    /// Plays a line of a script. Writes its answer, with what happened, and keeps it.
    pub fn play<W: Write>(
        &mut self,
        statement: &Statement<'_>,
        out: &mut W,
    ) -> Result<Command, TextFault>
        ensures config { self.new.player.machine.config ≡ self.old.player.machine.config }
        ensures played { IfOk result (λ command. PlaysLine self.old.player.machine.config (said_by statement.now).1
            statement.now.line.now command self.old.player.machine.slices.items self.new.player.machine.slices.items
            (W.contents out.old) (W.contents out.new) self.old.script.items self.new.script.items) }
        ensures fault { IfErr result
            (IsNotPlayed (IsFaultOfCommand self.old.player.machine.config (said_by statement.now).1)
            (said_by statement.now).0 (W.contents out.old) (W.contents out.new)) }
    {
        match parse_command(self.config(), statement.words.as_slice()) {
            Ok(command) => {
                self.player.play(statement, command, out)?;
                self.keep(statement.line)?;
                Ok(command)
            }
            Err(fault) => Err(fault.at(statement.number)),
        }
    }

    fn keep(&mut self, line: &[u8]) -> Result<(), TextFault>
        ensures player { self.new.player ≡ self.old.player }
        ensures kept { OnOk result (self.new.script.items ≡ self.old.script.items ++ (line.now ++ codes "\n")) }
        ensures fault { IfErr result (λ fault. fault ≡ TextFault.NoMemory) }
    {
        self.script.extend_from_slice(line)?;
        self.script.push(b'\n')?;
        Ok(())
    }

    /// Plays a command of the prompt's own, which is shown as a line of a script first.
    fn play_own<W: Write>(&mut self, command: Command, out: &mut W) -> Result<(), TextFault>
        ensures config { self.new.player.machine.config ≡ self.old.player.machine.config }
        ensures plays { OnOk result (IsContinued self.old.player.machine.config self.old.player.machine.slices.items
            self.new.player.machine.slices.items self.old.script.items self.new.script.items) }
    {
        let mut line = Vec::new(self.player.alloc);
        let Ok(()) = write_command(command, &mut TextWriter { out: &mut line }) else {
            return Err(TextFault::NoMemory);
        };
        let mut answers = TextWriter { out };
        written(answers.write_bytes(&line))?;
        if let Some(statement) = Statements::of(&line).next() {
            self.play(&statement, out)?;
        }
        Ok(())
    }

    /// Plays a line of a script, and hands out the replies that it brought.
    fn answer_command<W: Write>(
        &mut self,
        statement: &Statement<'_>,
        out: &mut W,
    ) -> Result<(), TextFault>
        ensures config { self.new.player.machine.config ≡ self.old.player.machine.config }
        ensures plays { OnOk result (IsContinued self.old.player.machine.config self.old.player.machine.slices.items
            self.new.player.machine.slices.items self.old.script.items self.new.script.items) }
    {
        let before = self.performed()?;
        match self.play(statement, out)? {
            Command::Deliver(_) | Command::Pump(_) => self.hand_out(&before, out),
            _ => Ok(()),
        }
    }

    /// Asks for an access of a core under its lowest free tag.
    fn ask<W: Write>(
        &mut self,
        core: CoreId,
        op: Op,
        word: WordAddr,
        out: &mut W,
    ) -> Result<(), TextFault>
        requires { HasCore self.old.player.machine.config core }
        ensures config { self.new.player.machine.config ≡ self.old.player.machine.config }
        ensures plays { OnOk result (IsContinued self.old.player.machine.config self.old.player.machine.slices.items
            self.new.player.machine.slices.items self.old.script.items self.new.script.items) }
    {
        match machine::free_tag(&self.player.machine, core, op, word) {
            Some(tag) => {
                let request = Request { op, word, tag };
                self.play_own(Command::Issue { core, request }, out)
            }
            None => {
                let number = core.0;
                let mut answers = TextWriter { out };
                written(writeln!(answers, "no tag of core {number} is free"))
            }
        }
    }

    /// Makes the next delivery, of any slice or of this one, and hands out the replies that it brought.
    fn deliver_next<W: Write>(
        &mut self,
        slice: Option<SliceId>,
        out: &mut W,
    ) -> Result<(), TextFault>
        ensures config { self.new.player.machine.config ≡ self.old.player.machine.config }
        ensures plays { OnOk result (IsContinued self.old.player.machine.config self.old.player.machine.slices.items
            self.new.player.machine.slices.items self.old.script.items self.new.script.items) }
    {
        let next = machine::next(&self.player.machine, slice);
        if let DeliveredNext::Moved(pick) = next {
            let before = self.performed()?;
            self.play_own(Command::Deliver(pick), out)?;
            return self.hand_out(&before, out);
        }
        let mut answers = TextWriter { out };
        written(match next {
            DeliveredNext::Broken(cell) => writeln!(answers, "broken {cell}"),
            DeliveredNext::Nothing => writeln!(answers, "nothing   no message waits"),
            _ => writeln!(
                answers,
                "blocked   each message that waits has to wait for another"
            ),
        })
    }

    /// Returns how many entries each slice's log has.
    fn performed(&self) -> Result<Vec<usize>, TextFault> {
        let mut lengths = Vec::new(self.player.alloc);
        for state in &self.player.machine.slices {
            lengths.push(state.log().len())?;
        }
        Ok(lengths)
    }

    /// Hands out a reply for each entry that a slice's log has gained since its length was as in `before`.
    fn hand_out<W: Write>(&mut self, before: &[usize], out: &mut W) -> Result<(), TextFault>
        ensures config { self.new.player.machine.config ≡ self.old.player.machine.config }
        ensures plays { OnOk result (IsContinued self.old.player.machine.config self.old.player.machine.slices.items
            self.new.player.machine.slices.items self.old.script.items self.new.script.items) }
    {
        for (slice, first) in before.iter().enumerate() {
            self.hand_out_of(slice, *first, out)?;
        }
        Ok(())
    }

    fn hand_out_of<W: Write>(
        &mut self,
        slice: usize,
        first: usize,
        out: &mut W,
    ) -> Result<(), TextFault>
        ensures config { self.new.player.machine.config ≡ self.old.player.machine.config }
        ensures plays { OnOk result (IsContinued self.old.player.machine.config self.old.player.machine.slices.items
            self.new.player.machine.slices.items self.old.script.items self.new.script.items) }
    {
        if slice >= self.config().slices() {
            return Ok(());
        }
        let slice = SliceId(slice as u8);
        let end = self.player.machine.log_of(slice).len();
        for number in first..end {
            if let Some(entry) = self.player.machine.log_of(slice).get(number) {
                let core = entry.core;
                self.play_own(Command::Hand { core, slice }, out)?;
            }
        }
        Ok(())
    }
}

/// Plays commands on a new machine, each after its own line, and with what happened after its answer.
fn play_on<W: Write>(
    alloc: Global,
    config: Checked,
    misses: MissKind,
    commands: Commands<'_>,
    out: &mut W,
) -> Result<Stepper<Explaining>, TextFault>
    ensures config { IfOk result (λ player. player.machine.config ≡ config) }
    ensures played { IfOk result (λ player. IsPlayedTo config (bound_of misses config) (commands_of commands.entry)
        player.machine.slices.items (W.contents out.old) (W.contents out.new)) }
{
    let machine = Machine::build(alloc, config, misses)?;
    let player = Stepper::new(alloc, machine, Explaining { alloc });
    let mut echo = Echo { player };
    commands.play(&mut echo, out)?;
    Ok(echo.player)
}
