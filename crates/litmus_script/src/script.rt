ghost use Rattle.std.specs.Prelude.{◌≡◌, ◌↔◌, ◌∷◌, IfErr, IfOk, IsTrue, Ok, OnOk, false, map, true};
ghost use Rattle.std.specs.Str.Lines.{lines};
ghost use Rattle.address_map.specs.Config.{checked_of};
ghost use Rattle.mshr_file.specs.Miss.{bound_of};
ghost use Rattle.litmus_script.specs.Play.{IsCommandFault, PlaysAll, PlaysOne, PlaysUpTo};
ghost use Rattle.litmus_script.specs.Fault.{BeginsAsConfig, IsFaultBehind};
ghost use Rattle.litmus_script.specs.Script.{BeginOtherwise, IsConfigured, IsLineFault, IsNotConfigured, IsReadAs};
ghost use Rattle.litmus_script.specs.Script.{IsRefused, IsScript, TakesLine, commands_of, left_of, said_by};
ghost use Rattle.litmus_script.specs.Script.{Echoed, HasPlayed, IsPlayedOn, IsPlayedUpTo, IsRun, IsRunUpTo, Plainly};
ghost use Rattle.litmus_script.specs.Script.{Playing};
ghost use Rattle.address_map.specs.declared.config.Config.{Config};
ghost use Rattle.litmus_text.specs.Command.{IsFaultOfCommand};
ghost use Rattle.litmus_text.specs.Statement.{statements_from};

use super::echo::Echo;
use super::machine::Machine;
use super::player::Player;
use address_map::{Checked, Config};
use litmus_text::{
    ConfigLine, LineFault, Settings, Statement, Statements, TextFault, parse_command,
};
use mshr_file::MissKind;
use std::alloc::Global;
use std::io::Write;

/// Runs a script: its configuration, then its commands in order. Each command writes its answer, after its own line
/// if echo is on. Returns the exit status. A fault ends the run; what was written before it stays.
pub fn run_script<W: Write>(
    alloc: Global,
    input: &[u8],
    echo: bool,
    out: &mut W,
) -> Result<u8, TextFault>
    ensures status { IfOk result (λ status. status ≡ 0) }
    ensures printed { OnOk result (IsRun (Echoed echo Plainly) (statements_from 0 (lines input.now))
        (W.contents out.old) (W.contents out.new)) }
    ensures fault { IfErr result (IsRunUpTo (Echoed echo Plainly) (statements_from 0 (lines input.now))
        (W.contents out.old) (W.contents out.new)) }
{
    run_in_style(alloc, input, &Plain { echo }, out)
}

/// Runs a script in this style.
pub fn run_in_style<S: Style, W: Write>(
    alloc: Global,
    input: &[u8],
    style: &S,
    out: &mut W,
) -> Result<u8, TextFault>
    ensures status { IfOk result (λ status. status ≡ 0) }
    ensures printed { OnOk result (IsRun (S.playing style.now) (statements_from 0 (lines input.now))
        (W.contents out.old) (W.contents out.new)) }
    ensures fault { IfErr result (IsRunUpTo (S.playing style.now) (statements_from 0 (lines input.now))
        (W.contents out.old) (W.contents out.new)) }
{
    let Some(script) = Script::read(alloc, input)? else {
        return Ok(0);
    };
    run_read(alloc, script, style, out)?;
    Ok(0)
}

fn run_read<S: Style, W: Write>(
    alloc: Global,
    script: Script<'_>,
    style: &S,
    out: &mut W,
) -> Result<(), TextFault>
    ensures played { OnOk result (IsPlayedOn (S.playing style.now) script.entry.config
        (bound_of script.entry.misses script.entry.config)
        (commands_of script.entry.commands) (W.contents out.old) (W.contents out.new)) }
    ensures fault { IfErr result (IsPlayedUpTo (S.playing style.now) script.entry.config
        (bound_of script.entry.misses script.entry.config)
        (commands_of script.entry.commands) (W.contents out.old) (W.contents out.new)) }
{
    let Script {
        config,
        misses,
        commands,
    } = script;
    let machine = Machine::build(alloc, config, misses)?;
    style.play(machine, commands, out)
}

/// A style in which the commands of a script are played on a new machine.
pub trait Style {
    ghost playing: { Self → Playing };

    /// Plays the commands in order, up to the first fault.
    fn play<W: Write>(
        &self,
        machine: Machine,
        commands: Commands<'_>,
        out: &mut W,
    ) -> Result<(), TextFault>
        ensures played { OnOk result (HasPlayed (playing self.now) machine.config (commands_of commands.entry)
            machine.slices.items (W.contents out.old) (W.contents out.new)) }
        ensures fault { IfErr result (PlaysUpTo (playing self.now machine.config) machine.config
            (commands_of commands.entry)
            machine.slices.items (W.contents out.old) (W.contents out.new)) };
}

/// Writes each command's answer alone, or after the command's own line.
#[derive(Clone, Copy)]
pub struct Plain {
    pub echo: bool,
}

impl Style for Plain {
    ghost playing = { λ style. Echoed style.echo Plainly };

    fn play<W: Write>(
        &self,
        machine: Machine,
        commands: Commands<'_>,
        out: &mut W,
    ) -> Result<(), TextFault> {
        if self.echo {
            play_echoed(machine, commands, out)
        } else {
            play_alone(machine, commands, out)
        }
    }
}

/// Plays commands on a machine, each after its own line.
fn play_echoed<W: Write>(
    machine: Machine,
    commands: Commands<'_>,
    out: &mut W,
) -> Result<(), TextFault>
    ensures played { OnOk result (HasPlayed (Echoed true Plainly) machine.config
        (commands_of commands.entry) machine.slices.items
        (W.contents out.old) (W.contents out.new)) }
    ensures fault { IfErr result (PlaysUpTo (Echoed true Plainly machine.config) machine.config
        (commands_of commands.entry)
        machine.slices.items (W.contents out.old) (W.contents out.new)) }
{
    let mut echo = Echo { player: machine };
    commands.play(&mut echo, out)
}

/// Plays commands on a machine.
fn play_alone<W: Write>(
    machine: Machine,
    commands: Commands<'_>,
    out: &mut W,
) -> Result<(), TextFault>
    ensures played { OnOk result (HasPlayed (Echoed false Plainly) machine.config
        (commands_of commands.entry) machine.slices.items
        (W.contents out.old) (W.contents out.new)) }
    ensures fault { IfErr result (PlaysUpTo (Echoed false Plainly machine.config) machine.config
        (commands_of commands.entry)
        machine.slices.items (W.contents out.old) (W.contents out.new)) }
{
    let mut player = machine;
    commands.play(&mut player, out)
}

/// A script whose configuration was read.
#[derive(Drop)]
pub struct Script<'a> {
    pub config: Checked,
    pub misses: MissKind,
    pub commands: Commands<'a>,
}

impl<'a> Script<'a> {
    /// Reads the configuration of a script. Returns none if the script is empty.
    pub fn read(alloc: Global, input: &'a [u8]) -> Result<Option<Self>, TextFault>
        ensures read { IfOk result (IsReadAs (statements_from 0 (lines input.now))) }
        ensures fault { IfErr result (IsNotConfigured (statements_from 0 (lines input.now))) }
    {
        let mut statements = Statements::of(input);
        let Some(first) = statements.next() else {
            return Ok(None);
        };
        Ok(Some(Script::read_from(alloc, first, statements)?))
    }

    fn read_from(
        alloc: Global,
        first: Statement<'a>,
        statements: Statements<'a>,
    ) -> Result<Self, TextFault>
        ensures read { IfOk result (IsScript (said_by first.entry ∷ statements.entry)) }
        ensures fault { IfErr result (IsNotConfigured (said_by first.entry ∷ statements.entry)) }
    {
        let mut rest = statements;
        let (settings, first) = read_settings(alloc, first, &mut rest)?;
        let Settings { config, misses } = settings;
        Ok(Script {
            config: checked(config)?,
            misses,
            commands: Commands { first, rest },
        })
    }
}

/// The statements that follow the configuration. The first may have been read already.
#[derive(Drop)]
pub struct Commands<'a> {
    first: Option<Statement<'a>>,
    rest: Statements<'a>,
}

impl Commands<'_> {
    /// Plays the commands in order, up to the first fault.
    pub fn play<P: Player, W: Write>(self, player: &mut P, out: &mut W) -> Result<(), TextFault>
        ensures config { P.config_of player.new ≡ P.config_of player.old }
        ensures played { OnOk result (PlaysAll P.plays (P.config_of player.old)
            (commands_of self.entry) player.old player.new
            (W.contents out.old) (W.contents out.new)) }
        ensures fault { IfErr result (PlaysUpTo P.plays (P.config_of player.old) (commands_of self.entry) player.old
            (W.contents out.old) (W.contents out.new)) }
    {
        let Commands { first, rest } = self;
        match first {
            Some(statement) => {
                play_statement(player, &statement, out)?;
                play_all(rest, player, out)
            }
            None => play_all(rest, player, out),
        }
    }
}

fn play_all<P: Player, W: Write>(
    mut statements: Statements<'_>,
    player: &mut P,
    out: &mut W,
) -> Result<(), TextFault>
    ensures config { P.config_of player.new ≡ P.config_of player.old }
    ensures played { OnOk result (PlaysAll P.plays (P.config_of player.old) statements.entry player.old player.new
        (W.contents out.old) (W.contents out.new)) }
    ensures fault { IfErr result (PlaysUpTo P.plays (P.config_of player.old) statements.entry player.old
        (W.contents out.old) (W.contents out.new)) }
{
    let mut statement = Statement::blank();
    'lines: while statements.read(&mut statement) {
        play_statement(player, &statement, out)?;
    }
    Ok(())
}

fn play_statement<P: Player, W: Write>(
    player: &mut P,
    statement: &Statement<'_>,
    out: &mut W,
) -> Result<(), TextFault>
    ensures config { P.config_of player.new ≡ P.config_of player.old }
    ensures played { OnOk result (PlaysOne P.plays (P.config_of player.old)
        (said_by statement.now).1 player.old player.new
        (W.contents out.old) (W.contents out.new)) }
    ensures fault { IfErr result (IsCommandFault (P.config_of player.old) (said_by statement.now)
        (W.contents out.old) (W.contents out.new)) }
{
    let words = statement.words.as_slice();
    match parse_command(player.config(), words) {
        Ok(command) => player.play(statement, command, out),
        Err(fault) => Err(fault_behind(words, fault).at(statement.number)),
    }
}

fn checked(config: Config) -> Result<Checked, TextFault>
    ensures checked { IfOk result (λ checked. checked_of config ≡ Ok checked) }
    ensures refused { IfErr result (IsRefused config) }
{
    match config.check() {
        Ok(checked) => Ok(checked),
        Err(error) => Err(TextFault::Config(error)),
    }
}

/// Reads the lines that configure the machine. Also returns the first statement that isn't one of them, if there
/// is one.
fn read_settings<'a>(
    alloc: Global,
    first: Statement<'a>,
    statements: &mut Statements<'a>,
) -> Result<(Settings, Option<Statement<'a>>), TextFault>
    ensures read { IfOk result (λ read. IsConfigured (said_by first.entry ∷ statements.old) read.0
        (left_of read.1 statements.new)) }
    ensures last { IfOk result (λ read. BeginOtherwise (left_of read.1 statements.new)) }
    ensures fault { IfErr result (IsNotConfigured (said_by first.entry ∷ statements.old)) }
{
    let mut settings = Settings::new(alloc);
    let mut statement = first;
    'lines: loop {
        if !is_config(statement.words.as_slice()) {
            return Ok((settings, Some(statement)));
        }
        configure(&mut settings, &statement)?;
        match statements.next() {
            Some(next) => statement = next,
            None => return Ok((settings, None)),
        }
    }
}

/// Whether a line of these words configures the machine.
fn is_config(words: &[&[u8]]) -> bool
    ensures { IsTrue result ↔ BeginsAsConfig (map (λ w. w.now) words.now) }
{
    match words.split_first() {
        Some((name, _)) => ConfigLine::is_named(name),
        None => false,
    }
}

fn configure(settings: &mut Settings, statement: &Statement<'_>) -> Result<(), TextFault>
    ensures taken { OnOk result (TakesLine (said_by statement.now).1 settings.old settings.new) }
    ensures fault { IfErr result (IsLineFault (said_by statement.now)) }
{
    match ConfigLine::parse(statement.words.as_slice()) {
        Ok(line) => Ok(line.set(settings)?),
        Err(fault) => Err(fault.at(statement.number)),
    }
}

/// Returns what is wrong with a line after the configuration that has this fault as a command.
fn fault_behind(words: &[&[u8]], fault: LineFault) -> LineFault
    ensures { (config : Config) → IsFaultOfCommand config (map (λ w. w.now) words.now) fault
        → IsFaultBehind config (map (λ w. w.now) words.now) result }
{
    if is_config(words) {
        return ConfigLine::late_fault(words);
    }
    fault
}
