ghost use Rattle.std.specs.Prelude.{◌≡◌, List, ℕ, Option, Some, [], IfErr, IfOk, map};
ghost use Rattle.std.specs.Str.Lines.{lines};
ghost use Rattle.mshr_file.specs.Miss.{bound_of};
ghost use Rattle.litmus_script.specs.Script.{IsPlayedUpTo, IsRunUpTo, commands_of};
ghost use Rattle.litmus_text.specs.Statement.{statements_from};
ghost use Rattle.script_test.specs.Answers.{Answering, AreAnswered, AreAnswers};

use address_map::Checked;
use litmus_script::{Commands, Machine, Player, Script};
use litmus_text::{Command, Statement, TextFault};
use std::alloc::Global;
use std::io::Write;

/// Plays a script, and returns what each of its commands prints.
pub fn texts_of(alloc: Global, script: &[u8]) -> Result<Vec<Vec<u8>>, TextFault>
    ensures answers { IfOk result
        (λ texts. AreAnswers (statements_from 0 (lines script.now)) (map (λ t. t.items) texts.items)) }
    ensures fault { IfErr result (λ fault. (after : Option (List ℕ))
        × IsRunUpTo Answering (statements_from 0 (lines script.now)) (Some []) after fault) }
{
    match Script::read(alloc, script)? {
        Some(script) => texts_of_read(alloc, script),
        None => Ok(Vec::new(alloc)),
    }
}

fn texts_of_read(alloc: Global, script: Script<'_>) -> Result<Vec<Vec<u8>>, TextFault>
    ensures answers { IfOk result (λ texts. AreAnswered script.entry.config
        (bound_of script.entry.misses script.entry.config)
        (commands_of script.entry.commands) (map (λ t. t.items) texts.items)) }
    ensures fault { IfErr result (λ fault. (after : Option (List ℕ)) × IsPlayedUpTo Answering script.entry.config
        (bound_of script.entry.misses script.entry.config) (commands_of script.entry.commands) (Some []) after fault) }
{
    let Script {
        config,
        misses,
        commands,
    } = script;
    let machine = Machine::build(alloc, config, misses)?;
    let mut recorder = Recorder {
        machine,
        texts: Vec::new(alloc),
        alloc,
    };
    let mut nothing = Vec::new(alloc);
    commands.play(&mut recorder, &mut nothing)?;
    let Recorder { texts, .. } = recorder;
    Ok(texts)
}

/// A player that writes nothing, and keeps each answer.
#[derive(Drop)]
struct Recorder {
    machine: Machine,
    texts: Vec<Vec<u8>>,
    alloc: Global,
}

impl Player for Recorder {
    ghost use Rattle.std.specs.Prelude.{◌≡◌, ℕ, List, [], ◌∷◌, ◌++◌, Some, map};
    ghost use Rattle.litmus_script.specs.Prints.{IsPrinted};

    ghost config_of = { λ recorder. recorder.machine.config };

    ghost plays = { λ old line command before after new. (new.machine.config ≡ old.machine.config)
        × (text : List ℕ) × IsPrinted old.machine.config command old.machine.slices.items
        new.machine.slices.items (Some []) (Some text)
        × (map (λ t. t.items) new.texts.items ≡ map (λ t. t.items) old.texts.items ++ text ∷ []) };

    fn config(&self) -> &Checked {
        &self.machine.config
    }

    fn play<W: Write>(
        &mut self,
        _statement: &Statement<'_>,
        command: Command,
        _out: &mut W,
    ) -> Result<(), TextFault> {
        let mut text = Vec::new(self.alloc);
        let Ok(()) = self.machine.run(command, &mut text) else {
            // writing to memory fails when there is none left
            return Err(TextFault::NoMemory);
        };
        self.texts.push(text)?;
        Ok(())
    }
}
