ghost use Rattle.std.specs.Prelude.{◌≡◌, ◌↔◌, IsTrue, ◌≢◌, ℕ, Bool, IfOk, IfErr, IfSome, IfNone, OnOk, OnErr, map};
ghost use Rattle.std.specs.Prelude.{[], ◌∷◌};
ghost use Rattle.litmus_text.specs.Form.{Writes, IsFormFaultOf, key};
ghost use Rattle.litmus_text.specs.ConfigLine.{name_of_misses, name_of_setting, parts_of_config_line, parts_of_misses};
ghost use Rattle.litmus_text.specs.ConfigLine.{parts_of_setting};
ghost use Rattle.litmus_text.specs.Field.{name_of};
ghost use Rattle.litmus_text.specs.declared.config_line.ConfigLine.{ConfigLine};
ghost use Rattle.mshr_file.specs.declared.kind.MissKind.{MissKind};

use super::fault::LineFault;
use super::field::{Count, FIELDS, Field};
use super::number::{one_number, two_numbers};
use super::policy::parse_policy;
use super::settings::Settings;
use super::table::value_named;
use address_map::{PolicyKind, WordAddr};
use mshr_file::MissKind;
use std::alloc::AllocError;

/// A line of a text that configures the machine.
#[derive(Clone, Copy, Debug, PartialEq, Eq)]
pub enum ConfigLine {
    Count(Count, u64),
    Policy(PolicyKind),
    Misses(MissKind),
    /// Whether the machine has the exclusive state.
    Exclusive(bool),
    /// A word and the value that it begins with.
    Init(WordAddr, u64),
    Counter(WordAddr),
}

impl ConfigLine {
    ghost use Rattle.litmus_text.specs.ConfigLine.{IsLateFault, after_config_line};
    ghost use Rattle.litmus_text.specs.Field.{IsFieldName};

    /// Whether a line that begins with this word configures the machine, or would if it were well formed.
    pub fn is_named(name: &[u8]) -> bool
        ensures { IsTrue result ↔ IsFieldName name.now }
    {
        value_named(&FIELDS, name).is_some()
    }

    /// Parses the words of a configuration line.
    pub fn parse(words: &[&[u8]]) -> Result<Self, LineFault>
        ensures written { IfOk result (λ line. Writes (map (λ w. w.now) words.now) (parts_of_config_line line)) }
        ensures only { IfOk result (λ line. (other : ConfigLine)
            → Writes (map (λ w. w.now) words.now) (parts_of_config_line other) → other ≡ line) }
        ensures refused { IfErr result
            (λ fault. (line : ConfigLine) → Writes (map (λ w. w.now) words.now) (parts_of_config_line line) → ⊥) }
        ensures fault { IfErr result (IsFormFaultOf parts_of_config_line (map (λ w. w.now) words.now)) }
    {
        let Some((name, rest)) = words.split_first() else {
            return Err(LineFault::NotACommand);
        };
        match value_named(&FIELDS, name) {
            Some(field) => parse_called(field, rest),
            None => Err(LineFault::NotACommand),
        }
    }

    /// Returns what is wrong with a configuration line that follows the configuration.
    pub fn late_fault(words: &[&[u8]]) -> LineFault
        ensures { IsLateFault (map (λ w. w.now) words.now) result }
    {
        match ConfigLine::parse(words) {
            Ok(_) => LineFault::LateConfiguration,
            Err(fault) => fault,
        }
    }

    /// Sets what this line names. For each field the last line counts, but initial values and counters add
    /// up, in the order of the lines. Only they allocate.
    pub fn set(self, settings: &mut Settings) -> Result<(), AllocError>
        ensures ok { OnOk result (settings.new ≡ after_config_line settings.old self) }
        ensures err { OnErr result (settings.new ≡ settings.old) }
    {
        match self {
            ConfigLine::Count(count, number) => count.set(&mut settings.config, number),
            ConfigLine::Policy(policy) => settings.config.policy = policy,
            ConfigLine::Misses(misses) => settings.misses = misses,
            ConfigLine::Exclusive(exclusive) => settings.config.exclusive = exclusive,
            ConfigLine::Init(word, value) => settings.config.init.push(word, value)?,
            ConfigLine::Counter(word) => settings.config.counters.push(word)?,
        }
        Ok(())
    }
}

// Parses the words that follow the field's name.
fn parse_called(field: Field, words: &[&[u8]]) -> Result<ConfigLine, LineFault>
    ensures written { IfOk result
        (λ line. Writes (name_of field ∷ map (λ w. w.now) words.now) (parts_of_config_line line)) }
    ensures only { IfOk result (λ line. (other : ConfigLine)
        → Writes (name_of field ∷ map (λ w. w.now) words.now) (parts_of_config_line other) → other ≡ line) }
    ensures fault { IfErr result
        (IsFormFaultOf parts_of_config_line (name_of field ∷ map (λ w. w.now) words.now)) }
{
    match field {
        Field::Count(count) => Ok(ConfigLine::Count(count, one_number(words)?)),
        Field::Policy => Ok(ConfigLine::Policy(parse_policy(words)?)),
        Field::Misses => Ok(ConfigLine::Misses(misses(words)?)),
        Field::Exclusive => Ok(ConfigLine::Exclusive(setting(words)?)),
        Field::Init => {
            let (word, value) = two_numbers(words)?;
            Ok(ConfigLine::Init(WordAddr(word), value))
        }
        Field::Counter => Ok(ConfigLine::Counter(WordAddr(one_number(words)?))),
    }
}

#[tactic(auto, using(crate::proofs::FormLemmas::wrong_count, crate::proofs::FormLemmas::wrong_form), unfolding(crate::specs::Form::IsFaultOf))]
fn misses(words: &[&[u8]]) -> Result<MissKind, LineFault>
    ensures written { IfOk result (λ kind. Writes (map (λ w. w.now) words.now) (key (name_of_misses kind) ∷ [])) }
    ensures only { IfOk result (λ kind. (other : MissKind)
        → Writes (map (λ w. w.now) words.now) (key (name_of_misses other) ∷ []) → other ≡ kind) }
    ensures refused { IfErr result
        (λ fault. (kind : MissKind) → Writes (map (λ w. w.now) words.now) (key (name_of_misses kind) ∷ []) → ⊥) }
    ensures fault { IfErr result (IsFormFaultOf parts_of_misses (map (λ w. w.now) words.now)) }
{
    match words {
        [name] => miss_kind(name).ok_or(LineFault::NotACommand),
        _ => Err(LineFault::NotACommand),
    }
}

/// Each kind of miss registers, by its name.
static MISS_KINDS: [(&[u8], MissKind); 2] = [
    (b"explicit", MissKind::Explicit),
    (b"inverted", MissKind::Inverted),
];

pub(super) fn miss_kind(name: &[u8]) -> Option<MissKind>
    ensures named { IfSome result (λ kind. name.now ≡ name_of_misses kind) }
    ensures refused { IfNone result ((kind : MissKind) → name.now ≢ name_of_misses kind) }
{
    value_named(&MISS_KINDS, name)
}

#[tactic(auto, using(crate::proofs::FormLemmas::wrong_count, crate::proofs::FormLemmas::wrong_form), unfolding(crate::specs::Form::IsFaultOf))]
fn setting(words: &[&[u8]]) -> Result<bool, LineFault>
    ensures written { IfOk result (λ is_on. Writes (map (λ w. w.now) words.now) (key (name_of_setting is_on) ∷ [])) }
    ensures only { IfOk result (λ is_on. (other : Bool)
        → Writes (map (λ w. w.now) words.now) (key (name_of_setting other) ∷ []) → other ≡ is_on) }
    ensures refused { IfErr result
        (λ fault. (is_on : Bool) → Writes (map (λ w. w.now) words.now) (key (name_of_setting is_on) ∷ []) → ⊥) }
    ensures fault { IfErr result (IsFormFaultOf parts_of_setting (map (λ w. w.now) words.now)) }
{
    match words {
        [name] => is_on(name).ok_or(LineFault::NotACommand),
        _ => Err(LineFault::NotACommand),
    }
}

/// How a setting is written that is on or off.
static SETTINGS: [(&[u8], bool); 2] = [(b"on", true), (b"off", false)];

pub(super) fn is_on(name: &[u8]) -> Option<bool>
    ensures named { IfSome result (λ is_on. name.now ≡ name_of_setting is_on) }
    ensures refused { IfNone result ((is_on : Bool) → name.now ≢ name_of_setting is_on) }
{
    value_named(&SETTINGS, name)
}
