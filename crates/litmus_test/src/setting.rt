ghost use Rattle.std.specs.Prelude.{◌≡◌, ◌↔◌, ◌∷◌, IfOk, IfErr, IsTrue, codes, map};
ghost use Rattle.litmus_text.specs.Form.{IsFormFaultOf};
ghost use Rattle.litmus_test.specs.declared.setting.Setting.{Setting};
ghost use Rattle.litmus_test.specs.Line.{IsSettingName, WritesSetting, parts_of_setting};

use litmus_text::{ConfigLine, LineFault, one_number};

/// A line that comes before all threads.
#[derive(Clone, Copy)]
pub(super) enum Setting {
    Config(ConfigLine),
    /// How many times the test is run.
    Rounds(u64),
    /// The number of threads that move messages, besides those of the cores.
    Movers(u64),
}

impl Setting {
    /// Whether a line that begins with this word is a setting, or would be if it were well formed.
    pub(super) fn is_named(name: &[u8]) -> bool
        ensures { IsTrue result ↔ IsSettingName name.now }
    {
        name == b"rounds".as_slice() || name == b"movers".as_slice() || ConfigLine::is_named(name)
    }

    /// Parses the words of a setting.
    #[tactic(auto, unfolding(crate::specs::Line::WritesSetting))]
    pub(super) fn parse(words: &[&[u8]]) -> Result<Self, LineFault>
        ensures written { IfOk result (λ setting. WritesSetting (map (λ w. w.now) words.now) setting) }
        ensures only { IfOk result (λ setting. (other : Setting)
            → WritesSetting (map (λ w. w.now) words.now) other → other ≡ setting) }
        ensures refused { IfErr result
            (λ fault. (other : Setting) → WritesSetting (map (λ w. w.now) words.now) other → ⊥) }
        ensures fault { IfErr result (IsFormFaultOf parts_of_setting (map (λ w. w.now) words.now)) }
    {
        let Some((name, rest)) = words.split_first() else {
            return Err(LineFault::NotACommand);
        };
        if *name == b"rounds".as_slice() {
            return parse_rounds(rest);
        }
        if *name == b"movers".as_slice() {
            return parse_movers(rest);
        }
        Ok(Setting::Config(ConfigLine::parse(words)?))
    }
}

#[tactic(auto, unfolding(crate::specs::Line::WritesSetting))]
fn parse_rounds(words: &[&[u8]]) -> Result<Setting, LineFault>
    ensures written { IfOk result (λ setting. WritesSetting (codes "rounds" ∷ map (λ w. w.now) words.now) setting) }
    ensures only { IfOk result (λ setting. (other : Setting)
        → WritesSetting (codes "rounds" ∷ map (λ w. w.now) words.now) other → other ≡ setting) }
    ensures refused { IfErr result
        (λ fault. (other : Setting) → WritesSetting (codes "rounds" ∷ map (λ w. w.now) words.now) other → ⊥) }
    ensures fault { IfErr result (IsFormFaultOf parts_of_setting (codes "rounds" ∷ map (λ w. w.now) words.now)) }
{
    Ok(Setting::Rounds(one_number(words)?))
}

#[tactic(auto, unfolding(crate::specs::Line::WritesSetting))]
fn parse_movers(words: &[&[u8]]) -> Result<Setting, LineFault>
    ensures written { IfOk result (λ setting. WritesSetting (codes "movers" ∷ map (λ w. w.now) words.now) setting) }
    ensures only { IfOk result (λ setting. (other : Setting)
        → WritesSetting (codes "movers" ∷ map (λ w. w.now) words.now) other → other ≡ setting) }
    ensures refused { IfErr result
        (λ fault. (other : Setting) → WritesSetting (codes "movers" ∷ map (λ w. w.now) words.now) other → ⊥) }
    ensures fault { IfErr result (IsFormFaultOf parts_of_setting (codes "movers" ∷ map (λ w. w.now) words.now)) }
{
    Ok(Setting::Movers(one_number(words)?))
}
