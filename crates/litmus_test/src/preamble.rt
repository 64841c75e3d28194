ghost use Rattle.std.specs.Prelude.{◌≤◌};
ghost use Rattle.litmus_test.specs.declared.test.TheConstants.{MOST_MOVERS, MOST_ROUNDS};

use super::setting::Setting;
use super::test::{LitmusTest, MOST_MOVERS, MOST_ROUNDS};
use litmus_text::{ConfigLine, LineFault, Settings, TextFault};
use std::alloc::Global;

/// The settings of a test that were read so far.
#[derive(Drop)]
pub(super) struct Preamble {
    pub settings: Settings,
    pub rounds: u64,
    pub movers: u8,
    ghost some_round: { 1 ≤ rounds },
    ghost few_rounds: { rounds ≤ MOST_ROUNDS },
    ghost few_movers: { movers ≤ MOST_MOVERS },
}

impl Preamble {
    ghost use Rattle.std.specs.Prelude.{◌≡◌, IfErr, IfOk, OnOk};
    ghost use Rattle.litmus_text.specs.Fault.{IsAtLine};
    ghost use Rattle.litmus_test.specs.declared.setting.Setting.{Setting};
    ghost use Rattle.litmus_test.specs.Reading.{IsNoMemoryOr, said_first};
    ghost use Rattle.litmus_test.specs.Fault.{IsPlaceFault, IsSettingsFault};
    ghost use Rattle.litmus_test.specs.Line.{setting as setting_line};
    ghost use Rattle.litmus_test.specs.Sound.{IsChecked};
    ghost use Rattle.litmus_test.specs.Text.{MaySet, said_by, said_nothing, said_setting};

    #[tactic(auto, unfolding(crate::specs::Reading::said_first))]
    pub(super) fn new(alloc: Global) -> Self
        ensures { said_first result ≡ said_nothing }
    {
        Preamble {
            settings: Settings::new(alloc),
            rounds: 1,
            movers: 1,
        }
    }

    /// Takes one more setting, from the line with this number.
    #[tactic(auto, unfolding(crate::specs::Reading::said_first, crate::specs::Fault::HasFault))]
    pub(super) fn take(&mut self, number: usize, setting: Setting) -> Result<(), TextFault>
        ensures may { OnOk result (MaySet (said_first self.old) setting) }
        ensures said { OnOk result (said_first self.new ≡ said_setting (said_first self.old) setting) }
        ensures refused { IfErr result (IsNoMemoryOr (¬ MaySet (said_first self.old) setting)) }
        ensures line { IfErr result (IsAtLine (λ n. n ≡ number)) }
        ensures fault { IfErr result (IsPlaceFault (said_first self.old) number (setting_line setting)) }
    {
        match setting {
            Setting::Config(line) => self.configure(line),
            Setting::Rounds(rounds) if 1 <= rounds && rounds <= MOST_ROUNDS => {
                self.rounds = rounds;
                Ok(())
            }
            Setting::Movers(movers) if movers <= MOST_MOVERS as u64 => {
                self.movers = movers as u8;
                Ok(())
            }
            Setting::Rounds(_) | Setting::Movers(_) => Err(LineFault::OutOfRange.at(number)),
        }
    }

    #[tactic(auto, unfolding(crate::specs::Reading::said_first))]
    fn configure(&mut self, line: ConfigLine) -> Result<(), TextFault>
        ensures said { OnOk result (said_first self.new ≡ said_setting (said_first self.old) (Setting.Config line)) }
        ensures refused { IfErr result (λ fault. fault ≡ TextFault.NoMemory) }
    {
        line.set(&mut self.settings)?;
        Ok(())
    }

    /// Returns the test that has these settings, and no thread.
    #[tactic(auto, unfolding(crate::specs::Reading::said_first, crate::specs::Text::said_by))]
    pub(super) fn test<'a>(self, alloc: Global) -> Result<LitmusTest<'a>, TextFault>
        ensures said { IfOk result (λ test. said_by test ≡ said_first self) }
        ensures checked { OnOk result (IsChecked self.settings.config) }
        ensures refused { IfErr result (IsNoMemoryOr (¬ IsChecked self.settings.config)) }
        ensures line { IfErr result (IsAtLine (λ number. ⊥)) }
        ensures fault { IfErr result (IsSettingsFault self.settings.config) }
    {
        let settings = self.settings;
        let misses = settings.misses;
        let config = match settings.config.check() {
            Ok(config) => config,
            Err(error) => return Err(TextFault::Config(error)),
        };
        Ok(LitmusTest {
            config,
            misses,
            rounds: self.rounds,
            movers: self.movers,
            threads: Vec::new(alloc),
            names: Vec::new(alloc),
            forbidden: Vec::new(alloc),
        })
    }
}
