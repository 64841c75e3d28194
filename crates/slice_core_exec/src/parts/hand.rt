ghost use Rattle.std.specs.Prelude.{◌<◌, length};
ghost use Rattle.slice_core_spec.specs.Calls.{PartsView, AfterHand, HasEntries};
ghost use Rattle.slice_core_spec.specs.View.{View};

use super::Parts;
use address_map::CoreId;
use mshr_file::MissFile;
use slice_log::Numbered;

impl<F: MissFile> Parts<F> {
    /// Hands out the core's performed entry of the least number that isn't handed out yet.
    pub fn hand(&mut self, core: CoreId) -> Option<Numbered>
        requires core { core.0 < length self.old.view.caches }
        requires entries { HasEntries self.old.view core }
        ensures { AfterHand self.old core result self.new }
    {
        let Some(number) = self.caches[core.0 as usize].hand() else {
            return None;
        };
        let entry = self.log[number as usize];
        Some(Numbered { number, entry })
    }
}
