ghost use Rattle.std.specs.Prelude.{◌≡◌};

use address_map::Config;
use mshr_file::MissKind;
use std::alloc::Global;

/// What a text configures: a machine's shape, before it is checked, and the miss registers of its caches.
#[derive(Debug, Drop)]
pub struct Settings {
    pub config: Config,
    pub misses: MissKind,
}

impl Settings {
    ghost use Rattle.litmus_text.specs.Settings.{default_settings};

    /// Returns the defaults: the machine of `Config::new`, with explicit miss registers.
    pub fn new(alloc: Global) -> Self
        ensures { result ≡ default_settings }
    {
        Settings {
            config: Config::new(alloc),
            misses: MissKind::Explicit,
        }
    }
}
