//! Which value and which seed a row has.
ghost use Rattle.std.specs.Prelude.{◌≡◌};
ghost use Rattle.program_sweep.specs.Text.{seed_in, value_in};

use super::seeds::Seeds;
use super::setting::Setting;

impl<'a> Setting<'a> {
    /// Returns its value in row `row`.
    pub(crate) fn value_in(&self, row: u64) -> &'a str
        ensures { result.now ≡ value_in self.now row }
    {
        let place = row / self.span % self.values.len() as u64;
        self.values[place as usize]
    }
}

impl Seeds {
    /// Returns the seed of row `row`.
    pub(crate) fn seed_in(self, row: u64) -> u64
        ensures { result ≡ seed_in self row }
    {
        self.first + row % self.count
    }
}
