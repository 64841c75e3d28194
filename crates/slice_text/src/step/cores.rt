use address_map::{CoreId, CoreSet};
use std::fmt;

/// The cores of a set, ascending, with commas between them; a set without cores is a dash.
#[derive(Clone, Copy)]
pub struct Cores(pub CoreSet);

impl fmt::Display for Cores {
    ghost use Rattle.std.specs.Prelude.{Some};
    ghost use Rattle.address_map.specs.CoreSet.{members};
    ghost use Rattle.slice_text.specs.Cores.{text_of_cores};

    ghost output = { λ cores. Some (text_of_cores (members cores.0)) };

    fn fmt<W: fmt::Write>(&self, f: &mut fmt::Formatter<W>) -> fmt::Result {
        let mut rest = self.0;
        let Some(CoreId(first)) = rest.pop_first() else {
            return f.write_str("-");
        };
        write!(f, "{first}")?;
        while let Some(CoreId(core)) = rest.pop_first() {
            write!(f, ",{core}")?;
        }
        Ok(())
    }
}

/// An invalidation to each core of a set, after another message.
#[derive(Clone, Copy)]
pub struct Invalidations(pub CoreSet);

impl fmt::Display for Invalidations {
    ghost use Rattle.std.specs.Prelude.{Some};
    ghost use Rattle.address_map.specs.CoreSet.{members};
    ghost use Rattle.slice_text.specs.Cores.{text_of_invalidations};

    ghost output = { λ cores. Some (text_of_invalidations (members cores.0)) };

    fn fmt<W: fmt::Write>(&self, f: &mut fmt::Formatter<W>) -> fmt::Result {
        let mut rest = self.0;
        while let Some(CoreId(core)) = rest.pop_first() {
            write!(f, ", Inv to core {core}")?;
        }
        Ok(())
    }
}
