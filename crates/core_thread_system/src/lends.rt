use super::cores::Core;
use super::names::SystemNames;
use mshr_file::MissFile;
use receipt_ledger::{Lends, Port};

// A core returns references to its port of each slice, also of one that its machine doesn't have.

impl<'a, F: MissFile, M: SystemNames> Lends<Port<M::S0>, 0> for Core<'a, F, M> {
    ghost use Rattle.std.specs.Prelude.{refl};

    ghost part = { λ c. c.p0 };

    ghost with_part = { λ c port. record c { p0 = port } };

    fn part(&self) -> &Port<M::S0> {
        &self.port0
    }

    fn part_mut(&mut self) -> &mut Port<M::S0> {
        &mut self.port0
    }

    ghost same = { λ c. refl };
}

impl<'a, F: MissFile, M: SystemNames> Lends<Port<M::S1>, 1> for Core<'a, F, M> {
    ghost use Rattle.std.specs.Prelude.{refl};

    ghost part = { λ c. c.p1 };

    ghost with_part = { λ c port. record c { p1 = port } };

    fn part(&self) -> &Port<M::S1> {
        &self.port1
    }

    fn part_mut(&mut self) -> &mut Port<M::S1> {
        &mut self.port1
    }

    ghost same = { λ c. refl };
}

impl<'a, F: MissFile, M: SystemNames> Lends<Port<M::S2>, 2> for Core<'a, F, M> {
    ghost use Rattle.std.specs.Prelude.{refl};

    ghost part = { λ c. c.p2 };

    ghost with_part = { λ c port. record c { p2 = port } };

    fn part(&self) -> &Port<M::S2> {
        &self.port2
    }

    fn part_mut(&mut self) -> &mut Port<M::S2> {
        &mut self.port2
    }

    ghost same = { λ c. refl };
}

impl<'a, F: MissFile, M: SystemNames> Lends<Port<M::S3>, 3> for Core<'a, F, M> {
    ghost use Rattle.std.specs.Prelude.{refl};

    ghost part = { λ c. c.p3 };

    ghost with_part = { λ c port. record c { p3 = port } };

    fn part(&self) -> &Port<M::S3> {
        &self.port3
    }

    fn part_mut(&mut self) -> &mut Port<M::S3> {
        &mut self.port3
    }

    ghost same = { λ c. refl };
}
