ghost use Rattle.std.specs.Prelude.{◌≡◌};
ghost use Rattle.std.specs.Borrow.{Lends as lent, sem};

/// A type that returns references to a part of itself, as a core to its port of the slice with the number `K`.
pub trait Lends<P, const K: usize> {
    ghost part: { Self → P };

    ghost with_part: { Self → P → Self };

    fn part(&self) -> &P
        ensures { result.now ≡ part self.now };

    fn part_mut(&mut self) -> &mut P
        ensures value { result.now ≡ part self.old }
        ensures* lends { sem 𝓛 (lent Self.row P.row self.entry result (with_part self.old)) };

    ghost same: { (x : Self) → with_part x (part x) ≡ x };
}

/// A port that nothing else holds: the part is all of it.
#[derive(Drop)]
pub struct Alone<P> {
    pub port: P,
}

impl<P, const K: usize> Lends<P, K> for Alone<P> {
    ghost use Rattle.std.specs.Prelude.{refl};

    ghost part = { λ a. a.port };

    ghost with_part = { λ a port. record { port = port } };

    fn part(&self) -> &P {
        &self.port
    }

    fn part_mut(&mut self) -> &mut P {
        &mut self.port
    }

    ghost same = { λ a. refl };
}
