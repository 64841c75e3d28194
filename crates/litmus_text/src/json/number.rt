ghost use Rattle.std.specs.Prelude.{◌≡◌};
ghost use Rattle.litmus_text.specs.JsonNumber.{is_exact};

use std::fmt;

/// Whether a number has at most 15 digits, so that a reader that keeps numbers in 53 bits keeps it exactly.
pub fn is_exact(number: u64) -> bool
    ensures { result ≡ is_exact number }
{
    number < 1_000_000_000_000_000
}

/// A number, written as a string if it has more than 15 digits.
#[derive(Clone, Copy)]
pub struct Number(pub u64);

impl fmt::Display for Number {
    ghost use Rattle.std.specs.Prelude.{Some};
    ghost use Rattle.litmus_text.specs.JsonNumber.{number_of};

    ghost output = { λ number. Some (number_of number.0) };

    fn fmt<W: fmt::Write>(&self, f: &mut fmt::Formatter<W>) -> fmt::Result {
        let number = self.0;
        if is_exact(number) {
            write!(f, "{number}")
        } else {
            write!(f, "\"{number}\"")
        }
    }
}
