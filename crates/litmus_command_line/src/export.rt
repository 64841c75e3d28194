/// The form in which a line's protocol is exported.
#[derive(Clone, Copy, Debug, PartialEq, Eq)]
pub enum ModelForm {
    /// A model of some cores, for model checkers.
    Murphi,
    /// Queries for any number of cores, for SMT solvers.
    Smt,
}

/// The number of cores of an exported model.
#[derive(Clone, Copy, Debug, PartialEq, Eq)]
pub enum ModelCores {
    Two,
    Three,
    Four,
}

impl ModelCores {
    ghost use Rattle.std.specs.Prelude.{◌≡◌, ◌≤◌};
    ghost use Rattle.litmus_command_line.specs.CommandLine.{number_of};

    /// Returns their number.
    pub const fn number(self) -> u8
        ensures number { result ≡ number_of self }
        ensures few { result ≤ 4 }
    {
        match self {
            ModelCores::Two => 2,
            ModelCores::Three => 3,
            ModelCores::Four => 4,
        }
    }
}
