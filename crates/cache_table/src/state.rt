ghost use Rattle.std.specs.Prelude.{◌≡◌};

use std::fmt;

/// The state of one core's copy of a line, under the Primer's names.
#[allow(non_camel_case_types)]
#[derive(Clone, Copy, Debug, PartialEq, Eq)]
pub enum CopyState {
    /// No copy.
    I,
    /// A load missed; data are awaited.
    IS_D,
    /// A write missed; data are awaited, and the acknowledgements that they name.
    IM_AD,
    /// As `IM_AD`, with the data come and acknowledgements missing.
    IM_A,
    /// A shared copy.
    S,
    /// A write to a shared copy, which may still be read; data and acknowledgements are awaited.
    SM_AD,
    /// As `SM_AD`, with the data come and acknowledgements missing.
    SM_A,
    /// The only copy, which may be written.
    M,
    /// Evicted from M or E; the directory's acknowledgement is awaited.
    MI_A,
    /// Evicted from S, or from M or E and then read by another core.
    SI_A,
    /// Evicted, and then lost to another core.
    II_A,
    /// The only copy, not written yet.
    E,
}

impl CopyState {
    ghost use Rattle.cache_table.specs.CopyState.{is_leaving, is_waiting};

    /// Whether a miss is outstanding, so that the line has a miss register.
    pub const fn is_waiting(self) -> bool
        ensures { result ≡ is_waiting self }
    {
        matches!(
            self,
            CopyState::IS_D
                | CopyState::IM_AD
                | CopyState::IM_A
                | CopyState::SM_AD
                | CopyState::SM_A
        )
    }

    /// Whether the copy was evicted and is in the write-back buffer.
    pub const fn is_leaving(self) -> bool
        ensures { result ≡ is_leaving self }
    {
        matches!(self, CopyState::MI_A | CopyState::SI_A | CopyState::II_A)
    }
}

impl Default for CopyState {
    ghost use Rattle.std.specs.Prelude.{◌≡◌};
    ghost use Rattle.cache_table.specs.declared.state.CopyState.TheVariants as copy_states;

    ghost is_default = { λ state. state ≡ copy_states.I };

    /// A line that isn't held.
    fn default() -> Self {
        CopyState::I
    }
}

impl fmt::Display for CopyState {
    ghost use Rattle.std.specs.Prelude.{Some};
    ghost use Rattle.cache_table.specs.Name.{name_of};

    ghost output = { λ state. Some (name_of state) };

    fn fmt<W: fmt::Write>(&self, f: &mut fmt::Formatter<W>) -> fmt::Result {
        f.write_str(match self {
            CopyState::I => "I",
            CopyState::IS_D => "IS_D",
            CopyState::IM_AD => "IM_AD",
            CopyState::IM_A => "IM_A",
            CopyState::S => "S",
            CopyState::SM_AD => "SM_AD",
            CopyState::SM_A => "SM_A",
            CopyState::M => "M",
            CopyState::MI_A => "MI_A",
            CopyState::SI_A => "SI_A",
            CopyState::II_A => "II_A",
            CopyState::E => "E",
        })
    }
}
