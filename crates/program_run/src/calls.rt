ghost use Rattle.std.specs.Prelude.{◌≡◌, OnOk, if◌then◌else◌};
ghost use Rattle.program_run.specs.Calls.{no_calls, with_call};

use litmus_text::Command;
use std::alloc::{AllocError, Global};
use std::marker::Model;

/// The calls that are made of the machine, in order, if they are wanted.
#[derive(Drop)]
pub(crate) struct Calls {
    wanted: bool,
    made: Vec<Command>,
}

impl Model for Calls {
    ghost use Rattle.program_run.specs.Calls.{CallsView};

    ghost Value = { CallsView };

    ghost view = { λ own. record { wanted = own.wanted; made = own.made.items } };
}

impl Calls {
    /// None is made yet.
    pub fn new(alloc: Global, wanted: bool) -> Self
        ensures { result ≡ no_calls wanted }
    {
        Calls {
            wanted,
            made: Vec::new(alloc),
        }
    }

    /// Adds one more.
    pub fn push(&mut self, call: Command) -> Result<(), AllocError>
        ensures { OnOk result (self.new ≡ with_call call self.old) }
    {
        if self.wanted {
            self.made.push(call)?;
        }
        Ok(())
    }

    /// Returns those that were made: none if they aren't wanted.
    pub fn made(&self) -> &[Command]
        ensures { result.now ≡ self.now.made }
    {
        self.made.as_slice()
    }
}
