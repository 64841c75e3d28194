ghost use Rattle.std.specs.Prelude.{◌≡◌, ◌+◌, ◌<◌, ◌^◌, IfSome};
ghost use Rattle.litmus_walk.specs.Drawn.{first_place};
ghost use Rattle.litmus_walk.specs.Moves.{free_tag, is_settled, with_waiting};

/// A step of a thread. Threads and steps count from 0.
#[derive(Clone, Copy, Debug, PartialEq, Eq)]
pub struct StepPlace {
    pub thread: usize,
    pub step: usize,
}

/// The next step of a thread, and the tags under which its core waits for replies.
#[derive(Clone, Copy)]
pub(crate) struct Place {
    pub step: usize,
    waits: [bool; 64],
}

impl Place {
    /// Returns the place before the first step.
    pub fn first() -> Self
        ensures { result ≡ first_place }
    {
        Place {
            step: 0,
            waits: [false; 64],
        }
    }

    /// Returns the lowest tag under which no reply is awaited.
    pub fn free_tag(&self) -> Option<u8>
        ensures tag { result ≡ free_tag self.now }
        ensures known { IfSome result (λ tag. tag < 64) }
    {
        let tag = self.waits.iter().position(|waits| !*waits)?;
        Some(tag as u8)
    }

    /// Whether no reply is awaited.
    pub fn is_settled(&self) -> bool
        ensures { result ≡ is_settled self.now }
    {
        self.waits.iter().all(|waits| !*waits)
    }

    /// Moves on after the step of this number.
    pub fn go_behind(&mut self, step: usize)
        requires { step + 1 < 2 ^ 64 }
        ensures { self.new ≡ record self.old { step = step + 1 } }
    {
        self.step = step + 1;
    }

    /// Sets whether a reply is awaited under the tag.
    pub fn set_waiting(&mut self, tag: u8, waits: bool)
        ensures { self.new ≡ with_waiting tag waits self.old }
    {
        if tag < 64 {
            self.waits[tag as usize] = waits;
        }
    }
}
