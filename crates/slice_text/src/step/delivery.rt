use super::case::Case;
use super::effects::{
    AskedOfDirectory, Done, Entry, FromCore, FromDirectory, Numbers, awaited, broken, home,
};
use address_map::CoreId;
use slice_core_spec::{Plan, Transition};
use std::fmt;

/// A delivery: the case that the message at the front of a channel met, what was planned for it, and what was done.
#[derive(Clone, Copy)]
pub struct ExplainedDelivery {
    pub slice: usize,
    /// The core whose request it is, if the directory takes one.
    pub core: CoreId,
    pub case: Case,
    pub plan: Plan,
    pub done: Done,
}

impl fmt::Display for ExplainedDelivery {
    ghost use Rattle.std.specs.Prelude.{Some};
    ghost use Rattle.slice_text.specs.Delivery.{text_of_delivery};

    ghost output = { λ delivery. Some (text_of_delivery delivery) };

    fn fmt<W: fmt::Write>(&self, f: &mut fmt::Formatter<W>) -> fmt::Result {
        write!(f, "{}: {}", self.case, Effects(*self))
    }
}

/// What is planned for the message of a delivery, and what was done of it.
#[derive(Clone, Copy)]
struct Effects(ExplainedDelivery);

impl fmt::Display for Effects {
    ghost use Rattle.std.specs.Prelude.{Some};
    ghost use Rattle.slice_text.specs.Delivery.{text_of_effects};

    ghost output = { λ effects. Some (text_of_effects effects.0) };

    fn fmt<W: fmt::Write>(&self, f: &mut fmt::Formatter<W>) -> fmt::Result {
        let ExplainedDelivery {
            slice,
            core,
            case,
            done,
            ..
        } = self.0;
        match self.0.plan {
            Plan::Nothing => f.write_str("nothing"),
            Plan::Blocked => write!(f, "waits for {}", awaited(case.who)),
            Plan::Broken(cell) => f.write_str(broken(cell)),
            Plan::Moved(transition) => {
                let moved = Moved {
                    slice,
                    core,
                    transition,
                    done,
                };
                write!(f, "to {moved}")
            }
        }
    }
}

/// A message that is moved: the state that follows, and what else is done.
#[derive(Clone, Copy)]
struct Moved {
    slice: usize,
    core: CoreId,
    transition: Transition,
    done: Done,
}

impl fmt::Display for Moved {
    ghost use Rattle.std.specs.Prelude.{Some};
    ghost use Rattle.slice_text.specs.Delivery.{text_of_transition};

    ghost output = { λ moved. Some (text_of_transition moved.slice moved.core moved.done moved.transition) };

    fn fmt<W: fmt::Write>(&self, f: &mut fmt::Formatter<W>) -> fmt::Result {
        let Moved {
            slice,
            core,
            done,
            ..
        } = *self;
        match self.transition {
            Transition::Directory(step) => {
                let entry = Entry {
                    state: step.state,
                    owner: step.owner,
                    sharers: step.sharers,
                };
                let sent = FromDirectory {
                    core,
                    sends: step.sends,
                };
                write!(f, "{entry}{sent}{}", home(step.writes_home))
            }
            Transition::Home(step) => {
                let entry = Entry {
                    state: step.state,
                    owner: step.owner,
                    sharers: step.sharers,
                };
                write!(f, "{entry}; block home")
            }
            Transition::Forwarded(step) => {
                let sent = FromCore {
                    slice,
                    requester: step.requester,
                    sends: step.sends,
                };
                write!(f, "{}{sent}", step.next)
            }
            Transition::Fill(step) => {
                let asked = AskedOfDirectory { slice, done };
                write!(f, "{}{}{asked}", step.next, Numbers(done))
            }
            Transition::Acknowledge(step) => { write!(f, "{}; k + 1{}", step.next, Numbers(done)) }
        }
    }
}
