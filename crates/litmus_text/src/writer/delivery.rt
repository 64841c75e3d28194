use address_map::CoreId;
use slice_queues::Pick;
use std::fmt;

/// The command of a script that delivers the message at the front of a channel.
#[derive(Clone, Copy, Debug, PartialEq, Eq)]
pub struct Delivery(pub Pick);

impl fmt::Display for Delivery {
    ghost use Rattle.std.specs.Prelude.{Some};
    ghost use Rattle.litmus_text.specs.Command.{parts_of};
    ghost use Rattle.litmus_text.specs.declared.command.Command.TheVariants.{Deliver};
    ghost use Rattle.litmus_text.specs.Line.{text_of_parts};

    ghost output = { λ delivery. Some (text_of_parts (parts_of (Deliver delivery.0))) };

    #[tactic(auto, unfolding(crate::specs::Command::parts_of_pick))]
    fn fmt<W: fmt::Write>(&self, f: &mut fmt::Formatter<W>) -> fmt::Result {
        let line = self.0.line().0;
        match self.0 {
            Pick::Req(_, CoreId(core)) => write!(f, "deliver req {line} {core}"),
            Pick::Fwd(_, CoreId(core)) => write!(f, "deliver fwd {line} {core}"),
            Pick::Data(_, CoreId(core)) => write!(f, "deliver data {line} {core}"),
            Pick::Ack { to, from, .. } => {
                let to = to.0;
                let from = from.0;
                write!(f, "deliver ack {line} {to} {from}")
            }
            Pick::Home(_) => write!(f, "deliver home {line}"),
        }
    }
}
