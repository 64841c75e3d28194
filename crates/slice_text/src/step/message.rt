ghost use Rattle.std.specs.Prelude.{◌≡◌};
ghost use Rattle.slice_text.specs.Message.{text_of_request};

use address_map::CoreId;
use slice_queues::{DataMessage, ForwardedMessage, Message, RequestMessage};
use std::fmt;

/// A message under its name in the tables, with the core that it names or the acknowledgements to await.
#[derive(Drop)]
pub struct MessageName(pub Message);

impl fmt::Display for MessageName {
    ghost use Rattle.std.specs.Prelude.{Some};
    ghost use Rattle.slice_text.specs.Message.{text_of_message};

    ghost output = { λ name. Some (text_of_message name.0) };

    fn fmt<W: fmt::Write>(&self, f: &mut fmt::Formatter<W>) -> fmt::Result {
        match self.0 {
            Message::Request(request) => f.write_str(request_name(request)),
            Message::Forwarded(ForwardedMessage::FwdGetS(CoreId(core))) => {
                write!(f, "Fwd-GetS for core {core}")
            }
            Message::Forwarded(ForwardedMessage::FwdGetM(CoreId(core))) => {
                write!(f, "Fwd-GetM for core {core}")
            }
            Message::Forwarded(ForwardedMessage::Inv(CoreId(core))) => {
                write!(f, "Inv for core {core}")
            }
            Message::Forwarded(ForwardedMessage::PutAck) => f.write_str("Put-Ack"),
            Message::Data(DataMessage::Data { acks, .. }) => write!(f, "Data({acks})"),
            Message::Data(DataMessage::DataE(_)) => f.write_str("Data-E"),
            Message::InvAck => f.write_str("Inv-Ack"),
            Message::Home(_) => f.write_str("Data home"),
        }
    }
}

fn request_name(request: RequestMessage) -> &'static str
    ensures { result.now ≡ text_of_request request }
{
    match request {
        RequestMessage::GetS => "GetS",
        RequestMessage::GetM => "GetM",
        RequestMessage::PutS => "PutS",
        RequestMessage::PutM(_) => "PutM",
    }
}
