//! The messages of a line as data: the one at the front of each channel.
ghost use Rattle.std.specs.Prelude.{◌≡◌, OnOk, map};
ghost use Rattle.std.specs.Fmt.{WritesInCalls};
ghost use Rattle.litmus_text.specs.JsonList.{with_commas};
ghost use Rattle.slice_json.specs.Message.{block_in, list_of_messages, text_at, text_of_begin, text_of_end, text_of_fate};
ghost use Rattle.slice_json.specs.Message.{name_of, text_of_message};

use super::json::write_block;
use address_map::{Block, CoreId, LineAddr};
use litmus_text::write_comma;
use mshr_file::MissFile;
use slice_core::{
    DataMessage, ForwardedMessage, LineWaiting, Message, Plan, RequestMessage, SliceState,
};
use slice_queues::Channel;
use std::fmt;
use std::fmt::Write;

/// Writes a list of the messages at the fronts of a line's channels, in the order in which `waiting` prints them.
pub fn write_messages<F: MissFile, W: Write>(
    state: &SliceState<F>,
    line: LineAddr,
    waiting: LineWaiting<'_>,
    out: &mut W,
) -> fmt::Result
    ensures { OnOk result (WritesInCalls W.write_str_gives out.old
        (list_of_messages state.now.view line waiting.entry) out.new) }
{
    write!(out, "[")?;
    write_fronts(state, line, waiting, out)?;
    write!(out, "]")
}

fn write_fronts<F: MissFile, W: Write>(
    state: &SliceState<F>,
    line: LineAddr,
    waiting: LineWaiting<'_>,
    out: &mut W,
) -> fmt::Result
    ensures { OnOk result (WritesInCalls W.write_str_gives out.old
        (with_commas (map (text_at state.now.view line) waiting.entry)) out.new) }
{
    let mut left = waiting;
    let mut is_first = true;
    while let Some(channel) = left.next() {
        write_comma(is_first, out)?;
        is_first = false;
        write_front(state, line, channel, out)?;
    }
    Ok(())
}

/// Writes the message at the front of a channel of a line.
fn write_front<F: MissFile, W: Write>(
    state: &SliceState<F>,
    line: LineAddr,
    channel: Channel,
    out: &mut W,
) -> fmt::Result
    ensures { OnOk result (WritesInCalls W.write_str_gives out.old (text_at state.now.view line channel) out.new) }
{
    let pick = channel.at(line);
    match state.front(pick) {
        Some(message) => write_message(channel, message, state.plan(pick), out),
        None => write!(out, "null"),
    }
}

fn write_message<W: Write>(
    channel: Channel,
    message: Message,
    plan: Plan,
    out: &mut W,
) -> fmt::Result
    ensures { OnOk result (WritesInCalls W.write_str_gives out.old (text_of_message channel message plan) out.new) }
{
    let block = block_in(message);
    write_begin(channel, message, out)?;
    write_block(block, out)?;
    write_end(plan, out)
}

fn write_begin<W: Write>(channel: Channel, message: Message, out: &mut W) -> fmt::Result
    ensures { OnOk result (WritesInCalls W.write_str_gives out.old (text_of_begin channel message) out.new) }
{
    let ends = Ends(channel);
    let kind = Kind(message);
    write!(out, "{{{ends},{kind},\"block\":")
}

fn write_end<W: Write>(plan: Plan, out: &mut W) -> fmt::Result
    ensures { OnOk result (WritesInCalls W.write_str_gives out.old (text_of_end plan) out.new) }
{
    let fate = fate_by(plan);
    write!(out, ",\"fate\":\"{fate}\"}}")
}

/// Returns the block that a message carries.
const fn block_in(message: Message) -> Option<Block>
    ensures { result ≡ block_in message }
{
    match message {
        Message::Request(RequestMessage::PutM(block)) => Some(block),
        Message::Data(DataMessage::Data { block, .. }) => Some(block),
        Message::Data(DataMessage::DataE(block)) => Some(block),
        Message::Home(block) => Some(block),
        _ => None,
    }
}

/// Returns what a delivery would do with a message.
pub const fn fate_by(plan: Plan) -> &'static str
    ensures { result.now ≡ text_of_fate plan }
{
    match plan {
        Plan::Moved(_) => "moves",
        Plan::Blocked => "blocked",
        Plan::Nothing => "nothing",
        Plan::Broken(_) => "broken",
    }
}

/// A channel: its class, its sender if the machine knows it, and its receiver.
#[derive(Clone, Copy)]
pub struct Ends(pub Channel);

impl fmt::Display for Ends {
    ghost use Rattle.std.specs.Prelude.{Some};
    ghost use Rattle.slice_json.specs.Message.{text_of_ends};

    ghost output = { λ ends. Some (text_of_ends ends.0) };

    fn fmt<W: fmt::Write>(&self, f: &mut fmt::Formatter<W>) -> fmt::Result {
        match self.0 {
            Channel::Req(CoreId(core)) => {
                write!(f, "\"class\":\"req\",\"from\":{core},\"to\":\"directory\"")
            }
            Channel::Fwd(CoreId(core)) => {
                write!(f, "\"class\":\"fwd\",\"from\":\"directory\",\"to\":{core}")
            }
            Channel::Data(CoreId(core)) => write!(f, "\"class\":\"data\",\"to\":{core}"),
            Channel::Ack {
                to: CoreId(to),
                from: CoreId(from),
            } => write!(f, "\"class\":\"ack\",\"from\":{from},\"to\":{to}"),
            Channel::Home => f.write_str("\"class\":\"home\",\"to\":\"directory\""),
        }
    }
}

/// What a message is, by its name in the tables, with the core that it names or the acknowledgements to await.
#[derive(Clone, Copy)]
struct Kind(Message);

impl fmt::Display for Kind {
    ghost use Rattle.std.specs.Prelude.{Some};
    ghost use Rattle.slice_json.specs.Message.{text_of_kind};

    ghost output = { λ kind. Some (text_of_kind kind.0) };

    fn fmt<W: fmt::Write>(&self, f: &mut fmt::Formatter<W>) -> fmt::Result {
        match self.0 {
            Message::Request(request) => f.write_str(name_of(request)),
            Message::Forwarded(ForwardedMessage::FwdGetS(CoreId(core))) => {
                write!(f, "\"kind\":\"Fwd-GetS\",\"for\":{core}")
            }
            Message::Forwarded(ForwardedMessage::FwdGetM(CoreId(core))) => {
                write!(f, "\"kind\":\"Fwd-GetM\",\"for\":{core}")
            }
            Message::Forwarded(ForwardedMessage::Inv(CoreId(core))) => {
                write!(f, "\"kind\":\"Inv\",\"for\":{core}")
            }
            Message::Forwarded(ForwardedMessage::PutAck) => f.write_str("\"kind\":\"Put-Ack\""),
            Message::Data(DataMessage::Data { acks, .. }) => {
                write!(f, "\"kind\":\"Data\",\"acks\":{acks}")
            }
            Message::Data(DataMessage::DataE(_)) => f.write_str("\"kind\":\"Data-E\""),
            Message::InvAck => f.write_str("\"kind\":\"Inv-Ack\""),
            Message::Home(_) => f.write_str("\"kind\":\"Data home\""),
        }
    }
}

const fn name_of(request: RequestMessage) -> &'static str
    ensures { result.now ≡ name_of request }
{
    match request {
        RequestMessage::GetS => "\"kind\":\"GetS\"",
        RequestMessage::GetM => "\"kind\":\"GetM\"",
        RequestMessage::PutS => "\"kind\":\"PutS\"",
        RequestMessage::PutM(_) => "\"kind\":\"PutM\"",
    }
}
