//! The messages in flight.
ghost use Rattle.std.specs.Prelude.{◌≡◌, Some};
ghost use Rattle.lockup_c.specs.Answer.{code_of, shown_of};
ghost use Rattle.lockup_c.specs.Messages.{ShowsMessage, ShowsMessages, data_numbers};
ghost use Rattle.lockup_c.specs.Messages.{forwarded_numbers, message_numbers, message_with, no_message};
ghost use Rattle.lockup_c.specs.Messages.{request_numbers};

use super::answer::{Fault, show};
use super::handle::{Handle, put, take};
use super::held::Held;
use super::names::line_named;
use super::numbers::{channel_number, core_number, core_of_pick, sender_of_pick};
use super::structs::MessageNumbers;
use address_map::{Block, CoreId};
use slice_core::{DataMessage, ForwardedMessage, Message, Pick, RequestMessage};
use std::alloc::Global;

const NO_MESSAGE: MessageNumbers = MessageNumbers {
    channel: 0,
    line: 0,
    core: 0,
    from: 0,
    kind: 0,
    requester: 0,
    acks: 0,
    block: [0; 8],
};

/// How many channels of a line have a message.
#[unsafe(no_mangle)]
pub extern "C" fn lockup_messages(
    alloc: Global,
    handle: &mut Handle,
    line: u64,
    count: &mut u64,
) -> u32
    ensures seen { ShowsMessages line result count.new handle.old.value }
    ensures kept { handle.new.value ≡ handle.old.value }
{
    let Some(held) = take(handle, alloc) else {
        return show(Err(Fault::NoMachine), 0, count);
    };
    let shown = messages(&held, line);
    put(handle, held);
    show(shown, 0, count)
}

fn messages(held: &Held, line: u64) -> Result<u64, Fault>
    ensures { ShowsMessages line (code_of result) (shown_of 0 result) (Some held.now) }
{
    let simulator = held.machine()?;
    let line = line_named(simulator.config(), line).ok_or(Fault::OutOfRange)?;
    Ok(simulator.count_waiting(line))
}

/// Shows the message in front of one of a line's channels.
#[unsafe(no_mangle)]
pub extern "C" fn lockup_message_at(
    alloc: Global,
    handle: &mut Handle,
    line: u64,
    nth: u64,
    message: &mut MessageNumbers,
) -> u32
    ensures seen { ShowsMessage line nth result message.new handle.old.value }
    ensures kept { handle.new.value ≡ handle.old.value }
{
    let Some(held) = take(handle, alloc) else {
        return show(Err(Fault::NoMachine), NO_MESSAGE, message);
    };
    let shown = message_at(&held, line, nth);
    put(handle, held);
    show(shown, NO_MESSAGE, message)
}

fn message_at(held: &Held, line: u64, nth: u64) -> Result<MessageNumbers, Fault>
    ensures { ShowsMessage line nth (code_of result) (shown_of no_message result) (Some held.now) }
{
    let simulator = held.machine()?;
    let line = line_named(simulator.config(), line).ok_or(Fault::OutOfRange)?;
    match simulator.message_at(line, nth) {
        Some((pick, message)) => Ok(message_numbers(pick, message)),
        None => Err(Fault::OutOfRange),
    }
}

fn message_numbers(pick: Pick, message: Message) -> MessageNumbers
    ensures { result ≡ message_numbers pick message }
{
    match message {
        Message::Request(request) => request_numbers(pick, request),
        Message::Forwarded(forwarded) => forwarded_numbers(pick, forwarded),
        Message::Data(reply) => data_numbers(pick, reply),
        Message::InvAck => message_with(pick, 10, None, 0, Block::zero()),
        Message::Home(block) => message_with(pick, 11, None, 0, block),
    }
}

fn request_numbers(pick: Pick, request: RequestMessage) -> MessageNumbers
    ensures { result ≡ request_numbers pick request }
{
    match request {
        RequestMessage::GetS => message_with(pick, 0, None, 0, Block::zero()),
        RequestMessage::GetM => message_with(pick, 1, None, 0, Block::zero()),
        RequestMessage::PutS => message_with(pick, 2, None, 0, Block::zero()),
        RequestMessage::PutM(block) => message_with(pick, 3, None, 0, block),
    }
}

fn forwarded_numbers(pick: Pick, forwarded: ForwardedMessage) -> MessageNumbers
    ensures { result ≡ forwarded_numbers pick forwarded }
{
    match forwarded {
        ForwardedMessage::FwdGetS(core) => message_with(pick, 4, Some(core), 0, Block::zero()),
        ForwardedMessage::FwdGetM(core) => message_with(pick, 5, Some(core), 0, Block::zero()),
        ForwardedMessage::Inv(core) => message_with(pick, 6, Some(core), 0, Block::zero()),
        ForwardedMessage::PutAck => message_with(pick, 7, None, 0, Block::zero()),
    }
}

fn data_numbers(pick: Pick, reply: DataMessage) -> MessageNumbers
    ensures { result ≡ data_numbers pick reply }
{
    match reply {
        DataMessage::Data { block, acks } => message_with(pick, 8, None, acks as u64, block),
        DataMessage::DataE(block) => message_with(pick, 9, None, 0, block),
    }
}

/// Returns a message of this kind in a channel. What it doesn't carry is 64 for a requester, else 0.
fn message_with(
    pick: Pick,
    kind: u64,
    requester: Option<CoreId>,
    acks: u64,
    carried: Block,
) -> MessageNumbers
    ensures { result ≡ message_with pick kind requester acks carried }
{
    let block = carried.words;
    MessageNumbers {
        channel: channel_number(pick),
        line: pick.line().0,
        core: core_of_pick(pick),
        from: sender_of_pick(pick),
        kind,
        requester: core_number(requester),
        acks,
        block,
    }
}
