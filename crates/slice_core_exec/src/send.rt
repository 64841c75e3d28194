//! What the rows of the two tables send, put into the channels of a line.
ghost use Rattle.std.specs.Prelude.{◌≡◌, ◌<◌, true, length};
ghost use Rattle.slice_queues.specs.Lending.{with_lent};
ghost use Rattle.slice_queues.specs.Slice.{at_local};
ghost use Rattle.slice_core_spec.specs.Sends.{cache_room, cache_sent, directory_room, directory_sent, takes};
ghost use Rattle.slice_queues.specs.Line.{after_send};
ghost use Rattle.slice_queues.specs.declared.channel.Channel.TheVariants as channels;
ghost use Rattle.slice_queues.specs.declared.message.Message.TheVariants as messages;

use address_map::{Block, CoreId, Local};
use cache_table::CacheSends;
use directory_table::DirSends;
use slice_queues::{Channel, DataMessage, ForwardedMessage, Message, Queues};

/// Sends what a row of the directory's table sends for a core's request. Data carry the block. The line comes into the
/// ring.
#[inline(always)]
pub(crate) fn send_from_directory(
    queues: &mut Queues,
    local: Local,
    core: CoreId,
    block: &Block,
    sends: DirSends,
)
    requires line { local.0 < length queues.old.channels.lines }
    requires room { directory_room (at_local queues.old.channels local.0) core sends ≡ true }
    ensures { queues.new ≡ with_lent queues.old local
        (directory_sent (at_local queues.old.channels local.0) core block.now sends) }
{
    match sends {
        DirSends::Nothing => queues.list(local),
        DirSends::Data { acks } => {
            let block = *block;
            send_data(queues, local, core, DataMessage::Data { block, acks });
        }
        DirSends::DataE => send_data(queues, local, core, DataMessage::DataE(*block)),
        DirSends::DataAndInv { acks, invalidated } => {
            let block = *block;
            let _ = invalidated.bits();
            send_data(queues, local, core, DataMessage::Data { block, acks });
            queues.invalidate(local, invalidated, core);
        }
        DirSends::FwdGetS { owner } => {
            send_forwarded(queues, local, owner, ForwardedMessage::FwdGetS(core));
        }
        DirSends::FwdGetM { owner } => {
            send_forwarded(queues, local, owner, ForwardedMessage::FwdGetM(core));
        }
        DirSends::PutAck => send_forwarded(queues, local, core, ForwardedMessage::PutAck),
    }
}

/// Sends what a row of the cache's table sends from a core, for the requester. Data carry the block. The line comes
/// into the ring.
#[inline(always)]
pub(crate) fn send_from_core(
    queues: &mut Queues,
    local: Local,
    core: CoreId,
    requester: CoreId,
    block: &Block,
    sends: CacheSends,
)
    requires line { local.0 < length queues.old.channels.lines }
    requires room { cache_room (at_local queues.old.channels local.0) core requester sends ≡ true }
    ensures { queues.new ≡ with_lent queues.old local
        (cache_sent (at_local queues.old.channels local.0) core requester block.now sends) }
{
    let data_reply = |block: &Block| DataMessage::Data {
        block: *block,
        acks: 0,
    };
    match sends {
        CacheSends::DataToRequester => send_data(queues, local, requester, data_reply(block)),
        CacheSends::DataToRequesterAndHome => {
            send_data(queues, local, requester, data_reply(block));
            queues.send_at(local, Channel::Home, Message::Home(*block));
        }
        CacheSends::InvAckToRequester => {
            let channel = Channel::Ack {
                to: requester,
                from: core,
            };
            queues.send_at(local, channel, Message::InvAck);
        }
        CacheSends::Nothing
        | CacheSends::GetS
        | CacheSends::GetM
        | CacheSends::PutS
        | CacheSends::PutM => queues.list(local),
    }
}

#[inline(always)]
fn send_data(queues: &mut Queues, local: Local, core: CoreId, message: DataMessage)
    requires line { local.0 < length queues.old.channels.lines }
    requires room { takes (at_local queues.old.channels local.0) (channels.Data core) ≡ true }
    ensures { queues.new ≡ with_lent queues.old local
        (after_send (at_local queues.old.channels local.0) (channels.Data core) (messages.Data message)) }
{
    queues.send_at(local, Channel::Data(core), Message::Data(message));
}

#[inline(always)]
fn send_forwarded(queues: &mut Queues, local: Local, core: CoreId, message: ForwardedMessage)
    requires line { local.0 < length queues.old.channels.lines }
    requires room { takes (at_local queues.old.channels local.0) (channels.Fwd core) ≡ true }
    ensures { queues.new ≡ with_lent queues.old local
        (after_send (at_local queues.old.channels local.0) (channels.Fwd core) (messages.Forwarded message)) }
{
    queues.send_at(local, Channel::Fwd(core), Message::Forwarded(message));
}
