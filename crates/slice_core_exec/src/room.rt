//! Room in the channels of a line for what a row sends.
ghost use Rattle.std.specs.Prelude.{◌≡◌};
ghost use Rattle.slice_core_spec.specs.Sends.{cache_room, directory_room, takes, takes_invalidations};

use address_map::{CoreId, CoreSet};
use cache_table::CacheSends;
use directory_table::DirSends;
use slice_queues::{Channel, LineQueues};

/// Whether the channel is there and takes another message.
fn takes(line: &LineQueues<'_>, channel: Channel) -> bool
    ensures { result ≡ takes line.now channel }
{
    line.has_room(channel)
}

/// Whether each of these cores is there, and its forwarded channel takes another message.
fn takes_invalidations(line: &LineQueues<'_>, cores: CoreSet) -> bool
    ensures { result ≡ takes_invalidations line.now cores }
{
    let _ = cores.bits();
    line.takes_invalidations(cores)
}

/// Whether each channel has room that a row of the directory's table sends to, for this core's request.
#[inline(always)]
pub(crate) fn directory_room(line: &LineQueues<'_>, core: CoreId, sends: &DirSends) -> bool
    ensures { result ≡ directory_room line.now core sends.now }
{
    match sends {
        DirSends::Nothing => true,
        DirSends::Data { .. } | DirSends::DataE => takes(line, Channel::Data(core)),
        DirSends::DataAndInv { invalidated, .. } => {
            takes(line, Channel::Data(core)) && takes_invalidations(line, *invalidated)
        }
        DirSends::FwdGetS { owner } | DirSends::FwdGetM { owner } => {
            takes(line, Channel::Fwd(*owner))
        }
        DirSends::PutAck => takes(line, Channel::Fwd(core)),
    }
}

/// Whether each channel has room that a row of the cache's table sends to, from this core and for the requester.
#[inline(always)]
pub(crate) fn cache_room(
    line: &LineQueues<'_>,
    core: CoreId,
    requester: CoreId,
    sends: CacheSends,
) -> bool
    ensures { result ≡ cache_room line.now core requester sends }
{
    match sends {
        CacheSends::DataToRequester => takes(line, Channel::Data(requester)),
        CacheSends::DataToRequesterAndHome => {
            takes(line, Channel::Data(requester)) && takes(line, Channel::Home)
        }
        CacheSends::InvAckToRequester => takes(
            line,
            Channel::Ack {
                to: requester,
                from: core,
            },
        ),
        CacheSends::Nothing
        | CacheSends::GetS
        | CacheSends::GetM
        | CacheSends::PutS
        | CacheSends::PutM => true,
    }
}
