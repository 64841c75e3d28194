//! The names under which steps, cells and promises are shown.

use super::line::{DataKind, ForwardedKind, RequestKind};
use super::promise::Promise;
use address_map::CoreSet;
use cache_table::{CopyState, Row};
use directory_table::{DirEvent, DirRow, DirSends, DirState};
use protocol_tables::{CacheCase, sample_of, text_of_effect, text_of_home};
use std::fmt;
use std::fmt::Write;

/// A promise, as it is shown.
pub const fn name_of_promise(promise: Promise) -> &'static str {
    match promise {
        Promise::OneWriter => "one writer, or only readers",
        Promise::NewestCopies => "a copy that may be read is the newest block",
        Promise::NewestHome => "the home copy is the newest block in I and S",
        Promise::OwnerInM => "there is an owner in M, and else none",
        Promise::SharersInS => "there are sharers in S, and none in I and M",
        Promise::HasRow => "each message has a row",
        Promise::HasReceiver => "each message has a receiver",
        Promise::RoomForRequest => "there is room in a request channel",
        Promise::RoomForForwarded => "there is room in a forwarded channel",
        Promise::RoomForData => "there is room in a data channel",
        Promise::RoomForInvAck => "there is room in a channel of acknowledgements",
        Promise::RoomForHome => "there is room in the home channel",
        Promise::DataInTime => "no Data come while the core's own request waits",
        Promise::PutAckInTime => "no Put-Ack comes while the core's own request waits",
        Promise::WritesNewest => "a write is to the newest block",
        Promise::CountInRange => "there are no more acknowledgements than cores",
        Promise::Ends => "each miss and each eviction ends, once no core asks any more",
    }
}

pub(crate) const fn name_of_request(kind: RequestKind) -> &'static str {
    match kind {
        RequestKind::GetS => "GetS",
        RequestKind::GetM => "GetM",
        RequestKind::PutS => "PutS",
        RequestKind::PutM => "PutM",
    }
}

pub(crate) const fn name_of_forwarded(kind: ForwardedKind) -> &'static str {
    match kind {
        ForwardedKind::FwdGetS => "Fwd-GetS",
        ForwardedKind::FwdGetM => "Fwd-GetM",
        ForwardedKind::Inv => "Inv",
        ForwardedKind::PutAck => "Put-Ack",
    }
}

pub(crate) fn write_data_kind<W: Write>(kind: DataKind, out: &mut W) -> fmt::Result {
    match kind {
        DataKind::Data(n) => write!(out, "Data({n})"),
        DataKind::DataE => write!(out, "Data-E"),
    }
}

/// Writes what a row of a private cache does.
pub(crate) fn write_row<W: Write>(case: CacheCase, row: Row, out: &mut W) -> fmt::Result {
    match row {
        Row::Go(next, sends) => {
            let effect = text_of_effect(sample_of(case), sends);
            write!(out, "{effect}{next}")
        }
        Row::Blocked => write!(out, "blocked"),
        Row::NoEntry => write!(out, "-"),
    }
}

pub(crate) fn write_cache_cell<W: Write>(
    state: CopyState,
    case: CacheCase,
    out: &mut W,
) -> fmt::Result {
    let event = case.name();
    write!(out, "cache {state}, {event}")
}

/// Writes the cores of a set, with commas between them.
pub(crate) fn write_cores<W: Write>(cores: CoreSet, out: &mut W) -> fmt::Result {
    let mut rest = cores;
    let mut comma = "";
    while let Some(core) = rest.pop_first() {
        let number = core.0;
        write!(out, "{comma}{number}")?;
        comma = ", ";
    }
    Ok(())
}

/// A directory's entry.
pub(crate) fn write_entry<W: Write>(
    state: DirState,
    owner: Option<u8>,
    sharers: CoreSet,
    out: &mut W,
) -> fmt::Result {
    write!(out, "{state}")?;
    if let Some(owner) = owner {
        write!(out, ", owner {owner}")?;
    }
    if !sharers.is_empty() {
        write!(out, ", sharers ")?;
        write_cores(sharers, out)?;
    }
    Ok(())
}

pub(crate) fn write_event<W: Write>(event: DirEvent, out: &mut W) -> fmt::Result {
    match event {
        DirEvent::GetS(core) => write!(out, "GetS of {}", core.0),
        DirEvent::GetM(core) => write!(out, "GetM of {}", core.0),
        DirEvent::PutS(core) => write!(out, "PutS of {}", core.0),
        DirEvent::PutM(core) => write!(out, "PutM of {}", core.0),
        DirEvent::DataHome => write!(out, "Data home"),
    }
}

fn write_sent<W: Write>(sends: DirSends, out: &mut W) -> fmt::Result {
    match sends {
        DirSends::Nothing => Ok(()),
        DirSends::Data { acks } => write!(out, "Data({acks}); "),
        DirSends::DataE => write!(out, "Data-E; "),
        DirSends::DataAndInv { acks, invalidated } => {
            write!(out, "Data({acks}), Inv to ")?;
            if invalidated.is_empty() {
                write!(out, "nobody")?;
            }
            write_cores(invalidated, out)?;
            write!(out, "; ")
        }
        DirSends::FwdGetS { owner } => write!(out, "Fwd-GetS to {}; ", owner.0),
        DirSends::FwdGetM { owner } => write!(out, "Fwd-GetM to {}; ", owner.0),
        DirSends::PutAck => write!(out, "Put-Ack; "),
    }
}

/// Writes what a row of a directory does.
pub(crate) fn write_directory_row<W: Write>(row: &DirRow, out: &mut W) -> fmt::Result {
    match *row {
        DirRow::Go(does) => {
            write_sent(does.sends, out)?;
            let home = text_of_home(does.writes_home);
            write!(out, "{home}")?;
            write_entry(does.state, does.owner.map(|core| core.0), does.sharers, out)
        }
        DirRow::Blocked => write!(out, "blocked"),
        DirRow::NoEntry => write!(out, "-"),
    }
}
