//! A line as text: the copies, the directory, and the messages on their way.

use super::line::{CoreSide, Forwarded, Line};
use super::words::{name_of_forwarded, name_of_request, write_data_kind, write_entry};
use address_map::{CoreId, CoreSet};
use cache_table::CopyState;
use std::fmt;
use std::fmt::Write;

/// Writes a line for each core, one for the directory, and one for each message.
pub(crate) fn write_state<W: Write>(line: &Line, out: &mut W) -> fmt::Result {
    for core in 0..line.count {
        let side = line.side(CoreId(core));
        write_copy(line, core, &side, out)?;
    }
    write!(out, "directory  ")?;
    write_entry(line.state, line.owner.map(|core| core.0), line.sharers, out)?;
    write!(out, ", home copy ")?;
    write_block(line, line.home, out)?;
    write!(out, "\n")?;
    for core in 0..line.count {
        let side = line.side(CoreId(core));
        write_messages(line, core, &side, out)?;
    }
    write_home_message(line, out)
}

fn write_copy<W: Write>(line: &Line, core: u8, side: &CoreSide, out: &mut W) -> fmt::Result {
    let state = side.state;
    write!(out, "core {core}  {state}")?;
    if side.block.is_some() {
        write!(out, ", ")?;
        write_block(line, side.block, out)?;
    }
    if side.joined {
        write!(out, ", a write has joined")?;
    }
    if has_count(state) {
        let (n, k) = (side.n, side.k);
        write!(out, ", n = {n}, k = {k}")?;
    }
    write!(out, "\n")
}

const fn has_count(state: CopyState) -> bool {
    matches!(
        state,
        CopyState::IM_AD | CopyState::IM_A | CopyState::SM_AD | CopyState::SM_A
    )
}

fn write_block<W: Write>(line: &Line, block: Option<u64>, out: &mut W) -> fmt::Result {
    match block {
        Some(number) if line.is_newest(block) => write!(out, "block {number}, the newest"),
        Some(number) => write!(out, "block {number}"),
        None => write!(out, "no block"),
    }
}

// The messages that lead from the core and to it.
fn write_messages<W: Write>(line: &Line, core: u8, side: &CoreSide, out: &mut W) -> fmt::Result {
    if let Some(request) = side.request {
        let name = name_of_request(request.kind);
        write!(out, "message  {name} of core {core}")?;
        write_with(line, request.block, out)?;
    }
    write_forwarded(core, side.front, out)?;
    write_forwarded(core, side.behind, out)?;
    if let Some(message) = side.response {
        write!(out, "message  ")?;
        write_data_kind(message.kind, out)?;
        write!(out, " to core {core}")?;
        write_with(line, message.block, out)?;
    }
    write_inv_acks(core, side.acknowledgements, out)
}

fn write_inv_acks<W: Write>(core: u8, senders: CoreSet, out: &mut W) -> fmt::Result {
    let mut rest = senders;
    while let Some(sender) = rest.pop_first() {
        write!(
            out,
            "message  Inv-Ack of core {} to core {core}\n",
            sender.0
        )?;
    }
    Ok(())
}

fn write_with<W: Write>(line: &Line, block: Option<u64>, out: &mut W) -> fmt::Result {
    if block.is_some() {
        write!(out, ", ")?;
        write_block(line, block, out)?;
    }
    write!(out, "\n")
}

fn write_forwarded<W: Write>(core: u8, message: Option<Forwarded>, out: &mut W) -> fmt::Result {
    let Some(message) = message else {
        return Ok(());
    };
    let name = name_of_forwarded(message.kind);
    write!(out, "message  {name} to core {core}")?;
    if let Some(requester) = message.requester {
        write!(out, " for core {}", requester.0)?;
    }
    write!(out, "\n")
}

fn write_home_message<W: Write>(line: &Line, out: &mut W) -> fmt::Result {
    match line.data_home {
        Some(message) => {
            write!(out, "message  Data home")?;
            write_with(line, message.block, out)
        }
        None => Ok(()),
    }
}
