//! The messages on their way, as JSON.

use super::line::{CoreSide, Forwarded, Line};
use super::words::{name_of_forwarded, name_of_request, write_data_kind};
use address_map::CoreId;
use std::fmt;
use std::fmt::Write;

/// Writes the messages of all channels: each names its core, or the directory.
pub(crate) fn write_messages<W: Write>(line: &Line, out: &mut W) -> fmt::Result {
    let mut comma = "";
    for core in 0..line.count {
        let side = line.side(CoreId(core));
        comma = write_of_core(comma, core, &side, out)?;
    }
    if line.data_home.is_some() {
        write!(
            out,
            "{comma}{{\"message\":\"Data home\",\"to\":\"directory\"}}"
        )?;
    }
    Ok(())
}

// Those that lead from the core and to it. Returns the comma for the next.
fn write_of_core<W: Write>(
    first: &'static str,
    core: u8,
    side: &CoreSide,
    out: &mut W,
) -> Result<&'static str, fmt::Error> {
    let mut comma = first;
    if let Some(request) = side.request {
        let name = name_of_request(request.kind);
        write!(
            out,
            "{comma}{{\"message\":\"{name}\",\"from\":{core},\"to\":\"directory\"}}"
        )?;
        comma = ",";
    }
    comma = write_forwarded(comma, core, side.front, out)?;
    comma = write_forwarded(comma, core, side.behind, out)?;
    if let Some(message) = side.response {
        write!(out, "{comma}{{\"message\":\"")?;
        write_data_kind(message.kind, out)?;
        write!(out, "\",\"to\":{core}}}")?;
        comma = ",";
    }
    write_inv_acks(comma, core, side, out)
}

fn write_forwarded<W: Write>(
    comma: &'static str,
    core: u8,
    message: Option<Forwarded>,
    out: &mut W,
) -> Result<&'static str, fmt::Error> {
    let Some(message) = message else {
        return Ok(comma);
    };
    let name = name_of_forwarded(message.kind);
    write!(
        out,
        "{comma}{{\"message\":\"{name}\",\"from\":\"directory\",\"to\":{core}"
    )?;
    if let Some(requester) = message.requester {
        write!(out, ",\"requester\":{}", requester.0)?;
    }
    write!(out, "}}")?;
    Ok(",")
}

fn write_inv_acks<W: Write>(
    first: &'static str,
    core: u8,
    side: &CoreSide,
    out: &mut W,
) -> Result<&'static str, fmt::Error> {
    let mut comma = first;
    for sender in 0..64 {
        if side.acknowledgements.has(CoreId(sender)) {
            write!(
                out,
                "{comma}{{\"message\":\"Inv-Ack\",\"from\":{sender},\"to\":{core}}}"
            )?;
            comma = ",";
        }
    }
    Ok(comma)
}
