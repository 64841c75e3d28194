//! The channels of a line in which a message waits.
ghost use Rattle.std.specs.Prelude.{◌++◌, OnOk, codes};
ghost use Rattle.std.specs.Fmt.{WritesInCalls};
ghost use Rattle.std.specs.List.{flat_map};
ghost use Rattle.script_waves.specs.Values.{name_of_channel, names_of, text_behind};

use address_map::CoreId;
use slice_core::LineWaiting;
use slice_queues::Channel;
use std::fmt;
use std::fmt::Write;

/// A channel's name in a few letters.
#[derive(Clone, Copy)]
pub(crate) struct ChannelName(pub(crate) Channel);

impl fmt::Display for ChannelName {
    ghost use Rattle.std.specs.Prelude.{Some};
    ghost use Rattle.script_waves.specs.Values.{name_of_channel};

    ghost output = { λ channel. Some (name_of_channel channel.0) };

    fn fmt<W: fmt::Write>(&self, f: &mut fmt::Formatter<W>) -> fmt::Result {
        match self.0 {
            Channel::Req(CoreId(core)) => write!(f, "r{core}"),
            Channel::Fwd(CoreId(core)) => write!(f, "f{core}"),
            Channel::Data(CoreId(core)) => write!(f, "d{core}"),
            Channel::Ack {
                to: CoreId(to),
                from: CoreId(from),
            } => write!(f, "a{to}.{from}"),
            Channel::Home => f.write_str("h"),
        }
    }
}

/// Writes the names of the channels as one word, or a dash where there is none.
pub(crate) fn write_names<W: Write>(waiting: LineWaiting<'_>, out: &mut W) -> fmt::Result
    ensures { OnOk result (WritesInCalls W.write_str_gives out.old (names_of waiting.entry) out.new) }
{
    let mut left = waiting;
    match left.next() {
        Some(first) => {
            write_name(first, out)?;
            write_further(left, out)
        }
        None => out.write_str("-"),
    }
}

/// Writes the names of the channels after the first.
fn write_further<W: Write>(waiting: LineWaiting<'_>, out: &mut W) -> fmt::Result
    ensures { OnOk result (WritesInCalls W.write_str_gives out.old (flat_map text_behind waiting.entry) out.new) }
{
    let mut left = waiting;
    while let Some(channel) = left.next() {
        write_behind(channel, out)?;
    }
    Ok(())
}

fn write_name<W: Write>(channel: Channel, out: &mut W) -> fmt::Result
    ensures { OnOk result (WritesInCalls W.write_str_gives out.old (name_of_channel channel) out.new) }
{
    let name = ChannelName(channel);
    write!(out, "{name}")
}

fn write_behind<W: Write>(channel: Channel, out: &mut W) -> fmt::Result
    ensures { OnOk result (WritesInCalls W.write_str_gives out.old (text_behind channel) out.new) }
{
    let name = ChannelName(channel);
    write!(out, "+{name}")
}
