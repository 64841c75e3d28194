ghost use Rattle.std.specs.Prelude.{◌≡◌, OnOk, map};
ghost use Rattle.std.specs.Fmt.{WritesInCalls};
ghost use Rattle.litmus_text.specs.Line.{line_of_parts};
ghost use Rattle.trace_check.specs.TraceLine.{parts_of_first};
ghost use Rattle.trace_check.specs.declared.trace_line.TraceLine.TheVariants as trace_lines;
ghost use Rattle.litmus_script.specs.Shown.{has_compare_exchange, text_of_lines, text_of_trace, version_for};

use super::trace_text::{write_entry, write_initial};
use address_map::{Checked, Op, WordAddr};
use slice_core::Entry;
use std::fmt;
use std::fmt::Write;

/// The most cores that a trace of version 1 can name.
const VERSION_1_CORES: usize = 16;

/// Writes initial values and a log, of one slice or of several, as a trace. Writes version 2 if version 1 can't express
/// the log: it has more cores than that can name, or a compare-exchange.
pub fn write_trace<W: Write>(
    config: &Checked,
    init: &[(WordAddr, u64)],
    log: &[Entry],
    out: &mut W,
) -> fmt::Result
    ensures { OnOk result (WritesInCalls W.write_str_gives out.old
        (text_of_trace config.now.cores init.now log.now) out.new) }
{
    write_first(config, log, out)?;
    write_init(init, out)?;
    write_entries(log, out)
}

fn write_first<W: Write>(config: &Checked, log: &[Entry], out: &mut W) -> fmt::Result
    ensures { OnOk result (WritesInCalls W.write_str_gives out.old
        (line_of_parts (parts_of_first (version_for config.now.cores log.now))) out.new) }
{
    if has_cas(log) || config.cores() > VERSION_1_CORES {
        writeln!(out, "lockup-trace 2")
    } else {
        writeln!(out, "lockup-trace 1")
    }
}

fn has_cas(log: &[Entry]) -> bool
    ensures { result ≡ has_compare_exchange log.now }
{
    log.iter().any(|entry| matches!(entry.op, Op::Cas { .. }))
}

fn write_init<W: Write>(init: &[(WordAddr, u64)], out: &mut W) -> fmt::Result
    ensures { OnOk result (WritesInCalls W.write_str_gives out.old
        (text_of_lines (map (λ pair. trace_lines.Init pair.0 pair.1) init.now)) out.new) }
{
    for (word, value) in init {
        write_initial(*word, *value, out)?;
    }
    Ok(())
}

fn write_entries<W: Write>(log: &[Entry], out: &mut W) -> fmt::Result
    ensures { OnOk result (WritesInCalls W.write_str_gives out.old (text_of_lines (map trace_lines.Entry log.now)) out.new) }
{
    for entry in log {
        write_entry(entry, out)?;
    }
    Ok(())
}
