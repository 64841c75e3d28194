ghost use Rattle.std.specs.Prelude.{[], ◌∷◌, OnOk, map};
ghost use Rattle.std.specs.Fmt.{WritesInCalls};
ghost use Rattle.litmus_text.specs.ConfigLine.{parts_of_config_line};
ghost use Rattle.litmus_text.specs.declared.config_line.ConfigLine.TheVariants as config_lines;
ghost use Rattle.litmus_text.specs.Form.{key, num};
ghost use Rattle.litmus_text.specs.Line.{line_of_parts};
ghost use Rattle.litmus_text.specs.SettingsLines.{counts_of, init_line, lines_of_settings, text_of_lines};

use super::line::write_number;
use address_map::{Checked, PolicyKind, WordAddr};
use mshr_file::MissKind;
use std::fmt;
use std::fmt::Write;

/// Writes the lines that configure a machine, with this kind of miss registers.
pub fn write_settings<W: Write>(config: &Checked, misses: MissKind, out: &mut W) -> fmt::Result
    ensures { OnOk result (WritesInCalls W.write_str_gives out.old
        (text_of_lines (lines_of_settings config.now misses)) out.new) }
{
    write_counts(config, out)?;
    write_policy(config.policy(), out)?;
    write_misses(misses, out)?;
    write_exclusive(config.exclusive(), out)?;
    write_init(config.init(), out)?;
    write_counters(config.counters(), out)
}

fn write_counts<W: Write>(config: &Checked, out: &mut W) -> fmt::Result
    ensures { OnOk result (WritesInCalls W.write_str_gives out.old (text_of_lines (counts_of config.now)) out.new) }
{
    write_count("cores", config.cores(), out)?;
    write_count("slices", config.slices(), out)?;
    write_count("lines", config.lines(), out)?;
    write_count("sets", config.sets(), out)?;
    write_count("ways", config.ways(), out)?;
    write_count("mshrs", config.mshrs(), out)?;
    write_count("targets", config.targets(), out)?;
    write_count("writebacks", config.writebacks(), out)
}

fn write_count<W: Write>(name: &str, count: usize, out: &mut W) -> fmt::Result
    ensures { OnOk result (WritesInCalls W.write_str_gives out.old
        (line_of_parts (key name.now ∷ num count ∷ [])) out.new) }
{
    write_number(name, count as u64, out)
}

fn write_policy<W: Write>(policy: PolicyKind, out: &mut W) -> fmt::Result
    ensures { OnOk result (WritesInCalls W.write_str_gives out.old
        (line_of_parts (parts_of_config_line (config_lines.Policy policy))) out.new) }
{
    match policy {
        PolicyKind::Lru => writeln!(out, "policy lru"),
        PolicyKind::Fifo => writeln!(out, "policy fifo"),
        PolicyKind::Random(seed) => writeln!(out, "policy random {seed}"),
    }
}

fn write_misses<W: Write>(misses: MissKind, out: &mut W) -> fmt::Result
    ensures { OnOk result (WritesInCalls W.write_str_gives out.old
        (line_of_parts (parts_of_config_line (config_lines.Misses misses))) out.new) }
{
    match misses {
        MissKind::Explicit => writeln!(out, "misses explicit"),
        MissKind::Inverted => writeln!(out, "misses inverted"),
    }
}

fn write_exclusive<W: Write>(exclusive: bool, out: &mut W) -> fmt::Result
    ensures { OnOk result (WritesInCalls W.write_str_gives out.old
        (line_of_parts (parts_of_config_line (config_lines.Exclusive exclusive))) out.new) }
{
    if exclusive {
        writeln!(out, "exclusive on")
    } else {
        writeln!(out, "exclusive off")
    }
}

fn write_init<W: Write>(init: &[(WordAddr, u64)], out: &mut W) -> fmt::Result
    ensures { OnOk result (WritesInCalls W.write_str_gives out.old (text_of_lines (map init_line init.now)) out.new) }
{
    for (word, value) in init {
        let word = word.0;
        writeln!(out, "init {word} {value}")?;
    }
    Ok(())
}

fn write_counters<W: Write>(counters: &[WordAddr], out: &mut W) -> fmt::Result
    ensures { OnOk result (WritesInCalls W.write_str_gives out.old
        (text_of_lines (map config_lines.Counter counters.now)) out.new) }
{
    for counter in counters {
        let counter = counter.0;
        writeln!(out, "counter {counter}")?;
    }
    Ok(())
}
