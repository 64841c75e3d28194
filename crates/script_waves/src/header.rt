//! What comes before the values.
ghost use Rattle.std.specs.Prelude.{OnOk, codes};
ghost use Rattle.std.specs.Fmt.{WritesInCalls};
ghost use Rattle.std.specs.List.{flat_map};
ghost use Rattle.script_waves.specs.Signals.{text_of_copies, text_of_header, text_of_opening, text_of_scope};
ghost use Rattle.script_waves.specs.Signals.{text_of_signal, text_of_total};

use super::core_header::write_slices;
use super::signal::{Code, Signal};
use address_map::LineAddr;
use std::fmt;
use std::fmt::Write;

/// Writes the signals of these lines and of all cores, and the time at which nothing was played yet.
pub(crate) fn write_header<W: Write>(
    cores: usize,
    slices: usize,
    lines: &[LineAddr],
    out: &mut W,
) -> fmt::Result
    ensures { OnOk result (WritesInCalls W.write_str_gives out.old (text_of_header cores slices lines.now) out.new) }
{
    write_beginning(out)?;
    write_scopes(cores, lines, out)?;
    write_slices(cores, slices, out)?;
    write_end(out)
}

fn write_beginning<W: Write>(out: &mut W) -> fmt::Result
    ensures { OnOk result (WritesInCalls W.write_str_gives out.old
        (codes "$version lockup $end\n$timescale 1 ns $end\n$scope module run $end\n$var string 1 c command $end\n") out.new) }
{
    write!(
        out,
        "$version lockup $end\n$timescale 1 ns $end\n$scope module run $end\n$var string 1 c command $end\n"
    )
}

fn write_end<W: Write>(out: &mut W) -> fmt::Result
    ensures { OnOk result (WritesInCalls W.write_str_gives out.old
        (codes "$upscope $end\n$enddefinitions $end\n#0\ns- c\n") out.new) }
{
    write!(out, "$upscope $end\n$enddefinitions $end\n#0\ns- c\n")
}

fn write_scopes<W: Write>(cores: usize, lines: &[LineAddr], out: &mut W) -> fmt::Result
    ensures { OnOk result (WritesInCalls W.write_str_gives out.old (flat_map (text_of_scope cores) lines.now) out.new) }
{
    for line in lines {
        write_scope(cores, *line, out)?;
    }
    Ok(())
}

fn write_scope<W: Write>(cores: usize, line: LineAddr, out: &mut W) -> fmt::Result
    ensures { OnOk result (WritesInCalls W.write_str_gives out.old (text_of_scope cores line) out.new) }
{
    write_opening(line, out)?;
    write_signal(line, Signal::Directory, out)?;
    write_copies(line, cores, out)?;
    write_signal(line, Signal::Channels, out)?;
    write_total(line, out)?;
    writeln!(out, "$upscope $end")
}

fn write_opening<W: Write>(line: LineAddr, out: &mut W) -> fmt::Result
    ensures { OnOk result (WritesInCalls W.write_str_gives out.old (text_of_opening line) out.new) }
{
    let LineAddr(line) = line;
    writeln!(out, "$scope module line{line} $end")
}

fn write_copies<W: Write>(line: LineAddr, cores: usize, out: &mut W) -> fmt::Result
    ensures { OnOk result (WritesInCalls W.write_str_gives out.old (text_of_copies line cores) out.new) }
{
    for core in 0..cores {
        write_signal(line, Signal::Copy(core), out)?;
    }
    Ok(())
}

fn write_signal<W: Write>(line: LineAddr, signal: Signal, out: &mut W) -> fmt::Result
    ensures { OnOk result (WritesInCalls W.write_str_gives out.old (text_of_signal line signal) out.new) }
{
    let code = Code { line, signal };
    writeln!(out, "$var string 1 {code} {signal} $end")
}

fn write_total<W: Write>(line: LineAddr, out: &mut W) -> fmt::Result
    ensures { OnOk result (WritesInCalls W.write_str_gives out.old (text_of_total line) out.new) }
{
    let signal = Signal::Total;
    let code = Code { line, signal };
    writeln!(out, "$var integer 32 {code} {signal} [31:0] $end")
}
