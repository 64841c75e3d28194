//! What comes before the values of the counts of cores.
ghost use Rattle.std.specs.Prelude.{◌++◌, OnOk, codes, decimal};
ghost use Rattle.std.specs.Fmt.{WritesInCalls};
ghost use Rattle.std.specs.List.{flat_map, range_with_len};
ghost use Rattle.script_waves.specs.Signals.{text_of_core, text_of_number, text_of_slice, text_of_slices};

use super::signal::{Use, UseCode};
use std::fmt;
use std::fmt::Write;

/// Writes the signals of `cores` cores in each of `slices` slices.
pub(crate) fn write_slices<W: Write>(cores: usize, slices: usize, out: &mut W) -> fmt::Result
    ensures { OnOk result (WritesInCalls W.write_str_gives out.old (text_of_slices cores slices) out.new) }
{
    for slice in 0..slices {
        write_slice(cores, slice, out)?;
    }
    Ok(())
}

fn write_slice<W: Write>(cores: usize, slice: usize, out: &mut W) -> fmt::Result
    ensures { OnOk result (WritesInCalls W.write_str_gives out.old (text_of_slice cores slice) out.new) }
{
    writeln!(out, "$scope module slice{slice} $end")?;
    write_cores(cores, slice, out)?;
    writeln!(out, "$upscope $end")
}

fn write_cores<W: Write>(cores: usize, slice: usize, out: &mut W) -> fmt::Result
    ensures { OnOk result (WritesInCalls W.write_str_gives out.old
        (flat_map (text_of_core slice) (range_with_len 0 cores)) out.new) }
{
    for core in 0..cores {
        write_core(slice, core, out)?;
    }
    Ok(())
}

fn write_core<W: Write>(slice: usize, core: usize, out: &mut W) -> fmt::Result
    ensures { OnOk result (WritesInCalls W.write_str_gives out.old (text_of_core slice core) out.new) }
{
    writeln!(out, "$scope module core{core} $end")?;
    write_number(slice, core, Use::Registers, out)?;
    write_number(slice, core, Use::Targets, out)?;
    write_number(slice, core, Use::WriteBacks, out)?;
    writeln!(out, "$upscope $end")
}

fn write_number<W: Write>(slice: usize, core: usize, of: Use, out: &mut W) -> fmt::Result
    ensures { OnOk result (WritesInCalls W.write_str_gives out.old (text_of_number slice core of) out.new) }
{
    let code = UseCode { slice, core, of };
    writeln!(out, "$var integer 32 {code} {of} [31:0] $end")
}
