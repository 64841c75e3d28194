//! The command of a unit of time.
ghost use Rattle.std.specs.Prelude.{◌≡◌, ◌<◌, ◌∷◌, [], OnOk};
ghost use Rattle.std.specs.Fmt.{WritesInCalls};
ghost use Rattle.std.specs.List.{flat_map};
ghost use Rattle.script_waves.specs.Values.{byte_shown, text_of_command, text_of_time};

use std::fmt;
use std::fmt::Write;

/// Writes how many commands were played.
pub(crate) fn write_time<W: Write>(played: u64, out: &mut W) -> fmt::Result
    ensures { OnOk result (WritesInCalls W.write_str_gives out.old (text_of_time played) out.new) }
{
    writeln!(out, "#{played}")
}

/// Writes a command's line as one word.
pub(crate) fn write_command<W: Write>(line: &[u8], out: &mut W) -> fmt::Result
    ensures { OnOk result (WritesInCalls W.write_str_gives out.old (text_of_command line.now) out.new) }
{
    write!(out, "s")?;
    write_bytes(line, out)?;
    writeln!(out, " c")
}

fn write_bytes<W: Write>(line: &[u8], out: &mut W) -> fmt::Result
    ensures { OnOk result (WritesInCalls W.write_str_gives out.old
        (flat_map (λ byte. byte_shown byte ∷ []) line.now) out.new) }
{
    for byte in line {
        write_ascii(shown(*byte), out)?;
    }
    Ok(())
}

fn write_ascii<W: Write>(byte: u8, out: &mut W) -> fmt::Result
    requires { byte < 128 }
    ensures { OnOk result (WritesInCalls W.write_str_gives out.old (byte ∷ []) out.new) }
{
    out.write_char(byte as char)
}

/// A byte that isn't printable ASCII is written as `_`.
fn shown(byte: u8) -> u8
    ensures shown { result ≡ byte_shown byte }
    ensures ascii { result < 128 }
{
    if matches!(byte, b'!'..=b'~') {
        byte
    } else {
        b'_'
    }
}
