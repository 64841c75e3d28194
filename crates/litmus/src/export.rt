ghost use Rattle.std.specs.Prelude.{◌≡◌, ◌<◌, IfErr, IfOk, OnOk};
ghost use Rattle.std.specs.Io.KnownBytes.{Appends};
ghost use Rattle.litmus_command_line.specs.CommandLine.{number_of};
ghost use Rattle.protocol_models.specs.Model.{model_of};
ghost use Rattle.protocol_models.specs.Queries.{queries_of};

use changed_tables::Tables;
use litmus_command_line::ModelCores;
use litmus_script::TextWriter;
use litmus_text::TextFault;
use protocol_models::{write_model, write_queries};
use std::io::Write;

/// Prints the protocol of a line under these tables as a model of `cores` cores, and with what can be completed once no
/// core makes requests any more, or without it. Returns the exit status.
pub fn run_export<W: Write>(
    tables: &Tables,
    cores: ModelCores,
    closed: bool,
    out: &mut W,
) -> Result<u8, TextFault>
    ensures status { IfOk result (λ status. status ≡ 0) }
    ensures fault { IfErr result (λ fault. fault ≡ TextFault.CannotWrite) }
    ensures printed { OnOk result
        (Appends (W.contents out.old) (W.contents out.new) (model_of tables.now closed (number_of cores))) }
{
    print_model(tables, closed, cores.number(), out)
}

fn print_model<W: Write>(
    tables: &Tables,
    closed: bool,
    cores: u8,
    out: &mut W,
) -> Result<u8, TextFault>
    requires { cores < 64 }
    ensures status { IfOk result (λ status. status ≡ 0) }
    ensures fault { IfErr result (λ fault. fault ≡ TextFault.CannotWrite) }
    ensures printed { OnOk result (Appends (W.contents out.old) (W.contents out.new)
        (model_of tables.now closed cores)) }
{
    let mut answers = TextWriter { out };
    match write_model(tables, closed, cores, &mut answers) {
        Ok(()) => Ok(0),
        Err(_) => Err(TextFault::CannotWrite),
    }
}

/// Prints a line's protocol as queries for any number of cores, with or without the exclusive state. Returns the exit
/// status.
pub fn run_queries<W: Write>(exclusive: bool, out: &mut W) -> Result<u8, TextFault>
    ensures status { IfOk result (λ status. status ≡ 0) }
    ensures fault { IfErr result (λ fault. fault ≡ TextFault.CannotWrite) }
    ensures printed { OnOk result (Appends (W.contents out.old) (W.contents out.new) (queries_of exclusive)) }
{
    let mut answers = TextWriter { out };
    match write_queries(exclusive, &mut answers) {
        Ok(()) => Ok(0),
        Err(_) => Err(TextFault::CannotWrite),
    }
}
