//! What notes the cells that steps met.
ghost use Rattle.std.specs.Prelude.{IfErr, OnOk};
ghost use Rattle.std.specs.Io.KnownBytes.{Appends};
ghost use Rattle.litmus_script.specs.Play.{IsOfRun};
ghost use Rattle.script_coverage.specs.Trail.{IsNumberOf, Notes};

use super::cell::{cell_of, cell_of_delivery};
use super::table_cell::Cell;
use litmus_script::Machine;
use litmus_text::{Statement, TextFault};
use script_explained::{DeliveryStep, Step, StepWriter};
use stats_report::write_text;
use std::io::Write;

/// Writes of each step the number of the cell that it met, in one byte.
#[derive(Clone, Copy)]
pub(crate) struct Noting;

impl StepWriter for Noting {
    ghost use Rattle.script_coverage.specs.Trail.{NotesNext, NotesStep};

    ghost writes = { λ _. NotesStep };

    ghost writes_next = { λ _. NotesNext };

    fn write<W: Write>(
        &self,
        _machine: &Machine,
        _statement: &Statement<'_>,
        step: &Step,
        out: &mut W,
    ) -> Result<(), TextFault> {
        note(cell_of(step), out)
    }

    fn write_next<W: Write>(
        &self,
        _machine: &Machine,
        _number: usize,
        delivery: DeliveryStep,
        out: &mut W,
    ) -> Result<(), TextFault> {
        note(cell_of_delivery(&delivery), out)
    }
}

/// Writes the number of a cell, if there is one.
fn note<W: Write>(cell: Option<Cell>, out: &mut W) -> Result<(), TextFault>
    ensures noted { OnOk result (Notes cell (W.contents out.old) (W.contents out.new)) }
    ensures fault { IfErr result IsOfRun }
{
    match number_of(cell) {
        Some(number) => write_bytes(&[number], out),
        None => write_bytes(&[], out),
    }
}

/// The number of a cell, if there is one.
pub fn number_of(cell: Option<Cell>) -> Option<u8>
    ensures { IsNumberOf cell result }
{
    match cell {
        Some(cell) => cell.number(),
        None => None,
    }
}

fn write_bytes<W: Write>(bytes: &[u8], out: &mut W) -> Result<(), TextFault>
    ensures written { OnOk result (Appends (W.contents out.old) (W.contents out.new) bytes.now) }
    ensures fault { IfErr result IsOfRun }
{
    match write_text(out, bytes) {
        Ok(()) => Ok(()),
        Err(_) => Err(TextFault::CannotWrite),
    }
}
