//! `table`: a table of the protocol, for which no file is read.

ghost use Rattle.std.specs.Prelude.{◌≡◌, IfErr, IfOk, OnOk};
ghost use Rattle.std.specs.Io.KnownBytes.{Appends};
ghost use Rattle.lockup.specs.Printed.{text_of};

use super::subcommand::Subcommand;
use litmus::{TableArgs, run_table, run_table_cells};
use litmus_text::TextFault;
use lockup_front::Streams;
use std::io::Write;
use std::rt::Files;
use std::sync::Wait;
use std::thread::Threads;

impl Subcommand for TableArgs {
    fn file(&self) -> Option<&str> {
        None
    }

    fn print<R, W>(
        &self,
        _rt: &R,
        _streams: Streams,
        _input: &[u8],
        out: &mut W,
    ) -> Result<u8, TextFault>
    where
        R: Files + Input + AllocGlobal + Eprint + Threads + Wait + Sync,
        W: Write,
        ensures status { IfOk result (λ status. status ≡ 0) }
        ensures printed { OnOk result (Appends (W.contents out.old) (W.contents out.new) (text_of self.now)) }
        ensures fault { IfErr result (λ fault. fault ≡ TextFault.CannotWrite) }
    {
        if self.json {
            run_table_cells(self.table, self.exclusive, out)
        } else {
            run_table(self.table, self.exclusive, out)
        }
    }
}
