//! `export`: a line's protocol as a model, also that of tables in files, or as queries.

ghost use Rattle.std.specs.Prelude.{◌≡◌, IfErr, IfOk, OnOk};
ghost use Rattle.std.specs.Io.KnownBytes.{Appends};
ghost use Rattle.protocol_models.specs.Queries.{queries_of};

use super::subcommand::Subcommand;
use litmus::{ExportArgs, QueriesArgs, run_export, run_queries};
use litmus_text::TextFault;
use lockup_front::{Streams, read_tables};
use std::io::Write;
use std::rt::Files;
use std::sync::Wait;
use std::thread::Threads;

impl Subcommand for ExportArgs<'_> {
    fn file(&self) -> Option<&str> {
        None
    }

    fn print<R, W>(
        &self,
        rt: &R,
        streams: Streams,
        _input: &[u8],
        out: &mut W,
    ) -> Result<u8, TextFault>
    where
        R: Files + Input + AllocGlobal + Eprint + Threads + Wait + Sync,
        W: Write,
    {
        match read_tables(rt, streams, self.tables, self.exclusive) {
            Ok(tables) => run_export(&tables, self.cores, self.closed, out),
            Err(status) => Ok(status),
        }
    }
}

impl Subcommand for QueriesArgs {
    fn file(&self) -> Option<&str> {
        None
    }

    fn print<R, W>(
        &self,
        _rt: &R,
        _streams: Streams,
        _input: &[u8],
        out: &mut W,
    ) -> Result<u8, TextFault>
    where
        R: Files + Input + AllocGlobal + Eprint + Threads + Wait + Sync,
        W: Write,
        ensures status { IfOk result (λ status. status ≡ 0) }
        ensures printed { OnOk result
            (Appends (W.contents out.old) (W.contents out.new) (queries_of self.now.exclusive)) }
        ensures fault { IfErr result (λ fault. fault ≡ TextFault.CannotWrite) }
    {
        run_queries(self.exclusive, out)
    }
}
