//! The programs of a workload.

use super::streams::{Streams, complain};
use litmus_command_line::GenerateArgs;
use program_text::{GenerateFault, Size, Workload, write_workload};
use std::io::{self, BufWriter, Write};

/// Prints the programs of a workload, and returns the exit status.
pub fn print_workload<R>(rt: &R, streams: Streams, args: GenerateArgs<'_>) -> u8
where
    R: AllocGlobal + Print + Eprint,
{
    match print(rt, args) {
        Ok(()) => 0,
        Err(fault) => {
            complain(rt, streams, fault);
            fault.status()
        }
    }
}

fn print<R>(rt: &R, args: GenerateArgs<'_>) -> Result<(), GenerateFault>
where
    R: AllocGlobal + Print,
{
    let Some(workload) = Workload::named(args.name) else {
        return Err(GenerateFault::Unknown);
    };
    let size = Size {
        cores: args.cores,
        size: args.size,
        seed: args.seed,
    };
    let Ok(mut out) = BufWriter::new(rt.alloc(), io::writer(rt)) else {
        return Err(GenerateFault::NoMemory);
    };
    write_workload(rt.alloc(), workload, size, &mut out)?;
    match out.flush() {
        Ok(()) => Ok(()),
        Err(_) => Err(GenerateFault::CannotWrite),
    }
}
