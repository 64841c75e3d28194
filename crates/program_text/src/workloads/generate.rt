ghost use Rattle.std.specs.Prelude.{◌≡◌, ◌≤◌, IfOk, OnOk, List};
ghost use Rattle.program_text.specs.Workload.{IsPrinted, IsWorkload};

use super::dense::{push_matmul, push_stencil};
use super::drawn::{push_chase, push_uniform, push_zipf};
use super::fault::GenerateFault;
use super::shared::{push_histogram, push_lock, push_ring};
use super::workload::{Size, Workload};
use crate::Programs;
use stats_report::write_text;
use std::alloc::{AllocError, Global};
use std::io::Write;

/// Prints the programs of a workload.
pub fn write_workload<W: Write>(
    alloc: Global,
    workload: Workload,
    size: Size,
    out: &mut W,
) -> Result<(), GenerateFault>
    ensures { OnOk result (IsPrinted (W.contents out.old) (W.contents out.new)) }
{
    if size.cores == 0 || size.cores > 64 {
        return Err(GenerateFault::Cores);
    }
    let most = workload.most(size.cores);
    if size.size == 0 || size.size > most {
        return Err(GenerateFault::Size(most));
    }
    let text = generate(alloc, workload, size)?;
    match write_text(out, text.as_slice()) {
        Ok(()) => Ok(()),
        Err(_) => Err(GenerateFault::CannotWrite),
    }
}

// Returns the text of a workload that the reader takes.
fn generate(alloc: Global, workload: Workload, size: Size) -> Result<Vec<u8>, GenerateFault>
    requires { size.cores ≤ 64 }
    ensures { IfOk result (λ text. IsWorkload text.items) }
{
    let mut text = Vec::new(alloc);
    push_workload(alloc, &mut text, workload, size)?;
    match Programs::read(alloc, text.as_slice()) {
        Ok(programs) => {
            drop(programs);
            Ok(text)
        }
        Err(fault) => Err(GenerateFault::of_text(fault)),
    }
}

fn push_workload(
    alloc: Global,
    text: &mut Vec<u8>,
    workload: Workload,
    size: Size,
) -> Result<(), AllocError>
    requires { size.cores ≤ 64 }
{
    let Size { cores, size, seed } = size;
    match workload {
        Workload::Matmul => push_matmul(text, cores, size.min(64)),
        Workload::Stencil => push_stencil(text, cores, size.min(64)),
        Workload::Histogram => push_histogram(text, cores, size.min(4096), seed),
        Workload::Ring => push_ring(text, cores, size),
        Workload::Lock => push_lock(text, cores, size),
        Workload::Chase => push_chase(alloc, text, cores, size.min(65536), seed),
        Workload::Uniform => push_uniform(text, cores, size, seed),
        Workload::Zipf => push_zipf(alloc, text, cores, size, seed),
    }
}
