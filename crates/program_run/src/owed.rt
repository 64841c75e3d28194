//! The deliveries that slices have still to make after an access.
ghost use Rattle.std.specs.Prelude.{◌≡◌, ◌≢◌, ◌++◌, ◌-◌, ◌<◌, [], IfOk, IfSome, OnOk, length, map, replicate, slice_get, slice_index_or, slice_set, true, false};
ghost use Rattle.program_run.specs.Kept.{Knows};
ghost use Rattle.program_run.specs.Run.{owed_from, owed_in, pace_of};

use super::kept::Kept;
use super::moves::Move;
use litmus_script::Machine;
use std::alloc::{AllocError, Global};

/// Returns how many deliveries each slice makes after an access: 0 if no number is given.
pub(crate) fn pace_of(pace: Option<u64>) -> u64
    ensures { result ≡ pace_of pace }
{
    match pace {
        Some(most) => most,
        None => 0,
    }
}

/// None of `slices` slices has any to make.
pub(crate) fn nothing_owed(alloc: Global, slices: usize) -> Result<Vec<u64>, AllocError>
    ensures { IfOk result (λ owed. owed.items ≡ replicate slices 0) }
{
    vec![in alloc; 0; slices]
}

/// Each slice has `pace` still to make.
pub(crate) fn owe_all(owed: &mut Vec<u64>, pace: u64)
    ensures { owed.new.items ≡ map (λ left. pace) owed.old.items }
{
    for slice in 0..owed.len() {
        owed[slice] = pace;
    }
}

/// A slice has one less to make.
pub(crate) fn owe_less(owed: &mut Vec<u64>, slice: usize)
    ensures { owed.new.items ≡ slice_set owed.old.items slice (slice_index_or owed.old.items slice 0 - 1) }
{
    if slice >= owed.len() {
        return;
    }
    owed[slice] = owed[slice].saturating_sub(1);
}

/// Lists the deliveries of the first slice that has some still to make, and a message. `moves` is empty before.
pub(crate) fn list_owed(
    machine: &Machine,
    owed: &[u64],
    kept: &mut Kept,
    moves: &mut Vec<Move>,
) -> Result<(), AllocError>
    requires first { moves.old.items ≡ [] }
    requires kept { Knows machine.now.config machine.now.slices.items kept.old }
    ensures moves { OnOk result (moves.new.items ≡ owed_from owed.now 0 machine.now.slices.items) }
    ensures kept { OnOk result (Knows machine.now.config machine.now.slices.items kept.new) }
{
    for slice in 0..machine.slices.len() {
        list_owed_in(machine, slice, left_of(owed, slice), kept, moves)?;
        if !is_none(moves.as_slice()) {
            return Ok(());
        }
    }
    Ok(())
}

/// Whether no move is listed.
pub(crate) fn is_none(moves: &[Move]) -> bool
    ensures none { result ≡ true → moves.now ≡ [] }
    ensures some { result ≡ false → moves.now ≢ [] }
{
    moves.is_empty()
}

// Returns how many a slice has still to make.
fn left_of(owed: &[u64], slice: usize) -> u64
    ensures { result ≡ slice_index_or owed.now slice 0 }
{
    match owed.get(slice) {
        Some(left) => *left,
        None => 0,
    }
}

// Lists the deliveries that a slice can be asked for, unless `left` is 0.
fn list_owed_in(
    machine: &Machine,
    slice: usize,
    left: u64,
    kept: &mut Kept,
    moves: &mut Vec<Move>,
) -> Result<(), AllocError>
    requires slice { slice < length machine.now.slices.items }
    requires kept { Knows machine.now.config machine.now.slices.items kept.old }
    ensures moves { OnOk result (IfSome (slice_get machine.now.slices.items slice)
        (λ state. moves.new.items ≡ moves.old.items ++ owed_in left state)) }
    ensures kept { OnOk result (Knows machine.now.config machine.now.slices.items kept.new) }
{
    if left == 0 {
        return Ok(());
    }
    kept.list_waiting(machine, slice, moves)
}
