ghost use Rattle.receipt_ledger.specs.Accepted.{AcceptedAreTheCores};
ghost use Rattle.receipt_ledger.specs.Kept.{DeliveriesKeepTheBook, NoStepKeepsTheBook};

/// Does nothing. Its contract says that a book counts as accepted exactly what the cores of its slice had accepted, all
/// together.
pub const fn accepted_are_the_cores_own()
    ensures { AcceptedAreTheCores }
{}

/// Does nothing. Its contract says that a state and its book still belong together after a delivery or an eviction of
/// the state: by what `SliceState::deliver`, `deliver_next` and `evict` ensure of it (`same` and `machine`).
pub const fn deliveries_keep_the_book()
    ensures delivered { DeliveriesKeepTheBook }
    ensures evicted { NoStepKeepsTheBook }
{}
