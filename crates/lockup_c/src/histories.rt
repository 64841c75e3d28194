ghost use Rattle.std.specs.Prelude.{◌≡◌, []};
ghost use Rattle.history_text.specs.Histories.{AreTold};
ghost use Rattle.history_text.specs.declared.extent.Extent.TheVariants as extents;

use super::structs::ReasonNumbers;
use history_text::{Extent, Histories};
use std::alloc::Global;

/// Histories that are judged together.
#[derive(Drop)]
pub struct JudgedHistories {
    pub histories: Histories,
    /// How many accesses were given.
    pub accesses: usize,
    /// Why the last judgement found a word incoherent, if it did.
    pub reasons: Vec<ReasonNumbers>,
}

impl JudgedHistories {
    /// Returns empty histories.
    pub(crate) fn new(alloc: Global) -> Self
        ensures told { AreTold result.histories [] }
        ensures extent { result.histories.extent ≡ extents.Word }
    {
        JudgedHistories {
            histories: Histories::new(alloc, Extent::Word),
            accesses: 0,
            reasons: Vec::new(alloc),
        }
    }
}
