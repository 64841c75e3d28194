//! All cells, in the order of the tables.
ghost use Rattle.std.specs.Prelude.{◌≡◌, ℕ, IfNone, IfSome, Some, slice_get};
ghost use Rattle.script_coverage.specs.declared.cells.TheConstants.{CELLS};

use super::table_cell::Cell;
use super::table_cell::Outcome::{Blocked, Busy, Joins, NotHeld, Stalls, To};
use super::table_cell::TableEvent::{
    Data, DataE, DataHome, Eviction, FwdGetM, FwdGetS, GetM, GetS, Inv, InvAck, Load, PutAck, PutM,
    PutS, Write,
};
use super::table_cell::TableState::{Cache, Directory};
use cache_table::CopyState;
use directory_table::DirState;

/// Each cell that can be met under one of the two settings of the exclusive state, state by state.
#[rattlefmt::skip]
pub static CELLS: [Cell; 94] = [
    Cell { state: Cache(CopyState::I), event: Load, outcome: To(Cache(CopyState::IS_D)) },
    Cell { state: Cache(CopyState::I), event: Write, outcome: To(Cache(CopyState::IM_AD)) },
    Cell { state: Cache(CopyState::I), event: Eviction, outcome: NotHeld },
    Cell { state: Cache(CopyState::IS_D), event: Load, outcome: Joins },
    Cell { state: Cache(CopyState::IS_D), event: Write, outcome: Joins },
    Cell { state: Cache(CopyState::IS_D), event: Eviction, outcome: Busy },
    Cell { state: Cache(CopyState::IS_D), event: FwdGetS, outcome: Blocked },
    Cell { state: Cache(CopyState::IS_D), event: FwdGetM, outcome: Blocked },
    Cell { state: Cache(CopyState::IS_D), event: Inv, outcome: Blocked },
    Cell { state: Cache(CopyState::IS_D), event: Data, outcome: To(Cache(CopyState::S)) },
    Cell { state: Cache(CopyState::IS_D), event: DataE, outcome: To(Cache(CopyState::E)) },
    Cell { state: Cache(CopyState::IS_D), event: DataE, outcome: To(Cache(CopyState::M)) },
    Cell { state: Cache(CopyState::IM_AD), event: Load, outcome: Joins },
    Cell { state: Cache(CopyState::IM_AD), event: Write, outcome: Joins },
    Cell { state: Cache(CopyState::IM_AD), event: Eviction, outcome: Busy },
    Cell { state: Cache(CopyState::IM_AD), event: FwdGetS, outcome: Blocked },
    Cell { state: Cache(CopyState::IM_AD), event: FwdGetM, outcome: Blocked },
    Cell { state: Cache(CopyState::IM_AD), event: Data, outcome: To(Cache(CopyState::M)) },
    Cell { state: Cache(CopyState::IM_AD), event: Data, outcome: To(Cache(CopyState::IM_A)) },
    Cell { state: Cache(CopyState::IM_AD), event: InvAck, outcome: To(Cache(CopyState::IM_AD)) },
    Cell { state: Cache(CopyState::IM_A), event: Load, outcome: Joins },
    Cell { state: Cache(CopyState::IM_A), event: Write, outcome: Joins },
    Cell { state: Cache(CopyState::IM_A), event: Eviction, outcome: Busy },
    Cell { state: Cache(CopyState::IM_A), event: FwdGetS, outcome: Blocked },
    Cell { state: Cache(CopyState::IM_A), event: FwdGetM, outcome: Blocked },
    Cell { state: Cache(CopyState::IM_A), event: InvAck, outcome: To(Cache(CopyState::M)) },
    Cell { state: Cache(CopyState::IM_A), event: InvAck, outcome: To(Cache(CopyState::IM_A)) },
    Cell { state: Cache(CopyState::S), event: Load, outcome: To(Cache(CopyState::S)) },
    Cell { state: Cache(CopyState::S), event: Write, outcome: To(Cache(CopyState::SM_AD)) },
    Cell { state: Cache(CopyState::S), event: Eviction, outcome: To(Cache(CopyState::SI_A)) },
    Cell { state: Cache(CopyState::S), event: Inv, outcome: To(Cache(CopyState::I)) },
    Cell { state: Cache(CopyState::SM_AD), event: Load, outcome: Joins },
    Cell { state: Cache(CopyState::SM_AD), event: Write, outcome: Joins },
    Cell { state: Cache(CopyState::SM_AD), event: Eviction, outcome: Busy },
    Cell { state: Cache(CopyState::SM_AD), event: FwdGetS, outcome: Blocked },
    Cell { state: Cache(CopyState::SM_AD), event: FwdGetM, outcome: Blocked },
    Cell { state: Cache(CopyState::SM_AD), event: Inv, outcome: To(Cache(CopyState::IM_AD)) },
    Cell { state: Cache(CopyState::SM_AD), event: Data, outcome: To(Cache(CopyState::M)) },
    Cell { state: Cache(CopyState::SM_AD), event: Data, outcome: To(Cache(CopyState::SM_A)) },
    Cell { state: Cache(CopyState::SM_AD), event: InvAck, outcome: To(Cache(CopyState::SM_AD)) },
    Cell { state: Cache(CopyState::SM_A), event: Load, outcome: Joins },
    Cell { state: Cache(CopyState::SM_A), event: Write, outcome: Joins },
    Cell { state: Cache(CopyState::SM_A), event: Eviction, outcome: Busy },
    Cell { state: Cache(CopyState::SM_A), event: FwdGetS, outcome: Blocked },
    Cell { state: Cache(CopyState::SM_A), event: FwdGetM, outcome: Blocked },
    Cell { state: Cache(CopyState::SM_A), event: InvAck, outcome: To(Cache(CopyState::M)) },
    Cell { state: Cache(CopyState::SM_A), event: InvAck, outcome: To(Cache(CopyState::SM_A)) },
    Cell { state: Cache(CopyState::M), event: Load, outcome: To(Cache(CopyState::M)) },
    Cell { state: Cache(CopyState::M), event: Write, outcome: To(Cache(CopyState::M)) },
    Cell { state: Cache(CopyState::M), event: Eviction, outcome: To(Cache(CopyState::MI_A)) },
    Cell { state: Cache(CopyState::M), event: FwdGetS, outcome: To(Cache(CopyState::S)) },
    Cell { state: Cache(CopyState::M), event: FwdGetM, outcome: To(Cache(CopyState::I)) },
    Cell { state: Cache(CopyState::E), event: Load, outcome: To(Cache(CopyState::E)) },
    Cell { state: Cache(CopyState::E), event: Write, outcome: To(Cache(CopyState::M)) },
    Cell { state: Cache(CopyState::E), event: Eviction, outcome: To(Cache(CopyState::MI_A)) },
    Cell { state: Cache(CopyState::E), event: FwdGetS, outcome: To(Cache(CopyState::S)) },
    Cell { state: Cache(CopyState::E), event: FwdGetM, outcome: To(Cache(CopyState::I)) },
    Cell { state: Cache(CopyState::MI_A), event: Load, outcome: Stalls },
    Cell { state: Cache(CopyState::MI_A), event: Write, outcome: Stalls },
    Cell { state: Cache(CopyState::MI_A), event: Eviction, outcome: Busy },
    Cell { state: Cache(CopyState::MI_A), event: FwdGetS, outcome: To(Cache(CopyState::SI_A)) },
    Cell { state: Cache(CopyState::MI_A), event: FwdGetM, outcome: To(Cache(CopyState::II_A)) },
    Cell { state: Cache(CopyState::MI_A), event: PutAck, outcome: To(Cache(CopyState::I)) },
    Cell { state: Cache(CopyState::SI_A), event: Load, outcome: Stalls },
    Cell { state: Cache(CopyState::SI_A), event: Write, outcome: Stalls },
    Cell { state: Cache(CopyState::SI_A), event: Eviction, outcome: Busy },
    Cell { state: Cache(CopyState::SI_A), event: Inv, outcome: To(Cache(CopyState::II_A)) },
    Cell { state: Cache(CopyState::SI_A), event: PutAck, outcome: To(Cache(CopyState::I)) },
    Cell { state: Cache(CopyState::II_A), event: Load, outcome: Stalls },
    Cell { state: Cache(CopyState::II_A), event: Write, outcome: Stalls },
    Cell { state: Cache(CopyState::II_A), event: Eviction, outcome: Busy },
    Cell { state: Cache(CopyState::II_A), event: PutAck, outcome: To(Cache(CopyState::I)) },
    Cell { state: Directory(DirState::I), event: GetS, outcome: To(Directory(DirState::S)) },
    Cell { state: Directory(DirState::I), event: GetS, outcome: To(Directory(DirState::M)) },
    Cell { state: Directory(DirState::I), event: GetM, outcome: To(Directory(DirState::M)) },
    Cell { state: Directory(DirState::I), event: PutS, outcome: To(Directory(DirState::I)) },
    Cell { state: Directory(DirState::I), event: PutM, outcome: To(Directory(DirState::I)) },
    Cell { state: Directory(DirState::S), event: GetS, outcome: To(Directory(DirState::S)) },
    Cell { state: Directory(DirState::S), event: GetM, outcome: To(Directory(DirState::M)) },
    Cell { state: Directory(DirState::S), event: PutS, outcome: To(Directory(DirState::S)) },
    Cell { state: Directory(DirState::S), event: PutS, outcome: To(Directory(DirState::I)) },
    Cell { state: Directory(DirState::S), event: PutM, outcome: To(Directory(DirState::S)) },
    Cell { state: Directory(DirState::S), event: PutM, outcome: To(Directory(DirState::I)) },
    Cell { state: Directory(DirState::M), event: GetS, outcome: To(Directory(DirState::S_D)) },
    Cell { state: Directory(DirState::M), event: GetM, outcome: To(Directory(DirState::M)) },
    Cell { state: Directory(DirState::M), event: PutS, outcome: To(Directory(DirState::M)) },
    Cell { state: Directory(DirState::M), event: PutM, outcome: To(Directory(DirState::M)) },
    Cell { state: Directory(DirState::M), event: PutM, outcome: To(Directory(DirState::I)) },
    Cell { state: Directory(DirState::S_D), event: GetS, outcome: Blocked },
    Cell { state: Directory(DirState::S_D), event: GetM, outcome: Blocked },
    Cell { state: Directory(DirState::S_D), event: PutS, outcome: To(Directory(DirState::S_D)) },
    Cell { state: Directory(DirState::S_D), event: PutM, outcome: To(Directory(DirState::S_D)) },
    Cell { state: Directory(DirState::S_D), event: DataHome, outcome: To(Directory(DirState::S)) },
    Cell { state: Directory(DirState::S_D), event: DataHome, outcome: To(Directory(DirState::I)) },
];

impl Cell {
    /// Returns its place among the cells; none if it can't be met.
    pub fn number(self) -> Option<u8>
        ensures found { IfSome result (λ number. slice_get CELLS number ≡ Some self) }
        ensures none { IfNone result ((number : ℕ) → ¬ (slice_get CELLS number ≡ Some self)) }
    {
        for number in 0..CELLS.len() {
            if CELLS[number].is(&self) {
                return Some(number as u8);
            }
        }
        None
    }
}
