//! Numbers of a table's lines and columns, used to compare cells.

ghost use Rattle.std.specs.Prelude.{◌≡◌};
ghost use Rattle.changed_tables.specs.Numbers.{case_number, dir_case_number, entry_number, sharing_number, state_number};

use cache_table::CopyState;
use protocol_tables::{CacheCase, Counted, DirCase, Entry, Sharing};

/// Returns the number of a state of a copy.
pub const fn state_number(state: CopyState) -> u8
    ensures { result ≡ state_number state }
{
    match state {
        CopyState::I => 0,
        CopyState::IS_D => 1,
        CopyState::IM_AD => 2,
        CopyState::IM_A => 3,
        CopyState::S => 4,
        CopyState::SM_AD => 5,
        CopyState::SM_A => 6,
        CopyState::M => 7,
        CopyState::MI_A => 8,
        CopyState::SI_A => 9,
        CopyState::II_A => 10,
        CopyState::E => 11,
    }
}

pub(crate) const fn case_number(case: CacheCase) -> u8
    ensures { result ≡ case_number case }
{
    match case {
        CacheCase::Load => 0,
        CacheCase::Write => 1,
        CacheCase::Eviction => 2,
        CacheCase::FwdGetS => 3,
        CacheCase::FwdGetM => 4,
        CacheCase::Inv => 5,
        CacheCase::PutAck => 6,
        CacheCase::Data(Counted::Equal) => 7,
        CacheCase::Data(Counted::Less) => 8,
        CacheCase::Data(Counted::More) => 9,
        CacheCase::InvAck(Counted::Equal) => 10,
        CacheCase::InvAck(Counted::Less) => 11,
        CacheCase::InvAck(Counted::More) => 12,
        CacheCase::DataE { all_loads: true } => 13,
        CacheCase::DataE { all_loads: false } => 14,
    }
}

const fn sharing_number(sharing: Sharing) -> u8
    ensures { result ≡ sharing_number sharing }
{
    match sharing {
        Sharing::Nobody => 0,
        Sharing::Asker => 1,
        Sharing::Others => 2,
        Sharing::Both => 3,
    }
}

pub(crate) const fn entry_number(entry: Entry) -> u8
    ensures { result ≡ entry_number entry }
{
    match entry {
        Entry::I => 0,
        Entry::S(sharing) => 3 + sharing_number(sharing),
        Entry::MOfAsker => 1,
        Entry::MOfAnother => 2,
        Entry::S_D(sharing) => 7 + sharing_number(sharing),
    }
}

pub(crate) const fn dir_case_number(case: DirCase) -> u8
    ensures { result ≡ dir_case_number case }
{
    match case {
        DirCase::GetS => 0,
        DirCase::GetM => 1,
        DirCase::PutS => 2,
        DirCase::PutM => 3,
        DirCase::DataHome => 4,
    }
}
