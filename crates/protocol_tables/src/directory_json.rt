//! The cells of a directory's table as values of JSON.

ghost use Rattle.std.specs.Prelude.{◌≡◌, OnOk};
ghost use Rattle.std.specs.Fmt.{WritesInCalls};
ghost use Rattle.protocol_tables.specs.DirectoryJson.{cells_of, entry_lines, line_of, lines_of, said_of};

use super::directory_rows::{
    DirCase, DirMessage, DirRule, Entry, Owns, Shares, Sharing, dir_cases, directory_rule, entries,
};
use std::fmt;
use std::fmt::Write;

/// The entry's state.
#[derive(Clone, Copy)]
struct State(Entry);

impl fmt::Display for State {
    ghost use Rattle.std.specs.Prelude.{Some};
    ghost use Rattle.protocol_tables.specs.DirectoryJson.{state_of};

    ghost output = { λ entry. Some (state_of entry.0) };

    fn fmt<W: fmt::Write>(&self, f: &mut fmt::Formatter<W>) -> fmt::Result {
        f.write_str(match self.0 {
            Entry::I => "I",
            Entry::S(_) => "S",
            Entry::MOfAsker | Entry::MOfAnother => "M",
            Entry::S_D(_) => "S_D",
        })
    }
}

/// Who owns the line, and who shares it.
#[derive(Clone, Copy)]
struct Guard(Entry);

impl fmt::Display for Guard {
    ghost use Rattle.std.specs.Prelude.{Some};
    ghost use Rattle.protocol_tables.specs.DirectoryJson.{guard_of};

    ghost output = { λ entry. Some (guard_of entry.0) };

    fn fmt<W: fmt::Write>(&self, f: &mut fmt::Formatter<W>) -> fmt::Result {
        f.write_str(match self.0 {
            Entry::MOfAsker => {
                "{\"owner\":\"requester\",\"requester_shares\":false,\"others_share\":false}"
            }
            Entry::MOfAnother => {
                "{\"owner\":\"other\",\"requester_shares\":false,\"others_share\":false}"
            }
            Entry::I | Entry::S(Sharing::Nobody) | Entry::S_D(Sharing::Nobody) => {
                "{\"owner\":\"nobody\",\"requester_shares\":false,\"others_share\":false}"
            }
            Entry::S(Sharing::Asker) | Entry::S_D(Sharing::Asker) => {
                "{\"owner\":\"nobody\",\"requester_shares\":true,\"others_share\":false}"
            }
            Entry::S(Sharing::Others) | Entry::S_D(Sharing::Others) => {
                "{\"owner\":\"nobody\",\"requester_shares\":false,\"others_share\":true}"
            }
            Entry::S(Sharing::Both) | Entry::S_D(Sharing::Both) => {
                "{\"owner\":\"nobody\",\"requester_shares\":true,\"others_share\":true}"
            }
        })
    }
}

/// The event's name.
#[derive(Clone, Copy)]
struct Event(DirCase);

impl fmt::Display for Event {
    ghost use Rattle.std.specs.Prelude.{Some};
    ghost use Rattle.protocol_tables.specs.DirectoryJson.{event_of};

    ghost output = { λ event. Some (event_of event.0) };

    fn fmt<W: fmt::Write>(&self, f: &mut fmt::Formatter<W>) -> fmt::Result {
        f.write_str(match self.0 {
            DirCase::GetS => "GetS",
            DirCase::GetM => "GetM",
            DirCase::PutS => "PutS",
            DirCase::PutM => "PutM",
            DirCase::DataHome => "Data home",
        })
    }
}

/// What a row does: what it sends, and whether it writes the home copy.
#[derive(Clone, Copy)]
struct Effects {
    sends: DirMessage,
    writes_home: bool,
}

impl fmt::Display for Effects {
    ghost use Rattle.std.specs.Prelude.{Some};
    ghost use Rattle.protocol_tables.specs.DirectoryJson.{effects_of};

    ghost output = { λ does. Some (effects_of does.sends does.writes_home) };

    fn fmt<W: fmt::Write>(&self, f: &mut fmt::Formatter<W>) -> fmt::Result {
        let (sends, home) = (Sends(self.sends), Home(self.writes_home));
        match (self.sends, self.writes_home) {
            (DirMessage::Nothing, _) | (_, false) => write!(f, "{sends}{home}"),
            (_, true) => write!(f, "{sends},{home}"),
        }
    }
}

/// What a row sends, and to whom.
#[derive(Clone, Copy)]
struct Sends(DirMessage);

impl fmt::Display for Sends {
    ghost use Rattle.std.specs.Prelude.{Some};
    ghost use Rattle.protocol_tables.specs.DirectoryJson.{sends_of};

    ghost output = { λ sent. Some (sends_of sent.0) };

    fn fmt<W: fmt::Write>(&self, f: &mut fmt::Formatter<W>) -> fmt::Result {
        f.write_str(match self.0 {
            DirMessage::Nothing => "",
            DirMessage::Data => {
                "{\"send\":\"Data\",\"to\":\"requester\",\"with\":\"block\",\"acknowledgements\":\"none\"}"
            }
            DirMessage::DataE => "{\"send\":\"Data-E\",\"to\":\"requester\",\"with\":\"block\"}",
            DirMessage::DataAndInv => {
                "{\"send\":\"Data\",\"to\":\"requester\",\"with\":\"block\",\"acknowledgements\":\"other sharers\"},{\"send\":\"Inv\",\"to\":\"other sharers\",\"names\":\"requester\"}"
            }
            DirMessage::FwdGetS =>
                "{\"send\":\"Fwd-GetS\",\"to\":\"owner\",\"names\":\"requester\"}",
            DirMessage::FwdGetM =>
                "{\"send\":\"Fwd-GetM\",\"to\":\"owner\",\"names\":\"requester\"}",
            DirMessage::PutAck => "{\"send\":\"Put-Ack\",\"to\":\"requester\"}",
        })
    }
}

/// Whether the message's block becomes the home copy.
#[derive(Clone, Copy)]
struct Home(bool);

impl fmt::Display for Home {
    ghost use Rattle.std.specs.Prelude.{Some};
    ghost use Rattle.protocol_tables.specs.DirectoryJson.{home_of};

    ghost output = { λ home. Some (home_of home.0) };

    fn fmt<W: fmt::Write>(&self, f: &mut fmt::Formatter<W>) -> fmt::Result {
        f.write_str(if self.0 {
            "{\"do\":\"block home\"}"
        } else {
            ""
        })
    }
}

/// Who owns the line afterwards.
#[derive(Clone, Copy)]
struct OwnerAfter(Owns);

impl fmt::Display for OwnerAfter {
    ghost use Rattle.std.specs.Prelude.{Some};
    ghost use Rattle.protocol_tables.specs.DirectoryJson.{owner_after};

    ghost output = { λ owns. Some (owner_after owns.0) };

    fn fmt<W: fmt::Write>(&self, f: &mut fmt::Formatter<W>) -> fmt::Result {
        f.write_str(match self.0 {
            Owns::Nobody => "nobody",
            Owns::Same => "same",
            Owns::Asker => "requester",
        })
    }
}

/// Who shares the line afterwards.
#[derive(Clone, Copy)]
struct SharersAfter(Shares);

impl fmt::Display for SharersAfter {
    ghost use Rattle.std.specs.Prelude.{Some};
    ghost use Rattle.protocol_tables.specs.DirectoryJson.{sharers_after};

    ghost output = { λ shares. Some (sharers_after shares.0) };

    fn fmt<W: fmt::Write>(&self, f: &mut fmt::Formatter<W>) -> fmt::Result {
        f.write_str(match self.0 {
            Shares::Nobody => "nobody",
            Shares::Same => "same",
            Shares::Asker => "requester",
            Shares::AskerToo => "same and requester",
            Shares::AskerNot => "same but requester",
            Shares::OwnerAndAsker => "owner and requester",
        })
    }
}

/// Writes the cells of a directory's table, with the exclusive state or without it.
pub fn write_directory_cells<W: Write>(exclusive: bool, out: &mut W) -> fmt::Result
    ensures { OnOk result (WritesInCalls W.write_str_gives out.old (cells_of exclusive) out.new) }
{
    write_entries(exclusive, entries(), out)
}

fn write_entries<W: Write>(exclusive: bool, entries: &[Entry], out: &mut W) -> fmt::Result
    ensures { OnOk result (WritesInCalls W.write_str_gives out.old (entry_lines exclusive entries.now) out.new) }
{
    for entry in entries {
        write_cells(exclusive, *entry, dir_cases(), out)?;
    }
    Ok(())
}

fn write_cells<W: Write>(
    exclusive: bool,
    entry: Entry,
    cases: &[DirCase],
    out: &mut W,
) -> fmt::Result
    ensures { OnOk result (WritesInCalls W.write_str_gives out.old (lines_of exclusive entry cases.now) out.new) }
{
    for case in cases {
        write_cell(entry, *case, directory_rule(exclusive, entry, *case), out)?;
    }
    Ok(())
}

fn write_cell<W: Write>(entry: Entry, case: DirCase, row: DirRule, out: &mut W) -> fmt::Result
    ensures { OnOk result (WritesInCalls W.write_str_gives out.old (line_of entry case row) out.new) }
{
    let (state, event, guard) = (State(entry), Event(case), Guard(entry));
    write!(
        out,
        "{{\"table\":\"directory\",\"state\":\"{state}\",\"event\":\"{event}\",\"guard\":{guard},"
    )?;
    write_row(row, out)
}

/// Writes what a cell says of its row.
fn write_row<W: Write>(row: DirRule, out: &mut W) -> fmt::Result
    ensures { OnOk result (WritesInCalls W.write_str_gives out.old (said_of row) out.new) }
{
    match row {
        DirRule::Go(does) => {
            let effects = Effects {
                sends: does.sends,
                writes_home: does.writes_home,
            };
            let (next, owner, sharers) = (
                does.state,
                OwnerAfter(does.owns),
                SharersAfter(does.shares),
            );
            write!(
                out,
                "\"row\":\"go\",\"effects\":[{effects}],\"next\":{{\"state\":\"{next}\",\"owner\":\"{owner}\",\"sharers\":\"{sharers}\"}}}}\n"
            )
        }
        DirRule::Blocked => write!(out, "\"row\":\"blocked\"}}\n"),
        DirRule::NoEntry => write!(out, "\"row\":\"never\"}}\n"),
    }
}
