//! The queries of a directory: for each entry, as the core sees it that asks, and each event one.

ghost use Rattle.std.specs.Prelude.{◌≡◌, OnOk};
ghost use Rattle.std.specs.Fmt.{WritesInCalls};
ghost use Rattle.protocol_models.specs.SmtDirectory.{cells_of, entries_queries, entries_terms, entry_terms, queries_of, query_of};

use protocol_tables::{
    DirCase, DirEffect, DirMessage, DirRule, Entry, Owns, Shares, Sharing, dir_cases,
    directory_rule, entries, text_of_home,
};
use std::fmt;
use std::fmt::Write;

/// An entry, as in the tables: r asks, o is the owner, x are further sharers.
#[derive(Clone, Copy)]
struct EntryTitle(Entry);

impl fmt::Display for EntryTitle {
    ghost use Rattle.std.specs.Prelude.{Some};
    ghost use Rattle.protocol_models.specs.SmtDirectory.{entry_title};

    ghost output = { λ entry. Some (entry_title entry.0) };

    fn fmt<W: fmt::Write>(&self, f: &mut fmt::Formatter<W>) -> fmt::Result {
        f.write_str(match self.0 {
            Entry::I => "I",
            Entry::S(Sharing::Nobody) => "S",
            Entry::S(Sharing::Asker) => "S, sharers r",
            Entry::S(Sharing::Others) => "S, sharers x",
            Entry::S(Sharing::Both) => "S, sharers r, x",
            Entry::MOfAsker => "M, owner r",
            Entry::MOfAnother => "M, owner o",
            Entry::S_D(Sharing::Nobody) => "S_D",
            Entry::S_D(Sharing::Asker) => "S_D, sharers r",
            Entry::S_D(Sharing::Others) => "S_D, sharers x",
            Entry::S_D(Sharing::Both) => "S_D, sharers r, x",
        })
    }
}

/// An entry in the queries: its state, who owns the line, whether the requester shares it, and whether others do.
#[derive(Clone, Copy)]
struct EntryTerm(Entry);

impl fmt::Display for EntryTerm {
    ghost use Rattle.std.specs.Prelude.{Some};
    ghost use Rattle.protocol_models.specs.SmtDirectory.{entry_term};

    ghost output = { λ entry. Some (entry_term entry.0) };

    fn fmt<W: fmt::Write>(&self, f: &mut fmt::Formatter<W>) -> fmt::Result {
        f.write_str(match self.0 {
            Entry::I => "D_I nobody false false",
            Entry::S(Sharing::Nobody) => "D_S nobody false false",
            Entry::S(Sharing::Asker) => "D_S nobody true false",
            Entry::S(Sharing::Others) => "D_S nobody false true",
            Entry::S(Sharing::Both) => "D_S nobody true true",
            Entry::MOfAsker => "D_M asker false false",
            Entry::MOfAnother => "D_M another false false",
            Entry::S_D(Sharing::Nobody) => "D_S_D nobody false false",
            Entry::S_D(Sharing::Asker) => "D_S_D nobody true false",
            Entry::S_D(Sharing::Others) => "D_S_D nobody false true",
            Entry::S_D(Sharing::Both) => "D_S_D nobody true true",
        })
    }
}

/// An event, as in the tables.
#[derive(Clone, Copy)]
struct Title(DirCase);

impl fmt::Display for Title {
    ghost use Rattle.std.specs.Prelude.{Some};
    ghost use Rattle.protocol_models.specs.SmtDirectory.{title_of};

    ghost output = { λ title. Some (title_of title.0) };

    fn fmt<W: fmt::Write>(&self, f: &mut fmt::Formatter<W>) -> fmt::Result {
        f.write_str(match self.0 {
            DirCase::GetS => "GetS of r",
            DirCase::GetM => "GetM of r",
            DirCase::PutS => "PutS of r",
            DirCase::PutM => "PutM of r",
            DirCase::DataHome => "Data home",
        })
    }
}

/// An event in the queries.
#[derive(Clone, Copy)]
struct EventName(DirCase);

impl fmt::Display for EventName {
    ghost use Rattle.std.specs.Prelude.{Some};
    ghost use Rattle.protocol_models.specs.SmtDirectory.{event_name};

    ghost output = { λ event. Some (event_name event.0) };

    fn fmt<W: fmt::Write>(&self, f: &mut fmt::Formatter<W>) -> fmt::Result {
        f.write_str(match self.0 {
            DirCase::GetS => "take-GetS",
            DirCase::GetM => "take-GetM",
            DirCase::PutS => "take-PutS",
            DirCase::PutM => "take-PutM",
            DirCase::DataHome => "take-home",
        })
    }
}

/// What a row sends, as in the tables.
#[derive(Clone, Copy)]
struct SendsTitle(DirMessage);

impl fmt::Display for SendsTitle {
    ghost use Rattle.std.specs.Prelude.{Some};
    ghost use Rattle.protocol_models.specs.SmtDirectory.{sends_title};

    ghost output = { λ sent. Some (sends_title sent.0) };

    fn fmt<W: fmt::Write>(&self, f: &mut fmt::Formatter<W>) -> fmt::Result {
        f.write_str(match self.0 {
            DirMessage::Nothing => "",
            DirMessage::Data => "Data(0); ",
            DirMessage::DataE => "Data-E; ",
            DirMessage::DataAndInv => "Data(as many as x), Inv to x; ",
            DirMessage::FwdGetS => "Fwd-GetS to o; ",
            DirMessage::FwdGetM => "Fwd-GetM to o; ",
            DirMessage::PutAck => "Put-Ack; ",
        })
    }
}

/// What a row sends, in the queries.
#[derive(Clone, Copy)]
struct SendsName(DirMessage);

impl fmt::Display for SendsName {
    ghost use Rattle.std.specs.Prelude.{Some};
    ghost use Rattle.protocol_models.specs.SmtDirectory.{sends_name};

    ghost output = { λ sent. Some (sends_name sent.0) };

    fn fmt<W: fmt::Write>(&self, f: &mut fmt::Formatter<W>) -> fmt::Result {
        f.write_str(match self.0 {
            DirMessage::Nothing => "nothing",
            DirMessage::Data => "reply-Data",
            DirMessage::DataE => "reply-Data-E",
            DirMessage::DataAndInv => "reply-Data-and-Inv",
            DirMessage::FwdGetS => "forward-GetS",
            DirMessage::FwdGetM => "forward-GetM",
            DirMessage::PutAck => "reply-Put-Ack",
        })
    }
}

/// Who owns the line afterwards, in the queries.
#[derive(Clone, Copy)]
struct OwnsName(Owns);

impl fmt::Display for OwnsName {
    ghost use Rattle.std.specs.Prelude.{Some};
    ghost use Rattle.protocol_models.specs.SmtDirectory.{owns_name};

    ghost output = { λ owns. Some (owns_name owns.0) };

    fn fmt<W: fmt::Write>(&self, f: &mut fmt::Formatter<W>) -> fmt::Result {
        f.write_str(match self.0 {
            Owns::Nobody => "nobody-owns",
            Owns::Same => "owner-stays",
            Owns::Asker => "p-owns",
        })
    }
}

/// Who shares the line afterwards, in the queries.
#[derive(Clone, Copy)]
struct SharesName(Shares);

impl fmt::Display for SharesName {
    ghost use Rattle.std.specs.Prelude.{Some};
    ghost use Rattle.protocol_models.specs.SmtDirectory.{shares_name};

    ghost output = { λ shares. Some (shares_name shares.0) };

    fn fmt<W: fmt::Write>(&self, f: &mut fmt::Formatter<W>) -> fmt::Result {
        f.write_str(match self.0 {
            Shares::Nobody => "nobody-shares",
            Shares::Same => "sharers-stay",
            Shares::Asker => "p-shares",
            Shares::AskerToo => "p-joins",
            Shares::AskerNot => "p-leaves",
            Shares::OwnerAndAsker => "p-and-q-share",
        })
    }
}

/// Whether the message's block becomes the home copy, in the queries.
#[derive(Clone, Copy)]
struct Truth(bool);

impl fmt::Display for Truth {
    ghost use Rattle.std.specs.Prelude.{Some};
    ghost use Rattle.protocol_models.specs.SmtDirectory.{truth_name};

    ghost output = { λ truth. Some (truth_name truth.0) };

    fn fmt<W: fmt::Write>(&self, f: &mut fmt::Formatter<W>) -> fmt::Result {
        f.write_str(if self.0 { "true" } else { "false" })
    }
}

/// A cell's name.
#[derive(Clone, Copy)]
struct Cell {
    entry: Entry,
    case: DirCase,
}

impl fmt::Display for Cell {
    ghost use Rattle.std.specs.Prelude.{Some};
    ghost use Rattle.protocol_models.specs.SmtDirectory.{cell_name};

    ghost output = { λ cell. Some (cell_name cell.entry cell.case) };

    fn fmt<W: fmt::Write>(&self, f: &mut fmt::Formatter<W>) -> fmt::Result {
        write!(
            f,
            "directory {}; {}",
            EntryTitle(self.entry),
            Title(self.case)
        )
    }
}

/// What a row does, as in the tables, up to the next state.
#[derive(Clone, Copy)]
struct Outcome(DirEffect);

impl fmt::Display for Outcome {
    ghost use Rattle.std.specs.Prelude.{Some};
    ghost use Rattle.protocol_models.specs.SmtDirectory.{outcome_of};

    ghost output = { λ does. Some (outcome_of does.0) };

    fn fmt<W: fmt::Write>(&self, f: &mut fmt::Formatter<W>) -> fmt::Result {
        let (sent, home) = (SendsTitle(self.0.sends), text_of_home(self.0.writes_home));
        write!(f, "{sent}{home}{}", self.0.state)
    }
}

/// What a row does, in the queries.
#[derive(Clone, Copy)]
struct Step(DirEffect);

impl fmt::Display for Step {
    ghost use Rattle.std.specs.Prelude.{Some};
    ghost use Rattle.protocol_models.specs.SmtDirectory.{step_of};

    ghost output = { λ does. Some (step_of does.0) };

    fn fmt<W: fmt::Write>(&self, f: &mut fmt::Formatter<W>) -> fmt::Result {
        let (sent, writes) = (SendsName(self.0.sends), Truth(self.0.writes_home));
        let (owns, shares) = (OwnsName(self.0.owns), SharesName(self.0.shares));
        write!(f, "{sent} {writes} D_{} {owns} {shares}", self.0.state)
    }
}

/// Writes that the entry looks like one of those that have queries.
pub fn write_entries<W: Write>(out: &mut W) -> fmt::Result
    ensures { OnOk result (WritesInCalls W.write_str_gives out.old entry_terms out.new) }
{
    write!(
        out,
        "; The entry is one of those whose rows follow, with o as the owner.\n(define-fun some-entry ((o Core)) Bool (or"
    )?;
    write_terms(entries(), out)?;
    write!(out, "))\n\n")
}

fn write_terms<W: Write>(entries: &[Entry], out: &mut W) -> fmt::Result
    ensures { OnOk result (WritesInCalls W.write_str_gives out.old (entries_terms entries.now) out.new) }
{
    for entry in entries {
        let term = EntryTerm(*entry);
        write!(out, "\n  (entry-of {term} o)")?;
    }
    Ok(())
}

/// Writes the queries of a directory.
pub fn write_directory_queries<W: Write>(exclusive: bool, out: &mut W) -> fmt::Result
    ensures { OnOk result (WritesInCalls W.write_str_gives out.old (queries_of exclusive) out.new) }
{
    write_lines(exclusive, entries(), out)
}

fn write_lines<W: Write>(exclusive: bool, entries: &[Entry], out: &mut W) -> fmt::Result
    ensures { OnOk result (WritesInCalls W.write_str_gives out.old (entries_queries exclusive entries.now) out.new) }
{
    for entry in entries {
        write_cells(exclusive, *entry, dir_cases(), out)?;
    }
    Ok(())
}

fn write_cells<W: Write>(
    exclusive: bool,
    entry: Entry,
    cases: &[DirCase],
    out: &mut W,
) -> fmt::Result
    ensures { OnOk result (WritesInCalls W.write_str_gives out.old (cells_of exclusive entry cases.now) out.new) }
{
    for case in cases {
        write_query(entry, *case, directory_rule(exclusive, entry, *case), out)?;
    }
    Ok(())
}

/// Writes the query of a cell.
fn write_query<W: Write>(entry: Entry, case: DirCase, row: DirRule, out: &mut W) -> fmt::Result
    ensures { OnOk result (WritesInCalls W.write_str_gives out.old (query_of entry case row) out.new) }
{
    let cell = Cell { entry, case };
    let (term, event) = (EntryTerm(entry), EventName(case));
    match row {
        DirRule::Go(does) => {
            let (outcome, step) = (Outcome(does), Step(does));
            write!(
                out,
                "; {cell}: {outcome}\n(push 1)\n(assert (invariant before))\n(assert (entry {term}))\n(assert (directory-row {event} {step}))\n(assert (not kept))\n(check-sat)\n(pop 1)\n\n"
            )
        }
        DirRule::Blocked => write!(out, "; {cell}: blocked\n\n"),
        DirRule::NoEntry => write!(
            out,
            "; {cell}: -\n(push 1)\n(assert (invariant before))\n(assert (entry {term}))\n(assert (directory-event {event}))\n(check-sat)\n(pop 1)\n\n"
        ),
    }
}
