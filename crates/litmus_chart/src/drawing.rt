//! Writes a space-time diagram as a picture in SVG.
use super::arrow::Participant;
use super::space_time::{Flown, Mark, SpaceTime, Span, State, What};
use super::style::STYLE;
use address_map::CoreId;
use litmus_text::write_command;
use slice_core::{Entry, Op, Pick};
use slice_text::{Asked, MessageName};
use std::fmt;
use std::fmt::Write;

// In pixels: the first lifeline, the distance of the next, the first row, the distance of the next, half a bar.
const FIRST_LIFE: usize = 270;

const LIFE: usize = 190;

const FIRST_ROW: usize = 70;

const ROW: usize = 36;

const HALF: usize = 10;

const MOST_CORES: u8 = 64;

/// Draws the diagram: a lifeline for the directory and each core that takes part, from top to bottom the rows.
pub fn write_drawing<W: Write>(space: &SpaceTime, out: &mut W) -> fmt::Result {
    write_head(space, out)?;
    write_rows(space, out)?;
    write_life(space, Participant::Directory(space.slice), out)?;
    write_core_lives(space, out)?;
    write_messages(space, out)?;
    write_spans(space, out)?;
    write_marks(space, out)?;
    write_caption(space, out)?;
    out.write_str("</svg>\n")
}

fn write_caption<W: Write>(space: &SpaceTime, out: &mut W) -> fmt::Result {
    let Some(caption) = space.caption else {
        return Ok(());
    };
    let below = end_of(space).saturating_add(26);
    writeln!(
        out,
        "<text class=\"wait\" x=\"8\" y=\"{below}\">{caption}</text>"
    )
}

fn write_head<W: Write>(space: &SpaceTime, out: &mut W) -> fmt::Result {
    let lives = space.cores.count() as usize;
    let width = life_at(lives).saturating_add(LIFE);
    let height = end_of(space).saturating_add(40);
    write!(
        out,
        "<svg xmlns=\"http://www.w3.org/2000/svg\" width=\"{width}\" height=\"{height}\" viewBox=\"0 0 {width} {height}\" role=\"img\">"
    )?;
    match space.line {
        Some(line) => {
            let number = line.0;
            writeln!(out, "<title>line {number}</title>")?;
        }
        None => out.write_str("<title>no line</title>\n")?,
    }
    out.write_str(STYLE)
}

// Returns the position of the lifeline of this rank: the directory's is the first.
fn life_at(rank: usize) -> usize {
    FIRST_LIFE.saturating_add(rank.saturating_mul(LIFE))
}

fn row_at(row: usize) -> usize {
    FIRST_ROW.saturating_add(row.saturating_mul(ROW))
}

// Below the last row.
fn end_of(space: &SpaceTime) -> usize {
    row_at(space.rows.len())
}

fn life_of(space: &SpaceTime, who: Participant) -> usize {
    let Participant::Core(core) = who else {
        return life_at(0);
    };
    let mut rank: usize = 1;
    for other in 0..core.0 {
        if space.cores.has(CoreId(other)) {
            rank = rank.saturating_add(1);
        }
    }
    life_at(rank)
}

fn write_rows<W: Write>(space: &SpaceTime, out: &mut W) -> fmt::Result {
    let right = life_at(space.cores.count() as usize).saturating_add(LIFE / 2);
    for (row, command) in space.rows.iter().enumerate() {
        let y = row_at(row);
        let number = row.saturating_add(1);
        let text = y.saturating_add(4);
        write!(
            out,
            "<line class=\"grid\" x1=\"8\" y1=\"{y}\" x2=\"{right}\" y2=\"{y}\"/>"
        )?;
        write!(out, "<text class=\"row\" x=\"8\" y=\"{text}\">{number} ")?;
        write_command(*command, out)?;
        out.write_str("</text>\n")?;
    }
    Ok(())
}

fn write_core_lives<W: Write>(space: &SpaceTime, out: &mut W) -> fmt::Result {
    for core in 0..MOST_CORES {
        if space.cores.has(CoreId(core)) {
            write_life(space, Participant::Core(CoreId(core)), out)?;
        }
    }
    Ok(())
}

fn write_life<W: Write>(space: &SpaceTime, who: Participant, out: &mut W) -> fmt::Result {
    let x = life_of(space, who);
    let top = FIRST_ROW - 20;
    let end = end_of(space);
    write!(out, "<text class=\"name\" x=\"{x}\" y=\"30\">")?;
    match who {
        Participant::Directory(_) => out.write_str("directory")?,
        Participant::Core(CoreId(core)) => write!(out, "core {core}")?,
    }
    writeln!(
        out,
        "</text><line class=\"life\" x1=\"{x}\" y1=\"{top}\" x2=\"{x}\" y2=\"{end}\"/>"
    )
}

fn write_spans<W: Write>(space: &SpaceTime, out: &mut W) -> fmt::Result {
    for (number, span) in space.spans.iter().enumerate() {
        write_span(space, *span, end_of_span(space, number, span.who), out)?;
    }
    Ok(())
}

// Returns the row in which the span of this number ends: that of the next one of the same participant.
fn end_of_span(space: &SpaceTime, number: usize, who: Participant) -> usize {
    let later = number.saturating_add(1);
    for span in space.spans.iter().skip(later) {
        if span.who == who {
            return row_at(span.from);
        }
    }
    end_of(space)
}

fn write_span<W: Write>(space: &SpaceTime, span: Span, end: usize, out: &mut W) -> fmt::Result {
    let x = life_of(space, span.who);
    let left = x.saturating_sub(HALF);
    let wide = HALF * 2;
    let y = row_at(span.from);
    let high = end.saturating_sub(y);
    out.write_str("<rect class=\"bar ")?;
    span.state.write(out)?;
    write!(
        out,
        "\" x=\"{left}\" y=\"{y}\" width=\"{wide}\" height=\"{high}\"/>"
    )?;
    let beside = beside(span.who, x);
    let below = y.saturating_add(14);
    let side = side(span.who);
    write!(
        out,
        "<text class=\"state {side}\" x=\"{beside}\" y=\"{below}\">"
    )?;
    span.state.write(out)?;
    out.write_str("</text>\n")
}

// Remarks are left of the directory, whose messages go to the right, and right of a core.
fn beside(who: Participant, x: usize) -> usize {
    match who {
        Participant::Directory(_) => x.saturating_sub(HALF + 4),
        Participant::Core(_) => x.saturating_add(HALF + 4),
    }
}

fn side(who: Participant) -> &'static str {
    match who {
        Participant::Directory(_) => "left",
        Participant::Core(_) => "right",
    }
}

fn write_messages<W: Write>(space: &SpaceTime, out: &mut W) -> fmt::Result {
    for flown in &space.flown {
        write_message(space, *flown, out)?;
    }
    Ok(())
}

/// Writes an arrow from a message's sending to its delivery. In flight it ends short of its receiver, dashed.
fn write_message<W: Write>(space: &SpaceTime, flown: Flown, out: &mut W) -> fmt::Result {
    let to = super::arrow::receiver(space.slice, flown.pick);
    let (from, to) = (life_of(space, flown.from), life_of(space, to));
    let y1 = row_at(flown.sent).saturating_add(4);
    let (x1, x2) = edges(from, to);
    let (x2, y2, is_open) = match flown.taken {
        Some(row) => (x2, row_at(row), false),
        None => (on_its_way(x1, x2), end_of(space), true),
    };
    let class = class_of(flown.pick);
    let flight = if is_open { " flight" } else { "" };
    write!(
        out,
        "<line class=\"{class}{flight}\" stroke-width=\"2\" marker-end=\"url(#head)\" x1=\"{x1}\" y1=\"{y1}\" x2=\"{x2}\" y2=\"{y2}\"/>"
    )?;
    let x = third(x1, x2);
    let y = third(y1, y2).saturating_sub(4);
    write!(out, "<text class=\"label\" x=\"{x}\" y=\"{y}\">")?;
    if let Some(message) = flown.message {
        let name = MessageName(message);
        write!(out, "{name}")?;
    }
    out.write_str("</text>\n")
}

// An arrow ends at the edges of the bars.
fn edges(from: usize, to: usize) -> (usize, usize) {
    if from < to {
        (from.saturating_add(HALF), to.saturating_sub(HALF))
    } else {
        (from.saturating_sub(HALF), to.saturating_add(HALF))
    }
}

// Where a message in flight ends: short of its receiver's lifeline.
fn on_its_way(from: usize, to: usize) -> usize {
    if from < to {
        to.saturating_sub(LIFE / 3)
    } else {
        to.saturating_add(LIFE / 3)
    }
}

// A third of the way from the one to the other.
fn third(from: usize, to: usize) -> usize {
    (from / 3).saturating_mul(2).saturating_add(to / 3)
}

fn class_of(pick: Pick) -> &'static str {
    match pick {
        Pick::Req(..) => "req",
        Pick::Fwd(..) => "fwd",
        Pick::Data(..) => "data",
        Pick::Ack { .. } => "ack",
        Pick::Home(_) => "home",
    }
}

fn write_marks<W: Write>(space: &SpaceTime, out: &mut W) -> fmt::Result {
    for mark in &space.marks {
        write_mark(space, *mark, out)?;
    }
    Ok(())
}

fn write_mark<W: Write>(space: &SpaceTime, mark: Mark, out: &mut W) -> fmt::Result {
    let x = life_of(space, mark.who);
    let y = row_at(mark.row);
    if let What::Performed(entry) = mark.what {
        let beside = beside(mark.who, x);
        let side = side(mark.who);
        let below = y.saturating_add(27);
        write!(
            out,
            "<text class=\"did {side}\" x=\"{beside}\" y=\"{below}\">"
        )?;
        write_performed(entry, out)?;
    } else {
        // Right of any lifeline there is room: the commands are left of the directory.
        let beside = x.saturating_add(HALF + 4);
        let above = y.saturating_sub(4);
        write!(
            out,
            "<circle class=\"ring\" cx=\"{x}\" cy=\"{y}\" r=\"8\"/>"
        )?;
        write!(
            out,
            "<text class=\"wait right\" x=\"{beside}\" y=\"{above}\">"
        )?;
        write_reason(mark.what, out)?;
    }
    out.write_str("</text>\n")
}

/// Writes an access, and its reply if it has one.
fn write_performed<W: Write>(entry: Entry, out: &mut W) -> fmt::Result {
    let asked = Asked {
        word: entry.word,
        op: entry.op,
    };
    let reply = entry.reply;
    match entry.op {
        Op::Store(_) => write!(out, "{asked}"),
        _ => write!(out, "{asked} = {reply}"),
    }
}

fn write_reason<W: Write>(what: What, out: &mut W) -> fmt::Result {
    match what {
        What::Performed(_) => Ok(()),
        What::Blocked(state) => write_blocked(state, out),
        What::Broken(cell) => write!(out, "broken {cell}"),
        What::Stalled(stall) => write!(out, "stall {stall}"),
        What::Refused(refused) => write!(out, "refused {refused}"),
        What::Nothing => out.write_str("no message waits"),
        What::Said(words) => out.write_str(words),
    }
}

fn write_blocked<W: Write>(state: State, out: &mut W) -> fmt::Result {
    out.write_str("blocked: ")?;
    state.write(out)
}
