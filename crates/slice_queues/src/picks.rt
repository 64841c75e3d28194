ghost use Rattle.std.specs.Prelude.{◌≡◌, ◌≤◌, ◌-◌, ◌++◌, length, take, drop, slice_get};

use super::channel::Pick;
use super::lines::Lines;
use super::waiting::LineWaiting;
use address_map::{LineAddr, Local};
use std::marker::Model;

/// The picks with a message of a run of lines, line by line.
#[derive(Drop)]
pub struct LinesWaiting<'a> {
    lines: &'a Lines,
    current: LineWaiting<'a>,
    line: LineAddr,
    // the lines that are left: from this place to that after the last
    place: usize,
    end: usize,
    slice: u8,
    slices: u8,
}

impl<'a> Model for LinesWaiting<'a> {
    ghost use Rattle.std.specs.Prelude.{List, ◌≤◌, ◌-◌, length, take, drop};
    ghost use Rattle.slice_queues.specs.declared.channel.Pick.{Pick};
    ghost use Rattle.slice_queues.specs.Waiting.{lines_left, IsAddressedFrom};

    ghost Value = { List Pick };

    ghost view = { λ left. lines_left left.slice left.slices left.line left.current left.place
        (drop left.place (take left.end left.lines.now)) };

    ghost invariant = { λ left. (left.place ≤ left.end) × (left.end ≤ length left.lines.now)
        × IsAddressedFrom left.place (left.end - left.place) left.slice left.slices };
}

impl<'a> LinesWaiting<'a> {
    ghost use Rattle.slice_queues.specs.Waiting.{lines_waiting, IsAddressedFrom};

    /// Returns the picks of the lines of a slice from this place on, up to the one before `end`.
    pub fn new(lines: &'a Lines, place: usize, end: usize, slice: u8, slices: u8) -> Self
        requires order { place ≤ end }
        requires there { end ≤ length lines.now }
        requires addressed { IsAddressedFrom place (end - place) slice slices }
        ensures { result ≡ lines_waiting slice slices place (drop place (take end lines.now)) }
    {
        LinesWaiting {
            lines,
            current: LineWaiting::none(),
            line: LineAddr(0),
            place,
            end,
            slice,
            slices,
        }
    }

    /// Returns the next pick, `None` after the last.
    pub fn next(&mut self) -> Option<Pick>
        ensures first { result ≡ slice_get self.old 0 }
        ensures rest { self.new ≡ drop 1 self.old }
    {
        loop {
            match self.current.next() {
                Some(channel) => return Some(channel.at(self.line)),
                None => {}
            }
            if self.place >= self.end {
                return None;
            }
            self.line = LineAddr(self.place as u64 * self.slices as u64 + self.slice as u64);
            self.current = self.lines.line(Local(self.place)).waiting();
            self.place += 1;
        }
    }
}

/// The picks with a message: of the start line, then of the lines after it, and finally of the lines before it.
#[derive(Drop)]
pub struct Picks<'a> {
    from_start: LinesWaiting<'a>,
    before_start: LinesWaiting<'a>,
}

impl<'a> Model for Picks<'a> {
    ghost use Rattle.std.specs.Prelude.{List, ◌++◌};
    ghost use Rattle.slice_queues.specs.declared.channel.Pick.{Pick};

    ghost Value = { List Pick };

    ghost view = { λ left. left.from_start ++ left.before_start };
}

impl<'a> Picks<'a> {
    pub(crate) fn new(from_start: LinesWaiting<'a>, before_start: LinesWaiting<'a>) -> Self
        ensures { result ≡ from_start.entry ++ before_start.entry }
    {
        Picks {
            from_start,
            before_start,
        }
    }

    /// Returns the next pick, `None` after the last.
    pub fn next(&mut self) -> Option<Pick>
        ensures first { result ≡ slice_get self.old 0 }
        ensures rest { self.new ≡ drop 1 self.old }
    {
        match self.from_start.next() {
            Some(pick) => Some(pick),
            None => self.before_start.next(),
        }
    }
}
