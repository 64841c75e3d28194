//! What happened to one line, row by row: states and when they began, messages from sending to delivery.
ghost use Rattle.std.specs.Prelude.{◌<◌, length, IfErr, IfSome};
ghost use Rattle.litmus_script.specs.Play.{IsOfRun};

use super::arrow::{Participant, sender};
use super::sends::Sends;
use address_map::{CoreId, CoreSet, LineAddr, WordAddr};
use arrayvec::ArrayVec;
use litmus_script::Machine;
use litmus_text::{Command, TextFault};
use slice_core::{Cell, CopyState, DirState, Entry, Message, Pick, Plan, Refused, Stall};
use std::alloc::Global;
use std::fmt;

/// A state of a line: that of its directory, or of a core's copy.
#[derive(Clone, Copy, Debug, PartialEq, Eq)]
pub enum State {
    Directory(DirState),
    Copy(CopyState),
}

/// A state, and from which row on it held.
#[derive(Clone, Copy)]
pub struct Span {
    pub who: Participant,
    pub state: State,
    pub from: usize,
}

/// A message, the row in which it was sent, and the one in which it was taken: none while it is in flight.
#[derive(Clone, Copy)]
pub struct Flown {
    pub pick: Pick,
    pub from: Participant,
    pub sent: usize,
    pub taken: Option<usize>,
    /// None for one that follows another to the end.
    pub message: Option<Message>,
}

/// A remark next to a lifeline.
#[derive(Clone, Copy, Debug)]
pub enum What {
    Performed(Entry),
    /// A message had to wait, as its receiver was in this state.
    Blocked(State),
    Broken(Cell),
    Stalled(Stall),
    Refused(Refused),
    /// No message waited.
    Nothing,
    Said(&'static str),
}

/// .. in which row, and next to whose.
#[derive(Clone, Copy)]
pub struct Mark {
    pub who: Participant,
    pub row: usize,
    pub what: What,
}

/// The space-time diagram of one line: the one that a command names first, unless one was chosen.
#[derive(Drop)]
pub struct SpaceTime {
    pub line: Option<LineAddr>,
    pub slice: usize,
    pub rows: Vec<Command>,
    pub spans: Vec<Span>,
    pub flown: Vec<Flown>,
    pub marks: Vec<Mark>,
    /// The cores that had a copy, or sent or took a message.
    pub cores: CoreSet,
    /// The text below the last row.
    pub caption: Option<&'static str>,
    // Those of `flown` that are in flight, first sent first.
    open: Vec<usize>,
    // The states seen last.
    dir: DirState,
    copies: ArrayVec<CopyState, 64>,
    performed: usize,
}

impl SpaceTime {
    pub fn new(alloc: Global, line: Option<LineAddr>) -> Self {
        SpaceTime {
            line,
            slice: 0,
            rows: Vec::new(alloc),
            spans: Vec::new(alloc),
            flown: Vec::new(alloc),
            marks: Vec::new(alloc),
            cores: CoreSet::none(),
            caption: None,
            open: Vec::new(alloc),
            dir: DirState::I,
            copies: ArrayVec::new(),
            performed: 0,
        }
    }

    /// Whether the diagram is of this line. It is of the first line with which this is called.
    pub fn follows(&mut self, line: LineAddr) -> bool {
        match self.line {
            Some(followed) => followed == line,
            None => {
                self.line = Some(line);
                true
            }
        }
    }

    /// Begins a row for a command, and returns its number.
    pub fn begin_row(&mut self, command: Command) -> Result<usize, TextFault>
        ensures fault { IfErr result IsOfRun }
    {
        let row = self.rows.len();
        self.rows.push(command)?;
        Ok(row)
    }

    pub fn mark(&mut self, who: Participant, row: usize, what: What) -> Result<(), TextFault>
        ensures fault { IfErr result IsOfRun }
    {
        self.involve(who);
        self.marks.push(Mark { who, row, what })?;
        Ok(())
    }

    /// Records that a message was sent to a channel.
    pub fn send(&mut self, pick: Pick, from: Participant, row: usize) -> Result<(), TextFault>
        ensures fault { IfErr result IsOfRun }
    {
        self.involve(from);
        self.involve(super::arrow::receiver(self.slice, pick));
        self.open.push(self.flown.len())?;
        self.flown.push(Flown {
            pick,
            from,
            sent: row,
            taken: None,
            message: None,
        })?;
        Ok(())
    }

    /// Records that a participant entered a state.
    pub fn enter(&mut self, who: Participant, state: State, row: usize) -> Result<(), TextFault>
        ensures fault { IfErr result IsOfRun }
    {
        self.involve(who);
        self.spans.push(Span {
            who,
            state,
            from: row,
        })?;
        Ok(())
    }

    /// Records that a core sent a request for the line.
    pub fn send_request(&mut self, core: CoreId, row: usize) -> Result<(), TextFault>
        ensures fault { IfErr result IsOfRun }
    {
        match self.line {
            Some(line) => self.send(Pick::Req(line, core), Participant::Core(core), row),
            None => Ok(()),
        }
    }

    /// Records that the messages of a step were sent, by this core if by one.
    pub fn send_all(
        &mut self,
        mut sends: Sends,
        line: LineAddr,
        by: Option<CoreId>,
        row: usize,
    ) -> Result<(), TextFault>
        ensures fault { IfErr result IsOfRun }
    {
        // at most one message to each core, and one home
        for _ in 0..CHANNELS {
            let Some(pick) = sends.next(line, by) else {
                return Ok(());
            };
            self.send(pick, sender(self.slice, pick, by), row)?;
        }
        Ok(())
    }

    /// Records that the message at the front of a channel was taken.
    pub fn take(&mut self, pick: Pick, message: Option<Message>, row: usize) {
        let at = self.first_open(pick);
        if let Some(place) = at {
            let number = self.open.remove(place);
            if let Some(flown) = self.flown.get_mut(number) {
                flown.taken = Some(row);
                flown.message = message;
            }
        }
    }

    // Returns the place in `open` of the message at the front of a channel.
    fn first_open(&self, pick: Pick) -> Option<usize>
        ensures { IfSome result (λ place. place < length self.now.open.items) }
    {
        for (place, number) in self.open.iter().enumerate() {
            if let Some(flown) = self.flown.get(*number) {
                if flown.pick == pick {
                    return Some(place);
                }
            }
        }
        None
    }

    fn involve(&mut self, who: Participant) {
        if let Participant::Core(core) = who {
            self.cores.insert(core);
        }
    }

    /// Notes what a row changed: states, and accesses that were performed.
    pub fn observe(&mut self, machine: &Machine, row: usize) -> Result<(), TextFault>
        ensures fault { IfErr result IsOfRun }
    {
        let Some(line) = self.line else {
            return Ok(());
        };
        let Some(view) = machine.view(line) else {
            return Ok(());
        };
        if view.dir != self.dir {
            self.dir = view.dir;
            let who = Participant::Directory(self.slice);
            self.enter(who, State::Directory(view.dir), row)?;
        }
        for (core, copy) in view.copies.iter().enumerate() {
            self.observe_copy(core, *copy, row)?;
        }
        self.note_performed(machine, line, row)
    }

    fn observe_copy(&mut self, core: usize, copy: CopyState, row: usize) -> Result<(), TextFault>
        ensures fault { IfErr result IsOfRun }
    {
        if self.copy(core) == copy {
            return Ok(());
        }
        self.remember(core, copy);
        let Ok(number) = u8::try_from(core) else {
            return Ok(());
        };
        self.enter(Participant::Core(CoreId(number)), State::Copy(copy), row)
    }

    // Returns the state of a core's copy when it was last looked at.
    fn copy(&self, core: usize) -> CopyState {
        match self.copies.get(core) {
            Some(copy) => *copy,
            None => CopyState::I,
        }
    }

    fn remember(&mut self, core: usize, copy: CopyState) {
        for _ in self.copies.len()..core.saturating_add(1) {
            let _ = self.copies.try_push(CopyState::I);
        }
        if let Some(kept) = self.copies.get_mut(core) {
            *kept = copy;
        }
    }

    fn note_performed(
        &mut self,
        machine: &Machine,
        line: LineAddr,
        row: usize,
    ) -> Result<(), TextFault>
        ensures fault { IfErr result IsOfRun }
    {
        let Some(state) = machine.slices.get(self.slice) else {
            return Ok(());
        };
        let log = state.log();
        let first = self.performed;
        self.performed = log.len();
        for entry in log.iter().skip(first) {
            let WordAddr(word) = entry.word;
            if word / 8 == line.0 {
                self.mark(Participant::Core(entry.core), row, What::Performed(*entry))?;
            }
        }
        Ok(())
    }

    /// Names the messages in flight at the fronts of their channels.
    pub fn name_open(&mut self, machine: &Machine) {
        for place in 0..self.open.len() {
            let Some(number) = self.open.get(place).copied() else {
                return;
            };
            let Some(flown) = self.flown.get(number).copied() else {
                return;
            };
            if self.first_open(flown.pick) == Some(place) {
                self.name(number, machine.front(flown.pick));
            }
        }
    }

    /// Names the message at the front of a channel.
    pub fn name_front(&mut self, pick: Pick, message: Message) {
        if let Some(place) = self.first_open(pick) {
            if let Some(number) = self.open.get(place).copied() {
                self.name(number, Some(message));
            }
        }
    }

    fn name(&mut self, number: usize, message: Option<Message>) {
        if let Some(flown) = self.flown.get_mut(number) {
            flown.message = message;
        }
    }

    /// Returns the state in which a participant was last seen.
    pub fn state_of(&self, who: Participant) -> State {
        match who {
            Participant::Directory(_) => State::Directory(self.dir),
            Participant::Core(CoreId(core)) => State::Copy(self.copy(core as usize)),
        }
    }
}

/// More messages than one step sends: data, one to each of 64 cores, an acknowledgement, and a block home.
const CHANNELS: usize = 68;

impl State {
    pub fn write<W: fmt::Write>(self, out: &mut W) -> fmt::Result {
        match self {
            State::Directory(state) => write!(out, "{state}"),
            State::Copy(state) => write!(out, "{state}"),
        }
    }
}
