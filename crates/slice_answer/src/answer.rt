ghost use Rattle.std.specs.Prelude.{◌≡◌, Some};
ghost use Rattle.slice_answer.specs.Delivery.{better_of, delivered_with, delivery_with, IfMoved, IsMappedBy};

use slice_queues::Pick;
use std::fmt;

/// Why a request was refused: it is faulty, or can't be kept. Nothing has changed.
#[derive(Clone, Copy, Debug, PartialEq, Eq)]
pub enum Refused {
    /// The word is past the memory.
    OutOfRange,
    /// The tag is above 63.
    TagRange,
    /// The core has a request with this tag that isn't handed out.
    TagBusy,
    /// Stores and compare-exchanges to a counter are refused.
    CounterStore,
    /// The log could not grow.
    Memory,
    /// The word is of another slice.
    WrongSlice,
    /// The log has this many entries, fewer than the core has seen of it: it isn't the log that the core saw.
    Ahead(u64),
}

impl fmt::Display for Refused {
    ghost use Rattle.slice_answer.specs.Text.{text_of_refused};

    ghost output = { λ refused. Some (text_of_refused refused) };

    fn fmt<W: fmt::Write>(&self, f: &mut fmt::Formatter<W>) -> fmt::Result {
        f.write_str(match self {
            Refused::OutOfRange => "1 OutOfRange",
            Refused::TagRange => "2 TagRange",
            Refused::TagBusy => "3 TagBusy",
            Refused::CounterStore => "4 CounterStore",
            Refused::Memory => "5 Memory",
            Refused::WrongSlice => "6 WrongSlice",
            Refused::Ahead(_) => "8 Ahead",
        })
    }
}

/// Why a request has to wait: the cache finds no room for it now. Nothing but its count has changed.
#[derive(Clone, Copy, Debug, PartialEq, Eq)]
pub enum Stall {
    /// A miss register is needed, and none is free.
    NoRegister,
    /// The line's miss register has no room for another target.
    NoTarget,
    /// A way is needed, and each line of the full set is waited for.
    NoWay,
    /// A victim would have to leave, and the write-back buffer is full.
    WriteBackFull,
    /// The line is on its way out.
    WriteBackBusy,
}

impl fmt::Display for Stall {
    ghost use Rattle.slice_answer.specs.Text.{text_of_stall};

    ghost output = { λ stall. Some (text_of_stall stall) };

    fn fmt<W: fmt::Write>(&self, f: &mut fmt::Formatter<W>) -> fmt::Result {
        f.write_str(match self {
            Stall::NoRegister => "1 NoRegister",
            Stall::NoTarget => "2 NoTarget",
            Stall::NoWay => "3 NoWay",
            Stall::WriteBackFull => "4 WriteBackFull",
            Stall::WriteBackBusy => "5 WriteBackBusy",
        })
    }
}

/// What became of a request that wasn't refused.
#[derive(Clone, Copy, Debug, PartialEq, Eq)]
pub enum Issue {
    /// It hit: it is performed and handed out, under this number in the log.
    Done(u64),
    /// It missed: it is a target, and the core's request number `seq`.
    Pending(u64),
    Stall(Stall),
}

/// The result of an eviction. All but `Evicting` change nothing.
#[derive(Clone, Copy, Debug, PartialEq, Eq)]
pub enum Evicted {
    /// The line is on its way out.
    Evicting,
    /// The core has no copy of the line that could leave.
    NotHeld,
    /// The line is waited for.
    Busy,
    /// The write-back buffer has no room for the line.
    WriteBackFull,
}

impl fmt::Display for Evicted {
    ghost use Rattle.slice_answer.specs.Text.{text_of_evicted};

    ghost output = { λ evicted. Some (text_of_evicted evicted) };

    fn fmt<W: fmt::Write>(&self, f: &mut fmt::Formatter<W>) -> fmt::Result {
        f.write_str(match self {
            Evicted::Evicting => "evicting",
            Evicted::NotHeld => "not held",
            Evicted::Busy => "busy",
            Evicted::WriteBackFull => "buffer full",
        })
    }
}

/// Why a message can't be taken.
#[derive(Clone, Copy, Debug, PartialEq, Eq)]
pub enum Cell {
    /// The table has no entry.
    Entry,
    /// A channel that the row sends to has no room.
    Full,
    /// Data or a Put-Ack for a core whose own request for the line still waits.
    Early,
}

impl fmt::Display for Cell {
    ghost use Rattle.slice_answer.specs.Text.{text_of_cell};

    ghost output = { λ cell. Some (text_of_cell cell) };

    fn fmt<W: fmt::Write>(&self, f: &mut fmt::Formatter<W>) -> fmt::Result {
        f.write_str(match self {
            Cell::Entry => "entry",
            Cell::Full => "full",
            Cell::Early => "early",
        })
    }
}

/// What became of a delivery. All but `Moved` change nothing.
#[derive(Clone, Copy, Debug, PartialEq, Eq)]
pub enum Delivered {
    /// The front message was taken, and its row was done.
    Moved,
    /// The row is blocked.
    Blocked,
    /// No message waits there.
    Nothing,
    Broken(Cell),
}

impl Delivered {
    /// The same as a [`Delivery`], with this value where a message was moved.
    pub const fn with<T: Copy>(self, value: T) -> Delivery<T>
        ensures { result ≡ delivered_with value self }
    {
        match self {
            Delivered::Moved => Delivery::Moved(value),
            Delivered::Blocked => Delivery::Blocked,
            Delivered::Nothing => Delivery::Nothing,
            Delivered::Broken(cell) => Delivery::Broken(cell),
        }
    }
}

impl fmt::Display for Delivered {
    ghost use Rattle.slice_answer.specs.Text.{text_of_delivered};

    ghost output = { λ delivered. Some (text_of_delivered delivered) };

    fn fmt<W: fmt::Write>(&self, f: &mut fmt::Formatter<W>) -> fmt::Result {
        match self {
            Delivered::Moved => f.write_str("moved"),
            Delivered::Blocked => f.write_str("blocked"),
            Delivered::Nothing => f.write_str("nothing"),
            Delivered::Broken(cell) => write!(f, "broken {cell}"),
        }
    }
}

/// What a delivery comes to: one that is planned, the next one, or one that was made. All but `Moved` change nothing.
#[derive(Clone, Copy, Debug, PartialEq, Eq)]
pub enum Delivery<T> {
    /// A front message is taken, and its row is done. The value says which message, or what is done.
    Moved(T),
    /// Messages wait, and the row of each one that is in front is blocked.
    Blocked,
    /// No message waits.
    Nothing,
    /// No message can be moved, and one that is in front can't be taken.
    Broken(Cell),
}

/// What became of a delivery that the slice was to choose.
pub type DeliveredNext = Delivery<Pick>;

impl<T: Copy> Delivery<T> {
    /// The same with another value where a message is moved.
    pub const fn with<U: Copy>(self, value: U) -> Delivery<U>
        ensures { result ≡ delivery_with value self }
    {
        match self {
            Delivery::Moved(_) => Delivery::Moved(value),
            Delivery::Blocked => Delivery::Blocked,
            Delivery::Nothing => Delivery::Nothing,
            Delivery::Broken(cell) => Delivery::Broken(cell),
        }
    }

    /// The same with what `f` makes of the value where a message is moved.
    pub fn map<U, F: FnOnce(T) -> U>(self, f: F) -> Delivery<U>
        requires { IfMoved self (F.pre f) }
        ensures { IsMappedBy (F.post f) self result }
    {
        match self {
            Delivery::Moved(value) => Delivery::Moved(f(value)),
            Delivery::Blocked => Delivery::Blocked,
            Delivery::Nothing => Delivery::Nothing,
            Delivery::Broken(cell) => Delivery::Broken(cell),
        }
    }

    /// The better of two: what is moved, else what is broken, else what is blocked.
    pub const fn or(self, other: Self) -> Self
        ensures { result ≡ better_of self other }
    {
        match (self, other) {
            (Delivery::Moved(_), _) => self,
            (_, Delivery::Moved(_)) => other,
            (Delivery::Broken(_), _) => self,
            (_, Delivery::Broken(_)) => other,
            (Delivery::Blocked, _) => self,
            (Delivery::Nothing, _) => other,
        }
    }
}
