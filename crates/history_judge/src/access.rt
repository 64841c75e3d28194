ghost use Rattle.std.specs.Prelude.{◌≡◌, ◌+◌, ◌<◌, ◌^◌, IsSome, slice_get};
ghost use Rattle.history_judge.specs.Access.{changed, entry_of, found_by, found_in, left_by, left_in};

use address_map::{CoreId, Op, WordAddr};
use slice_log::{Entry, performed};

/// One access, as its core saw it.
#[derive(Clone, Copy, Debug, PartialEq, Eq)]
pub struct Access {
    pub op: Op,
    pub reply: u64,
    /// When it began and ended, by a counter that all cores share. If neither is known they are 0 and `u64::MAX`.
    pub begin: u64,
    pub end: u64,
    pub word: WordAddr,
    pub core: CoreId,
}

impl Access {
    /// Returns an access whose begin and end aren't known.
    pub fn untimed(core: CoreId, word: WordAddr, op: Op, reply: u64) -> Self
        ensures { result
            ≡ record { op = op; reply = reply; begin = 0; end = u64.MAX; word = word; core = core } }
    {
        Access {
            op,
            reply,
            begin: 0,
            end: u64::MAX,
            word,
            core,
        }
    }

    /// Returns the entry of a trace that performs the access, whose place in its history is `number`.
    pub fn entry(&self, number: usize) -> Entry
        ensures { result ≡ entry_of number self.now }
    {
        Entry {
            op: self.op,
            word: self.word,
            seq: number as u64,
            reply: self.reply,
            since: 0,
            core: self.core,
            tag: 0,
        }
    }

    /// Returns the value that the access found in its word, which isn't known for a store.
    pub fn found(&self) -> Option<u64>
        ensures { result ≡ found_by self.now }
    {
        match self.op {
            Op::Store(_) => None,
            Op::Load => Some(self.reply),
            Op::Add(_) => Some(self.reply),
            Op::Cas { .. } => Some(self.reply),
        }
    }

    /// Returns the value that the access left in its word, unless it is the one that it found.
    pub fn left(&self) -> Option<u64>
        ensures { result ≡ left_by self.now.op self.now.reply }
    {
        match self.op {
            Op::Load => None,
            Op::Store(_) => Some(performed(self.op, self.reply)),
            Op::Add(_) => changed(self.reply, performed(self.op, self.reply)),
            Op::Cas { .. } => changed(self.reply, performed(self.op, self.reply)),
        }
    }
}

impl Access {
    /// Returns the value that the access found in this word.
    pub fn found_in(&self, word: WordAddr) -> Option<u64>
        ensures { result ≡ found_in word.0 self.now }
    {
        if self.word.0 == word.0 {
            self.found()
        } else {
            None
        }
    }

    /// Returns the value that the access left in this word, unless it is the one that it found.
    pub fn left_in(&self, word: WordAddr) -> Option<u64>
        ensures { result ≡ left_in word.0 self.now }
    {
        if self.word.0 == word.0 {
            self.left()
        } else {
            None
        }
    }
}

fn changed(was: u64, now: u64) -> Option<u64>
    ensures { result ≡ changed was now }
{
    if was == now { None } else { Some(now) }
}

/// Returns the access at a place of a history, if there is one.
pub fn access_at(history: &[Access], place: usize) -> Option<Access>
    ensures value { result ≡ slice_get history.now place }
    ensures next { IsSome result → place + 1 < 2 ^ 64 }
{
    if place < history.len() {
        Some(history[place])
    } else {
        None
    }
}
