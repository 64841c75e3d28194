use super::admission::Admission;
use super::explicit::ExplicitFile;
use super::inverted::InvertedFile;
use super::kind::MissKind;
use super::miss_file::MissFile;
use address_map::{Checked, Local};
use arrayvec::ArrayVec;
use std::alloc::{AllocError, Global};
use target_list::Target;

/// A file of either kind: what a machine has whose kind is known only when it is built.
#[derive(Drop)]
pub enum EitherFile {
    Explicit(ExplicitFile),
    Inverted(InvertedFile),
}

impl EitherFile {
    ghost use Rattle.std.specs.Prelude.{◌≡◌, [], IfOk};
    ghost use Rattle.mshr_file.specs.Miss.{bound_of};
    ghost use Rattle.mshr_file.specs.Either.{either_bound, either_misses};

    /// A file of this kind for one core of this machine and one slice, with no miss.
    pub fn of_kind(alloc: Global, config: &Checked, kind: MissKind) -> Result<Self, AllocError>
        ensures empty { IfOk result (λ file. either_misses file ≡ []) }
        ensures bound { IfOk result (λ file. either_bound file ≡ bound_of kind config.now) }
    {
        match kind {
            MissKind::Explicit => Ok(EitherFile::Explicit(ExplicitFile::make(alloc, config)?)),
            MissKind::Inverted => Ok(EitherFile::Inverted(InvertedFile::make(alloc, config)?)),
        }
    }
}

/// [`MissFile::make`] makes a file with registers; [`EitherFile::of_kind`] makes one of each kind.
impl MissFile for EitherFile {
    ghost use Rattle.mshr_file.specs.Either.{either_bound, either_misses};
    ghost use Rattle.mshr_file.specs.Miss.{registers_of};

    ghost misses = { either_misses };

    ghost bound = { either_bound };

    ghost bound_by = { registers_of };

    fn make(alloc: Global, config: &Checked) -> Result<Self, AllocError> {
        Ok(EitherFile::Explicit(ExplicitFile::make(alloc, config)?))
    }

    fn try_clone(&self, alloc: Global) -> Result<Self, AllocError> {
        match self {
            EitherFile::Explicit(file) => Ok(EitherFile::Explicit(file.try_clone(alloc)?)),
            EitherFile::Inverted(file) => Ok(EitherFile::Inverted(file.try_clone(alloc)?)),
        }
    }

    fn find(&self, line: Local) -> bool {
        match self {
            EitherFile::Explicit(file) => file.find(line),
            EitherFile::Inverted(file) => file.find(line),
        }
    }

    fn room_open(&self, tag: u8) -> bool {
        match self {
            EitherFile::Explicit(file) => file.room_open(tag),
            EitherFile::Inverted(file) => file.room_open(tag),
        }
    }

    fn room_join(&self, line: Local, tag: u8) -> bool {
        match self {
            EitherFile::Explicit(file) => file.room_join(line, tag),
            EitherFile::Inverted(file) => file.room_join(line, tag),
        }
    }

    fn waiting(&self, line: Local) -> usize {
        match self {
            EitherFile::Explicit(file) => file.waiting(line),
            EitherFile::Inverted(file) => file.waiting(line),
        }
    }

    fn front_loads(&self, line: Local) -> usize {
        match self {
            EitherFile::Explicit(file) => file.front_loads(line),
            EitherFile::Inverted(file) => file.front_loads(line),
        }
    }

    fn targets(&self, line: Local) -> ArrayVec<Target, 64> {
        match self {
            EitherFile::Explicit(file) => file.targets(line),
            EitherFile::Inverted(file) => file.targets(line),
        }
    }

    fn lines(&self, alloc: Global) -> Result<Vec<Local>, AllocError> {
        match self {
            EitherFile::Explicit(file) => file.lines(alloc),
            EitherFile::Inverted(file) => file.lines(alloc),
        }
    }

    fn admit(&self, line: Local, tag: u8) -> Admission {
        match self {
            EitherFile::Explicit(file) => file.admit(line, tag),
            EitherFile::Inverted(file) => file.admit(line, tag),
        }
    }

    fn open(&mut self, line: Local, target: Target) {
        match self {
            EitherFile::Explicit(file) => file.open(line, target),
            EitherFile::Inverted(file) => file.open(line, target),
        }
    }

    fn join(&mut self, line: Local, target: Target) {
        match self {
            EitherFile::Explicit(file) => file.join(line, target),
            EitherFile::Inverted(file) => file.join(line, target),
        }
    }

    fn take_first(&mut self, line: Local) -> Target {
        match self {
            EitherFile::Explicit(file) => file.take_first(line),
            EitherFile::Inverted(file) => file.take_first(line),
        }
    }

    fn take_loads(&mut self, line: Local) -> ArrayVec<Target, 64> {
        match self {
            EitherFile::Explicit(file) => file.take_loads(line),
            EitherFile::Inverted(file) => file.take_loads(line),
        }
    }

    fn close(&mut self, line: Local) -> ArrayVec<Target, 64> {
        match self {
            EitherFile::Explicit(file) => file.close(line),
            EitherFile::Inverted(file) => file.close(line),
        }
    }

    fn registers(&self) -> usize {
        match self {
            EitherFile::Explicit(file) => file.registers(),
            EitherFile::Inverted(file) => file.registers(),
        }
    }
}
