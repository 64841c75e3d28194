use super::super::access::Access;
use super::super::initial::initial_of;
use super::super::writers::{Tables, Writer, Writers};
use address_map::WordAddr;
use std::alloc::{AllocError, Global};

/// Where the value that an access found comes from.
#[derive(Clone, Copy, PartialEq, Eq)]
pub enum Source {
    /// It found none, or it isn't known which of several left it.
    Unknown,
    /// The word began with it.
    Initial,
    /// This access left it.
    Access(usize),
}

/// The source of each access.
#[derive(Drop)]
pub struct Sources {
    pub all: Vec<Source>,
    /// Whether the source of each value that was found is known.
    pub are_known: bool,
    /// An access that found a value that nothing left.
    pub unwritten: Option<usize>,
}

impl Sources {
    pub fn of(
        alloc: Global,
        initial: &[(WordAddr, u64)],
        history: &[Access],
        tables: &Tables,
    ) -> Result<Self, AllocError> {
        let mut all = Vec::new(alloc);
        let mut are_known = true;
        let mut unwritten = None;
        for (place, access) in history.iter().enumerate() {
            let source = match (access.found(), tables.of_word(access.word)) {
                (Some(value), Some(writers)) => {
                    source_of(initial_of(initial, access.word), value, writers)
                }
                _ => Ok(Source::Unknown),
            };
            are_known = are_known && (source != Ok(Source::Unknown) || access.found().is_none());
            if source.is_err() {
                unwritten = Some(place);
            }
            all.push(source.unwrap_or(Source::Unknown))?;
        }
        Ok(Sources {
            all,
            are_known,
            unwritten,
        })
    }

    /// Returns the source of an access.
    pub fn at(&self, access: usize) -> Source {
        match self.all.get(access) {
            Some(source) => *source,
            None => Source::Unknown,
        }
    }
}

/// A value that nothing left.
#[derive(Clone, Copy, PartialEq, Eq)]
struct Unwritten;

fn source_of(initial: u64, value: u64, writers: &Writers) -> Result<Source, Unwritten> {
    match writers.get(value) {
        None if value == initial => Ok(Source::Initial),
        None => Err(Unwritten),
        Some(Writer::One(access)) if value != initial => Ok(Source::Access(access)),
        Some(_) => Ok(Source::Unknown),
    }
}
