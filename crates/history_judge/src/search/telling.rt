//! The chains that lead from an access around to itself.

use super::super::refutation::{Chain, Contradiction, Link, Step, Why};
use super::closure::{By, Closure, Edge};
use super::lists::{NONE, at};
use super::plan::Plan;
use std::alloc::{AllocError, Global};
use std::collections::HashMap;

/// The maximum number of steps to explain edges.
const MOST: usize = 10_000;

/// One step of a chain that may still need to be explained.
#[derive(Clone, Copy)]
enum Move {
    Along(Edge),
    Raise(usize),
    Lower(usize),
}

/// The chains so far.
#[derive(Drop)]
struct Telling {
    chains: Vec<Chain>,
    /// The number of the chain that shows an edge, by its first and last access.
    told: HashMap<(usize, usize), usize>,
}

/// Returns the contradiction of an edge whose end comes before its start.
pub fn told(
    alloc: Global,
    plan: &Plan,
    closure: &Closure,
    circle: Edge,
) -> Result<Option<Contradiction>, AllocError> {
    let mut telling = Telling {
        chains: Vec::new(alloc),
        told: HashMap::new(alloc),
    };
    let mut waiting = Vec::new(alloc);
    let mut around = path(alloc, plan, closure, circle.last, circle.first)?;
    around.insert(0, Move::Along(circle))?;
    for _ in 0..MOST {
        let moves = match waiting.last().copied() {
            Some(edge) => justified(alloc, plan, closure, edge)?,
            None => Vec::from_slice(alloc, &around)?,
        };
        let moves = opened(alloc, plan, closure, moves)?;
        match telling.untold(&moves) {
            Some(edge) => waiting.push(edge)?,
            None => {
                let Some(chain) = telling.chain(alloc, &moves)? else {
                    return Ok(None);
                };
                telling.chains.push(chain)?;
                match waiting.pop() {
                    Some(edge) => telling.number(edge)?,
                    None => return Ok(Some(Contradiction::Circle(telling.chains))),
                }
            }
        }
    }
    Ok(None)
}

// The path from an access to one that it comes before.
fn path(
    alloc: Global,
    plan: &Plan,
    closure: &Closure,
    first: usize,
    last: usize,
) -> Result<Vec<Move>, AllocError> {
    let core = at(&plan.core, first, NONE);
    let mut moves = Vec::new(alloc);
    let mut place = last;
    for _ in 0..plan.core.len() {
        if place == first {
            break;
        }
        if at(&plan.core, place, NONE) == core {
            moves.push(Move::Along(Edge {
                first,
                last: place,
                by: By::Link(Why::Core),
            }))?;
            break;
        }
        let Some(cause) = closure.cause(place, core) else {
            break;
        };
        let Some(edge) = closure.edges.get(cause).copied() else {
            break;
        };
        moves.push(Move::Along(edge))?;
        place = edge.first;
    }
    moves.reverse();
    Ok(moves)
}

// The moves that show an edge.
fn justified(
    alloc: Global,
    plan: &Plan,
    closure: &Closure,
    edge: Edge,
) -> Result<Vec<Move>, AllocError> {
    match edge.by {
        By::Link(_) => {
            let mut moves = Vec::new(alloc);
            moves.push(Move::Along(edge))?;
            Ok(moves)
        }
        By::Raise(writer) => {
            let mut moves = path(alloc, plan, closure, writer, edge.last)?;
            moves.push(Move::Raise(edge.first))?;
            Ok(moves)
        }
        By::Lower(reader) => {
            let mut moves = path(alloc, plan, closure, edge.first, reader)?;
            moves.push(Move::Lower(edge.last))?;
            Ok(moves)
        }
    }
}

// The same moves, but with a first edge that needs no other.
fn opened(
    alloc: Global,
    plan: &Plan,
    closure: &Closure,
    moves: Vec<Move>,
) -> Result<Vec<Move>, AllocError> {
    let mut moves = moves;
    for _ in 0..MOST {
        let Some(Move::Along(edge)) = moves.first().copied() else {
            break;
        };
        if matches!(edge.by, By::Link(_)) {
            break;
        }
        let mut longer = justified(alloc, plan, closure, edge)?;
        for it in moves.iter().skip(1) {
            longer.push(*it)?;
        }
        moves = longer;
    }
    Ok(moves)
}

impl Telling {
    // The first edge that needs a chain of its own, and has none.
    fn untold(&self, moves: &[Move]) -> Option<Edge> {
        for it in moves {
            if let Move::Along(edge) = it {
                if !matches!(edge.by, By::Link(_))
                    && self.told.get(&(edge.first, edge.last)).is_none()
                {
                    return Some(*edge);
                }
            }
        }
        None
    }

    // The last chain shows this edge.
    fn number(&mut self, edge: Edge) -> Result<(), AllocError> {
        let number = self.chains.len().saturating_sub(1);
        self.told.insert((edge.first, edge.last), number)?;
        Ok(())
    }

    // The chain of moves whose edges are all explained.
    fn chain(&self, alloc: Global, moves: &[Move]) -> Result<Option<Chain>, AllocError> {
        let Some(Move::Along(first)) = moves.first().copied() else {
            return Ok(None);
        };
        let start = Link {
            first: first.first,
            last: first.last,
            why: self.why(first),
        };
        let mut steps = Vec::new(alloc);
        for it in moves.iter().skip(1) {
            steps.push(match *it {
                Move::Along(edge) => Step::Next(edge.last, self.why(edge)),
                Move::Raise(access) => Step::Raise(access),
                Move::Lower(access) => Step::Lower(access),
            })?;
        }
        Ok(Some(Chain { start, steps }))
    }

    fn why(&self, edge: Edge) -> Why {
        match edge.by {
            By::Link(why) => why,
            By::Raise(_) | By::Lower(_) => match self.told.get(&(edge.first, edge.last)) {
                Some(number) => Why::Shown(*number),
                None => Why::Core,
            },
        }
    }
}
