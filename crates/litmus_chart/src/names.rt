ghost use Rattle.std.specs.Prelude.{IfErr};
ghost use Rattle.litmus_script.specs.Play.{IsOfRun};

use address_map::LineAddr;
use litmus_text::TextFault;
use std::alloc::Global;

/// The lines that were requested, in the order of their first request.
#[derive(Drop)]
pub struct Names {
    /// By line, how many others were requested before it.
    ranks: Vec<Option<usize>>,
    /// The number of lines that were requested.
    count: usize,
}

impl Names {
    pub fn new(alloc: Global) -> Self {
        Names {
            ranks: Vec::new(alloc),
            count: 0,
        }
    }

    // Returns how many lines were requested before this one, or none if it wasn't.
    fn rank(&self, line: LineAddr) -> Option<usize> {
        match self.ranks.get(line.0 as usize) {
            Some(rank) => *rank,
            None => None,
        }
    }

    /// Whether the one line was requested before the other.
    pub fn is_first(&self, line: LineAddr, other: LineAddr) -> bool {
        match (self.rank(line), self.rank(other)) {
            (Some(rank), Some(later)) => rank < later,
            _ => false,
        }
    }

    /// Notes that the line was requested: if it wasn't before, its rank is the next.
    pub fn name(&mut self, line: LineAddr) -> Result<(), TextFault>
        ensures { IfErr result IsOfRun }
    {
        if self.rank(line).is_some() {
            return Ok(());
        }
        let rank = self.count;
        self.count = rank.saturating_add(1);
        let place = line.0 as usize;
        for _ in self.ranks.len()..place.saturating_add(1) {
            self.ranks.push(None)?;
        }
        if let Some(kept) = self.ranks.get_mut(place) {
            *kept = Some(rank);
        }
        Ok(())
    }
}
