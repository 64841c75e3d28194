use super::super::refutation::{Chain, Contradiction, Link, Step};
use std::alloc::{AllocError, Global};

/// Returns the contradiction of one chain, which leads back to where it begins.
pub fn around(alloc: Global, start: Link, steps: Vec<Step>) -> Result<Contradiction, AllocError> {
    let mut chains = Vec::new(alloc);
    chains.push(Chain { start, steps })?;
    Ok(Contradiction::Circle(chains))
}
