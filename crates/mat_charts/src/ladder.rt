//! Ladders of sets, and their elements as rows of squares.

ghost use Rattle.std.specs.Prelude.{◌≡◌, None, map, IfOk};

use crate::orders::by_first_set;
use mat_cert::PricedRung;
use mat_reasons::Step;
use mat_sets::Weight;
use mat_text::{Called, Noun};
use std::alloc::{AllocError, Global};

/// The sets of a ladder, of which the best is known, and the weights of their elements.
#[derive(Clone, Copy)]
pub struct Ladder<'a> {
    /// What the elements are called.
    pub called: Called<'a>,
    /// What an element is.
    pub noun: Noun,
    /// The weight of each element.
    pub weights: &'a [Weight],
    /// The set of each size from 0 on.
    pub steps: &'a [Step<'a>],
    /// The number of the best step.
    pub best: usize,
}

impl<'a> Ladder<'a> {
    /// Whether the set of a step has an element.
    pub(crate) fn holds(&self, k: usize, e: u32) -> bool {
        match self.steps.get(k) {
            Some(step) => step.set.contains(e),
            None => false,
        }
    }

    /// The elements of all sets, by the first step that has them and then by number. The only error is want of memory.
    pub(crate) fn rows(&self, alloc: Global) -> Result<Vec<u32>, AllocError> {
        let mut sets = Vec::new(alloc);
        for step in self.steps {
            sets.push(step.set)?;
        }
        by_first_set(alloc, &sets)
    }
}

/// The steps of a ladder with splits, which are not drawn. The only error is want of memory.
pub fn steps_of<'a>(alloc: Global, rungs: &'a [PricedRung]) -> Result<Vec<Step<'a>>, AllocError>
    ensures weights { IfOk result (λ steps. map (λ s. s.weight) steps.items ≡ map (λ r. r.weight) rungs.now) }
    ensures sets { IfOk result (λ steps. map (λ s. s.set.now) steps.items ≡ map (λ r. r.set) rungs.now) }
    ensures shares { IfOk result (λ steps. map (λ s. s.shares) steps.items ≡ map (λ r. None) rungs.now) }
{
    let mut steps = Vec::new(alloc);
    for rung in rungs {
        steps.push(Step {
            weight: rung.weight,
            set: &rung.set,
            shares: None,
        })?;
    }
    Ok(steps)
}
