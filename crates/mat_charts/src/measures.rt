//! How long words are, and how many columns have room for a number.

ghost use Rattle.std.specs.Prelude.{◌<◌};

use mat_drawing::Units;
use mat_sets::Weight;
use mat_text::{Called, Spelled};
use std::alloc::{AllocError, Global};

/// How many bytes the spelling of a weight has. The only error is want of memory.
pub(crate) fn weight_bytes(alloc: Global, weight: Weight) -> Result<usize, AllocError> {
    Ok(Spelled(weight).to_string(alloc)?.len())
}

/// The most bytes of the spelling of one of these weights: 0 of none. The only error is want of memory.
pub(crate) fn longest_weight(alloc: Global, weights: &[Weight]) -> Result<usize, AllocError> {
    let mut longest = 0;
    for weight in weights {
        longest = longest.max(weight_bytes(alloc, *weight)?);
    }
    Ok(longest)
}

/// The most bytes of the name of one of these elements: 0 of none. The only error is want of memory.
pub(crate) fn longest_element(
    alloc: Global,
    called: &Called<'_>,
    elements: &[u32],
) -> Result<usize, AllocError> {
    let mut longest = 0;
    for e in elements {
        longest = longest.max(called.element(*e as usize).to_string(alloc)?.len());
    }
    Ok(longest)
}

/// The weight of an element: none where the list ends before it.
pub(crate) fn weight_at(weights: &[Weight], e: u32) -> Weight {
    weights.get(e as usize).copied().unwrap_or(Weight::ZERO)
}

// The distances of numbers on a scale.
const STEPS: [usize; 8] = [1, 2, 5, 10, 20, 50, 100, 200];

/// The first of the numbers 1, 2, 5, 10, 20, 50, 100 and 200 for which that many columns together are as wide as is needed, and 500 where none is
/// enough.
pub(crate) fn step(column: Units, needed: i64) -> usize
    ensures { 0 < result }
{
    for columns in STEPS {
        if column * Units::of(columns) >= Units(needed) {
            return columns.max(1);
        }
    }
    500
}
