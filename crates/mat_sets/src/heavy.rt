//! The elements that weigh at least as much as something.

ghost use Rattle.std.specs.Prelude.{◌≡◌, ◌<◌, ◌≤◌, length, IfOk};
ghost use Rattle.mat_sets.specs.{FallingWeights.{heavy}, Limits.{most_elements}, Weights.{is_below, weight_at}};

use crate::elem_set::ElemSet;
use crate::weight::Weight;
use std::alloc::{AllocError, Global};

/// Whether an element weighs less than this.
pub fn is_lighter(weights: &[Weight], x: u32, at: Weight) -> bool
    requires { x < length weights.now }
    ensures { result ≡ is_below (weight_at weights.now x) at }
{
    weights[x as usize] < at
}

/// The elements that weigh at least as much as `at`, of at most 500. The only error is want of memory.
pub fn heavy_elements(alloc: Global, weights: &[Weight], at: Weight) -> Result<ElemSet, AllocError>
    requires { length weights.now ≤ most_elements }
    ensures { IfOk result (λ set. set ≡ heavy (length weights.now) weights.now at) }
{
    let mut set = ElemSet::new(alloc);
    for x in 0..weights.len() as u32 {
        set.add_if(x, !is_lighter(weights, x, at))?;
    }
    Ok(set)
}
