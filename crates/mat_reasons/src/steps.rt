//! The steps of a ladder: a set of each size from 0 on, with its weight.

ghost use Rattle.std.specs.Prelude.{◌≡◌, ◌<◌, None, length, map, All, IfOk};
ghost use Rattle.mat_reasons.specs.{FirstHeaviest.{IsFirstHeaviest}, Sums.{HasSummableShares}};
ghost use Rattle.mat_sets.specs.Weights.{is_below, weight_at};

use crate::shares::are_split;
use mat_cert::{PlainRung, PricedRung};
use mat_sets::{ElemSet, Weight, weigh};
use std::alloc::{AllocError, Global};

/// A set of a ladder, its weight, and the sums of its shares where its weights are split.
#[derive(Clone, Copy)]
pub struct Step<'a> {
    /// Its weight.
    pub weight: Weight,
    /// The set.
    pub set: &'a ElemSet,
    /// The sums of its shares for both rules, where its weights are split.
    pub shares: Option<(Weight, Weight)>,
}

/// The steps of a ladder without splits. The only error is want of memory.
pub fn plain_steps<'a>(alloc: Global, rungs: &'a [PlainRung]) -> Result<Vec<Step<'a>>, AllocError>
    ensures weights { IfOk result (λ steps. map (λ s. s.weight) steps.items ≡ map (λ r. r.weight) rungs.now) }
    ensures sets { IfOk result (λ steps. map (λ s. s.set.now) steps.items ≡ map (λ r. r.set) rungs.now) }
    ensures shares { IfOk result (λ steps. map (λ s. s.shares) steps.items ≡ map (λ r. None) rungs.now) }
{
    let mut steps = Vec::new(alloc);
    for rung in rungs {
        steps.push(Step {
            weight: rung.weight,
            set: &rung.set,
            shares: None,
        })?;
    }
    Ok(steps)
}

// The sums of the shares of a rung, where each part of its split has a weight that is not 0.
fn sums(rung: &PricedRung) -> Option<(Weight, Weight)>
    requires { HasSummableShares rung.now }
{
    let first = rung.first.as_slice();
    let second = rung.second.as_slice();
    if !are_split(first, second) {
        return None;
    }
    Some((weigh(&rung.set, first), weigh(&rung.set, second)))
}

/// The steps of a ladder with splits. The only error is want of memory.
pub(crate) fn priced_steps<'a>(
    alloc: Global,
    rungs: &'a [PricedRung],
) -> Result<Vec<Step<'a>>, AllocError>
    requires { All HasSummableShares rungs.now }
    ensures long { IfOk result (λ steps. length steps.items ≡ length rungs.now) }
    ensures weights { IfOk result (λ steps. map (λ s. s.weight) steps.items ≡ map (λ r. r.weight) rungs.now) }
    ensures sets { IfOk result (λ steps. map (λ s. s.set.now) steps.items ≡ map (λ r. r.set) rungs.now) }
{
    let mut steps = Vec::new(alloc);
    for k in 0..rungs.len() {
        let rung = &rungs[k];
        steps.push(Step {
            weight: rung.weight,
            set: &rung.set,
            shares: sums(rung),
        })?;
    }
    Ok(steps)
}

// Whether a step weighs less than another.
fn is_lighter(steps: &[Step<'_>], i: usize, k: usize) -> bool
    requires first { i < length steps.now }
    requires second { k < length steps.now }
    ensures { result ≡ is_below (weight_at (map (λ s. s.weight) steps.now) i) (weight_at (map (λ s. s.weight) steps.now) k) }
{
    steps[i].weight < steps[k].weight
}

/// The first of the heaviest steps.
#[tactic(auto, using(crate::proofs::FirstHeaviest::first_risen, crate::proofs::FirstHeaviest::first_stayed))]
pub fn best_of(steps: &[Step<'_>]) -> usize
    requires { 0 < length steps.now }
    ensures inside { result < length steps.now }
    ensures first { IsFirstHeaviest (weight_at (map (λ s. s.weight) steps.now)) (length steps.now) result }
{
    let mut best = 0;
    for k in 0..steps.len() {
        if is_lighter(steps, best, k) {
            best = k;
        }
    }
    best
}
