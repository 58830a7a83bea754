//! The draws of a generator, and lists of them: element after element, and for each element so many draws one after the other.

ghost use Rattle.std.specs.Prelude.{◌≡◌, ◌<◌, IfOk};
ghost use Rattle.mat_gen.specs.{Draws.{state_after}, Samples.{numbers_drawn, pairs_drawn, weight_of, weights_from}};

use mat_sets::{PairWeights, Pairs, Weight};
use std::alloc::{AllocError, Global};

/// What the state is multiplied by at each step.
const MULTIPLIER: u64 = 48_271;

/// The prime number below which each state is.
const MODULUS: u64 = 2_147_483_647;

/// How many numbers a weight is drawn from: those from -1000 to 1000.
pub(crate) const WEIGHTS: u32 = 2001;

/// The number of the weight 0 among them.
pub(crate) const NO_WEIGHT: u32 = 1000;

/// How many numbers a cost is drawn from: those from 0 to 1000.
pub(crate) const COSTS: u32 = 1001;

/// The state after so many steps.
fn state_behind(state: u64, steps: u32) -> u64
    requires { state < 2147483647 }
    ensures state { result ≡ state_after state steps }
    ensures below { result < 2147483647 }
{
    let mut next = state;
    for _ in 0..steps {
        next = next * MULTIPLIER % MODULUS;
    }
    next
}

/// For each of `count` elements, which take `each` draws, its draw `place`, below a number that is not 0.
pub(crate) fn numbers(
    alloc: Global,
    seed: u64,
    count: u32,
    each: u32,
    place: u32,
    below: u32,
) -> Result<Vec<u32>, AllocError>
    requires seeded { seed < 2147483647 }
    requires some { 0 < below }
    ensures { IfOk result (λ v. v.items ≡ numbers_drawn seed count each place below) }
{
    let mut before = state_behind(seed, place);
    let mut numbers = Vec::new(alloc);
    for _ in 0..count {
        let state = state_behind(before, 1);
        numbers.push((state % u64::from(below)) as u32)?;
        before = state_behind(before, each);
    }
    Ok(numbers)
}

/// For each element its draws `place` and `place` + 1, below a number that is not 0.
pub(crate) fn pairs(
    alloc: Global,
    seed: u64,
    count: u32,
    each: u32,
    place: u32,
    below: u32,
) -> Result<Pairs, AllocError>
    requires seeded { seed < 2147483647 }
    requires place { place < each }
    requires some { 0 < below }
    ensures { IfOk result (λ p. p ≡ pairs_drawn seed count each place below) }
{
    let first = numbers(alloc, seed, count, each, place, below)?;
    let second = numbers(alloc, seed, count, each, place + 1, below)?;
    let mut pairs = Vec::new(alloc);
    for i in 0..first.len() {
        pairs.push((first[i], second[i]))?;
    }
    Ok(Pairs::new(pairs))
}

/// The weight of a number, less the number of the weight 0.
fn weight_of(number: u32, zero: u32) -> Weight
    ensures { result ≡ weight_of number zero }
{
    let main = i128::from(number) - i128::from(zero);
    Weight { main, tie: 0 }
}

/// For each element as a weight its draw `place`, one of `many` numbers, less the number of the weight 0.
pub(crate) fn weights(
    alloc: Global,
    seed: u64,
    count: u32,
    each: u32,
    place: u32,
    many: u32,
    zero: u32,
) -> Result<PairWeights, AllocError>
    requires seeded { seed < 2147483647 }
    requires some { 0 < many }
    ensures { IfOk result (λ w. w ≡ weights_from seed count each place many zero) }
{
    let drawn = numbers(alloc, seed, count, each, place, many)?;
    let mut weights = Vec::new(alloc);
    for i in 0..drawn.len() {
        weights.push(weight_of(drawn[i], zero))?;
    }
    Ok(PairWeights::new(weights))
}
