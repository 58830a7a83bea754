//! Whether a heavier independent set of the same size is there, told by exchanges at the set.

ghost use Rattle.std.specs.Prelude.{◌≡◌, ◌<◌, true, length, IfOk};
ghost use Rattle.mat_sets.specs.{Sets.{AllBelow}, Weights.{weight_at}};
ghost use Rattle.mat_laws.specs.Searches.{is_beaten};
ghost use Rattle.mat_check.specs.Exchanges.{exceeds_least, exchange_gains, has_lighter, least_with, IsLeastWeightOrNone};

use mat_laws::Matroid;
use mat_sets::{ElemSet, Weight};
use std::alloc::{AllocError, Global};

/// An independent set, and what a matroid keeps of it.
#[derive(Drop)]
pub(crate) struct KeptSet<K: Drop> {
    pub(crate) set: ElemSet,
    pub(crate) kept: K,
}

/// The empty set, and what a matroid keeps of it. The only error is want of memory.
pub(crate) fn keep_empty<M: Matroid>(alloc: Global, m: &M) -> Result<KeptSet<M::Kept>, AllocError>
    requires sound { M.sound m.now }
    ensures passes { IfOk result (λ here. M.indep m.now here.set ≡ true) }
    ensures kept { IfOk result (λ here. M.keeps m.now here.set here.kept) }
{
    m.lawful();
    let set = ElemSet::new(alloc);
    let kept = m.keep(alloc, &set)?;
    Ok(KeptSet { set, kept })
}

/// The next set, where it is independent, and what the matroid keeps of it, made from what it keeps of the set before; else the set before. The
/// only error is want of memory.
pub(crate) fn move_to<M: Matroid>(
    alloc: Global,
    m: &M,
    before: KeptSet<M::Kept>,
    next: &ElemSet,
) -> Result<KeptSet<M::Kept>, AllocError>
    requires sound { M.sound m.now }
    requires passes { M.indep m.now before.set ≡ true }
    requires kept { M.keeps m.now before.set before.kept }
    requires below { AllBelow (M.ground_size m.now) next.now }
    ensures passes { IfOk result (λ here. M.indep m.now here.set ≡ true) }
    ensures kept { IfOk result (λ here. M.keeps m.now here.set here.kept) }
    ensures moved { IfOk result (λ here. M.indep m.now next.now ≡ true → here.set ≡ next.now) }
{
    if !m.independent(alloc, next)? {
        return Ok(before);
    }
    let kept = m.keep_next(alloc, &before.set, &before.kept, next)?;
    let set = next.copy(alloc)?;
    Ok(KeptSet { set, kept })
}

// The least weight of some elements and one more.
fn least_with(least: Option<Weight>, weight: Weight) -> Option<Weight>
    ensures { result ≡ least_with least weight }
{
    match least {
        Some(other) => Some(if weight < other { weight } else { other }),
        None => Some(weight),
    }
}

// The least weight of these elements; none where there are none.
fn least_weight(elements: &[u32], weights: &[Weight]) -> Option<Weight>
    requires { AllBelow (length weights.now) elements.now }
    ensures { IsLeastWeightOrNone (weight_at weights.now) elements.now result }
{
    let mut least = None;
    for y in elements {
        least = least_with(least, weights[*y as usize]);
    }
    least
}

// Whether a weight is above the least weight, where there is one.
fn exceeds_least(weight: Weight, least: Option<Weight>) -> bool
    ensures { result ≡ exceeds_least weight least }
{
    match least {
        Some(other) => other < weight,
        None => false,
    }
}

// Whether one of these elements weighs less than this.
fn has_lighter(elements: &[u32], weights: &[Weight], other: Weight) -> bool
    requires { AllBelow (length weights.now) elements.now }
    ensures { result ≡ has_lighter (weight_at weights.now) elements.now other }
{
    exceeds_least(other, least_weight(elements, weights))
}

// Whether x is outside an independent set, of which something is kept, and can take the place of a member that weighs less. An element that
// outweighs no member needs no row.
fn exchange_gains<M: Matroid>(
    alloc: Global,
    m: &M,
    weights: &[Weight],
    set: &ElemSet,
    kept: &M::Kept,
    least: Option<Weight>,
    x: u32,
) -> Result<bool, AllocError>
    requires sound { M.sound m.now }
    requires lengths { length weights.now ≡ M.ground_size m.now }
    requires passes { M.indep m.now set.now ≡ true }
    requires kept { M.keeps m.now set.now kept.now }
    requires least { IsLeastWeightOrNone (weight_at weights.now) set.now least }
    requires below { x < M.ground_size m.now }
    ensures { IfOk result (λ gains. gains ≡ exchange_gains (M.indep m.now) (weight_at weights.now) set.now x) }
{
    m.lawful();
    if set.contains(x) {
        return Ok(false);
    }
    let weight = weights[x as usize];
    if !exceeds_least(weight, least) {
        return Ok(false);
    }
    let exchange = m.row(alloc, set, kept, x)?;
    Ok(has_lighter(exchange.with.as_slice(), weights, weight))
}

/// Whether some independent set of as many elements is heavier than this one: then an exchange of one member for an element outside makes it
/// heavier (Schrijver, chapter 40). The exchanges of each element outside that outweighs the lightest member are asked for, until one makes it
/// heavier. The only error is want of memory.
pub(crate) fn is_beaten_by_exchange<M: Matroid>(
    alloc: Global,
    m: &M,
    weights: &[Weight],
    here: &KeptSet<M::Kept>,
) -> Result<bool, AllocError>
    requires sound { M.sound m.now }
    requires lengths { length weights.now ≡ M.ground_size m.now }
    requires passes { M.indep m.now here.now.set ≡ true }
    requires kept { M.keeps m.now here.now.set here.now.kept }
    ensures { IfOk result (λ b. b ≡ is_beaten (M.ground_size m.now) (M.indep m.now) (weight_at weights.now) here.now.set) }
{
    m.lawful();
    let least = least_weight(here.set.as_slice(), weights);
    for x in 0..m.size() {
        if exchange_gains(alloc, m, weights, &here.set, &here.kept, least, x)? {
            return Ok(true);
        }
    }
    Ok(false)
}
