//! The greedy algorithm on a matroid.

ghost use Rattle.std.specs.Prelude.{◌≡◌, ◌<◌, ◌≤◌, length, IfOk, IfSome, IsNone, ◌↔◌};
ghost use Rattle.mat_sets.specs.{Limits.{most_elements, largest_number}, Sets.{all_below}, Weights.{weight_at, AreWeightsWithin}};
ghost use Rattle.mat_laws.specs.{Ranks.{rank}, Heaviest.{IsHeaviest}};
ghost use Rattle.mat_greedy.specs.Greedy.{AreHeaviestEach, AreHeaviestWeights};

use crate::order::order_by_weight;
use mat_laws::Matroid;
use mat_sets::{ElemSet, PairWeights, SetList, Weight};
use std::alloc::{AllocError, Global};

/// A heaviest independent set of each size from 0 to the rank, by the greedy algorithm (Schrijver, chapter 40): the set
/// of k + 1 elements is the set of k elements with a heaviest element whose addition keeps it independent. One run of the
/// matroid along the elements by falling weight tells which of them are added. The only error is want of memory.
pub fn heaviest_each<M: Matroid>(
    alloc: Global,
    m: &M,
    weights: &[Weight],
) -> Result<SetList, AllocError>
    requires sound { M.sound m.now }
    requires lengths { length weights.now ≡ M.ground_size m.now }
    ensures { IfOk result (AreHeaviestEach (M.ground_size m.now) (M.indep m.now) (weight_at weights.now)) }
{
    m.lawful();
    let order = order_by_weight(alloc, m.size(), weights)?;
    let all = m.run(alloc, &order)?;
    let mut set = ElemSet::new(alloc);
    let mut sets = Vec::new(alloc);
    sets.push(set.copy(alloc)?)?;
    for x in &order {
        if all.contains(*x) {
            set.add(*x)?;
            sets.push(set.copy(alloc)?)?;
        }
    }
    Ok(SetList::new(sets))
}

/// The weight of a heaviest independent set of each size from 0 to the rank, by one run of the greedy algorithm (Schrijver,
/// chapter 40); no set is made but the one that the run ends with. The only error is want of memory.
pub fn heaviest_weights<M: Matroid>(
    alloc: Global,
    m: &M,
    weights: &[Weight],
) -> Result<PairWeights, AllocError>
    requires sound { M.sound m.now }
    requires lengths { length weights.now ≡ M.ground_size m.now }
    requires few { length weights.now ≤ most_elements }
    requires small { AreWeightsWithin largest_number weights.now }
    ensures { IfOk result (AreHeaviestWeights (M.ground_size m.now) (M.indep m.now) (weight_at weights.now)) }
{
    m.lawful();
    let order = order_by_weight(alloc, m.size(), weights)?;
    let taken = m.run(alloc, &order)?;
    let all = taken.to_bits(alloc)?;
    let mut sum = Weight::ZERO;
    let mut sums = vec![in alloc; sum]?;
    for x in &order {
        if all.contains(*x) {
            sum += weights[*x as usize];
            sums.push(sum)?;
        }
    }
    Ok(PairWeights::new(sums))
}

/// A heaviest independent set of k elements, or none where k is above the rank (Schrijver, chapter 40). The only error
/// is want of memory.
pub fn heaviest_of<M: Matroid>(
    alloc: Global,
    m: &M,
    weights: &[Weight],
    k: u32,
) -> Result<Option<ElemSet>, AllocError>
    requires sound { M.sound m.now }
    requires lengths { length weights.now ≡ M.ground_size m.now }
    ensures some { IfOk result (λ found. IfSome found (λ s. (length s ≡ k) × IsHeaviest (M.indep m.now) (weight_at weights.now) s)) }
    ensures none { IfOk result (λ found. IsNone found ↔ (rank (M.indep m.now) (all_below (M.ground_size m.now)) < k)) }
{
    let sets = heaviest_each(alloc, m, weights)?;
    let k = k as usize;
    if k < sets.len() {
        return Ok(Some(sets.get(k).copy(alloc)?));
    }
    Ok(None)
}
