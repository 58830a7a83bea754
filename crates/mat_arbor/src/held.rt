//! The weights of the vertex sets that hold an arc.
ghost use Rattle.std.specs.{Prelude.{◌≡◌, ◌<◌, ◌≤◌, ◌^◌, ◌+ℤ◌, ◌-ℤ◌, ◌≤ℤ◌, ℕ, length, pos, IfOk}, List.{AllByRecursion}};
ghost use Rattle.mat_sets.specs.{Graphs.{ends_of, IsGraph}, Sets.{is_member, IsSet}, Sums.{IsWithin}};
ghost use Rattle.mat_cuts.specs.{Checking.{IsAdded}, Costs.{cost_at, IsWideCost}, Cuts.{weight_on}, Limits.{cut_bound}};
ghost use Rattle.mat_arbor.specs.Held.{weight_around, AreHeldWeights, IsCutWithin};

use mat_cuts::CutWeight;
use std::alloc::{AllocError, Global};

/// Adds the weight at each member of the set.
fn add_at_members(set: &[u32], weight: i128, sums: &mut Vec<i128>)
    requires set { IsSet (length sums.old.items) set.now }
    requires small { IsWithin (10 ^ 36) weight }
    requires room { (v : ℕ) → v < length sums.old.items → IsWithin (10 ^ 36) (cost_at sums.old.items v) }
    ensures { IsAdded (length sums.old.items) (λ v. is_member v set.now) weight sums.old.items sums.new.items }
{
    for v in set {
        let sum = sums[*v as usize] + weight;
        sums[*v as usize] = sum;
    }
}

/// At each vertex the weights of the sets that hold it, added.
fn weights_around(alloc: Global, vertices: u32, cuts: &[CutWeight]) -> Result<Vec<i128>, AllocError>
    requires few { length cuts.now ≤ cut_bound }
    requires cuts { AllByRecursion (IsCutWithin vertices (10 ^ 31)) cuts.now }
    ensures long { IfOk result (λ sums. length sums.items ≡ vertices) }
    ensures sums { IfOk result (λ sums. (v : ℕ) → v < vertices → cost_at sums.items v ≡ weight_around cuts.now v) }
{
    let mut sums = vec![in alloc; 0i128; vertices as usize]?;
    for cut in cuts {
        add_at_members(cut.set.as_slice(), cut.weight, &mut sums);
    }
    Ok(sums)
}

/// The weights of the sets that hold both ends of an arc, added: those of the sets that hold its head, less those of the sets that it enters,
/// which together are its cost less what is left of it.
fn held_weight(around: i128, cost: i128, left: i128) -> u128
    requires around { IsWithin (10 ^ 36) around }
    requires cost { IsWithin (10 ^ 36) cost }
    requires left { IsWithin (10 ^ 36) left }
    requires low { cost ≤ℤ (around +ℤ left) }
    ensures { pos result ≡ around +ℤ left -ℤ cost }
{
    (around - (cost - left)) as u128
}

/// At each arc the weights of the sets that hold both its ends, added.
pub(crate) fn held_weights(
    alloc: Global,
    vertices: u32,
    arcs: &[(u32, u32)],
    costs: &[i128],
    cuts: &[CutWeight],
    left: &[i128],
) -> Result<Vec<u128>, AllocError>
    requires graph { IsGraph vertices arcs.now }
    requires few { length cuts.now ≤ cut_bound }
    requires cuts { AllByRecursion (IsCutWithin vertices (10 ^ 31)) cuts.now }
    requires positive { AllByRecursion (λ c. pos 0 ≤ℤ c.weight) cuts.now }
    requires costs { length costs.now ≡ length arcs.now }
    requires range { (a : ℕ) → a < length arcs.now → IsWideCost (cost_at costs.now a) }
    requires left { length left.now ≡ length arcs.now }
    requires left_is { (a : ℕ) → a < length arcs.now → cost_at costs.now a ≡ cost_at left.now a +ℤ weight_on (ends_of arcs.now) cuts.now a }
    ensures { IfOk result (λ held. AreHeldWeights (length arcs.now) (ends_of arcs.now) cuts.now held.items) }
{
    let around = weights_around(alloc, vertices, cuts)?;
    let mut held = Vec::with_capacity(alloc, arcs.len())?;
    for a in 0..arcs.len() {
        let head = arcs[a].1;
        held.push(held_weight(around[head as usize], costs[a], left[a]))?;
    }
    Ok(held)
}
