//! The sets whose ranks a witness has to bound for a half of a split.

ghost use Rattle.std.specs.Prelude.{◌≡◌, ◌≤◌, ◌++◌, ◌∷◌, [], nat_lt, length, filter, map, IfOk, OnOk};
ghost use Rattle.mat_sets.specs.Limits.{most_elements};
ghost use Rattle.mat_any.specs.Trees.{Tree};
ghost use Rattle.mat_witness.specs.{Demands.{demand_for}, Shown.{demand_at, demands_under}};

use mat_sets::{ElemSet, Weight, falling_weights, heavy_elements};
use std::alloc::{AllocError, Global};

/// A set whose rank in a matroid has to be shown to be at most a number.
#[derive(Debug, Drop)]
pub(crate) struct Demand {
    /// The set.
    pub(crate) set: ElemSet,
    /// The number.
    pub(crate) most: usize,
}

// The elements whose weight in a half is at least `at`, with the number of members of the set among them.
fn demand_at(
    alloc: Global,
    set: &ElemSet,
    half: &[Weight],
    at: Weight,
) -> Result<Demand, AllocError>
    requires { length half.now ≤ most_elements }
    ensures { IfOk result (λ demand. (tree : Tree) → demand_for tree demand ≡ demand_at tree set.now half.now at) }
{
    let heavy = heavy_elements(alloc, half, at)?;
    let most = set.among(alloc, &heavy.to_bits(alloc)?)?.len();
    Ok(Demand { set: heavy, most })
}

// Puts a demand behind the others where fewer than `k` members of the set are among its elements.
fn push_if_fewer(demands: &mut Vec<Demand>, k: u32, demand: Demand) -> Result<(), AllocError>
    ensures { OnOk result ((tree : Tree) → map (demand_for tree) demands.new.items
        ≡ map (demand_for tree) demands.old.items ++ filter (λ other. nat_lt other.most k) (demand_for tree demand ∷ [])) }
{
    if demand.most < k as usize {
        demands.push(demand)?;
    }
    Ok(())
}

/// What is demanded for a half of a split: for each of its different values, falling, at or above which fewer than `k` members of the set
/// weigh, the elements that weigh so much, and how many members of the set do. The only error is want of memory.
pub(crate) fn demands_under(
    alloc: Global,
    k: u32,
    set: &ElemSet,
    half: &[Weight],
) -> Result<Vec<Demand>, AllocError>
    requires few { length half.now ≤ most_elements }
    ensures { IfOk result (λ demands. (tree : Tree) → map (demand_for tree) demands.items ≡ demands_under tree k set.now half.now) }
{
    let falling = falling_weights(alloc, half)?;
    let mut demands = Vec::new(alloc);
    for at in falling.as_slice() {
        let demand = demand_at(alloc, set, half, *at)?;
        push_if_fewer(&mut demands, k, demand)?;
    }
    Ok(demands)
}
