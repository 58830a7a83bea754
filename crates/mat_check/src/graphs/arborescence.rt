//! The clauses of a least spanning arborescence with a split of its negated costs.

ghost use Rattle.std.specs.Prelude.{◌≡◌, ◌<◌, ◌≤◌, ◌∷◌, ◌++◌, [], true, length, map, IfOk};
ghost use Rattle.mat_sets.specs.{
  Limits.{largest_weight, largest_number, most_elements},
  Graphs.{ends_of, IsGraph},
  Sets.{all_below, AllBelow, IsSet},
  Weights.{◌⊕◌, is_same, negated, weight_at, AreWeightsWithin},
};
ghost use Rattle.mat_laws.specs.Searches.{is_beaten};
ghost use Rattle.mat_graphic.specs.Forests.{is_graphic};
ghost use Rattle.mat_arbor.specs.Heads.{is_entering_once};
ghost use Rattle.mat_branch.specs.Spanning.{is_spanning_arborescence};
ghost use Rattle.mat_cert.specs.Certificates.{IsRangedArborescence, IsRangedPart};
ghost use Rattle.mat_check.specs.{Clauses.{first_failure, heaviest_clause}, TreeClauses.{arborescence_clauses, cost_clause}};

use crate::graphs::heads::entering_once;
use crate::reason::{Failure, Reason};
use crate::sets::searches::is_beaten;
use mat_branch::spans;
use mat_flow::Digraph;
use mat_graphic::Graphic;
use mat_greedy::heaviest_weights;
use mat_laws::Matroid;
use mat_sets::{ElemSet, Pairs, Weight, weigh};
use std::alloc::{AllocError, Global};

// Whether the two parts add up to the negated cost of arc e.
fn negates(costs: &[Weight], first: &[Weight], second: &[Weight], e: u32) -> bool
    requires below { e < length costs.now }
    requires first { length first.now ≡ length costs.now }
    requires second { length second.now ≡ length costs.now }
    requires small { AreWeightsWithin largest_weight costs.now }
    requires first_small { AreWeightsWithin largest_number first.now }
    requires second_small { AreWeightsWithin largest_number second.now }
    ensures { result ≡ is_same (weight_at first.now e ⊕ weight_at second.now e) (negated (weight_at costs.now e)) }
{
    let at = e as usize;
    first[at] + second[at] == -costs[at]
}

// The first arc at which the two parts don't add up to the negated cost, as the failure that it is.
fn cost_failure(costs: &[Weight], first: &[Weight], second: &[Weight]) -> Option<Failure>
    requires few { length costs.now ≤ most_elements }
    requires first { length first.now ≡ length costs.now }
    requires second { length second.now ≡ length costs.now }
    requires small { AreWeightsWithin largest_weight costs.now }
    requires first_small { AreWeightsWithin largest_number first.now }
    requires second_small { AreWeightsWithin largest_number second.now }
    ensures { result ≡ first_failure (map (cost_clause costs.now first.now second.now) (all_below (length costs.now))) }
{
    let count = costs.len() as u32;
    for e in 0..count {
        if !negates(costs, first, second, e) {
            return Some(Reason::Sum.at(0, e));
        }
    }
    None
}

// Whether some independent set of as many elements is heavier than an independent set, by one run of the greedy algorithm.
fn is_beaten_under<M: Matroid>(
    alloc: Global,
    m: &M,
    weights: &[Weight],
    set: &ElemSet,
) -> Result<bool, AllocError>
    requires sound { M.sound m.now }
    requires few { M.ground_size m.now ≤ most_elements }
    requires ranged { IsRangedPart (M.ground_size m.now) weights.now }
    requires passes { M.indep m.now set.now ≡ true }
    ensures { IfOk result (λ b. b ≡ is_beaten (M.ground_size m.now) (M.indep m.now) (weight_at weights.now) set.now) }
{
    m.lawful();
    let heaviest = heaviest_weights(alloc, m, weights)?;
    Ok(is_beaten(m, weights, &heaviest, set))
}

// The first clause of the split that fails, for a spanning arborescence.
fn arborescence_split_failure(
    alloc: Global,
    vertices: u32,
    arcs: &Pairs,
    costs: &[Weight],
    root: u32,
    tree: &ElemSet,
    first: &[Weight],
    second: &[Weight],
) -> Result<Option<Failure>, AllocError>
    requires graph { IsGraph vertices arcs.now }
    requires root { root < vertices }
    requires few { length arcs.now ≤ most_elements }
    requires lengths { length costs.now ≡ length arcs.now }
    requires small { AreWeightsWithin largest_weight costs.now }
    requires first { IsRangedPart (length arcs.now) first.now }
    requires second { IsRangedPart (length arcs.now) second.now }
    requires spanning { is_spanning_arborescence vertices (ends_of arcs.now) root tree.now ≡ true }
    requires set { IsSet (length arcs.now) tree.now }
    ensures { IfOk result (λ found. found ≡ first_failure (map (cost_clause costs.now first.now second.now) (all_below (length arcs.now))
        ++ heaviest_clause (length arcs.now) (is_graphic (length arcs.now) (ends_of arcs.now)) first.now 0 0 tree.now
        ∷ heaviest_clause (length arcs.now) (is_entering_once (length arcs.now) vertices (ends_of arcs.now) root) second.now 1 0 tree.now ∷ [])) }
{
    if let Some(failure) = cost_failure(costs, first, second) {
        return Ok(Some(failure));
    }
    let graphic = Graphic::new(alloc, vertices, arcs.copy(alloc)?)?;
    if is_beaten_under(alloc, &graphic, first, tree)? {
        return Ok(Some(Reason::Beaten.at(0, 0)));
    }
    let heads = entering_once(alloc, vertices, arcs, root)?;
    if is_beaten_under(alloc, &heads, second, tree)? {
        return Ok(Some(Reason::Beaten.at(0, 1)));
    }
    Ok(None)
}

// Whether these arcs are a spanning arborescence from the root.
fn is_arborescence(
    alloc: Global,
    vertices: u32,
    arcs: &Pairs,
    root: u32,
    tree: &ElemSet,
) -> Result<bool, AllocError>
    requires graph { IsGraph vertices arcs.now }
    requires root { root < vertices }
    requires below { AllBelow (length arcs.now) tree.now }
    ensures { IfOk result (λ told. told ≡ is_spanning_arborescence vertices (ends_of arcs.now) root tree.now) }
{
    let graph = Digraph::new(alloc, vertices, arcs.copy(alloc)?)?;
    spans(alloc, &graph, root, tree)
}

/// The first clause of a least spanning arborescence that fails: its cost, that it spans, for each arc in turn the sum of the two parts of
/// the split, and that no independent set of as many arcs is heavier, under the first part in the graphic matroid and then under the second
/// in the partition matroid of the heads (Schrijver, chapter 52; the split is Frank's). There is one run of the greedy algorithm for each
/// part. The only error is want of memory.
pub(crate) fn least_failure(
    alloc: Global,
    vertices: u32,
    arcs: &Pairs,
    costs: &[Weight],
    root: u32,
    cost: Weight,
    tree: &ElemSet,
    first: &[Weight],
    second: &[Weight],
) -> Result<Option<Failure>, AllocError>
    requires graph { IsGraph vertices arcs.now }
    requires root { root < vertices }
    requires lengths { length costs.now ≡ length arcs.now }
    requires small { AreWeightsWithin largest_weight costs.now }
    requires ranged { IsRangedArborescence (length arcs.now) cost tree.now first.now second.now }
    ensures { IfOk result (λ found. found ≡ first_failure (arborescence_clauses vertices (length arcs.now) (ends_of arcs.now) costs.now root cost
        tree.now first.now second.now)) }
{
    if weigh(tree, costs) != cost {
        return Ok(Some(Reason::Weight.at(0, 0)));
    }
    if !is_arborescence(alloc, vertices, arcs, root, tree)? {
        return Ok(Some(Reason::Tree.at(0, 0)));
    }
    arborescence_split_failure(alloc, vertices, arcs, costs, root, tree, first, second)
}
