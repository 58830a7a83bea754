//! Whether cuts are right.
ghost use Rattle.std.specs.{Prelude.{◌≡◌, ◌≤◌, ◌<◌, ◌*◌, ◌^◌, ◌≤ℤ◌, ◌↔◌, ℕ, length, false, All, IfOk, IsTrue}, List.{AllByRecursion}};
ghost use Rattle.mat_sets.specs.{
  Limits.{largest_number},
  Graphs.{ends_of, enters, IsGraph, IsSpanningArborescence, IsRootFree, IsUnentered},
  Sets.{AllBelow},
  Sums.{IsWithin},
};
ghost use Rattle.mat_cuts.specs.{
  Limits.{cut_bound, vertex_bound, arc_bound},
  Answers.{AreInRange, AreRight, IsCutInRange},
  Checking.{IsAdded},
  Costs.{cost_at, cost_of, IsCost},
  Growing.{TellsLeaving},
  Cuts.{all_weight, weight_on, AreRightCuts, IsWeightedCut},
};

use crate::cut_weight::{CutWeight, Cuts};
use crate::growing::leaves;
use mat_sets::{BitSet, ElemSet, Pairs};
use std::alloc::{AllocError, Global};

/// Whether arc a enters the set.
fn is_entering(arcs: &[(u32, u32)], set: &BitSet, a: usize) -> bool
    requires { a < length arcs.now }
    ensures { result ≡ enters (ends_of arcs.now) set.now a }
{
    let (tail, head) = arcs[a];
    set.contains(head) && !set.contains(tail)
}

/// Whether no arc enters the set.
fn no_arc_enters(alloc: Global, arcs: &[(u32, u32)], set: &ElemSet) -> Result<bool, AllocError>
    ensures { IfOk result (λ none. IsTrue none ↔ ((a : ℕ) → a < length arcs.now → enters (ends_of arcs.now) set.now a ≡ false)) }
{
    let inside = set.to_bits(alloc)?;
    for a in 0..arcs.len() {
        if is_entering(arcs, &inside, a) {
            return Ok(false);
        }
    }
    Ok(true)
}

/// Whether the set is not empty and does not hold the root.
fn is_root_free(root: u32, set: &ElemSet) -> bool
    ensures { (vertices : ℕ) → AllBelow vertices set.now → (IsTrue result ↔ IsRootFree vertices root set.now) }
{
    !set.is_empty() && !set.contains(root)
}

/// An arc of the tree that leaves the reached vertices.
fn leaving(arcs: &[(u32, u32)], tree: &[u32], reached: &BitSet) -> Option<u32>
    requires { AllBelow (length arcs.now) tree.now }
    ensures { TellsLeaving (ends_of arcs.now) tree.now reached.now result }
{
    for a in tree {
        if leaves(arcs, reached, *a) {
            return Some(*a);
        }
    }
    None
}

/// Whether the arcs are a spanning arborescence from the root.
fn is_spanning(
    alloc: Global,
    vertices: u32,
    arcs: &[(u32, u32)],
    root: u32,
    tree: &ElemSet,
) -> Result<bool, AllocError>
    requires root { root < vertices }
    requires graph { IsGraph vertices arcs.now }
    requires tree { AllBelow (length arcs.now) tree.now }
    ensures { IfOk result (λ spans. IsTrue spans ↔ IsSpanningArborescence vertices (length arcs.now) (ends_of arcs.now) root tree.now) }
{
    if tree.len() != (vertices - 1) as usize {
        return Ok(false);
    }
    let mut reached = BitSet::new(alloc);
    reached.insert(root)?;
    for _ in 1..vertices {
        let Some(a) = leaving(arcs, tree.as_slice(), &reached) else {
            return Ok(false);
        };
        reached.insert(arcs[a as usize].1)?;
    }
    Ok(true)
}

/// Whether each set is a cut: it is root-free, and its weight is above 0.
fn are_cuts(root: u32, cuts: &[CutWeight]) -> bool
    ensures { (vertices : ℕ) → AllByRecursion (IsCutInRange vertices) cuts.now → (IsTrue result ↔ AllByRecursion (IsWeightedCut vertices root) cuts.now) }
{
    for cut in cuts {
        if cut.weight <= 0 || !is_root_free(root, &cut.set) {
            return false;
        }
    }
    true
}

/// Adds the weight at each arc that enters the set.
fn add_at_entering(arcs: &[(u32, u32)], set: &BitSet, weight: i128, paid: &mut Vec<i128>)
    requires long { length paid.old.items ≡ length arcs.now }
    requires small { IsWithin (10 ^ 36) weight }
    requires room { (a : ℕ) → a < length arcs.now → IsWithin (10 ^ 36) (cost_at paid.old.items a) }
    ensures { IsAdded (length arcs.now) (enters (ends_of arcs.now) set.now) weight paid.old.items paid.new.items }
{
    for a in 0..arcs.len() {
        if is_entering(arcs, set, a) {
            paid[a] += weight;
        }
    }
}

/// At each arc the weights of the listed sets that it enters, added.
fn paid_costs(
    alloc: Global,
    arcs: &[(u32, u32)],
    cuts: &[CutWeight],
) -> Result<Vec<i128>, AllocError>
    requires few { length cuts.now ≤ cut_bound }
    requires small { AllByRecursion (λ c. IsWithin largest_number c.weight) cuts.now }
    ensures long { IfOk result (λ paid. length paid.items ≡ length arcs.now) }
    ensures paid { IfOk result (λ paid. (a : ℕ) → a < length arcs.now → cost_at paid.items a ≡ weight_on (ends_of arcs.now) cuts.now a) }
{
    let mut paid = vec![in alloc; 0i128; arcs.len()]?;
    for cut in cuts {
        let inside = cut.set.to_bits(alloc)?;
        add_at_entering(arcs, &inside, cut.weight, &mut paid);
    }
    Ok(paid)
}

/// Whether at each arc no more is paid than it costs.
fn is_within(paid: &[i128], costs: &[i128]) -> bool
    requires { length paid.now ≡ length costs.now }
    ensures { IsTrue result ↔ ((a : ℕ) → a < length costs.now → cost_at paid.now a ≤ℤ cost_at costs.now a) }
{
    for a in 0..costs.len() {
        if paid[a] > costs[a] {
            return false;
        }
    }
    true
}

/// All weights, added.
fn total_weight(cuts: &[CutWeight]) -> i128
    requires few { length cuts.now ≤ cut_bound }
    requires small { AllByRecursion (λ c. IsWithin largest_number c.weight) cuts.now }
    ensures { result ≡ all_weight cuts.now }
{
    let mut total = 0i128;
    for cut in cuts {
        total += cut.weight;
    }
    total
}

/// The cost of a set of arcs: at most 2,000 of them, each with a cost from 0 to 10^12. The time is linear in the set.
pub fn total_cost(costs: &[i128], arcs: &[u32]) -> i128
    requires below { AllBelow (length costs.now) arcs.now }
    requires few { length arcs.now ≤ vertex_bound }
    requires range { All IsCost costs.now }
    ensures { result ≡ cost_of costs.now arcs.now }
{
    let mut total = 0i128;
    for a in arcs {
        total += costs[*a as usize];
    }
    total
}

/// Whether the tree spans, and the cuts are right for it.
fn are_right_cuts(
    alloc: Global,
    vertices: u32,
    arcs: &[(u32, u32)],
    costs: &[i128],
    root: u32,
    tree: &ElemSet,
    cuts: &[CutWeight],
) -> Result<bool, AllocError>
    requires vertices { vertices ≤ vertex_bound }
    requires root { root < vertices }
    requires graph { IsGraph vertices arcs.now }
    requires costs { length costs.now ≡ length arcs.now }
    requires range { All IsCost costs.now }
    requires tree { AllBelow (length arcs.now) tree.now }
    requires few { length cuts.now ≤ 2 * vertices }
    requires cuts { AllByRecursion (IsCutInRange vertices) cuts.now }
    ensures { IfOk result (λ right. IsTrue right ↔ AreRightCuts vertices arcs.now costs.now root tree.now cuts.now) }
{
    if !is_spanning(alloc, vertices, arcs, root, tree)? {
        return Ok(false);
    }
    if !are_cuts(root, cuts) {
        return Ok(false);
    }
    let paid = paid_costs(alloc, arcs, cuts)?;
    if !is_within(&paid, costs) {
        return Ok(false);
    }
    Ok(total_weight(cuts) == total_cost(costs, tree.as_slice()))
}

/// Whether the set is root-free, and no arc enters it.
fn is_unreached(
    alloc: Global,
    vertices: u32,
    arcs: &[(u32, u32)],
    root: u32,
    set: &ElemSet,
) -> Result<bool, AllocError>
    requires graph { IsGraph vertices arcs.now }
    requires below { AllBelow vertices set.now }
    ensures { IfOk result (λ right. IsTrue right ↔ IsUnentered vertices arcs.now root set.now) }
{
    if !is_root_free(root, set) {
        return Ok(false);
    }
    no_arc_enters(alloc, arcs, set)
}

/// Whether an answer is right: a spanning arborescence with weighted vertex sets that prove that none costs less, or a vertex set that
/// proves that there is none (Fulkerson 1974; Schrijver, chapter 52). There are at most 2,000 vertices and 20,000 arcs, each with a cost
/// from 0 to 10^12; there are at most twice as many sets as vertices, the sets hold vertices, and their weights are at least -10^30 and at
/// most 10^30. The time is that of the arcs once for each set, and of the arborescence once for each vertex. The only error is want of memory.
pub fn right_cuts(
    alloc: Global,
    vertices: u32,
    arcs: &Pairs,
    costs: &[i128],
    root: u32,
    cuts: &Cuts,
) -> Result<bool, AllocError>
    requires few { vertices ≤ vertex_bound }
    requires root { root < vertices }
    requires graph { IsGraph vertices arcs.now }
    requires many { length arcs.now ≤ arc_bound }
    requires costs { length costs.now ≡ length arcs.now }
    requires range { All IsCost costs.now }
    requires cuts { AreInRange vertices (length arcs.now) cuts.now }
    ensures { IfOk result (λ right. IsTrue right ↔ AreRight vertices arcs.now costs.now root cuts.now) }
{
    let ends = arcs.as_slice();
    match cuts {
        Cuts::Tree { arcs: tree, cuts } => {
            are_right_cuts(alloc, vertices, ends, costs, root, tree, cuts)
        }
        Cuts::Unreached(set) => is_unreached(alloc, vertices, ends, root, set),
    }
}
