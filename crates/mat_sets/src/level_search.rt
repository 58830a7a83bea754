//! The search for a shortest walk, round by round: breadth-first search.
ghost use Rattle.std.specs.Prelude.{◌≡◌, ◌<◌, ◌&&◌, ◌^◌, ℕ, true, false, not, length, slice_index, IfOk, OnOk, MatchOption, nat_lt};
ghost use Rattle.mat_sets.specs.{Rounds.{AreTaken, IsRound, IsTrace}, Search.{those_below}, Sets.{is_member}, WalkSearches.{IsWalkSearch}};

use crate::bit_set::BitSet;
use crate::elem_set::ElemSet;
use crate::relation::Relation;
use crate::walk_search::WalkSearch;
use std::alloc::{AllocError, Global};

/// A walk from a start to a goal with fewest vertices, or the set of all vertices that the starts reach, by breadth-first
/// search (Schrijver, chapter 6). Each reached vertex is asked once for its arcs to unreached vertices. The only error is
/// want of memory.
pub fn shortest_walk<R: Relation>(alloc: Global, relation: &R) -> Result<WalkSearch, AllocError>
    requires { R.sound relation.now }
    ensures { IfOk result (IsWalkSearch (R.count relation.now) (R.arc relation.now) (R.start relation.now) (R.goal relation.now)) }
{
    let size = relation.size();
    let mut unreached = BitSet::all_below(alloc, size)?;
    let mut frontier = starts(alloc, relation, &mut unreached)?;
    let mut before = vec![in alloc; 0u32; size as usize]?;
    let mut arcs = 0;
    'rounds: loop {
        if let Some(goal) = goal_among(relation, &frontier) {
            return Ok(WalkSearch::Walk(trace(alloc, &before, arcs, goal)?));
        }
        let found = round(alloc, relation, &frontier, &mut unreached, &mut before)?;
        if found.is_empty() {
            return Ok(WalkSearch::Reached(others(alloc, size, &unreached)?));
        }
        frontier = found;
        arcs += 1;
    }
}

/// The starts, which are taken out of the unreached vertices.
fn starts<R: Relation>(
    alloc: Global,
    relation: &R,
    unreached: &mut BitSet,
) -> Result<Vec<u32>, AllocError>
    requires { R.sound relation.now }
    ensures found { IfOk result (λ found. (v : ℕ) → is_member v found.items ≡ (nat_lt v (R.count relation.now) && R.start relation.now v)) }
    ensures rest { OnOk result ((v : ℕ) → is_member v unreached.new ≡ (is_member v unreached.old && not (nat_lt v (R.count relation.now) && R.start relation.now v))) }
{
    let mut found = Vec::new(alloc);
    for v in 0..relation.size() {
        if relation.is_start(v) {
            found.push(v)?;
            unreached.remove(v);
        }
    }
    Ok(found)
}

/// The first of these vertices that is a goal.
fn goal_among<R: Relation>(relation: &R, vertices: &[u32]) -> Option<u32>
    requires sound { R.sound relation.now }
    requires below { (v : ℕ) → is_member v vertices.now ≡ true → v < R.count relation.now }
    ensures { MatchOption result ((v : ℕ) → is_member v vertices.now ≡ true → R.goal relation.now v ≡ false) (λ v. (is_member v vertices.now ≡ true) × (R.goal relation.now v ≡ true)) }
{
    for v in vertices {
        if relation.is_goal(*v) {
            return Some(*v);
        }
    }
    None
}

/// The unreached vertices to which arcs lead from these vertices. Each is then reached, and gets one of these before it.
fn round<R: Relation>(
    alloc: Global,
    relation: &R,
    frontier: &[u32],
    unreached: &mut BitSet,
    before: &mut Vec<u32>,
) -> Result<Vec<u32>, AllocError>
    requires sound { R.sound relation.now }
    requires few { R.count relation.now < 2 ^ 32 }
    requires frontier { (v : ℕ) → is_member v frontier.now ≡ true → v < R.count relation.now }
    requires unreached { (v : ℕ) → is_member v unreached.old ≡ true → v < R.count relation.now }
    requires long { length before.old.items ≡ R.count relation.now }
    ensures { IfOk result (λ found. IsRound (R.arc relation.now) frontier.now unreached.old before.old.items unreached.new found.items before.new.items) }
{
    let mut found = Vec::new(alloc);
    for u in frontier {
        take_arcs(relation, *u, unreached, before, &mut found)?;
    }
    Ok(found)
}

/// Finds the unreached vertices to which arcs lead from u. Each is then reached, and gets u before it.
fn take_arcs<R: Relation>(
    relation: &R,
    u: u32,
    unreached: &mut BitSet,
    before: &mut Vec<u32>,
    found: &mut Vec<u32>,
) -> Result<(), AllocError>
    requires sound { R.sound relation.now }
    requires few { R.count relation.now < 2 ^ 32 }
    requires below { u < R.count relation.now }
    requires unreached { (v : ℕ) → is_member v unreached.old ≡ true → v < R.count relation.now }
    requires long { length before.old.items ≡ R.count relation.now }
    ensures { OnOk result (AreTaken (R.arc relation.now u) u unreached.old found.old.items before.old.items unreached.new found.new.items before.new.items) }
{
    let mut from = 0;
    while let Some(next) = relation.next_arc(u, unreached, from) {
        found.push(next)?;
        unreached.remove(next);
        before[next as usize] = u;
        from = next + 1;
    }
    Ok(())
}

/// The walk to a vertex, by the vertex before each.
fn trace(alloc: Global, before: &[u32], arcs: u32, last: u32) -> Result<Vec<u32>, AllocError>
    requires inside { (v : ℕ) → v < length before.now → slice_index before.now v < length before.now }
    requires last { last < length before.now }
    ensures { IfOk result (λ vertices. IsTrace before.now arcs last vertices.items) }
{
    let mut vertices = vec![in alloc; last; arcs as usize + 1]?;
    let mut at = arcs as usize;
    while at > 0 {
        vertices[at - 1] = before[vertices[at] as usize];
        at -= 1;
    }
    Ok(vertices)
}

/// The numbers below n that are not in the set.
fn others(alloc: Global, n: u32, set: &BitSet) -> Result<ElemSet, AllocError>
    ensures { IfOk result (λ s. s ≡ those_below n (λ v. not (is_member v set.now))) }
{
    let mut outside = ElemSet::new(alloc);
    for v in 0..n {
        if !set.contains(v) {
            outside.add(v)?;
        }
    }
    Ok(outside)
}
