//! A rooted forest with one edge more: the tree of one end of the edge is hung below the other end.
ghost use Rattle.std.specs.Prelude.{◌≡◌, ◌<◌, ◌==◌, ◌||◌, ℕ, List, [], length, slice_index, true, IfOk, IfSome, OnOk};
ghost use Rattle.mat_sets.specs.Sets.{is_member};
ghost use Rattle.mat_graphic.specs.{
  Hanging.{AreFlags, IsCopied, IsHung, IsNewEdge, IsTurned},
  RootedForests.{IsRootedForest},
  TrailSearches.{IsOrder},
};

use crate::rooted_forest::{RootedForest, begin, place_of, root_above, visit};
use std::alloc::{AllocError, Global};

/// The only member of `next` that is not one of `base`, if it has all of these and one more.
pub(crate) fn new_member(base: &[u32], next: &[u32]) -> Option<u32>
    ensures { IfSome result (λ e. (z : ℕ) → is_member z next.now ≡ (z == e || is_member z base.now)) }
{
    if next.len() != base.len() + 1 {
        return None;
    }
    let mut at = 0;
    while at < base.len() && base[at] == next[at] {
        at += 1;
    }
    for i in at..base.len() {
        if base[i] != next[i + 1] {
            return None;
        }
    }
    Some(next[at])
}

// For each place whether it lies in the tree with this root.
fn tree_of(alloc: Global, forest: &RootedForest, root: usize) -> Result<Vec<bool>, AllocError>
    requires order { IsOrder forest.now.place.items forest.now.order.items forest.now.through.items forest.now.before.items }
    ensures { IfOk result (λ inside. AreFlags forest.now.before.items root inside.items) }
{
    let mut inside = Vec::with_capacity(alloc, forest.before.len())?;
    for at in 0..forest.before.len() {
        let before = forest.before[at];
        if before == at {
            inside.push(at == root)?;
        } else {
            inside.push(inside[before])?;
        }
    }
    Ok(inside)
}

// Finds the vertices outside a tree, in their order.
fn copy_outside(
    new: &mut RootedForest,
    forest: &RootedForest,
    root: usize,
    inside: &[bool],
) -> Result<(), AllocError>
    requires order { IsOrder forest.now.place.items forest.now.order.items forest.now.through.items forest.now.before.items }
    requires flags { AreFlags forest.now.before.items root inside.now }
    requires begun { IsOrder new.old.place.items new.old.order.items new.old.through.items new.old.before.items }
    requires empty { new.old.order.items ≡ [] }
    requires vertices { length new.old.place.items ≡ length forest.now.place.items }
    ensures { OnOk result (IsCopied forest.now inside.now (length forest.now.order.items) new.new) }
{
    for at in 0..forest.order.len() {
        if !inside[at] {
            let vertex = forest.order[at];
            let before = forest.before[at];
            if before == at {
                let last = new.order.len();
                visit(new, vertex, 0, last)?;
            } else {
                let below = place_of(new, forest.order[before]);
                visit(new, vertex, forest.through[at], below)?;
            }
        }
    }
    Ok(())
}

// Finds the vertices on the way from one to its root, the first of them from a vertex that was found, through a new edge, and each other one
// through the edge that led up to it. False if the way does not end at this root.
fn turn_way(
    new: &mut RootedForest,
    forest: &RootedForest,
    root: usize,
    edge: u32,
    first: u32,
    second: u32,
) -> Result<bool, AllocError>
    requires order { IsOrder forest.now.place.items forest.now.order.items forest.now.through.items forest.now.before.items }
    requires begun { IsOrder new.old.place.items new.old.order.items new.old.through.items new.old.before.items }
    requires vertices { length new.old.place.items ≡ length forest.now.place.items }
    requires first { is_member first new.old.order.items ≡ true }
    requires second { is_member second forest.now.order.items ≡ true }
    ensures { IfOk result (λ ends_there. IsTurned forest.now root edge first second new.old ends_there new.new) }
{
    let mut at = place_of(forest, second);
    let mut through = edge;
    let mut below = first;
    loop {
        let vertex = forest.order[at];
        let place = place_of(new, below);
        visit(new, vertex, through, place)?;
        let before = forest.before[at];
        if before == at {
            return Ok(at == root);
        }
        through = forest.through[at];
        below = vertex;
        at = before;
    }
}

// Finds all other vertices, each from the one before it, if all roots were found.
fn visit_rest(new: &mut RootedForest, forest: &RootedForest) -> Result<(), AllocError>
    requires order { IsOrder forest.now.place.items forest.now.order.items forest.now.through.items forest.now.before.items }
    requires begun { IsOrder new.old.place.items new.old.order.items new.old.through.items new.old.before.items }
    requires vertices { length new.old.place.items ≡ length forest.now.place.items }
    requires roots { (k : ℕ) → k < length forest.now.order.items → slice_index forest.now.before.items k ≡ k
        → is_member (slice_index forest.now.order.items k) new.old.order.items ≡ true }
    ensures { OnOk result (IsHung forest.now new.old (length forest.now.order.items) new.new) }
{
    for at in 0..forest.order.len() {
        let before = forest.before[at];
        if before != at {
            let below = place_of(new, forest.order[before]);
            visit(new, forest.order[at], forest.through[at], below)?;
        }
    }
    Ok(())
}

/// A forest with one edge more, which joins two of its trees: the vertices outside the tree of its second end stay in their order; then come those
/// on the way from this end to its root, and then the others of its tree. None if both ends are in one tree. The time is linear in the number
/// of vertices. The only error is want of memory.
pub(crate) fn with_edge(
    alloc: Global,
    forest: &RootedForest,
    vertices: u32,
    edge: u32,
    first: u32,
    second: u32,
) -> Result<Option<RootedForest>, AllocError>
    requires order { IsOrder forest.now.place.items forest.now.order.items forest.now.through.items forest.now.before.items }
    requires long { length forest.now.place.items ≡ vertices }
    requires first { is_member first forest.now.order.items ≡ true }
    requires second { is_member second forest.now.order.items ≡ true }
    ensures { IfOk result (λ found. IfSome found (λ new. (ends : ℕ → ℕ × ℕ) (X Y : List ℕ) → IsNewEdge ends edge first second X Y
        → IsRootedForest vertices ends X forest.now → IsRootedForest vertices ends Y new)) }
{
    let root = root_above(forest, place_of(forest, second));
    let inside = tree_of(alloc, forest, root)?;
    if inside[place_of(forest, first)] {
        return Ok(None);
    }
    let mut new = begin(alloc, vertices)?;
    copy_outside(&mut new, forest, root, &inside)?;
    if !turn_way(&mut new, forest, root, edge, first, second)? {
        return Ok(None);
    }
    visit_rest(&mut new, forest)?;
    Ok(Some(new))
}
