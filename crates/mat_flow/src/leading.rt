//! The vertices from which a walk leads to a goal (Schrijver, chapter 6).
ghost use Rattle.std.specs.Prelude.{◌≡◌, ◌<◌, ℕ, true, IfOk};
ghost use Rattle.mat_sets.specs.{Search.{those_below}, Sets.{is_member}};
ghost use Rattle.mat_flow.specs.Leading.{AreLedFrom, AreLeading, IsLed};

use crate::search_graph::SearchGraph;
use mat_sets::BitSet;
use std::alloc::{AllocError, Global};

// Whether a vertex is not among these and an arc leads from it to one of them.
fn is_led<R: SearchGraph>(relation: &R, u: u32, leading: &BitSet) -> bool
    requires sound { R.sound relation.now }
    requires below { u < R.count relation.now }
    requires inside { (v : ℕ) → is_member v leading.now ≡ true → v < R.count relation.now }
    ensures { IsLed (R.arc relation.now) u leading.now result }
{
    if leading.contains(u) {
        return false;
    }
    relation.next_arc(u, leading, 0).is_some()
}

// Puts in the vertices from which an arc leads to one of these, and tells whether one came.
fn put_led<R: SearchGraph>(
    relation: &R,
    count: u32,
    leading: &mut BitSet,
) -> Result<bool, AllocError>
    requires sound { R.sound relation.now }
    requires count { R.count relation.now ≡ count }
    requires inside { (v : ℕ) → is_member v leading.old ≡ true → v < count }
    ensures { IfOk result (λ came. AreLedFrom count (R.arc relation.now) count leading.old leading.new came) }
{
    let mut came = false;
    for u in 0..count {
        if is_led(relation, u, leading) {
            leading.insert(u)?;
            came = true;
        }
    }
    Ok(came)
}

// The goals.
fn goals<R: SearchGraph>(alloc: Global, relation: &R, count: u32) -> Result<BitSet, AllocError>
    requires sound { R.sound relation.now }
    requires count { R.count relation.now ≡ count }
    ensures { IfOk result (λ found. found ≡ those_below count (R.goal relation.now)) }
{
    let mut found = BitSet::with_capacity(alloc, count)?;
    for v in 0..count {
        if relation.is_goal(v) {
            found.insert(v)?;
        }
    }
    Ok(found)
}

/// The vertices from which a walk leads to a goal. In each round those come from which an arc leads to one that is in, up to the
/// round in which none comes. The only error is want of memory.
pub fn leading_vertices<R: SearchGraph>(
    alloc: Global,
    relation: &R,
    count: u32,
) -> Result<BitSet, AllocError>
    requires sound { R.sound relation.now }
    requires count { R.count relation.now ≡ count }
    ensures { IfOk result (λ leading. AreLeading count (R.arc relation.now) (R.goal relation.now) leading) }
{
    let mut leading = goals(alloc, relation, count)?;
    for _ in 0..count {
        if !put_led(relation, count, &mut leading)? {
            return Ok(leading);
        }
    }
    Ok(leading)
}
