//! The difference and the union of two sets, and whether one lies in the other or shares no member with it, each by one walk
//! along both.
ghost use Rattle.std.specs.Prelude.{◌≡◌, ◌↔◌, ℕ, ◌<◌, ◌≤◌, [], length, slice_index, IfOk, IsTrue};
ghost use Rattle.mat_sets.specs.Sets.{intersection, is_member, minus, union, IsRising, IsSubset};

use std::alloc::{AllocError, Global};

// The first place at or after `from` whose item is not below x.
fn advance(items: &[u32], from: usize, x: u32) -> usize
    requires start { from ≤ length items.now }
    requires low { (k : ℕ) → k < from → slice_index items.now k < x }
    ensures inside { result ≤ length items.now }
    ensures low { (k : ℕ) → k < result → slice_index items.now k < x }
    ensures stop { result < length items.now → x ≤ slice_index items.now result }
{
    let mut at = from;
    while at < items.len() && items[at] < x {
        at += 1;
    }
    at
}

// Whether x stands at its place `at`.
#[tactic(auto, using(crate::proofs::Places::merging))]
fn stands_at(items: &[u32], at: usize, x: u32) -> bool
    requires rises { IsRising items.now }
    requires low { (k : ℕ) → k < at → slice_index items.now k < x }
    requires stop { at < length items.now → x ≤ slice_index items.now at }
    ensures { result ≡ is_member x items.now }
{
    at < items.len() && items[at] == x
}

/// The items of a that are not in b. The time is linear in both lengths. The only error is want of memory.
#[tactic(auto, using(crate::proofs::Places::merging))]
pub(crate) fn difference(alloc: Global, a: &[u32], b: &[u32]) -> Result<Vec<u32>, AllocError>
    requires a_rises { IsRising a.now }
    requires b_rises { IsRising b.now }
    ensures { IfOk result (λ v. v.items ≡ minus a.now b.now) }
{
    let mut kept = Vec::with_capacity(alloc, a.len())?;
    let mut j = 0;
    for x in a {
        j = advance(b, j, *x);
        if !stands_at(b, j, *x) {
            kept.push(*x)?;
        }
    }
    Ok(kept)
}

/// The items of a and those of b, each once, in rising order. The time is linear in both lengths. The only error is
/// want of memory.
pub(crate) fn merged(alloc: Global, a: &[u32], b: &[u32]) -> Result<Vec<u32>, AllocError>
    requires a_rises { IsRising a.now }
    requires b_rises { IsRising b.now }
    ensures { IfOk result (λ v. v.items ≡ union a.now b.now) }
{
    let mut all = Vec::with_capacity(alloc, a.len().saturating_add(b.len()))?;
    let mut i = 0;
    let mut j = 0;
    while i < a.len() && j < b.len() {
        let x = a[i];
        let y = b[j];
        if x <= y {
            all.push(x)?;
            i += 1;
            if x == y {
                j += 1;
            }
        } else {
            all.push(y)?;
            j += 1;
        }
    }
    all.extend_from_slice(&a[i..])?;
    all.extend_from_slice(&b[j..])?;
    Ok(all)
}

/// Whether each item of a is one of b. The time is linear in both lengths.
#[tactic(auto, using(crate::proofs::Places::merging, crate::proofs::Steps::set_steps))]
pub(crate) fn is_subset(a: &[u32], b: &[u32]) -> bool
    requires a_rises { IsRising a.now }
    requires b_rises { IsRising b.now }
    ensures { IsTrue result ↔ IsSubset a.now b.now }
{
    let mut j = 0;
    for x in a {
        j = advance(b, j, *x);
        if !stands_at(b, j, *x) {
            return false;
        }
    }
    true
}

/// Whether a and b share no item. The time is linear in both lengths.
#[tactic(auto, using(crate::proofs::Places::merging, crate::proofs::Steps::set_steps))]
pub(crate) fn is_disjoint(a: &[u32], b: &[u32]) -> bool
    requires a_rises { IsRising a.now }
    requires b_rises { IsRising b.now }
    ensures { IsTrue result ↔ (intersection a.now b.now ≡ []) }
{
    let mut j = 0;
    for x in a {
        j = advance(b, j, *x);
        if stands_at(b, j, *x) {
            return false;
        }
    }
    true
}
