//! Families of sets: how often elements stand in them, and whether the sets are independent.

ghost use Rattle.std.specs.Prelude.{◌≡◌, ◌≤◌, ◌∷◌, [], nat_le, nat_lt, IfOk};
ghost use Rattle.mat_sets.specs.{Families.{indicator, multiplicity}, Sets.{AllBelow, is_member}};
ghost use Rattle.mat_check.specs.{Clauses.{first_failure}, SetClauses.{independent_clause, missed_clauses, overlap_clauses}};

use crate::reason::{Failure, Reason};
use mat_laws::Matroid;
use mat_sets::ElemSet;
use std::alloc::{AllocError, Global};

// 1 where an element stands in a set, and 0 where it does not.
fn indicator(set: &ElemSet, e: u32) -> usize
    ensures is { result ≡ indicator (is_member e set.now) }
    ensures small { result ≤ 1 }
{
    if set.contains(e) { 1 } else { 0 }
}

/// In how many of the sets an element stands.
pub(crate) fn multiplicity(sets: &[ElemSet], e: u32) -> usize
    ensures { result ≡ multiplicity e sets.now }
{
    let mut count = 0;
    for i in 0..sets.len() {
        count += indicator(&sets[i], e);
    }
    count
}

// Whether an element stands in at most one of the sets.
fn is_apart(sets: &[ElemSet], e: u32) -> bool
    ensures { result ≡ nat_le (multiplicity e sets.now) 1 }
{
    multiplicity(sets, e) <= 1
}

// Whether an element stands in some of the sets.
fn is_covered(sets: &[ElemSet], e: u32) -> bool
    ensures { result ≡ nat_lt 0 (multiplicity e sets.now) }
{
    multiplicity(sets, e) > 0
}

/// The first of the elements below n that stands in two of the sets, as the failure that it is.
pub(crate) fn overlap_failure(n: u32, sets: &[ElemSet]) -> Option<Failure>
    ensures { result ≡ first_failure (overlap_clauses n sets.now) }
{
    for e in 0..n {
        if !is_apart(sets, e) {
            return Some(Reason::Overlap.at(e, 0));
        }
    }
    None
}

/// The first of the elements below n that stands in none of the sets, as the failure that it is.
pub(crate) fn missed_failure(n: u32, sets: &[ElemSet]) -> Option<Failure>
    ensures { result ≡ first_failure (missed_clauses n sets.now) }
{
    for e in 0..n {
        if !is_covered(sets, e) {
            return Some(Reason::Missed.at(e, 0));
        }
    }
    None
}

/// The clause that set i is independent, where it fails. The only error is want of memory.
pub(crate) fn dependent_failure<M: Matroid>(
    alloc: Global,
    m: &M,
    i: u32,
    set: &ElemSet,
) -> Result<Option<Failure>, AllocError>
    requires sound { M.sound m.now }
    requires below { AllBelow (M.ground_size m.now) set.now }
    ensures { IfOk result (λ found. found ≡ first_failure (independent_clause (M.indep m.now) i set.now ∷ [])) }
{
    if !m.independent(alloc, set)? {
        return Ok(Some(Reason::Dependent.at(i, 0)));
    }
    Ok(None)
}
