//! The clauses of coverings by independent sets.

ghost use Rattle.std.specs.Prelude.{◌≡◌, ◌≤◌, ◌<◌, ◌-◌, ◌*◌, ◌∷◌, [], All, length, nat_lt, IfOk};
ghost use Rattle.mat_sets.specs.{Limits.{most_elements}, Sets.{IsSet}};
ghost use Rattle.mat_laws.specs.Ranks.{rank};
ghost use Rattle.mat_cert.specs.Certificates.{IsRangedCover, IsRangedOption};
ghost use Rattle.mat_check.specs.{
  Clauses.{first_failure, numbered_clauses},
  SetClauses.{cover_clauses, cover_cut_clauses, independent_clause, loop_clause},
};

use crate::reason::{Failure, Reason};
use crate::sets::families::{dependent_failure, missed_failure};
use mat_laws::{Matroid, is_loop, rank_of};
use mat_sets::ElemSet;
use std::alloc::{AllocError, Global};

/// The clause that an element is dependent alone, where it fails: one question of independence. The only error is want of memory.
pub(crate) fn loop_failure<M: Matroid>(
    alloc: Global,
    m: &M,
    x: u32,
) -> Result<Option<Failure>, AllocError>
    requires sound { M.sound m.now }
    requires below { x < M.ground_size m.now }
    ensures { IfOk result (λ found. found ≡ first_failure (loop_clause (M.indep m.now) x ∷ [])) }
{
    if is_loop(alloc, m, x)? {
        return Ok(None);
    }
    Ok(Some(Reason::Claim.at(0, 0)))
}

// The first set that is dependent, as the failure that it is.
fn sets_failure<M: Matroid>(
    alloc: Global,
    m: &M,
    sets: &[ElemSet],
) -> Result<Option<Failure>, AllocError>
    requires sound { M.sound m.now }
    requires few { length sets.now ≤ most_elements }
    requires sets { All (IsSet (M.ground_size m.now)) sets.now }
    ensures { IfOk result (λ found. found
        ≡ first_failure (numbered_clauses (λ i set. independent_clause (M.indep m.now) i set ∷ []) 0 sets.now)) }
{
    for i in 0..sets.len() {
        if let Some(failure) = dependent_failure(alloc, m, i as u32, &sets[i])? {
            return Ok(Some(failure));
        }
    }
    Ok(None)
}

// Whether one set fewer, each with as many members as the rank, has no room for so many elements.
fn has_no_room(sets: usize, rank: u32, elements: usize) -> bool
    requires { sets ≤ most_elements }
    ensures { result ≡ nat_lt ((sets - 1) * rank) elements }
{
    (sets.saturating_sub(1) as u64) * u64::from(rank) < elements as u64
}

// The clause of the cut, where there is one and it fails.
fn cover_cut_failure<M: Matroid>(
    alloc: Global,
    m: &M,
    sets: usize,
    cut: &Option<ElemSet>,
) -> Result<Option<Failure>, AllocError>
    requires sound { M.sound m.now }
    requires few { sets ≤ most_elements }
    requires ranged { IsRangedOption (M.ground_size m.now) (nat_lt 0 sets) cut.now }
    ensures { IfOk result (λ found. found ≡ first_failure (cover_cut_clauses (M.indep m.now) sets cut.now)) }
{
    match cut {
        Some(within) => {
            let rank = rank_of(alloc, m, within)?;
            if !has_no_room(sets, rank, within.len()) {
                return Ok(Some(Reason::Cut.at(0, 0)));
            }
            Ok(None)
        }
        None => Ok(None),
    }
}

/// The first clause of independent sets that cover the elements that fails: for each set one question of independence, and a rank. The
/// only error is want of memory.
pub(crate) fn cover_failure<M: Matroid>(
    alloc: Global,
    m: &M,
    sets: &[ElemSet],
    cut: &Option<ElemSet>,
) -> Result<Option<Failure>, AllocError>
    requires sound { M.sound m.now }
    requires ranged { IsRangedCover (M.ground_size m.now) sets.now cut.now }
    ensures { IfOk result (λ found. found ≡ first_failure (cover_clauses (M.ground_size m.now) (M.indep m.now) sets.now cut.now)) }
{
    if let Some(failure) = sets_failure(alloc, m, sets)? {
        return Ok(Some(failure));
    }
    if let Some(failure) = missed_failure(m.size(), sets) {
        return Ok(Some(failure));
    }
    cover_cut_failure(alloc, m, sets.len(), cut)
}
