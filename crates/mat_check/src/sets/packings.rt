//! The clauses of packings of bases.

ghost use Rattle.std.specs.Prelude.{◌≡◌, ◌≤◌, ◌<◌, ◌+◌, ◌-◌, ◌*◌, ◌∷◌, [], All, length, nat_lt, IfOk};
ghost use Rattle.mat_sets.specs.{Limits.{most_elements}, Sets.{AllBelow, IsSet, all_below, minus}};
ghost use Rattle.mat_laws.specs.Ranks.{rank};
ghost use Rattle.mat_cert.specs.Certificates.{IsRangedPacking};
ghost use Rattle.mat_check.specs.{
  Clauses.{first_failure, numbered_clauses},
  SetClauses.{full_clause, independent_clause, no_rank_clause, pack_clauses},
};

use crate::reason::{Failure, Reason};
use crate::sets::families::overlap_failure;
use crate::sets::searches::has_addable;
use mat_laws::{Matroid, rank_of};
use mat_sets::ElemSet;
use std::alloc::{AllocError, Global};

/// The clause that all elements have rank 0, where it fails. The only error is want of memory.
pub(crate) fn no_rank_failure<M: Matroid>(
    alloc: Global,
    m: &M,
) -> Result<Option<Failure>, AllocError>
    requires sound { M.sound m.now }
    ensures { IfOk result (λ found. found ≡ first_failure (no_rank_clause (M.ground_size m.now) (M.indep m.now) ∷ [])) }
{
    let all = ElemSet::all_below(alloc, m.size())?;
    if rank_of(alloc, m, &all)? != 0 {
        return Ok(Some(Reason::Claim.at(0, 0)));
    }
    Ok(None)
}

// The first clause of set i that fails: it is independent, and no element can be added to it.
fn base_failure<M: Matroid>(
    alloc: Global,
    m: &M,
    i: u32,
    base: &ElemSet,
) -> Result<Option<Failure>, AllocError>
    requires sound { M.sound m.now }
    requires below { AllBelow (M.ground_size m.now) base.now }
    ensures { IfOk result (λ found. found ≡ first_failure (independent_clause (M.indep m.now) i base.now
        ∷ full_clause (M.ground_size m.now) (M.indep m.now) i base.now ∷ [])) }
{
    if !m.independent(alloc, base)? {
        return Ok(Some(Reason::Dependent.at(i, 0)));
    }
    if has_addable(alloc, m, base)? {
        return Ok(Some(Reason::Short.at(i, 0)));
    }
    Ok(None)
}

// The first set that is no base, as the failure that it is.
fn bases_failure<M: Matroid>(
    alloc: Global,
    m: &M,
    bases: &[ElemSet],
) -> Result<Option<Failure>, AllocError>
    requires sound { M.sound m.now }
    requires few { length bases.now ≤ most_elements }
    requires bases { All (IsSet (M.ground_size m.now)) bases.now }
    ensures { IfOk result (λ found. found ≡ first_failure (numbered_clauses (λ i base. independent_clause (M.indep m.now) i base
        ∷ full_clause (M.ground_size m.now) (M.indep m.now) i base ∷ []) 0 bases.now)) }
{
    for i in 0..bases.len() {
        if let Some(failure) = base_failure(alloc, m, i as u32, &bases[i])? {
            return Ok(Some(failure));
        }
    }
    Ok(None)
}

// Whether there are fewer elements than so many bases and one more need, where each needs as many as are missing.
fn are_too_few(elements: usize, bases: usize, missing: u32) -> bool
    requires { bases ≤ most_elements }
    ensures { result ≡ nat_lt elements ((bases + 1) * missing) }
{
    (elements as u64) < (bases as u64 + 1) * u64::from(missing)
}

// Whether fewer elements are outside the cut than one base more would need.
fn cut_shows_most<M: Matroid>(
    alloc: Global,
    m: &M,
    bases: usize,
    cut: &ElemSet,
) -> Result<bool, AllocError>
    requires sound { M.sound m.now }
    requires few { bases ≤ most_elements }
    requires below { AllBelow (M.ground_size m.now) cut.now }
    ensures { IfOk result (λ shows. shows ≡ nat_lt (length (minus (all_below (M.ground_size m.now)) cut.now))
        ((bases + 1) * (rank (M.indep m.now) (all_below (M.ground_size m.now)) - rank (M.indep m.now) cut.now))) }
{
    let all = ElemSet::all_below(alloc, m.size())?;
    let full = rank_of(alloc, m, &all)?;
    let inside = rank_of(alloc, m, cut)?;
    let outside = all.minus(alloc, cut)?;
    Ok(are_too_few(outside.len(), bases, full.saturating_sub(inside)))
}

/// The first clause of disjoint bases that fails: for each base at most one question of independence for each element, and two ranks.
/// The only error is want of memory.
pub(crate) fn pack_failure<M: Matroid>(
    alloc: Global,
    m: &M,
    bases: &[ElemSet],
    cut: &ElemSet,
) -> Result<Option<Failure>, AllocError>
    requires sound { M.sound m.now }
    requires ranged { IsRangedPacking (M.ground_size m.now) bases.now cut.now }
    ensures { IfOk result (λ found. found ≡ first_failure (pack_clauses (M.ground_size m.now) (M.indep m.now) bases.now cut.now)) }
{
    if let Some(failure) = overlap_failure(m.size(), bases) {
        return Ok(Some(failure));
    }
    if let Some(failure) = bases_failure(alloc, m, bases)? {
        return Ok(Some(failure));
    }
    if !cut_shows_most(alloc, m, bases.len(), cut)? {
        return Ok(Some(Reason::Cut.at(0, 0)));
    }
    Ok(None)
}
