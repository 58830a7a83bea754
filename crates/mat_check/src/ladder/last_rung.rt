//! The clauses at the end of all rungs.

ghost use Rattle.std.specs.Prelude.{◌≡◌, ◌+◌, ◌==◌, IfOk, slice_get};
ghost use Rattle.mat_sets.specs.Sets.{all_below, minus, AllBelow};
ghost use Rattle.mat_laws.specs.Ranks.{rank};
ghost use Rattle.mat_cert.specs.Certificates.{AreRangedRungs, IsRangedPlainRung, last_rung};
ghost use Rattle.mat_check.specs.Clauses.{first_failure, last_clause};

use crate::reason::{Failure, Reason};
use crate::sets::searches::has_addable;
use mat_cert::PlainRung;
use mat_laws::{Matroid, rank_of};
use mat_sets::ElemSet;
use std::alloc::{AllocError, Global};

/// Whether the ranks of the cut in the second matroid and of its complement in the first add up to the size of the last rung. The only
/// error is want of memory.
pub(crate) fn cut_holds<A: Matroid, B: Matroid>(
    alloc: Global,
    a: &A,
    b: &B,
    last: usize,
    cut: &ElemSet,
) -> Result<bool, AllocError>
    requires first_sound { A.sound a.now }
    requires second_sound { B.sound b.now }
    requires below { AllBelow (B.ground_size b.now) cut.now }
    ensures { IfOk result (λ holds. holds
        ≡ (rank (A.indep a.now) (minus (all_below (A.ground_size a.now)) cut.now) + rank (B.indep b.now) cut.now == last)) }
{
    let rest = ElemSet::all_below(alloc, a.size())?.minus(alloc, cut)?;
    let first = rank_of(alloc, a, &rest)?;
    let second = rank_of(alloc, b, cut)?;
    Ok(first as usize + second as usize == last)
}

/// The clause of the last rung of a matroid, where it fails. The only error is want of memory.
pub(crate) fn last_failure<M: Matroid>(
    alloc: Global,
    m: &M,
    rungs: &[PlainRung],
) -> Result<Option<Failure>, AllocError>
    requires sound { M.sound m.now }
    requires ranged { AreRangedRungs (IsRangedPlainRung (M.ground_size m.now)) (M.ground_size m.now) rungs.now }
    ensures { IfOk result (λ found. found
        ≡ first_failure (last_clause (M.ground_size m.now) (M.indep m.now) (last_rung rungs.now) (slice_get rungs.now (last_rung rungs.now)))) }
{
    let last = rungs.len() - 1;
    if has_addable(alloc, m, &rungs[last].set)? {
        return Ok(Some(Reason::Short.at(last as u32, 0)));
    }
    Ok(None)
}
