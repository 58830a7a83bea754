//! The reasons that answers with a set of each size give.

ghost use Rattle.std.specs.Prelude.{◌≡◌, ◌<◌, ◌^◌, ◌++◌, ◌∷◌, [], All, length, slice_get, IfOk, OnOk};
ghost use Rattle.mat_sets.specs.Sets.{AllBelow};
ghost use Rattle.mat_laws.specs.Ranks.{rank};
ghost use Rattle.mat_any.specs.{Trees.{element_count, is_independent, IsSound}, Views.{tree_of}};
ghost use Rattle.mat_cert.specs.Certificates.{AreRangedRungs, IsRangedLadder, IsRangedPlainRung, last_rung};
ghost use Rattle.mat_facts.specs.{
  Facts.{allowed, at_most},
  Reasons.{cut_facts, ladder_facts, last_facts, sizes_facts, whole_facts},
  Shares.{HasShares},
  Views.{facts_of, is_told},
};

use crate::fact::Fact;
use crate::sizes::{put, put_plain_rungs, put_rungs};
use crate::told::ToldSizes;
use mat_any::AnyMatroid;
use mat_cert::{PlainRung, PricedRung};
use mat_laws::{Matroid, rank_of};
use mat_sets::{ElemSet, Weight};
use std::alloc::{AllocError, Global};

/// Adds that a rule allows few of a set: at most its rank. The only error is want of memory.
pub(crate) fn put_most<'a, M: Matroid>(
    alloc: Global,
    facts: &mut Vec<Fact<'a>>,
    rule: u32,
    m: &M,
    set: &ElemSet,
) -> Result<(), AllocError>
    requires sound { M.sound m.now }
    requires below { AllBelow (M.ground_size m.now) set.now }
    ensures { OnOk result (facts_of facts.new.items ≡ facts_of facts.old.items ++ at_most rule set.now (rank (M.indep m.now) set.now) ∷ []) }
{
    let most = rank_of(alloc, m, set)?;
    let elements = set.copy(alloc)?;
    put(
        facts,
        Fact::AtMost {
            rule,
            elements,
            most,
        },
    )
}

// Adds what two rules allow, the first outside a cut and the second inside.
#[tactic(auto, using(crate::proofs::PutFacts::cut_told))]
fn put_cut<'a, A: Matroid, B: Matroid>(
    alloc: Global,
    facts: &mut Vec<Fact<'a>>,
    a: &A,
    b: &B,
    cut: &ElemSet,
) -> Result<(), AllocError>
    requires first_sound { A.sound a.now }
    requires second_sound { B.sound b.now }
    requires below { AllBelow (B.ground_size b.now) cut.now }
    ensures { OnOk result (facts_of facts.new.items
        ≡ facts_of facts.old.items ++ cut_facts (A.ground_size a.now) (A.indep a.now) (B.indep b.now) cut.now) }
{
    let rest = ElemSet::all_below(alloc, a.size())?.minus(alloc, cut)?;
    put_most(alloc, facts, 0, a, &rest)?;
    put_most(alloc, facts, 1, b, cut)
}

/// The facts that a right ladder of two matroids gives, for the sizes that are told. The only error is want of memory.
#[tactic(auto, using(crate::proofs::PutFacts::whole_ladder))]
pub(crate) fn ladder_reason<'a, A: Matroid, B: Matroid>(
    alloc: Global,
    a: &A,
    b: &B,
    rungs: &'a [PricedRung],
    cut: &ElemSet,
    told: ToldSizes,
) -> Result<Vec<Fact<'a>>, AllocError>
    requires first_sound { A.sound a.now }
    requires second_sound { B.sound b.now }
    requires below { AllBelow (B.ground_size b.now) cut.now }
    requires small { length rungs.now < 2 ^ 32 }
    requires shares { All HasShares rungs.now }
    ensures { IfOk result (λ facts. facts_of facts.items
        ≡ ladder_facts (is_told told) (A.ground_size a.now) (A.indep a.now) (B.indep b.now) rungs.now cut.now) }
{
    let mut facts = Vec::new(alloc);
    put(&mut facts, Fact::Allowed)?;
    put_rungs(alloc, &mut facts, rungs, told)?;
    put_cut(alloc, &mut facts, a, b, cut)?;
    Ok(facts)
}

/// The facts that a right ladder of two matroids of any kind gives, for the sizes that are told. The only error is want of memory.
pub(crate) fn intersect_reason<'a>(
    alloc: Global,
    weights: &[Weight],
    first: &AnyMatroid,
    second: &AnyMatroid,
    rungs: &'a [PricedRung],
    cut: &ElemSet,
    told: ToldSizes,
) -> Result<Vec<Fact<'a>>, AllocError>
    requires first_sound { IsSound (tree_of first.now) }
    requires second_sound { IsSound (tree_of second.now) }
    requires first_size { element_count (tree_of first.now) ≡ length weights.now }
    requires second_size { element_count (tree_of second.now) ≡ length weights.now }
    requires ranged { IsRangedLadder (length weights.now) rungs.now cut.now }
    ensures { IfOk result (λ facts. facts_of facts.items ≡ ladder_facts (is_told told) (length weights.now)
        (is_independent (tree_of first.now)) (is_independent (tree_of second.now)) rungs.now cut.now) }
{
    let facts = ladder_reason(alloc, first, second, rungs, cut, told)?;
    Ok(facts)
}

// Adds that to the last set no element can be added.
fn put_last<'a>(facts: &mut Vec<Fact<'a>>, rungs: &'a [PlainRung]) -> Result<(), AllocError>
    requires { 0 < length rungs.now }
    ensures { OnOk result (facts_of facts.new.items ≡ facts_of facts.old.items ++ last_facts (slice_get rungs.now (last_rung rungs.now))) }
{
    let last = rungs.len() - 1;
    put(
        facts,
        Fact::Full {
            set: &rungs[last].set,
        },
    )
}

/// The facts that the right rungs of one matroid give, for the sizes that are told. The only error is want of memory.
#[tactic(auto, using(crate::proofs::PutFacts::whole_rungs))]
pub(crate) fn best_reason<'a>(
    alloc: Global,
    weights: &'a [Weight],
    rungs: &'a [PlainRung],
    told: ToldSizes,
) -> Result<Vec<Fact<'a>>, AllocError>
    requires { AreRangedRungs (IsRangedPlainRung (length weights.now)) (length weights.now) rungs.now }
    ensures { IfOk result (λ facts. facts_of facts.items
        ≡ allowed ∷ sizes_facts (is_told told) (whole_facts weights.now) 0 rungs.now ++ last_facts (slice_get rungs.now (last_rung rungs.now))) }
{
    let mut facts = Vec::new(alloc);
    put(&mut facts, Fact::Allowed)?;
    put_plain_rungs(alloc, &mut facts, weights, rungs, told)?;
    put_last(&mut facts, rungs)?;
    Ok(facts)
}
