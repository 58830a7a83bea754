//! The reasons of answers about the sets of one matroid: bases without a common element, and sets that hold all elements.

ghost use Rattle.std.specs.Prelude.{◌≡◌, ◌<◌, ◌∷◌, [], length, IfOk, IfSome};
ghost use Rattle.mat_sets.specs.Sets.{all_below, AllBelow};
ghost use Rattle.mat_laws.specs.Ranks.{rank};
ghost use Rattle.mat_union.specs.Unions.{part_at};
ghost use Rattle.mat_facts.specs.{Facts.{allowed, at_most, full}, Reasons.{cover_facts}, Views.{facts_of}};

use crate::fact::Fact;
use crate::ladders::put_most;
use crate::sizes::put;
use mat_laws::Matroid;
use mat_sets::{ElemSet, SetList};
use std::alloc::{AllocError, Global};

/// The fact that the rule allows none of so many elements. The only error is want of memory.
pub(crate) fn no_rank_reason<'a>(alloc: Global, count: u32) -> Result<Vec<Fact<'a>>, AllocError>
    ensures { IfOk result (λ facts. facts_of facts.items ≡ at_most 0 (all_below count) 0 ∷ []) }
{
    let elements = ElemSet::all_below(alloc, count)?;
    let mut facts = Vec::new(alloc);
    put(
        &mut facts,
        Fact::AtMost {
            rule: 0,
            elements,
            most: 0,
        },
    )?;
    Ok(facts)
}

/// The facts that bases without a common element give, with a cut. The only error is want of memory.
pub(crate) fn pack_reason<'a, M: Matroid>(
    alloc: Global,
    m: &M,
    bases: &'a SetList,
    cut: &ElemSet,
) -> Result<Vec<Fact<'a>>, AllocError>
    requires sound { M.sound m.now }
    requires some { 0 < length bases.now }
    requires below { AllBelow (M.ground_size m.now) cut.now }
    ensures { IfOk result (λ facts. facts_of facts.items
        ≡ allowed ∷ at_most 0 cut.now (rank (M.indep m.now) cut.now) ∷ full (part_at bases.now 0) ∷ []) }
{
    let mut facts = Vec::new(alloc);
    put(&mut facts, Fact::Allowed)?;
    put_most(alloc, &mut facts, 0, m, cut)?;
    put(&mut facts, Fact::Full { set: bases.get(0) })?;
    Ok(facts)
}

/// The facts that an element gives that the rule does not allow, not even alone. The only error is want of memory.
pub(crate) fn loop_reason<'a>(alloc: Global, loop_at: u32) -> Result<Vec<Fact<'a>>, AllocError>
    ensures { IfOk result (λ facts. facts_of facts.items ≡ allowed ∷ at_most 0 (loop_at ∷ []) 0 ∷ []) }
{
    let mut elements = ElemSet::new(alloc);
    elements.add(loop_at)?;
    let mut facts = Vec::new(alloc);
    put(&mut facts, Fact::Allowed)?;
    put(
        &mut facts,
        Fact::AtMost {
            rule: 0,
            elements,
            most: 0,
        },
    )?;
    Ok(facts)
}

/// The facts that sets give that hold all elements, with a cut where there is one. The only error is want of memory.
pub(crate) fn cover_reason<'a, M: Matroid>(
    alloc: Global,
    m: &M,
    cut: &Option<ElemSet>,
) -> Result<Vec<Fact<'a>>, AllocError>
    requires sound { M.sound m.now }
    requires below { IfSome cut.now (AllBelow (M.ground_size m.now)) }
    ensures { IfOk result (λ facts. facts_of facts.items ≡ allowed ∷ cover_facts (M.indep m.now) cut.now) }
{
    let mut facts = Vec::new(alloc);
    put(&mut facts, Fact::Allowed)?;
    if let Some(cut) = cut {
        put_most(alloc, &mut facts, 0, m, cut)?;
    }
    Ok(facts)
}

/// The one fact that the answer is of the kind that was asked for. The only error is want of memory.
pub(crate) fn kind_reason<'a>(alloc: Global) -> Result<Vec<Fact<'a>>, AllocError>
    ensures { IfOk result (λ facts. facts_of facts.items ≡ allowed ∷ []) }
{
    let mut facts = Vec::new(alloc);
    put(&mut facts, Fact::Allowed)?;
    Ok(facts)
}
