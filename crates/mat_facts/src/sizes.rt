//! Why no set of a size weighs more, for the sizes that are told.

ghost use Rattle.std.specs.Prelude.{◌≡◌, ◌<◌, ◌^◌, ◌++◌, ◌∷◌, [], if◌then◌else◌, All, length, OnOk};
ghost use Rattle.mat_sets.specs.{Sets.{AllBelow}, Weights.{weight_at}};
ghost use Rattle.mat_facts.specs.{
  Facts.{few_above},
  Reasons.{rung_facts, size_facts, sizes_facts, whole_facts},
  Shares.{HasShares},
  Terms.{falling_terms},
  Views.{fact_of, facts_of, is_told},
};

use crate::fact::Fact;
use crate::terms::terms_of;
use crate::told::ToldSizes;
use mat_cert::{PlainRung, PricedRung};
use mat_sets::{ElemSet, Weight};
use std::alloc::{AllocError, Global};

/// Adds a fact. The only error is want of memory.
pub(crate) fn put<'a>(facts: &mut Vec<Fact<'a>>, fact: Fact<'a>) -> Result<(), AllocError>
    ensures { OnOk result (facts_of facts.new.items ≡ facts_of facts.old.items ++ fact_of fact.entry ∷ []) }
{
    facts.push(fact)?;
    Ok(())
}

// Adds what the members of a set have of these shares, from the greatest down: a rule has few above.
fn put_terms<'a>(
    alloc: Global,
    facts: &mut Vec<Fact<'a>>,
    rule: u32,
    shares: &'a [Weight],
    set: &ElemSet,
) -> Result<(), AllocError>
    requires { AllBelow (length shares.now) set.now }
    ensures { OnOk result (facts_of facts.new.items
        ≡ facts_of facts.old.items ++ few_above rule shares.now (falling_terms (weight_at shares.now) set.now) ∷ []) }
{
    let terms = terms_of(alloc, shares, set)?;
    put(
        facts,
        Fact::FewAbove {
            rule,
            shares,
            terms,
        },
    )
}

/// Adds that no set of as many elements weighs more, by two shares. The only error is want of memory.
#[tactic(auto, using(crate::proofs::PutFacts::three_facts))]
pub(crate) fn put_shared<'a>(
    alloc: Global,
    facts: &mut Vec<Fact<'a>>,
    first: &'a [Weight],
    second: &'a [Weight],
    set: &ElemSet,
) -> Result<(), AllocError>
    requires below_first { AllBelow (length first.now) set.now }
    requires below_second { AllBelow (length second.now) set.now }
    ensures { OnOk result (facts_of facts.new.items ≡ facts_of facts.old.items ++ size_facts (first.now ∷ second.now ∷ []) set.now) }
{
    put(facts, Fact::Shared { first, second })?;
    put_terms(alloc, facts, 0, first, set)?;
    put_terms(alloc, facts, 1, second, set)
}

// Adds the same of one rule, by whole weights.
#[tactic(auto, using(crate::proofs::PutFacts::two_facts))]
fn put_whole<'a>(
    alloc: Global,
    facts: &mut Vec<Fact<'a>>,
    weights: &'a [Weight],
    set: &ElemSet,
) -> Result<(), AllocError>
    requires { AllBelow (length weights.now) set.now }
    ensures { OnOk result (facts_of facts.new.items ≡ facts_of facts.old.items ++ size_facts (weights.now ∷ []) set.now) }
{
    put(facts, Fact::Whole { weights })?;
    put_terms(alloc, facts, 0, weights, set)
}

// Adds that no set of a rung's size weighs more, by its split, if the size is told.
fn put_rung_if<'a>(
    alloc: Global,
    facts: &mut Vec<Fact<'a>>,
    rung: &'a PricedRung,
    here: bool,
) -> Result<(), AllocError>
    requires { HasShares rung.now }
    ensures { OnOk result (facts_of facts.new.items ≡ facts_of facts.old.items ++ (if here then rung_facts rung.now else [])) }
{
    if here {
        let first = rung.first.as_slice();
        let second = rung.second.as_slice();
        put_shared(alloc, facts, first, second, &rung.set)?;
    }
    Ok(())
}

/// Adds the facts of the sizes that are told, by the splits of the rungs. The only error is want of memory.
pub(crate) fn put_rungs<'a>(
    alloc: Global,
    facts: &mut Vec<Fact<'a>>,
    rungs: &'a [PricedRung],
    told: ToldSizes,
) -> Result<(), AllocError>
    requires small { length rungs.now < 2 ^ 32 }
    requires shares { All HasShares rungs.now }
    ensures { OnOk result (facts_of facts.new.items ≡ facts_of facts.old.items ++ sizes_facts (is_told told) rung_facts 0 rungs.now) }
{
    for k in 0..rungs.len() {
        put_rung_if(alloc, facts, &rungs[k], told.holds(k))?;
    }
    Ok(())
}

// Adds that no set of a rung's size weighs more, by whole weights, if the size is told.
fn put_plain_if<'a>(
    alloc: Global,
    facts: &mut Vec<Fact<'a>>,
    weights: &'a [Weight],
    rung: &PlainRung,
    here: bool,
) -> Result<(), AllocError>
    requires { AllBelow (length weights.now) rung.now.set }
    ensures { OnOk result (facts_of facts.new.items ≡ facts_of facts.old.items ++ (if here then whole_facts weights.now rung.now else [])) }
{
    if here {
        put_whole(alloc, facts, weights, &rung.set)?;
    }
    Ok(())
}

/// Adds the facts of the sizes that are told, by whole weights. The only error is want of memory.
pub(crate) fn put_plain_rungs<'a>(
    alloc: Global,
    facts: &mut Vec<Fact<'a>>,
    weights: &'a [Weight],
    rungs: &[PlainRung],
    told: ToldSizes,
) -> Result<(), AllocError>
    requires small { length rungs.now < 2 ^ 32 }
    requires below { All (λ rung. AllBelow (length weights.now) rung.set) rungs.now }
    ensures { OnOk result (facts_of facts.new.items ≡ facts_of facts.old.items ++ sizes_facts (is_told told) (whole_facts weights.now) 0 rungs.now) }
{
    for k in 0..rungs.len() {
        put_plain_if(alloc, facts, weights, &rungs[k], told.holds(k))?;
    }
    Ok(())
}
