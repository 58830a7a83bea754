//! The reason that a spanning arborescence of least cost gives.

ghost use Rattle.std.specs.Prelude.{◌≡◌, ◌<◌, ◌∷◌, [], ◌++◌, length, IfOk, OnOk};
ghost use Rattle.mat_sets.specs.{Sets.{AllBelow}, Weights.{is_below, weight_at, zero_weight}};
ghost use Rattle.mat_facts.specs.{Facts.{allowed}, Reasons.{are_costs, costs_facts, size_facts}, Views.{facts_of}};

use crate::fact::Fact;
use crate::sizes::{put, put_shared};
use mat_sets::{ElemSet, Weight};
use std::alloc::{AllocError, Global};

// Whether a cost is below 0.
fn is_gain(costs: &[Weight], i: usize) -> bool
    requires { i < length costs.now }
    ensures { result ≡ is_below (weight_at costs.now i) zero_weight }
{
    costs[i] < Weight::ZERO
}

// Whether no cost is below 0.
fn are_costs(costs: &[Weight]) -> bool
    ensures { result ≡ are_costs costs.now }
{
    for i in 0..costs.len() {
        if is_gain(costs, i) {
            return false;
        }
    }
    true
}

// Adds that no cost is below 0, if it is so.
fn put_costs<'a>(facts: &mut Vec<Fact<'a>>, costs: &[Weight]) -> Result<(), AllocError>
    ensures { OnOk result (facts_of facts.new.items ≡ facts_of facts.old.items ++ costs_facts costs.now) }
{
    if are_costs(costs) {
        put(facts, Fact::NoneGains)?;
    }
    Ok(())
}

/// The facts that a spanning arborescence of least cost gives, by a split of the negated costs. The only error is want of memory.
#[tactic(auto, using(crate::proofs::PutFacts::whole_arborescence))]
pub(crate) fn least_reason<'a>(
    alloc: Global,
    costs: &[Weight],
    tree: &ElemSet,
    first: &'a [Weight],
    second: &'a [Weight],
) -> Result<Vec<Fact<'a>>, AllocError>
    requires below_first { AllBelow (length first.now) tree.now }
    requires below_second { AllBelow (length second.now) tree.now }
    ensures { IfOk result (λ facts. facts_of facts.items ≡ allowed ∷ size_facts (first.now ∷ second.now ∷ []) tree.now ++ costs_facts costs.now) }
{
    let mut facts = Vec::new(alloc);
    put(&mut facts, Fact::Allowed)?;
    put_shared(alloc, &mut facts, first, second, tree)?;
    put_costs(&mut facts, costs)?;
    Ok(facts)
}
