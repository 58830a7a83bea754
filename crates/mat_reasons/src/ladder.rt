//! Ladders of sets that two rules allow, with splits of the weights.

ghost use Rattle.std.specs.Prelude.{◌<◌, length, All};
ghost use Rattle.mat_sets.specs.Sets.{AllBelow};
ghost use Rattle.mat_reasons.specs.Sums.{HasSummableShares};
ghost use Rattle.mat_text.specs.Paragraphs.{KeepsParagraphs};

use crate::bounds::Aim;
use crate::heaviest::{Things, tell_top};
use crate::shares::{Claim, Shares, have_tie, tell_shares, tell_ties};
use crate::sizes::tell_sizes;
use crate::steps::{best_of, priced_steps};
use mat_cert::PricedRung;
use mat_sets::Weight;
use mat_text::{Called, Spelled, Text, many};
use std::alloc::AllocError;

// Whether a weight of a rung's split has a tie.
fn has_tie(rung: &PricedRung) -> bool {
    have_tie(rung.first.as_slice()) || have_tie(rung.second.as_slice())
}

// Tells why the set of rung k is a heaviest one of its size.
fn tell_reason<T: Things>(
    text: &mut Text,
    called: &Called<'_>,
    things: &T,
    weights: &[Weight],
    k: usize,
    rung: &PricedRung,
) -> Result<(), AllocError>
    requires below { AllBelow (length weights.now) rung.now.set }
    requires shares { HasSummableShares rung.now }
    ensures { KeepsParagraphs text.old text.new }
{
    let claim = Claim {
        set: &rung.set,
        sum: rung.weight,
        things: many(k, things.noun()),
        aim: Aim::Weight,
    };
    let shares = Shares {
        given: weights,
        first: rung.first.as_slice(),
        second: rung.second.as_slice(),
    };
    text.say(format_args!(
        "Why no more weight than {} with {}:",
        Spelled(claim.sum),
        claim.things
    ))?;
    tell_shares(text, called, &shares, &claim)
}

// Tells why the sets of the best rung and of the last are heaviest ones, but for the empty set.
fn tell_reasons<T: Things>(
    text: &mut Text,
    called: &Called<'_>,
    things: &T,
    weights: &[Weight],
    rungs: &[PricedRung],
    best: usize,
) -> Result<(), AllocError>
    requires below { All (λ rung. AllBelow (length weights.now) rung.set) rungs.now }
    requires shares { All HasSummableShares rungs.now }
    ensures { KeepsParagraphs text.old text.new }
{
    for k in 1..rungs.len() {
        if k == best || k + 1 == rungs.len() {
            tell_reason(text, called, things, weights, k, &rungs[k])?;
        }
    }
    Ok(())
}

/// Tells the heaviest set of a ladder and the largest, the greatest weight of each size, and of both sets why none of their size weighs more
/// (Frank 1981). The only error is want of memory.
pub fn tell_ladder<T: Things>(
    text: &mut Text,
    called: &Called<'_>,
    things: &T,
    weights: &[Weight],
    rungs: &[PricedRung],
) -> Result<(), AllocError>
    requires some { 0 < length rungs.now }
    requires below { All (λ rung. AllBelow (length weights.now) rung.set) rungs.now }
    requires shares { All HasSummableShares rungs.now }
    ensures { KeepsParagraphs text.old text.new }
{
    tell_ties(
        text,
        have_tie(weights) || rungs.iter().any(|rung| has_tie(rung)),
    )?;
    let steps = priced_steps(text.alloc(), rungs)?;
    let best = best_of(&steps);
    tell_top(text, things, &steps, best)?;
    tell_sizes(text, called, &steps)?;
    tell_reasons(text, called, things, weights, rungs, best)
}
