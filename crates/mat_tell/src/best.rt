//! Sets that one matroid allows.

ghost use Rattle.std.specs.Prelude.{length, All};
ghost use Rattle.mat_sets.specs.Sets.{AllBelow};
ghost use Rattle.mat_any.specs.{Trees.{IsSound}, Views.{tree_of}};
ghost use Rattle.mat_cert.specs.Certificates.{AreRangedRungs, IsRangedPlainRung};

use mat_any::AnyMatroid;
use mat_cert::PlainRung;
use mat_laws::Matroid;
use mat_reasons::{
    Aim, Bounded, Elements, Wording, best_of, have_tie, plain_steps, room, state_rule, tell_bound,
    tell_sizes, tell_ties, tell_top, values_at,
};
use mat_sets::{ElemSet, Weight};
use mat_text::{Called, Noun, Spelled, Text, many};
use std::alloc::AllocError;

// Tells why the set of rung k is a heaviest one of its size.
fn tell_reason(
    text: &mut Text,
    weights: &[Weight],
    k: usize,
    rung: &PlainRung,
) -> Result<(), AllocError>
    requires { AllBelow (length weights.now) rung.now.set }
{
    let bounded = Bounded {
        things: many(k, Noun::Element),
        who: "the rule allows",
        has: "weighs",
        aim: Aim::Weight,
    };
    text.say(format_args!(
        "Why no more weight than {} with {}:",
        Spelled(rung.weight),
        bounded.things
    ))?;
    let values = values_at(text.alloc(), weights, &rung.set)?;
    tell_bound(text, &bounded, values, rung.weight)
}

// Tells why the sets of the best rung and of the last are heaviest ones, but for the empty set.
fn tell_reasons(
    text: &mut Text,
    weights: &[Weight],
    rungs: &[PlainRung],
    best: usize,
) -> Result<(), AllocError>
    requires { All (λ rung. AllBelow (length weights.now) rung.set) rungs.now }
{
    for k in 1..rungs.len() {
        if k == best || k + 1 == rungs.len() {
            tell_reason(text, weights, k, &rungs[k])?;
        }
    }
    Ok(())
}

// Tells why no set has more elements than this.
fn tell_largest(
    text: &mut Text,
    called: &Called<'_>,
    matroid: &AnyMatroid,
    largest: u32,
) -> Result<(), AllocError>
    requires { IsSound (tree_of matroid.now) }
{
    let size = many(largest as usize, Noun::Element);
    text.say(format_args!("Why no set has more than {size}:"))?;
    if largest == matroid.size() {
        return text.detail("There are no more.");
    }
    let all = ElemSet::all_below(text.alloc(), matroid.size())?;
    let wording = Wording {
        called: *called,
        group: Noun::Class,
    };
    let room = room(text.alloc(), matroid, &all, largest, wording)?;
    if room.is_empty() {
        text.detail(format_args!(
            "To the set of {size} nothing can be added, and under such a rule a set that cannot grow is as large as any."
        ))
    } else {
        text.detail(format_args!(
            "The rule allows at most {largest} of all {}{room}.",
            many(all.len(), Noun::Element)
        ))
    }
}

/// Tells the heaviest sets of each size that a matroid allows. The only error is want of memory.
pub(crate) fn tell_best(
    text: &mut Text,
    called: &Called<'_>,
    weights: &[Weight],
    matroid: &AnyMatroid,
    rungs: &[PlainRung],
) -> Result<(), AllocError>
    requires sound { IsSound (tree_of matroid.now) }
    requires ranged { AreRangedRungs (IsRangedPlainRung (length weights.now)) (length weights.now) rungs.now }
{
    text.say(format_args!(
        "Wanted: of {} a set that keeps one rule.",
        many(weights.len(), Noun::Element)
    ))?;
    state_rule(text, called, "rule", matroid)?;
    tell_ties(text, have_tie(weights))?;
    let steps = plain_steps(text.alloc(), rungs)?;
    let best = best_of(&steps);
    tell_top(text, &Elements(*called), &steps, best)?;
    tell_sizes(text, called, &steps)?;
    tell_reasons(text, weights, rungs, best)?;
    tell_largest(text, called, matroid, (rungs.len() - 1) as u32)
}
