//! Sets that two matroids allow.

ghost use Rattle.std.specs.Prelude.{◌≡◌, length};
ghost use Rattle.mat_any.specs.{Trees.{element_count, IsSound}, Views.{tree_of}};
ghost use Rattle.mat_cert.specs.Certificates.{IsRangedLadder};

use mat_any::AnyMatroid;
use mat_cert::PricedRung;
use mat_reasons::{Elements, Largest, state_rule, tell_cut, tell_ladder};
use mat_sets::{ElemSet, Weight};
use mat_text::{Called, Noun, Text, many};
use std::alloc::AllocError;

/// Two matroids on the same elements, and the weights of these.
#[derive(Clone, Copy)]
pub(crate) struct Pair<'a> {
    pub(crate) weights: &'a [Weight],
    pub(crate) first: &'a AnyMatroid,
    pub(crate) second: &'a AnyMatroid,
}

/// Tells the heaviest sets of each size that two matroids allow. The only error is want of memory.
pub(crate) fn tell_intersection(
    text: &mut Text,
    called: &Called<'_>,
    pair: &Pair<'_>,
    rungs: &[PricedRung],
    cut: &ElemSet,
) -> Result<(), AllocError>
    requires first_sound { IsSound (tree_of pair.now.first.now) }
    requires second_sound { IsSound (tree_of pair.now.second.now) }
    requires first_size { element_count (tree_of pair.now.first.now) ≡ length pair.now.weights.now }
    requires second_size { element_count (tree_of pair.now.second.now) ≡ length pair.now.weights.now }
    requires ranged { IsRangedLadder (length pair.now.weights.now) rungs.now cut.now }
{
    text.say(format_args!(
        "Wanted: of {} a set that keeps two rules.",
        many(pair.weights.len(), Noun::Element)
    ))?;
    state_rule(text, called, "rule 1", pair.first)?;
    state_rule(text, called, "rule 2", pair.second)?;
    tell_ladder(text, called, &Elements(*called), pair.weights, rungs)?;
    let largest = Largest {
        size: rungs.len() - 1,
        noun: Noun::Element,
        group: Noun::Class,
    };
    tell_cut(text, called, largest, pair.first, pair.second, cut)
}
