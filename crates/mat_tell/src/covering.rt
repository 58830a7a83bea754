//! Sets that one matroid allows and that hold all elements together.

ghost use Rattle.mat_sets.specs.Sets.{AllBelow};
ghost use Rattle.mat_any.specs.{Trees.{element_count, IsSound}, Views.{tree_of}};
ghost use Rattle.std.specs.Prelude.{IfSome};

use mat_any::AnyMatroid;
use mat_laws::{Matroid, rank_of};
use mat_reasons::{Wording, room, state_rule};
use mat_sets::{ElemSet, SetList};
use mat_text::{Called, Noun, Text, many, tell_parts};
use std::alloc::AllocError;

// Tells what is wanted.
fn tell_wanted(text: &mut Text, called: &Called<'_>, matroid: &AnyMatroid) -> Result<(), AllocError>
    requires { IsSound (tree_of matroid.now) }
{
    text.say(format_args!(
        "Wanted: as few sets as can be that keep one rule and together hold all {}.",
        many(matroid.size() as usize, Noun::Element)
    ))?;
    state_rule(text, called, "rule", matroid)
}

/// Tells that no sets hold all elements, since the matroid does not allow this one. The only error is want of memory.
pub(crate) fn tell_never(
    text: &mut Text,
    called: &Called<'_>,
    matroid: &AnyMatroid,
    element: u32,
) -> Result<(), AllocError>
    requires { IsSound (tree_of matroid.now) }
{
    tell_wanted(text, called, matroid)?;
    text.say(format_args!(
        "NONE: the rule does not allow {}, not even alone.",
        called.element(element as usize)
    ))
}

// Tells how many elements of the cut a set has, and lists the cut, or all others where these are fewer.
fn tell_most(
    text: &mut Text,
    called: &Called<'_>,
    rank: u32,
    room: &str,
    cut: &ElemSet,
    rest: &ElemSet,
) -> Result<(), AllocError> {
    if rest.is_empty() {
        return text.detail(format_args!(
            "A set has at most {rank} of all {}{room}.",
            many(cut.len(), Noun::Element)
        ));
    }
    let (all_but, listed) = if cut.len() <= rest.len() {
        ("", cut)
    } else {
        ("all but ", rest)
    };
    let names = called.elements_of(text.alloc(), listed)?;
    text.list(
        format_args!(
            "A set has at most {rank} of {all_but}the {} listed here{room}",
            listed.len()
        ),
        &names,
    )
}

// Tells that one set fewer has no room for the cut.
fn tell_cut(
    text: &mut Text,
    called: &Called<'_>,
    matroid: &AnyMatroid,
    fewer: usize,
    cut: &ElemSet,
) -> Result<(), AllocError>
    requires sound { IsSound (tree_of matroid.now) }
    requires below { AllBelow (element_count (tree_of matroid.now)) cut.now }
{
    let alloc = text.alloc();
    let rank = rank_of(alloc, matroid, cut)?;
    let wording = Wording {
        called: *called,
        group: Noun::Class,
    };
    let room = room(alloc, matroid, cut, rank, wording)?;
    let rest = ElemSet::all_below(alloc, matroid.size())?.minus(alloc, cut)?;
    tell_most(text, called, rank, &room, cut, &rest)?;
    text.detail(format_args!(
        "So {} have room for at most {fewer} * {rank} = {} of these {}.",
        many(fewer, Noun::Set),
        fewer.saturating_mul(rank as usize),
        cut.len()
    ))
}

/// Tells the fewest sets that hold all elements, by a cut where there are any. The only error is want of memory.
pub(crate) fn tell_cover(
    text: &mut Text,
    called: &Called<'_>,
    matroid: &AnyMatroid,
    sets: &SetList,
    cut: &Option<ElemSet>,
) -> Result<(), AllocError>
    requires sound { IsSound (tree_of matroid.now) }
    requires below { IfSome cut.now (AllBelow (element_count (tree_of matroid.now))) }
{
    tell_wanted(text, called, matroid)?;
    text.say(format_args!("BEST: {}.", many(sets.len(), Noun::Set)))?;
    tell_parts(text, called, Noun::Set, sets.as_slice())?;
    let Some(cut) = cut else {
        return Ok(());
    };
    let fewer = sets.len().saturating_sub(1);
    text.say(format_args!("Why not {}:", many(fewer, Noun::Set)))?;
    if fewer == 0 {
        text.detail("There are elements.")
    } else {
        tell_cut(text, called, matroid, fewer, cut)
    }
}
