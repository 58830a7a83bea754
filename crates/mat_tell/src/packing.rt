//! Bases that share no element.

ghost use Rattle.std.specs.Prelude.{◌≤◌, length};
ghost use Rattle.mat_sets.specs.{Limits.{most_elements}, Sets.{AllBelow}};
ghost use Rattle.mat_any.specs.{Trees.{element_count, IsSound}, Views.{tree_of}};

use mat_any::AnyMatroid;
use mat_laws::{Matroid, rank_of};
use mat_reasons::state_rule;
use mat_sets::{ElemSet, SetList};
use mat_text::{Called, Noun, Text, many, outside, tell_left, tell_parts};
use std::alloc::AllocError;
use std::fmt::Display;

// Tells what is wanted.
fn tell_wanted(text: &mut Text, called: &Called<'_>, matroid: &AnyMatroid) -> Result<(), AllocError>
    requires { IsSound (tree_of matroid.now) }
{
    text.say(format_args!(
        "Wanted: of {} as many bases as can be without a common element. A base is as large as the rule allows.",
        many(matroid.size() as usize, Noun::Element)
    ))?;
    state_rule(text, called, "rule", matroid)
}

/// Tells that there are any number of bases, since each is empty. The only error is want of memory.
pub(crate) fn tell_any_bases(
    text: &mut Text,
    called: &Called<'_>,
    matroid: &AnyMatroid,
) -> Result<(), AllocError>
    requires { IsSound (tree_of matroid.now) }
{
    tell_wanted(text, called, matroid)?;
    text.say("BEST: as many as are asked for, all of them empty, since the rule allows no element.")
}

// What a base needs: its elements, of which so many may be in the cut, and how many bases cannot be.
#[derive(Clone, Copy)]
struct Needs {
    rank: u32,
    inside: u32,
    bases: usize,
}

impl Needs {
    // How many elements a base needs outside the cut.
    fn each(self) -> u32 {
        self.rank.saturating_sub(self.inside)
    }

    // How many elements all the bases need outside the cut.
    fn all(self) -> usize {
        self.bases.saturating_mul(self.each() as usize)
    }
}

// Tells that more elements are needed than there are.
fn tell_too_few(text: &mut Text, needs: Needs, n: usize) -> Result<(), AllocError> {
    text.detail(format_args!(
        "{} need {} * {} = {}: more than {n}.",
        many(needs.bases, Noun::Base),
        needs.bases,
        needs.each(),
        many(needs.all(), Noun::Element)
    ))
}

// Tells how many elements of the cut a base has, where the cut is what is listed, or all but that.
fn tell_inside(
    text: &mut Text,
    called: &Called<'_>,
    needs: Needs,
    all_but: &str,
    listed: &ElemSet,
) -> Result<(), AllocError> {
    let names = called.elements_of(text.alloc(), listed)?;
    text.list(
        format_args!(
            "A base has {}, at most {} of {all_but}the {} listed here",
            many(needs.rank as usize, Noun::Element),
            needs.inside,
            listed.len()
        ),
        &names,
    )
}

// Tells how many elements a base and all the bases need of those outside the cut, for which these are the words.
fn tell_outside<W: Display + Drop>(
    text: &mut Text,
    needs: Needs,
    outside: W,
) -> Result<(), AllocError> {
    text.detail(format_args!(
        "So it needs {} of the {outside}, and {} need {} * {} = {} of them.",
        needs.each(),
        many(needs.bases, Noun::Base),
        needs.bases,
        needs.each(),
        needs.all()
    ))
}

// Tells that a base needs elements outside the cut, of which there are too few.
fn tell_cut(
    text: &mut Text,
    called: &Called<'_>,
    needs: Needs,
    cut: &ElemSet,
    rest: &ElemSet,
) -> Result<(), AllocError> {
    if cut.len() <= rest.len() {
        tell_inside(text, called, needs, "", cut)?;
        tell_outside(text, needs, many(rest.len(), Noun::Other))
    } else {
        tell_inside(text, called, needs, "all but ", rest)?;
        tell_outside(text, needs, format_args!("{} listed", rest.len()))
    }
}

// Tells why there are no more bases.
fn tell_reason(
    text: &mut Text,
    called: &Called<'_>,
    needs: Needs,
    all: &ElemSet,
    cut: &ElemSet,
) -> Result<(), AllocError> {
    text.say(format_args!("Why not {}:", many(needs.bases, Noun::Base)))?;
    if cut.is_empty() {
        return tell_too_few(text, needs, all.len());
    }
    let rest = all.minus(text.alloc(), cut)?;
    tell_cut(text, called, needs, cut, &rest)
}

/// Tells the most bases without a common element, by a cut. The only error is want of memory.
pub(crate) fn tell_bases(
    text: &mut Text,
    called: &Called<'_>,
    matroid: &AnyMatroid,
    bases: &SetList,
    cut: &ElemSet,
) -> Result<(), AllocError>
    requires sound { IsSound (tree_of matroid.now) }
    requires few { length bases.now ≤ most_elements }
    requires below { AllBelow (element_count (tree_of matroid.now)) cut.now }
{
    tell_wanted(text, called, matroid)?;
    let all = ElemSet::all_below(text.alloc(), matroid.size())?;
    let needs = Needs {
        rank: rank_of(text.alloc(), matroid, &all)?,
        inside: rank_of(text.alloc(), matroid, cut)?,
        bases: bases.len() + 1,
    };
    text.say(format_args!(
        "BEST: {} of {} each.",
        many(bases.len(), Noun::Base),
        many(needs.rank as usize, Noun::Element)
    ))?;
    tell_parts(text, called, Noun::Base, bases.as_slice())?;
    let left = outside(text.alloc(), matroid.size(), bases.as_slice())?;
    tell_left(text, called, Noun::Base, &left)?;
    tell_reason(text, called, needs, &all, cut)
}
