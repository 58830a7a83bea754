//! Why no set that two rules allow is larger: what one allows of some elements, and the other of all others.

ghost use Rattle.std.specs.Prelude.{◌≡◌, IfOk};
ghost use Rattle.mat_sets.specs.Sets.{AllBelow};
ghost use Rattle.mat_text.specs.Paragraphs.{KeepsParagraphs};

use crate::naming::Wording;
use crate::rooms::{Roomy, room};
use mat_laws::{Matroid, rank_of};
use mat_sets::ElemSet;
use mat_text::{Called, Noun, Text, many};
use std::alloc::{AllocError, Global};

/// What is known of the largest set: its size, and the words for its elements and for the classes of a rule.
#[derive(Clone, Copy)]
pub struct Largest {
    /// Its size.
    pub size: usize,
    /// What its elements are.
    pub noun: Noun,
    /// What the classes of a rule are.
    pub group: Noun,
}

impl Largest {
    // What its elements are called, and the word for a class.
    fn wording<'a>(self, called: &Called<'a>) -> Wording<'a> {
        Wording {
            called: *called,
            group: self.group,
        }
    }
}

// A set of elements, and how many of it the rule of this number allows at most.
#[derive(Drop)]
struct Side<'a> {
    rule: u32,
    set: &'a ElemSet,
    rank: u32,
    room: String,
}

// What a rule allows of a set.
fn side_of<'a, M: Roomy>(
    alloc: Global,
    rule: u32,
    m: &M,
    set: &'a ElemSet,
    wording: Wording<'_>,
) -> Result<Side<'a>, AllocError>
    requires sound { M.sound m.now }
    requires below { AllBelow (M.ground_size m.now) set.now }
{
    let rank = rank_of(alloc, m, set)?;
    let room = room(alloc, m, set, rank, wording)?;
    Ok(Side {
        rule,
        set,
        rank,
        room,
    })
}

// Tells that the rule of this number allows no more of all elements.
fn tell_whole<M: Roomy>(
    text: &mut Text,
    called: &Called<'_>,
    largest: Largest,
    rule: u32,
    m: &M,
    all: &ElemSet,
) -> Result<(), AllocError>
    requires sound { M.sound m.now }
    requires below { AllBelow (M.ground_size m.now) all.now }
    ensures { KeepsParagraphs text.old text.new }
{
    let side = side_of(text.alloc(), rule, m, all, largest.wording(called))?;
    text.detail(format_args!(
        "Rule {rule} allows at most {} of all {}{}.",
        largest.size,
        many(all.len(), largest.noun),
        side.room
    ))
}

// Tells what one rule allows of the elements that are listed, and another of the others.
fn tell_sides(
    text: &mut Text,
    called: &Called<'_>,
    noun: Noun,
    listed: &Side<'_>,
    other: &Side<'_>,
) -> Result<(), AllocError>
    ensures { KeepsParagraphs text.old text.new }
{
    let names = called.elements_of(text.alloc(), listed.set)?;
    text.list(
        format_args!(
            "Of the {} listed here rule {} allows at most {}{}",
            many(listed.set.len(), noun),
            listed.rule,
            listed.rank,
            listed.room
        ),
        &names,
    )?;
    text.detail(format_args!(
        "Of the {} rule {} allows at most {}{}.",
        many(other.set.len(), Noun::Other),
        other.rule,
        other.rank,
        other.room
    ))
}

// Tells what both rules allow, each of one side of the cut.
fn tell_both<A: Roomy, B: Roomy>(
    text: &mut Text,
    called: &Called<'_>,
    largest: Largest,
    first: (&A, &ElemSet),
    second: (&B, &ElemSet),
) -> Result<(), AllocError>
    requires first_sound { A.sound first.0.now }
    requires second_sound { B.sound second.0.now }
    requires first_below { AllBelow (A.ground_size first.0.now) first.1.now }
    requires second_below { AllBelow (B.ground_size second.0.now) second.1.now }
    ensures { KeepsParagraphs text.old text.new }
{
    let wording = largest.wording(called);
    let first = side_of(text.alloc(), 1, first.0, first.1, wording)?;
    let second = side_of(text.alloc(), 2, second.0, second.1, wording)?;
    if first.set.len() <= second.set.len() {
        tell_sides(text, called, largest.noun, &first, &second)?;
    } else {
        tell_sides(text, called, largest.noun, &second, &first)?;
    }
    text.detail(format_args!(
        "So a set that keeps both has at most {} + {} = {}.",
        first.rank, second.rank, largest.size
    ))
}

// All elements of a matroid but those of a set.
fn all_but<M: Matroid>(alloc: Global, m: &M, set: &ElemSet) -> Result<ElemSet, AllocError>
    requires { M.sound m.now }
    ensures { IfOk result (λ rest. AllBelow (M.ground_size m.now) rest) }
{
    let all = ElemSet::all_below(alloc, m.size())?;
    let rest = all.minus(alloc, set)?;
    Ok(rest)
}

/// Tells why no set is larger, by a cut: the first rule bounds what is not in it, and the second what is in it. The only error is want of
/// memory.
pub fn tell_cut<A: Roomy, B: Roomy>(
    text: &mut Text,
    called: &Called<'_>,
    largest: Largest,
    first: &A,
    second: &B,
    cut: &ElemSet,
) -> Result<(), AllocError>
    requires first_sound { A.sound first.now }
    requires second_sound { B.sound second.now }
    requires same { A.ground_size first.now ≡ B.ground_size second.now }
    requires below { AllBelow (B.ground_size second.now) cut.now }
    ensures { KeepsParagraphs text.old text.new }
{
    text.say(format_args!(
        "Why no set has more than {}:",
        many(largest.size, largest.noun)
    ))?;
    let all = ElemSet::all_below(text.alloc(), first.size())?;
    if largest.size == all.len() {
        text.detail("There are no more.")
    } else if cut.is_empty() {
        tell_whole(text, called, largest, 1, first, &all)
    } else if cut.len() == all.len() {
        tell_whole(text, called, largest, 2, second, &all)
    } else {
        let rest = all_but(text.alloc(), first, cut)?;
        tell_both(text, called, largest, (first, &rest), (second, cut))
    }
}
