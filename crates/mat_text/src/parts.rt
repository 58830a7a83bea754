//! Sets that share no element.

ghost use Rattle.std.specs.{Prelude.{◌≡◌, not, IfOk}, List.{list_any}};
ghost use Rattle.mat_sets.specs.{Search.{those_below}, Sets.{is_member}};
ghost use Rattle.mat_text.specs.Paragraphs.{KeepsParagraphs};

use crate::called::Called;
use crate::nouns::{Noun, many};
use crate::text::Text;
use mat_sets::ElemSet;
use std::alloc::{AllocError, Global};

/// Whether an element stands in one of the sets.
pub fn is_in_some(sets: &[ElemSet], e: u32) -> bool
    ensures { result ≡ list_any (is_member e) sets.now }
{
    for i in 0..sets.len() {
        if sets[i].contains(e) {
            return true;
        }
    }
    false
}

/// The numbers below n that stand in none of the sets. The only error is want of memory.
#[tactic(auto, using(crate::proofs::Numbers::numbers_below))]
pub fn outside(alloc: Global, n: u32, sets: &[ElemSet]) -> Result<ElemSet, AllocError>
    ensures { IfOk result (λ rest. rest ≡ those_below n (λ e. not (list_any (is_member e) sets.now))) }
{
    let mut rest = ElemSet::new(alloc);
    for e in 0..n {
        if !is_in_some(sets, e) {
            rest.add(e)?;
        }
    }
    Ok(rest)
}

/// Tells the members of each set, which are numbered from 1. The only error is want of memory.
pub fn tell_parts(
    text: &mut Text,
    called: &Called<'_>,
    noun: Noun,
    sets: &[ElemSet],
) -> Result<(), AllocError>
    ensures { KeepsParagraphs text.old text.new }
{
    for (i, set) in sets.iter().enumerate() {
        let names = called.elements_of(text.alloc(), set)?;
        text.list(
            format_args!(
                "{} {}, {}",
                noun.word(),
                i + 1,
                many(set.len(), Noun::Element)
            ),
            &names,
        )?;
    }
    Ok(())
}

/// Tells which elements are in no part, where there are such. The only error is want of memory.
pub fn tell_left(
    text: &mut Text,
    called: &Called<'_>,
    noun: Noun,
    left: &ElemSet,
) -> Result<(), AllocError>
    ensures { KeepsParagraphs text.old text.new }
{
    if left.is_empty() {
        return Ok(());
    }
    let names = called.elements_of(text.alloc(), left)?;
    text.list(
        format_args!("in no {}, {}", noun.word(), many(left.len(), Noun::Element)),
        &names,
    )
}
