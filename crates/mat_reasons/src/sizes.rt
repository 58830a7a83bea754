//! The greatest weight of each size.

ghost use Rattle.mat_text.specs.Paragraphs.{KeepsParagraphs};

use crate::bounds::FEW;
use crate::steps::Step;
use mat_sets::ElemSet;
use mat_text::{Called, Spelled, Text};
use std::alloc::{AllocError, Global};

// The names of the elements that a set has beside those of another, each behind a space and this sign.
fn put_changes(
    words: &mut String,
    called: &Called<'_>,
    sign: char,
    set: &ElemSet,
    other: &ElemSet,
) -> Result<(), AllocError> {
    for e in set.as_slice() {
        if !other.contains(*e) {
            write!(words, " {sign}{}", called.element(*e as usize))?;
        }
    }
    Ok(())
}

// What enters a set and what leaves it, beside the set before.
fn changes(
    alloc: Global,
    called: &Called<'_>,
    before: &ElemSet,
    set: &ElemSet,
) -> Result<String, AllocError> {
    let mut words = String::new(alloc);
    put_changes(&mut words, called, '+', set, before)?;
    put_changes(&mut words, called, '-', before, set)?;
    Ok(words)
}

// The sums of the shares of a step in brackets, where its weights are split.
fn bracket(alloc: Global, step: &Step<'_>) -> Result<String, AllocError> {
    match step.shares {
        Some((first, second)) => {
            format!(in alloc; " ({} + {})", Spelled(first), Spelled(second))
        }
        None => Ok(String::new(alloc)),
    }
}

// Tells the step of size k, whose set is told by these words.
fn tell_size(text: &mut Text, k: usize, step: &Step<'_>, words: &str) -> Result<(), AllocError>
    ensures { KeepsParagraphs text.old text.new }
{
    let bracket = bracket(text.alloc(), step)?;
    text.list(
        format_args!("size {k} weighs {}{bracket}", Spelled(step.weight)),
        words,
    )
}

// Tells the set of each step but the first.
fn tell_sets(text: &mut Text, called: &Called<'_>, steps: &[Step<'_>]) -> Result<(), AllocError>
    ensures { KeepsParagraphs text.old text.new }
{
    text.say("The greatest weight of each size, and a set that has it:")?;
    for k in 1..steps.len() {
        let words = called.elements_of(text.alloc(), steps[k].set)?;
        tell_size(text, k, &steps[k], &words)?;
    }
    Ok(())
}

// Tells how the set of each step but the first comes of the set before.
fn tell_changes(text: &mut Text, called: &Called<'_>, steps: &[Step<'_>]) -> Result<(), AllocError>
    ensures { KeepsParagraphs text.old text.new }
{
    text.say(
        "The greatest weight of each size, and what enters (+) and leaves (-) the set of the size before:",
    )?;
    for k in 1..steps.len() {
        let words = changes(text.alloc(), called, steps[k - 1].set, steps[k].set)?;
        tell_size(text, k, &steps[k], &words)?;
    }
    Ok(())
}

// Tells each step but the first: of few steps their sets, and of many what changes.
fn tell_steps(text: &mut Text, called: &Called<'_>, steps: &[Step<'_>]) -> Result<(), AllocError>
    ensures { KeepsParagraphs text.old text.new }
{
    if steps.len() <= FEW + 1 {
        tell_sets(text, called, steps)
    } else {
        tell_changes(text, called, steps)
    }
}

// Whether the weights are split in one of the steps.
fn have_shares(steps: &[Step<'_>]) -> bool {
    for step in steps {
        if step.shares.is_some() {
            return true;
        }
    }
    false
}

/// Tells the greatest weight of each size but 0, and a set that has it. The only error is want of memory.
pub fn tell_sizes(
    text: &mut Text,
    called: &Called<'_>,
    steps: &[Step<'_>],
) -> Result<(), AllocError>
    ensures { KeepsParagraphs text.old text.new }
{
    if steps.len() < 2 {
        return Ok(());
    }
    tell_steps(text, called, steps)?;
    if have_shares(steps) {
        text.detail("In brackets are the shares for rule 1 and for rule 2, which are told below.")?;
    }
    Ok(())
}
