//! Styles of edges, by sets of these.

use crate::arrangement::Style;
use mat_sets::ElemSet;
use mat_text::Noun;
use std::alloc::{AllocError, Global};

/// A style for the edges in none of so many sets, and one for those of each. The only error is want of memory.
pub(crate) fn styles(alloc: Global, noun: Noun, count: usize) -> Result<Vec<Style>, AllocError> {
    let word = noun.word();
    let mut styles = Vec::new(alloc);
    styles.push(Style::grey(format!(in alloc; "in no {word}")?))?;
    for i in 0..count {
        let number = i.saturating_add(1);
        let words = format!(in alloc; "{word} {number}")?;
        styles.push(Style::numbered(i, 3, words))?;
    }
    Ok(styles)
}

// The number of the first set that has an edge, counted from 1: 0 where none has it.
fn number_of(sets: &[ElemSet], e: u32) -> usize {
    for i in 0..sets.len() {
        if sets[i].contains(e) {
            return i.saturating_add(1);
        }
    }
    0
}

/// The number of each edge's style, by the sets that have it. The only error is want of memory.
pub(crate) fn style_of(
    alloc: Global,
    edges: u32,
    sets: &[ElemSet],
) -> Result<Vec<usize>, AllocError> {
    let mut style_of = Vec::new(alloc);
    for e in 0..edges {
        style_of.push(number_of(sets, e))?;
    }
    Ok(style_of)
}

/// A style for the edges outside a set, and one of a number for those in it, with the words for both. The only error is want of memory.
pub(crate) fn styles_of_set(
    alloc: Global,
    outside: &str,
    inside: &str,
    number: usize,
) -> Result<Vec<Style>, AllocError> {
    let mut styles = Vec::new(alloc);
    styles.push(Style::grey(String::from_str(alloc, outside)?))?;
    let inside = String::from_str(alloc, inside)?;
    styles.push(Style::numbered(number, 3, inside))?;
    Ok(styles)
}

/// The number of each edge's style: 1 of those in the set, and 0 of the others. The only error is want of memory.
pub(crate) fn style_of_set(
    alloc: Global,
    edges: u32,
    set: &ElemSet,
) -> Result<Vec<usize>, AllocError> {
    let mut style_of = Vec::new(alloc);
    for e in 0..edges {
        let number = if set.contains(e) { 1 } else { 0 };
        style_of.push(number)?;
    }
    Ok(style_of)
}
