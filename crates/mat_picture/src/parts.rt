//! Parts of the elements: unions, packings and coverings.

use mat_cert::LevelLine;
use mat_charts::{Canvas, Grid, by_first_set, by_weight, draw_grid};
use mat_sets::{ElemSet, Weight};
use mat_text::{Called, Noun, Text, many, outside};
use std::alloc::{AllocError, Global};

// The elements that are shaded: those of the set, but none where there is no set or it has all of the `count` elements.
fn shaded(alloc: Global, set: Option<&ElemSet>, count: usize) -> Result<ElemSet, AllocError> {
    match set {
        Some(set) if set.len() < count => set.copy(alloc),
        _ => Ok(ElemSet::new(alloc)),
    }
}

// The cut of the last level: None where there are no levels.
fn last_cut(levels: &[LevelLine]) -> Option<&ElemSet> {
    match levels.last() {
        Some(level) => Some(&level.cut),
        None => None,
    }
}

/// Draws parts of the most elements, with the last of the cuts that show it. The only error is want of memory.
pub(crate) fn draw_union(
    canvas: &mut Canvas,
    called: &Called<'_>,
    weights: &[Weight],
    parts: &[ElemSet],
    levels: &[LevelLine],
) -> Result<(), AllocError> {
    let alloc = canvas.alloc();
    let shaded = shaded(alloc, last_cut(levels), weights.len())?;
    let mut notes = Text::new(alloc);
    if !shaded.is_empty() {
        notes.say(format_args!(
            "Shaded: the {} of the last cut, of which the rules allow no more.",
            many(shaded.len(), Noun::Element)
        ))?;
    }
    let order = by_weight(alloc, weights)?;
    let grid = Grid {
        called: *called,
        noun: Noun::Part,
        parts,
        weights: Some(weights),
        order: &order,
        shaded: &shaded,
    };
    draw_grid(canvas, &grid, &notes)
}

// The elements by the first set that has them and then by number, and those in no set at the end.
fn by_set(alloc: Global, count: u32, sets: &[ElemSet]) -> Result<Vec<u32>, AllocError> {
    let all: Vec<&ElemSet> = sets.iter().collect(alloc)?;
    let mut order = by_first_set(alloc, &all)?;
    let left = outside(alloc, count, sets)?;
    order.extend_from_slice(left.as_slice())?;
    Ok(order)
}

// Adds the paragraphs of a told text that tell why there is nothing better.
fn add_reason(notes: &mut Text, told: &Text) -> Result<(), AllocError> {
    let mut is_told = false;
    for paragraph in told.paragraphs() {
        is_told = is_told || paragraph.words().starts_with("Why");
        if is_told {
            notes.say(paragraph.words())?;
        }
    }
    Ok(())
}

/// Draws disjoint bases, or sets that cover all elements, of a matroid on `count` elements. A cut is shaded that shows that there are no more
/// bases, or that no fewer sets cover them, and the told reason stands beneath. The only error is want of memory.
pub(crate) fn draw_sets(
    canvas: &mut Canvas,
    called: &Called<'_>,
    told: &Text,
    noun: Noun,
    count: u32,
    sets: &[ElemSet],
    cut: Option<&ElemSet>,
) -> Result<(), AllocError> {
    let alloc = canvas.alloc();
    let shaded = shaded(alloc, cut, count as usize)?;
    let mut notes = Text::new(alloc);
    if !shaded.is_empty() {
        notes.say(format_args!(
            "Shaded: the {} of which the reason speaks.",
            many(shaded.len(), Noun::Element)
        ))?;
    }
    add_reason(&mut notes, told)?;
    let order = by_set(alloc, count, sets)?;
    let grid = Grid {
        called: *called,
        noun,
        parts: sets,
        weights: None,
        order: &order,
        shaded: &shaded,
    };
    draw_grid(canvas, &grid, &notes)
}
