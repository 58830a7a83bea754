//! Forests of edges of different colours.

use crate::arrangement::{Arrangement, Group, Style};
use crate::groups::grouped;
use mat_sets::ElemSet;
use mat_text::{Noun, Text, many, numbers_of};
use std::alloc::{AllocError, Global};

// Whether all edges of a colour are in the set.
fn are_all_in(colour_of: &[u32], colour: u32, set: &ElemSet) -> bool {
    for (other, e) in colour_of.iter().zip(0..u32::MAX) {
        if *other == colour && !set.contains(e) {
            return false;
        }
    }
    true
}

// Two styles for each colour: thin for its edges outside the set, and thick for those in it.
fn styles(
    alloc: Global,
    colours: &ElemSet,
    colour_of: &[u32],
    set: &ElemSet,
) -> Result<Vec<Style>, AllocError> {
    let mut styles = Vec::new(alloc);
    for colour in colours.as_slice() {
        let number = *colour as usize;
        let words = format!(in alloc; "colour {colour}")?;
        styles.push(Style::numbered(number, 1, words))?;
        let words = if are_all_in(colour_of, *colour, set) {
            format!(in alloc; "colour {colour}")?
        } else {
            String::new(alloc)
        };
        styles.push(Style::numbered(number, 5, words))?;
    }
    Ok(styles)
}

// The number of the style of the edges of a colour that are in the set, or of those that are not.
fn style_for(colours: &ElemSet, colour: u32, is_in_set: bool) -> usize {
    let place = match colours.as_slice().binary_search(&colour) {
        Ok(place) | Err(place) => place,
    };
    let thin = place.saturating_mul(2);
    if is_in_set {
        thin.saturating_add(1)
    } else {
        thin
    }
}

// The number of each edge's style.
fn style_of(
    alloc: Global,
    colours: &ElemSet,
    colour_of: &[u32],
    set: &ElemSet,
) -> Result<Vec<usize>, AllocError> {
    let mut style_of = Vec::new(alloc);
    for (colour, e) in colour_of.iter().zip(0..u32::MAX) {
        style_of.push(style_for(colours, *colour, set.contains(e)))?;
    }
    Ok(style_of)
}

// The notes on the best set, and where some colours join too little on the groups that are left without them.
fn notes(
    alloc: Global,
    best: &ElemSet,
    groups: &[Group],
    missing: &Option<ElemSet>,
) -> Result<Text, AllocError> {
    let mut notes = Text::new(alloc);
    if !best.is_empty() {
        notes.say("Thick: the edges of the best set.")?;
    }
    if let Some(missing) = missing {
        let groups = many(groups.len(), Noun::Group);
        if missing.is_empty() {
            notes.say(format_args!("Shaded: the {groups} of vertices that the edges join."))?;
        } else {
            let numbers = numbers_of(alloc, missing)?;
            notes.say(format_args!(
                "Shaded: the {groups} that are left without the edges of {}:{numbers}",
                many(missing.len(), Noun::Colour)
            ))?;
        }
    }
    Ok(notes)
}

/// How a best set of edges of different colours is drawn. Where there is `missing`, the colours which show that no such set joins all vertices,
/// the groups `left` are shaded that are left without the edges of these colours. The only error is want of memory.
pub(crate) fn arranged_rainbow(
    alloc: Global,
    colour_of: &[u32],
    best: &ElemSet,
    missing: &Option<ElemSet>,
    left: &[ElemSet],
) -> Result<Arrangement, AllocError> {
    let colours = ElemSet::from_members(alloc, colour_of)?;
    let groups = grouped(alloc, left)?;
    Ok(Arrangement {
        styles: styles(alloc, &colours, colour_of, best)?,
        style_of: style_of(alloc, &colours, colour_of, best)?,
        marked: None,
        is_priced: true,
        notes: notes(alloc, best, &groups, missing)?,
        groups,
    })
}
