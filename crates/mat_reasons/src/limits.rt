//! The limits of a rule by the names of its classes.

ghost use Rattle.mat_text.specs.Paragraphs.{KeepsParagraphs};

use crate::bounds::FEW;
use crate::naming::Naming;
use crate::rules::Rule;
use mat_any::AnyMatroid;
use mat_sets::ElemSet;
use mat_text::{Called, Name, Noun, Text, many};
use std::alloc::{AllocError, Global};
use std::fmt::Display;

// The most different limits that are told one by one where all are the same.
const ONE_BY_ONE: usize = 4;

// The names of classes that have members: None where one of them has no name, or where there is no such class.
fn names_of_all<'a>(
    alloc: Global,
    called: &Called<'a>,
    classes: &[ElemSet],
) -> Result<Option<Vec<&'a [u8]>>, AllocError> {
    let naming = Naming::of(alloc, called, classes)?;
    let mut names = Vec::new(alloc);
    for class in classes {
        match naming.name_of(alloc, class)? {
            Some(name) => names.push(name)?,
            None => return Ok(None),
        }
    }
    if names.is_empty() {
        return Ok(None);
    }
    Ok(Some(names))
}

// Names with a comma between them.
fn listed(alloc: Global, names: &[&[u8]]) -> Result<String, AllocError> {
    let mut words = String::new(alloc);
    for (i, name) in names.iter().enumerate() {
        let comma = if i == 0 { "" } else { ", " };
        write!(words, "{comma}{}", Name::Listed(name))?;
    }
    Ok(words)
}

// So many of each name, with a comma between them.
fn capped(alloc: Global, names: &[&[u8]], caps: &[u32]) -> Result<String, AllocError> {
    let mut words = String::new(alloc);
    for (i, (name, cap)) in names.iter().zip(caps).enumerate() {
        let comma = if i == 0 { "" } else { ", " };
        write!(words, "{comma}{cap} of {}", Name::Listed(name))?;
    }
    Ok(words)
}

// Whether all caps are this one.
fn are_all(caps: &[u32], cap: u32) -> bool {
    for other in caps {
        if *other != cap {
            return false;
        }
    }
    true
}

// So many of each class, by their names: None where they are many with different limits.
fn named_limits(
    alloc: Global,
    names: &[&[u8]],
    caps: &[u32],
    noun: Noun,
) -> Result<Option<String>, AllocError> {
    let (Some(first), Some(last), Some(cap)) = (names.first(), names.last(), caps.first()) else {
        return Ok(None);
    };
    let same = are_all(caps, *cap);
    if names.len() <= ONE_BY_ONE || (names.len() <= FEW && !same) {
        return Ok(Some(capped(alloc, names, caps)?));
    }
    if !same {
        return Ok(None);
    }
    if names.len() <= FEW {
        let words = listed(alloc, names)?;
        return Ok(Some(format!(in alloc; "{cap} of each of {words}")?));
    }
    Ok(Some(format!(in alloc;
        "{cap} of each of {}, {} .. {}",
        many(names.len(), noun),
        Name::Listed(first),
        Name::Listed(last)
    )?))
}

// The limits of classes by their names: None where one has no name.
fn limits(
    alloc: Global,
    called: &Called<'_>,
    classes: &[ElemSet],
    caps: &[u32],
    noun: Noun,
) -> Result<Option<String>, AllocError> {
    let Some(names) = names_of_all(alloc, called, classes)? else {
        return Ok(None);
    };
    named_limits(alloc, &names, caps, noun)
}

// The limits of a partition or of a laminar matroid by the names of its classes or sets: None where one has no name, and of other kinds.
fn limits_of(
    alloc: Global,
    called: &Called<'_>,
    matroid: &AnyMatroid,
) -> Result<Option<String>, AllocError> {
    match matroid {
        AnyMatroid::Partition(partition) => limits(
            alloc,
            called,
            partition.classes().as_slice(),
            partition.caps(),
            Noun::Class,
        ),
        AnyMatroid::Laminar(laminar) => limits(
            alloc,
            called,
            laminar.sets().as_slice(),
            laminar.caps(),
            Noun::Set,
        ),
        _ => Ok(None),
    }
}

// The words for the rule of a matroid.
fn rule_words(
    alloc: Global,
    called: &Called<'_>,
    matroid: &AnyMatroid,
) -> Result<String, AllocError> {
    match (limits_of(alloc, called, matroid)?, matroid) {
        (Some(limits), AnyMatroid::Laminar(_)) => {
            format!(in alloc; "at most {limits} (laminar)")
        }
        (Some(limits), _) => format!(in alloc; "at most {limits} (partition)"),
        (None, matroid) => format!(in alloc; "{}", Rule(matroid)),
    }
}

/// Tells the rule of a matroid behind a head: its limits, if all classes of a partition or all sets of a laminar matroid have names, and
/// otherwise its kind. The only error is want of memory.
pub fn state_rule<W: Display + Drop>(
    text: &mut Text,
    called: &Called<'_>,
    head: W,
    matroid: &AnyMatroid,
) -> Result<(), AllocError>
    ensures { KeepsParagraphs text.old text.new }
{
    let words = rule_words(text.alloc(), called, matroid)?;
    text.detail(format_args!("{head}: {words}"))
}
