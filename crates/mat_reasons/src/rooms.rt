//! Why a rule allows no more of a set than it does, for the kinds of matroids where a few counts show it.

ghost use Rattle.std.specs.Prelude.{string_bytes, IfOk};
ghost use Rattle.mat_reasons.specs.Brackets.{IsInBrackets};

use crate::bounds::FEW;
use crate::naming::{Naming, Wording, class_words};
use mat_any::AnyMatroid;
use mat_count::{Partition, Uniform};
use mat_graphic::Graphic;
use mat_laws::Matroid;
use mat_sets::ElemSet;
use mat_text::{Noun, many};
use std::alloc::{AllocError, Global};

/// Phrases with a comma between them.
#[derive(Drop)]
pub struct Phrases {
    count: usize,
    words: String,
}

impl Phrases {
    // No phrases. It takes no memory.
    fn new(alloc: Global) -> Phrases {
        Phrases {
            count: 0,
            words: String::new(alloc),
        }
    }

    // Adds a phrase.
    fn add(&mut self, phrase: &str) -> Result<(), AllocError> {
        if self.count > 0 {
            self.words.push_str(", ")?;
        }
        self.words.push_str(phrase)?;
        self.count = self.count.saturating_add(1);
        Ok(())
    }

    // The phrases in brackets behind a space: nothing where there are none, or many.
    fn in_brackets(self, alloc: Global) -> Result<String, AllocError>
        ensures { IfOk result (λ words. IsInBrackets (string_bytes words)) }
    {
        if self.count == 0 || self.count > FEW {
            return Ok(String::new(alloc));
        }
        format!(in alloc; " ({})", self.words)
    }
}

/// A matroid of which it can be told why it allows no more of a set.
pub trait Roomy: Matroid {
    /// Phrases on why the rank of a set is this one, where counts show it. The only error is want of memory.
    fn phrases(
        &self,
        alloc: Global,
        set: &ElemSet,
        rank: u32,
        wording: Wording<'_>,
    ) -> Result<Phrases, AllocError>;
}

impl Roomy for Uniform {
    fn phrases(
        &self,
        alloc: Global,
        set: &ElemSet,
        _rank: u32,
        _wording: Wording<'_>,
    ) -> Result<Phrases, AllocError> {
        let mut phrases = Phrases::new(alloc);
        if (self.cap() as usize) < set.len() {
            phrases.add(&format!(in alloc; "{} in all", self.cap())?)?;
        }
        Ok(phrases)
    }
}

// How many members of a set are in a class.
fn members_in(set: &ElemSet, class: &ElemSet) -> usize {
    let mut count: usize = 0;
    for e in set.as_slice() {
        if class.contains(*e) {
            count = count.saturating_add(1);
        }
    }
    count
}

// Adds what the class of this name allows, where members of the set are here.
fn add_class(
    alloc: Global,
    phrases: &mut Phrases,
    name: &str,
    here: usize,
    cap: u32,
) -> Result<(), AllocError> {
    if here > 0 {
        let most = here.min(cap as usize);
        phrases.add(&format!(in alloc; "{most} of {name}")?)?;
    }
    Ok(())
}

impl Roomy for Partition {
    fn phrases(
        &self,
        alloc: Global,
        set: &ElemSet,
        _rank: u32,
        wording: Wording<'_>,
    ) -> Result<Phrases, AllocError> {
        let mut phrases = Phrases::new(alloc);
        let classes = self.classes().as_slice();
        let naming = Naming::of(alloc, &wording.called, classes)?;
        let mut free = set.len();
        for (c, (class, cap)) in classes.iter().zip(self.caps()).enumerate() {
            let here = members_in(set, class);
            free = free.saturating_sub(here);
            let name = class_words(alloc, &naming, wording.group, c, class)?;
            add_class(alloc, &mut phrases, &name, here, *cap)?;
        }
        if free > 0 {
            phrases.add(&format!(in alloc; "{free} in no {}", wording.group.word())?)?;
        }
        Ok(phrases)
    }
}

impl Roomy for Graphic {
    fn phrases(
        &self,
        alloc: Global,
        _set: &ElemSet,
        rank: u32,
        _wording: Wording<'_>,
    ) -> Result<Phrases, AllocError> {
        let mut phrases = Phrases::new(alloc);
        let all = self.vertices();
        let groups = all.saturating_sub(rank);
        phrases.add(&format!(in alloc;
            "they join {} to {}, and {all} - {groups} is {rank}",
            many(all as usize, Noun::Vertex),
            many(groups as usize, Noun::Group)
        )?)?;
        Ok(phrases)
    }
}

impl Roomy for AnyMatroid {
    fn phrases(
        &self,
        alloc: Global,
        set: &ElemSet,
        rank: u32,
        wording: Wording<'_>,
    ) -> Result<Phrases, AllocError> {
        match self {
            AnyMatroid::Uniform(uniform) => uniform.phrases(alloc, set, rank, wording),
            AnyMatroid::Partition(partition) => partition.phrases(alloc, set, rank, wording),
            AnyMatroid::Graphic(graphic) => graphic.phrases(alloc, set, rank, wording),
            _ => Ok(Phrases::new(alloc)),
        }
    }
}

/// Why the rank of a set is this one, in brackets behind a space: nothing where no few counts show it. The only error is want of memory.
pub fn room<M: Roomy>(
    alloc: Global,
    m: &M,
    set: &ElemSet,
    rank: u32,
    wording: Wording<'_>,
) -> Result<String, AllocError>
    ensures { IfOk result (λ words. IsInBrackets (string_bytes words)) }
{
    m.phrases(alloc, set, rank, wording)?.in_brackets(alloc)
}
