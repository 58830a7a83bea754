//! What the classes of a rule are called: by a part of their names that exactly their elements share, or by their numbers.

ghost use Rattle.std.specs.Prelude.{◌⊎◌, IfOk, IfSome};
ghost use Rattle.mat_text.specs.Shared.{IsShared};
ghost use Rattle.mat_words.specs.NameLists.{names_of};
ghost use Rattle.mat_reasons.specs.Naming.{IsNamedBy};

use mat_sets::ElemSet;
use mat_text::{Called, Name, Noun, Side, own_part};
use std::alloc::{AllocError, Global};

/// What the elements are called, and the word for a class.
#[derive(Clone, Copy)]
pub struct Wording<'a> {
    /// What the elements are called.
    pub called: Called<'a>,
    /// The word for a class. Only what is called a class is called by names.
    pub group: Noun,
}

/// On which side of their names the elements of a rule's classes are alike, if this is so of more classes on one side than on the other.
#[derive(Clone, Copy)]
pub(crate) struct Naming<'a> {
    called: Called<'a>,
    first: Option<Side>,
}

// How many classes have a part at this side, and none at the other.
fn count_alone(
    alloc: Global,
    called: &Called<'_>,
    classes: &[ElemSet],
    side: Side,
    other: Side,
) -> Result<usize, AllocError> {
    let mut count: usize = 0;
    for class in classes {
        if own_part(alloc, called.elements, class, side)?.is_some()
            && own_part(alloc, called.elements, class, other)?.is_none()
        {
            count = count.saturating_add(1);
        }
    }
    Ok(count)
}

impl<'a> Naming<'a> {
    /// How the classes of a rule are called. The only error is want of memory.
    pub(crate) fn of(
        alloc: Global,
        called: &Called<'a>,
        classes: &[ElemSet],
    ) -> Result<Naming<'a>, AllocError> {
        let fronts = count_alone(alloc, called, classes, Side::Front, Side::Back)?;
        let backs = count_alone(alloc, called, classes, Side::Back, Side::Front)?;
        let first = if fronts > backs {
            Some(Side::Front)
        } else if backs > fronts {
            Some(Side::Back)
        } else {
            None
        };
        Ok(Naming {
            called: *called,
            first,
        })
    }

    /// The name of a class, if it has one: a part of their names that exactly its elements share. Where they share one at each side, it is that
    /// of the side that names more classes of the rule, and none where neither does. The only error is want of memory.
    pub(crate) fn name_of(
        &self,
        alloc: Global,
        class: &ElemSet,
    ) -> Result<Option<&'a [u8]>, AllocError>
        ensures { IfOk result (λ found. IfSome found (λ name. IsNamedBy (names_of self.now.called.elements.now) class.now name.now)) }
    {
        let front = own_part(alloc, self.called.elements, class, Side::Front)?;
        let back = own_part(alloc, self.called.elements, class, Side::Back)?;
        if front.is_none() {
            return Ok(back);
        }
        if back.is_none() {
            return Ok(front);
        }
        match self.first {
            Some(Side::Front) => Ok(front),
            Some(Side::Back) => Ok(back),
            None => Ok(None),
        }
    }
}

/// What a class is called: its name, or its number behind the word for it. The only error is want of memory.
pub(crate) fn class_words(
    alloc: Global,
    naming: &Naming<'_>,
    group: Noun,
    number: usize,
    class: &ElemSet,
) -> Result<String, AllocError> {
    if let Noun::Class = group
        && let Some(name) = naming.name_of(alloc, class)?
    {
        return format!(in alloc; "{}", Name::Listed(name));
    }
    format!(in alloc; "{} {number}", group.word())
}
