//! Groups of vertices that are shaded.

use crate::arrangement::Group;
use mat_sets::ElemSet;
use std::alloc::{AllocError, Global};
use std::cmp::Reverse;

// A class beside its size and its least vertex: these sort by falling size, and then by the least vertex.
type Ranked = (Reverse<usize>, u32, usize);

// Each class beside its size and its least vertex.
fn ranked(alloc: Global, classes: &[ElemSet]) -> Result<Vec<Ranked>, AllocError> {
    let mut all = Vec::new(alloc);
    for (i, class) in classes.iter().enumerate() {
        let least = class.as_slice().first().copied().unwrap_or(0);
        all.push((Reverse(class.len()), least, i))?;
    }
    Ok(all)
}

/// The classes as groups, the larger first and then by their least vertices, each with a colour of its own number. The only error is want
/// of memory.
pub(crate) fn grouped(alloc: Global, classes: &[ElemSet]) -> Result<Vec<Group>, AllocError> {
    let mut ranked = ranked(alloc, classes)?;
    ranked.sort()?;
    let mut groups = Vec::new(alloc);
    for (colour, entry) in ranked.iter().enumerate() {
        if let Some(class) = classes.get(entry.2) {
            groups.push(Group {
                vertices: class.copy(alloc)?,
                colour,
            })?;
        }
    }
    Ok(groups)
}
