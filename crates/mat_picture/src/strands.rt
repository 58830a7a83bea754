//! Edges that lie beside one another.

use mat_sets::Pairs;
use std::alloc::{AllocError, Global};

/// An edge with its ends, and its place among the edges that have the same ends, whatever their directions.
#[derive(Clone, Copy)]
pub(crate) struct Strand {
    pub(crate) tail: u32,
    pub(crate) head: u32,
    /// How many of these edges have lower numbers.
    pub(crate) place: usize,
    /// How many of them there are.
    pub(crate) count: usize,
}

impl Strand {
    /// Whether the edge is a loop.
    pub(crate) fn is_loop(&self) -> bool {
        self.tail == self.head
    }
}

// Whether both pairs have the same numbers, in any order.
fn are_alike(first: (u32, u32), second: (u32, u32)) -> bool {
    first == second || first == (second.1, second.0)
}

// How many of these edges have the same ends.
fn alike(edges: &[(u32, u32)], ends: (u32, u32)) -> usize {
    let mut count: usize = 0;
    for other in edges {
        if are_alike(*other, ends) {
            count = count.saturating_add(1);
        }
    }
    count
}

/// Each edge with its place among those beside it. The only error is want of memory.
pub(crate) fn strands(alloc: Global, edges: &Pairs) -> Result<Vec<Strand>, AllocError> {
    let all = edges.as_slice();
    let mut strands = Vec::new(alloc);
    for e in 0..all.len() {
        let ends = all[e];
        strands.push(Strand {
            tail: ends.0,
            head: ends.1,
            place: alike(&all[..e], ends),
            count: alike(all, ends),
        })?;
    }
    Ok(strands)
}
