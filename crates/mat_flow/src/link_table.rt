//! The table of the vertex before each vertex, which holds disjoint paths, and how a path is taken out of it (Schrijver, chapters 9 and 16).
ghost use Rattle.std.specs.Prelude.{◌≡◌, ◌≢◌, ◌<◌, ℕ, List, Some, true, length, slice_index, IfOk};
ghost use Rattle.mat_sets.specs.Sets.{is_member, without_one};
ghost use Rattle.mat_flow.specs.{LinkTables.{entry_at, HasEnds, HasPathLeft, IsShifted}, LinkedEnds.{IsLinkedTo}};

use std::alloc::{AllocError, Global};

/// Disjoint paths of a directed graph from sources to a shrinking set of ends. It takes a few bytes for each vertex.
#[derive(Debug, Drop)]
pub struct LinkTable {
    // The vertex before each vertex: itself where no path passes it, and none where a path starts.
    before: Vec<Option<u32>>,
}

impl LinkTable {
    /// The table with this vertex before each.
    pub(crate) fn of_table(before: Vec<Option<u32>>) -> LinkTable
        ensures { result.before.items ≡ before.items }
    {
        LinkTable { before }
    }

    /// Takes out the path that ends at v, so that v is no end any more. It takes no memory.
    pub fn unlink(&mut self, v: u32)
        requires { (vertices : ℕ) × (arcs : List (ℕ × ℕ)) × (sources : List ℕ) × (ends : List ℕ)
            × (is_member v ends ≡ true) × IsLinkedTo vertices arcs sources ends self.old }
        ensures { (vertices : ℕ) (arcs : List (ℕ × ℕ)) (sources ends : List ℕ) → IsLinkedTo vertices arcs sources ends self.old
            → is_member v ends ≡ true → IsLinkedTo vertices arcs sources (without_one ends v) self.new }
    {
        take_path_out(&mut self.before, v);
    }

    /// The vertex before each vertex.
    pub(crate) fn before(&self) -> &[Option<u32>]
        ensures { result.now ≡ self.now.before.items }
    {
        &self.before
    }
}

// Takes the path to v out of a table: each vertex of it has itself before it then.
fn take_path_out(table: &mut Vec<Option<u32>>, v: u32)
    requires { (vertices : ℕ) × (arcs : List (ℕ × ℕ)) × (sources : List ℕ) × (rest : List ℕ)
        × HasPathLeft vertices arcs sources rest (Some v) table.old.items }
    ensures { (vertices : ℕ) (arcs : List (ℕ × ℕ)) (sources rest : List ℕ) → HasPathLeft vertices arcs sources rest (Some v) table.old.items
        → HasEnds vertices arcs sources rest table.new.items }
{
    let mut left = Some(v);
    while let Some(u) = left {
        left = table[u as usize];
        table[u as usize] = Some(u);
    }
}

/// The table of no path: each vertex has itself before it. The only error is want of memory.
pub(crate) fn no_links(alloc: Global, vertices: u32) -> Result<Vec<Option<u32>>, AllocError>
    ensures long { IfOk result (λ before. length before.items ≡ vertices) }
    ensures own { IfOk result (λ before. (v : ℕ) → v < vertices → entry_at before.items v ≡ Some v) }
{
    let mut before = Vec::with_capacity(alloc, vertices as usize)?;
    for v in 0..vertices {
        before.push(Some(v))?;
    }
    Ok(before)
}

/// Moves the entry of each vertex of a walk on to the next one. The first vertex then has the entry `first`, and that of the
/// last one is gone.
pub fn shift_along(table: &mut Vec<Option<u32>>, walk: &[u32], first: Option<u32>)
    requires below { (i : ℕ) → i < length walk.now → slice_index walk.now i < length table.old.items }
    requires differ { (i j : ℕ) → i < j → j < length walk.now → slice_index walk.now i ≢ slice_index walk.now j }
    ensures { IsShifted first walk.now table.old.items table.new.items }
{
    let mut carried = first;
    for v in walk {
        let entry = table[*v as usize];
        table[*v as usize] = carried;
        carried = entry;
    }
}
