//! The paths that a table holds, read from their starts.
ghost use Rattle.std.specs.Prelude.{◌≡◌, ◌≢◌, ◌<◌, ℕ, Some, length, IfOk};
ghost use Rattle.mat_sets.specs.Sets.{AllBelow, IsRising};
ghost use Rattle.mat_flow.specs.{LinkTables.{entry_at}, Trails.{AreTrails, IsReversed, IsTrail}};

use crate::walk::Walk;
use std::alloc::{AllocError, Global};

/// The vertex after each vertex, by the vertex before each. The only error is want of memory.
pub(crate) fn after_table(
    alloc: Global,
    vertices: u32,
    before: &[Option<u32>],
) -> Result<Vec<Option<u32>>, AllocError>
    requires long { length before.now ≡ vertices }
    requires below { (v u : ℕ) → entry_at before.now v ≡ Some u → u < vertices }
    ensures { IfOk result (λ after. IsReversed before.now after.items) }
{
    let mut after = vec![in alloc; None; vertices as usize]?;
    for v in 0..vertices {
        if let Some(u) = before[v as usize] {
            after[u as usize] = Some(v);
        }
    }
    Ok(after)
}

// The path from a vertex that is after none.
fn path_from(alloc: Global, after: &[Option<u32>], start: u32) -> Result<Walk, AllocError>
    requires start { start < length after.now }
    requires first { (u : ℕ) → entry_at after.now u ≢ Some start }
    requires below { (u v : ℕ) → entry_at after.now u ≡ Some v → v < length after.now }
    requires once { (u w v : ℕ) → entry_at after.now u ≡ Some v → entry_at after.now w ≡ Some v → u ≡ w }
    ensures { IfOk result (λ path. IsTrail after.now start path) }
{
    let mut path = vec![in alloc; start]?;
    let mut at = start;
    while let Some(next) = after[at as usize] {
        path.push(next)?;
        at = next;
    }
    Ok(Walk::new(path))
}

/// The paths from those of these vertices that have none before them. The only error is want of memory.
pub(crate) fn paths_among(
    alloc: Global,
    before: &[Option<u32>],
    after: &[Option<u32>],
    among: &[u32],
) -> Result<Vec<Walk>, AllocError>
    requires reversed { IsReversed before.now after.now }
    requires inside { AllBelow (length before.now) among.now }
    requires rises { IsRising among.now }
    ensures { IfOk result (λ paths. AreTrails before.now after.now among.now paths.items) }
{
    let mut paths = Vec::new(alloc);
    for v in among {
        if before[*v as usize].is_none() {
            paths.push(path_from(alloc, after, *v)?)?;
        }
    }
    Ok(paths)
}
