//! The arcs of a directed graph as rows of bits.
ghost use Rattle.std.specs.Prelude.{IfOk};
ghost use Rattle.mat_sets.specs.Graphs.{IsGraph};
ghost use Rattle.mat_witness.specs.GammoidSteps.{AreArcRows};

use mat_sets::BitRows;
use std::alloc::{AllocError, Global};

/// At each vertex the heads of the arcs that leave it. The only error is want of memory.
pub(crate) fn arc_rows(
    alloc: Global,
    vertices: u32,
    arcs: &[(u32, u32)],
) -> Result<BitRows, AllocError>
    requires { IsGraph vertices arcs.now }
    ensures { IfOk result (λ rows. AreArcRows vertices arcs.now rows) }
{
    let mut rows = BitRows::with_rows(alloc, vertices, vertices)?;
    for i in 0..arcs.len() {
        let (tail, head) = arcs[i];
        rows.insert(tail, head)?;
    }
    Ok(rows)
}
