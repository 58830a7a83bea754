//! The partition matroid of the heads of arcs.

ghost use Rattle.std.specs.Prelude.{◌≡◌, ◌<◌, ◌^◌, length, IfOk};
ghost use Rattle.mat_sets.specs.Graphs.{ends_of};
ghost use Rattle.mat_count.specs.{Labels.{caps_by, classes_by}, Partitions.{IsPartition}};
ghost use Rattle.mat_arbor.specs.Heads.{cap_at, head_of};

use mat_count::Partition;
use mat_sets::Pairs;
use std::alloc::{AllocError, Global};

// How many arcs may enter each vertex: none the root, and one each other.
fn head_caps(alloc: Global, vertices: u32, root: u32) -> Result<Vec<u32>, AllocError>
    requires { root < vertices }
    ensures { IfOk result (λ v. v.items ≡ caps_by vertices (cap_at root)) }
{
    let mut caps = vec![in alloc; 1; vertices as usize]?;
    caps[root as usize] = 0;
    Ok(caps)
}

/// The partition matroid with one class for each head of an arc, and the cap 1 for each, but 0 for the root. The only error is want of
/// memory.
pub(crate) fn entering_once(
    alloc: Global,
    vertices: u32,
    arcs: &Pairs,
    root: u32,
) -> Result<Partition, AllocError>
    requires root { root < vertices }
    requires few { length arcs.now < 2 ^ 32 }
    ensures value { IfOk result (λ p. p ≡ record {
      count = length arcs.now;
      classes = classes_by (length arcs.now) vertices (head_of (ends_of arcs.now));
      caps = caps_by vertices (cap_at root);
    }) }
    ensures sound { IfOk result (λ p. IsPartition p.count p.classes p.caps) }
{
    let caps = head_caps(alloc, vertices, root)?;
    let heads = arcs.seconds(alloc)?;
    Partition::by_labels(alloc, &heads, caps)
}
