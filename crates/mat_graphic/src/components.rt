//! The components of a graph, by a table of their least vertices.
ghost use Rattle.std.specs.Prelude.{◌≡◌, ◌<◌, ◌^◌, length, map, slice_index, IfOk};
ghost use Rattle.mat_graphic.specs.Forests.{class_of, roots_of};

use mat_sets::ElemSet;
use std::alloc::{AllocError, Global};

/// The vertices that are their own least ones, of a table that has for each vertex the least vertex of its component: one in each component.
/// The only error is want of memory.
pub fn least_vertices(alloc: Global, least: &[u32]) -> Result<ElemSet, AllocError>
    requires few { length least.now < 2 ^ 32 }
    ensures { IfOk result (λ s. s ≡ roots_of (length least.now) (slice_index least.now)) }
{
    let mut set = ElemSet::new(alloc);
    for v in 0..least.len() {
        set.add_if(v as u32, least[v] == v as u32)?;
    }
    Ok(set)
}

// The vertices v for which `least[v]`, the least vertex of the component of v, is this one.
fn members_with(alloc: Global, least: &[u32], root: u32) -> Result<ElemSet, AllocError>
    requires few { length least.now < 2 ^ 32 }
    ensures { IfOk result (λ s. s ≡ class_of (length least.now) (slice_index least.now) root) }
{
    let mut set = ElemSet::new(alloc);
    for v in 0..least.len() {
        if least[v] == root {
            set.add(v as u32)?;
        }
    }
    Ok(set)
}

// The components of these least vertices.
fn components_at(alloc: Global, least: &[u32], roots: &[u32]) -> Result<Vec<ElemSet>, AllocError>
    requires few { length least.now < 2 ^ 32 }
    ensures { IfOk result (λ sets. sets.items ≡ map (class_of (length least.now) (slice_index least.now)) roots.now) }
{
    let mut sets = Vec::new(alloc);
    for root in roots {
        sets.push(members_with(alloc, least, *root)?)?;
    }
    Ok(sets)
}

/// The components by a table that has for each vertex the least vertex of its component, each as a set of vertices, in the order of their
/// least vertices. The only error is want of memory.
pub fn component_sets(alloc: Global, least: &[u32]) -> Result<Vec<ElemSet>, AllocError>
    requires few { length least.now < 2 ^ 32 }
    ensures { IfOk result (λ sets. sets.items ≡ map (class_of (length least.now) (slice_index least.now))
        (roots_of (length least.now) (slice_index least.now))) }
{
    let roots = least_vertices(alloc, least)?;
    let sets = components_at(alloc, least, roots.as_slice())?;
    Ok(sets)
}
