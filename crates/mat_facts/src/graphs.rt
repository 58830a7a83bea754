//! The reasons of answers about graphs: edges between groups of vertices, arcs into some vertices, and colours without whose edges the
//! vertices fall apart.

ghost use Rattle.std.specs.Prelude.{◌≡◌, ◌<◌, ◌^◌, ◌&&◌, ◌++◌, ◌∷◌, [], length, slice_index, IfOk, OnOk};
ghost use Rattle.mat_sets.specs.{
  Graphs.{IsGraph, ends_of, entering, enters},
  Sets.{all_below, is_member, AllBelow},
};
ghost use Rattle.mat_graphic.specs.Forests.{number_of_components};
ghost use Rattle.mat_packing.specs.Trees.{crossing, stays};
ghost use Rattle.mat_facts.specs.{Facts.{between}, Reasons.{colours_facts, entered_facts}, Views.{facts_of}};

use crate::fact::Fact;
use crate::sizes::put;
use mat_fronts::edges_without;
use mat_graphic::{Graphic, least_vertices};
use mat_sets::{ElemSet, Pairs};
use std::alloc::{AllocError, Global};

// Whether both vertices are in the group.
fn holds_both(group: &ElemSet, first: u32, second: u32) -> bool
    ensures { result ≡ (is_member first group.now && is_member second group.now) }
{
    group.contains(first) && group.contains(second)
}

// Whether both ends of an edge are in one group.
fn stays(edges: &Pairs, classes: &[ElemSet], e: usize) -> bool
    requires { e < length edges.now }
    ensures { result ≡ stays (ends_of edges.now) classes.now e }
{
    let (first, second) = edges.get(e);
    for q in 0..classes.len() {
        if holds_both(&classes[q], first, second) {
            return true;
        }
    }
    false
}

// The edges whose ends are in different groups.
fn crossing(alloc: Global, edges: &Pairs, classes: &[ElemSet]) -> Result<ElemSet, AllocError>
    requires { length edges.now < 2 ^ 32 }
    ensures { IfOk result (λ found. found ≡ crossing (length edges.now) (ends_of edges.now) classes.now) }
{
    let mut found = ElemSet::new(alloc);
    for e in 0..edges.len() as u32 {
        found.add_if(e, !stays(edges, classes, e as usize))?;
    }
    Ok(found)
}

// Whether an arc comes from elsewhere into these vertices.
fn enters(arcs: &Pairs, set: &ElemSet, a: usize) -> bool
    requires { a < length arcs.now }
    ensures { result ≡ enters (ends_of arcs.now) set.now a }
{
    let (tail, head) = arcs.get(a);
    set.contains(head) && !set.contains(tail)
}

// The arcs from elsewhere into these vertices.
fn entering(alloc: Global, arcs: &Pairs, set: &ElemSet) -> Result<ElemSet, AllocError>
    requires { length arcs.now < 2 ^ 32 }
    ensures { IfOk result (λ found. found ≡ entering (ends_of arcs.now) (all_below (length arcs.now)) set.now) }
{
    let mut found = ElemSet::new(alloc);
    for a in 0..arcs.len() as u32 {
        found.add_if(a, enters(arcs, set, a as usize))?;
    }
    Ok(found)
}

/// The facts that groups of vertices give, with the edges between them. The only error is want of memory.
pub(crate) fn groups_reason<'a>(
    alloc: Global,
    edges: &Pairs,
    classes: &'a [ElemSet],
) -> Result<Vec<Fact<'a>>, AllocError>
    requires { length edges.now < 2 ^ 32 }
    ensures { IfOk result (λ facts. facts_of facts.items
        ≡ between classes.now (crossing (length edges.now) (ends_of edges.now) classes.now) ∷ []) }
{
    let found = crossing(alloc, edges, classes)?;
    let mut facts = Vec::new(alloc);
    put(
        &mut facts,
        Fact::Between {
            groups: classes,
            edges: found,
        },
    )?;
    Ok(facts)
}

/// The facts that vertices without the root give, with the arcs that enter them. The only error is want of memory.
pub(crate) fn entered_reason<'a>(
    alloc: Global,
    arcs: &Pairs,
    set: &'a ElemSet,
) -> Result<Vec<Fact<'a>>, AllocError>
    requires { length arcs.now < 2 ^ 32 }
    ensures { IfOk result (λ facts. facts_of facts.items ≡ entered_facts arcs.now set.now) }
{
    let found = entering(alloc, arcs, set)?;
    let mut facts = Vec::new(alloc);
    put(&mut facts, Fact::WithoutRoot { set })?;
    put(&mut facts, Fact::EnteredBy { set, arcs: found })?;
    Ok(facts)
}

// How many components these edges make of the vertices: as many as vertices that are the least of theirs.
fn component_count(alloc: Global, graph: &Graphic, set: &ElemSet) -> Result<usize, AllocError>
    requires graph { IsGraph graph.now.vertices graph.now.edges }
    requires few_vertices { graph.now.vertices < 2 ^ 32 }
    requires below { AllBelow (length graph.now.edges) set.now }
    ensures { IfOk result (λ count. count ≡ number_of_components graph.now.vertices (ends_of graph.now.edges) set.now) }
{
    set.rises();
    let least = graph.components(alloc, set)?;
    let roots = least_vertices(alloc, &least)?;
    Ok(roots.len())
}

/// Adds that without the edges of these colours, where there are such colours, the vertices fall into so many groups. The only error is want
/// of memory.
pub(crate) fn put_colours<'a>(
    alloc: Global,
    facts: &mut Vec<Fact<'a>>,
    graph: &Graphic,
    colour_of: &[u32],
    missing: &'a Option<ElemSet>,
) -> Result<(), AllocError>
    requires graph { IsGraph graph.now.vertices graph.now.edges }
    requires few_vertices { graph.now.vertices < 2 ^ 32 }
    requires long { length colour_of.now ≡ length graph.now.edges }
    ensures { OnOk result (facts_of facts.new.items ≡ facts_of facts.old.items
        ++ colours_facts graph.now.vertices (length graph.now.edges) (ends_of graph.now.edges) (slice_index colour_of.now) missing.now) }
{
    if let Some(colours) = missing {
        let rest = edges_without(alloc, colour_of, colours)?;
        let count = component_count(alloc, graph, &rest)?;
        put(facts, Fact::FallsApart { colours, count })?;
    }
    Ok(())
}
