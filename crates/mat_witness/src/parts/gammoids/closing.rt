//! Vertices that close off the reached ones, in gammoids.

ghost use Rattle.std.specs.{Prelude.{◌≡◌, ◌<◌, ◌≤◌, ◌||◌, if◌then◌else◌, not, ℕ, List, true, length, IfOk, Some, None}, List.{list_all}};
ghost use Rattle.mat_sets.specs.{Sets.{is_member, IsSet}, Walks.{IsReachedSet}};
ghost use Rattle.mat_laws.specs.Matroids.{IsMaximal};
ghost use Rattle.mat_linked.specs.Gammoids.{IsGammoid, is_gammoid, vertices_of};
ghost use Rattle.mat_any.specs.Trees.{gammoid};
ghost use Rattle.mat_witness.specs.{
  BoundParts.{are_closed_off, is_in_either, shows_bound},
  GammoidSteps.{is_open_arc},
  Parts.{IsBoundFor, gate},
};

use super::arcs::arc_rows;
use super::paths::element_vertices;
use mat_flow::{Digraph, linked};
use mat_linked::Gammoid;
use mat_sets::{BitRows, BitSet, ElemSet, Relation, WalkSearch, shortest_walk};
use std::alloc::{AllocError, Global};

// The arcs that leave the vertices outside a set.
#[derive(Drop)]
struct OpenArcs<'a> {
    size: u32,
    rows: &'a BitRows,
    sources: &'a ElemSet,
    closed: &'a ElemSet,
}

impl Relation for OpenArcs<'_> {
    ghost use Rattle.std.specs.Prelude.{◌≡◌, false, length};
    ghost use Rattle.mat_sets.specs.Sets.{is_member};
    ghost use Rattle.mat_witness.specs.GammoidSteps.{is_open_arc};

    ghost count = { λ r. r.size };

    ghost sound = { λ r. length r.rows.now ≡ r.size };

    ghost arc = { λ r. is_open_arc r.rows.now r.closed.now };

    ghost start = { λ r v. is_member v r.sources.now };

    ghost goal = { λ r v. false };

    fn size(&self) -> u32 {
        self.size
    }

    fn is_start(&self, v: u32) -> bool {
        self.sources.contains(v)
    }

    fn is_goal(&self, _v: u32) -> bool {
        false
    }

    fn next_arc(&self, v: u32, among: &BitSet, from: u32) -> Option<u32> {
        if self.closed.contains(v) {
            return None;
        }
        among.next_common(self.rows.row(v), from)
    }
}

// What the sources reach by arcs that leave vertices outside a set.
fn reached_beside(
    alloc: Global,
    size: u32,
    rows: &BitRows,
    sources: &ElemSet,
    closed: &ElemSet,
) -> Result<ElemSet, AllocError>
    requires { length rows.now ≡ size }
    ensures { IfOk result (λ reached. IsReachedSet size (is_open_arc rows.now closed.now) (λ v. is_member v sources.now) reached) }
{
    let open = OpenArcs {
        size,
        rows,
        sources,
        closed,
    };
    match shortest_walk(alloc, &open)? {
        WalkSearch::Walk(_) => unreachable!(),
        WalkSearch::Reached(reached) => Ok(reached),
    }
}

// Whether no item is a member of the set.
fn are_outside(items: &[u32], set: &BitSet) -> bool
    ensures { result ≡ list_all (λ v. not (is_member v set.now)) items.now }
{
    for v in items {
        if set.contains(*v) {
            return false;
        }
    }
    true
}

// Whether each item is a member of one of two sets.
fn are_in_either(items: &[u32], reached: &BitSet, closing: &BitSet) -> bool
    ensures { result ≡ list_all (is_in_either reached.now closing.now) items.now }
{
    for v in items {
        if !(reached.contains(*v) || closing.contains(*v)) {
            return false;
        }
    }
    true
}

// Whether the head of each arc whose tail is reached is in one of two sets.
fn stay_in_either(arcs: &[(u32, u32)], reached: &BitSet, closing: &BitSet) -> bool
    ensures { result ≡ list_all (λ arc. not (is_member arc.0 reached.now) || is_in_either reached.now closing.now arc.1) arcs.now }
{
    for i in 0..arcs.len() {
        let (tail, head) = arcs[i];
        if reached.contains(tail) && !(reached.contains(head) || closing.contains(head)) {
            return false;
        }
    }
    true
}

// Reached vertices, and vertices that close them off from those of the set, as few as there can be.
fn closing_pair(
    alloc: Global,
    graph: &Digraph,
    sources: &ElemSet,
    targets: &[u32],
    set: &ElemSet,
) -> Result<(ElemSet, ElemSet), AllocError>
    requires sound { IsGammoid graph.now.vertices graph.now.arcs sources.now targets.now }
    requires set { IsSet (length targets.now) set.now }
    ensures sets { IfOk result (λ sets. IsSet graph.now.vertices sets.0 × IsSet graph.now.vertices sets.1) }
    ensures closed { IfOk result (λ sets. are_closed_off graph.now.arcs sources.now (vertices_of targets.now set.now) sets.0 sets.1 ≡ true) }
    ensures few { IfOk result (λ sets. (largest : List ℕ)
        → IsMaximal (is_gammoid graph.now.vertices graph.now.arcs sources.now targets.now) set.now largest
        → length sets.1 ≤ length largest) }
{
    let vertices = element_vertices(alloc, targets, set.as_slice())?;
    let ends = ElemSet::from_members(alloc, &vertices)?;
    let separator = linked(alloc, graph, sources, &ends)?.separator;
    let rows = arc_rows(alloc, graph.vertices(), graph.arcs().as_slice())?;
    let reached = reached_beside(alloc, graph.vertices(), &rows, sources, &separator)?;
    let beside = reached.minus(alloc, &separator)?;
    let closing = reached.among(alloc, &separator.to_bits(alloc)?)?;
    Ok((beside, closing))
}

/// How many vertices close the reached ones off from those of the set, and None where they don't. The only error is want of memory.
pub(crate) fn closing_bound(
    alloc: Global,
    matroid: &Gammoid,
    reach: &ElemSet,
    closing: &ElemSet,
    set: &ElemSet,
) -> Result<Option<u32>, AllocError>
    requires sound { IsGammoid matroid.now.vertices matroid.now.arcs matroid.now.sources matroid.now.targets }
    requires reach { IsSet matroid.now.vertices reach.now }
    requires closing { IsSet matroid.now.vertices closing.now }
    requires set { IsSet (length matroid.now.targets) set.now }
    ensures { IfOk result (λ found. found ≡ (if are_closed_off matroid.now.arcs matroid.now.sources (vertices_of matroid.now.targets set.now)
        reach.now closing.now then Some (length closing.now) else None)) }
{
    // (asking for the number of vertices tells the proof that the ends of the arcs are below it)
    let _ = matroid.graph().vertices();
    let reached = reach.to_bits(alloc)?;
    let closed = closing.to_bits(alloc)?;
    let ends = element_vertices(alloc, matroid.targets(), set.as_slice())?;
    let closes = are_outside(reach.as_slice(), &closed)
        && are_in_either(matroid.sources().as_slice(), &reached, &closed)
        && stay_in_either(matroid.graph().arcs().as_slice(), &reached, &closed)
        && are_outside(&ends, &reached);
    if closes {
        Ok(Some(closing.len() as u32))
    } else {
        Ok(None)
    }
}

/// For a smallest separator of the vertices of the set from the sources: the vertices that the sources reach by paths that avoid it, and those of
/// its vertices that the sources reach, which are at most as many as a maximal independent subset of the set has members (Menger's theorem;
/// Schrijver, chapter 9). The only error is want of memory.
pub(crate) fn closing_sets(
    alloc: Global,
    matroid: &Gammoid,
    set: &ElemSet,
) -> Result<(ElemSet, ElemSet), AllocError>
    requires sound { IsGammoid matroid.now.vertices matroid.now.arcs matroid.now.sources matroid.now.targets }
    requires set { IsSet (length matroid.now.targets) set.now }
    ensures part { IfOk result (λ sets. IsBoundFor (length matroid.now.targets)
        (gammoid matroid.now.vertices matroid.now.arcs matroid.now.sources matroid.now.targets) (gate sets.0 sets.1)) }
    ensures shows { IfOk result (λ sets. shows_bound
        (gammoid matroid.now.vertices matroid.now.arcs matroid.now.sources matroid.now.targets) (gate sets.0 sets.1) set.now ≡ true) }
    ensures number { IfOk result (λ sets. (inside : List ℕ)
        → IsMaximal (is_gammoid matroid.now.vertices matroid.now.arcs matroid.now.sources matroid.now.targets) set.now inside
        → length sets.1 ≤ length inside) }
{
    let targets = matroid.targets();
    closing_pair(alloc, matroid.graph(), matroid.sources(), targets, set)
}
