//! The tree that grows from the root by the earliest arcs.
ghost use Rattle.std.specs.Prelude.{◌≡◌, ◌<◌, ◌^◌, ℕ, length, true, IfOk};
ghost use Rattle.mat_cuts.specs.{
  Limits.{never},
  Costs.{cost_of},
  Cuts.{all_weight},
  Growing.{is_timed, leaves, TellsEarliest},
  Raising.{at, IsRaised, Leads},
};
ghost use Rattle.mat_sets.specs.{Graphs.{ends_of, IsGraph, IsSpanningArborescence}, Search.{those_below}, Sets.{is_member, IsSet}};

use crate::cut_weight::CutWeight;
use crate::lowering::NEVER;
use mat_sets::{BitSet, ElemSet};
use std::alloc::{AllocError, Global};

/// The arcs with a time, in rising order.
pub(crate) fn timed_arcs(alloc: Global, since: &[u32]) -> Result<Vec<u32>, AllocError>
    requires { length since.now < 2 ^ 32 }
    ensures { IfOk result (λ timed. timed.items ≡ those_below (length since.now) (is_timed since.now)) }
{
    let mut timed = Vec::new(alloc);
    for a in 0..since.len() {
        if since[a] < NEVER {
            timed.push(a as u32)?;
        }
    }
    Ok(timed)
}

/// Whether arc a leads from a reached vertex to one that is not reached.
pub(crate) fn leaves(arcs: &[(u32, u32)], reached: &BitSet, a: u32) -> bool
    requires { a < length arcs.now }
    ensures { result ≡ leaves (ends_of arcs.now) reached.now a }
{
    let (tail, head) = arcs[a as usize];
    reached.contains(tail) && !reached.contains(head)
}

/// The arc with the earliest time among those of the timed arcs that leave the reached vertices.
pub(crate) fn earliest(
    arcs: &[(u32, u32)],
    timed: &[u32],
    since: &[u32],
    reached: &BitSet,
) -> Option<u32>
    requires long { length since.now ≡ length arcs.now }
    requires set { IsSet (length arcs.now) timed.now }
    requires timed { (a : ℕ) → is_member a timed.now ≡ true → at since.now a < never }
    ensures { TellsEarliest (ends_of arcs.now) since.now timed.now reached.now result }
{
    let mut best = NEVER;
    let mut found = None;
    for a in timed {
        let time = since[*a as usize];
        if time < best && leaves(arcs, reached, *a) {
            best = time;
            found = Some(*a);
        }
    }
    found
}

/// The costs that are left, the times and the listed cuts.
#[derive(Debug, Drop)]
pub(crate) struct Raised {
    /// What is left of the cost of each arc.
    pub(crate) reduced: Vec<i128>,
    /// For each arc how many cuts were listed when nothing was left of its cost, or `NEVER` where something is left.
    pub(crate) since: Vec<u32>,
    /// The cuts.
    pub(crate) cuts: Vec<CutWeight>,
}

/// A spanning arborescence that enters each listed set once.
pub(crate) fn grow(
    alloc: Global,
    vertices: u32,
    arcs: &[(u32, u32)],
    costs: &[i128],
    root: u32,
    raised: &Raised,
) -> Result<ElemSet, AllocError>
    requires root { root < vertices }
    requires graph { IsGraph vertices arcs.now }
    requires raised { IsRaised vertices arcs.now costs.now root raised.now.reduced.items raised.now.since.items raised.now.cuts.items }
    requires few { length raised.now.cuts.items < never }
    requires leads { (v : ℕ) → v < vertices → Leads (length arcs.now) (ends_of arcs.now) raised.now.since.items (length raised.now.cuts.items) root v }
    ensures spans { IfOk result (IsSpanningArborescence vertices (length arcs.now) (ends_of arcs.now) root) }
    ensures cost { IfOk result (λ tree. all_weight raised.now.cuts.items ≡ cost_of costs.now tree) }
{
    let since = raised.since.as_slice();
    let timed = timed_arcs(alloc, since)?;
    let mut tree = ElemSet::new(alloc);
    let mut reached = BitSet::new(alloc);
    reached.insert(root)?;
    for _ in 1..vertices {
        let Some(a) = earliest(arcs, &timed, since, &reached) else {
            unreachable!()
        };
        tree.add(a)?;
        reached.insert(arcs[a as usize].1)?;
    }
    Ok(tree)
}
