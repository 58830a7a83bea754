//! A cheapest spanning arborescence with the cuts that prove it.
//!
//! A path of vertex sets grows backwards from a vertex that the root does not reach. Where something is left of the cost of each arc that
//! enters its last set, this set is listed with the least that is left, and this weight is taken from each of these arcs. So one of them is
//! spent: nothing is left of its cost. If its tail was not seen, it comes to the end of the path, and else all sets from its place on are
//! joined. When an arc is spent it gets a time: how many sets were listed.
//! At the end a tree grows from the root, always by the arc with the earliest time, and enters each listed set once.
ghost use Rattle.std.specs.Prelude.{◌≡◌, ◌≤◌, ◌<◌, ◌+◌, ◌≤ℤ◌, ◌<ℤ◌, ℕ, length, true, pos, All, IfOk, OnOk};
ghost use Rattle.mat_cuts.specs.{
  Limits.{never, vertex_bound, arc_bound},
  Costs.{cost_at, IsCost, IsWideCost},
  Answers.{AreInRange, AreRight, TellsReached},
  Pricing.{IsRightlyPriced},
  Listing.{IsBegun, IsFollowed, IsListed, IsPaid, TellsSpent},
  Raising.{IsLeastOf},
};
ghost use Rattle.mat_sets.specs.{Graphs.{IsGraph}, Sets.{is_member, AllBelow, IsSet}};

use crate::cut_weight::{CutWeight, Cuts, Priced};
use crate::growing::{Raised, grow};
use crate::joining::{Path, UNSEEN, at_place, join, push};
use crate::lowering::{arcs_coming, first_times, least_of, lower};
use mat_sets::{ElemSet, Pairs};
use std::alloc::{AllocError, Global};

/// Lists the set at the last place of the path, with what is left at the least of the arcs that enter it.
fn list_set(
    alloc: Global,
    path: &Path,
    raised: &mut Raised,
    entering: &[u32],
    least: i128,
) -> Result<(), AllocError>
    requires few { length raised.old.cuts.items < 10000 }
    requires some { pos 0 <ℤ least }
    requires since { length raised.old.since.items ≡ length raised.old.reduced.items }
    requires range { (a : ℕ) → a < length raised.old.reduced.items → IsWideCost (cost_at raised.old.reduced.items a) }
    requires set { IsSet (length raised.old.reduced.items) entering.now }
    requires enough { (a : ℕ) → is_member a entering.now ≡ true → least ≤ℤ cost_at raised.old.reduced.items a }
    requires places { length path.now.place.items < never }
    ensures { OnOk result (IsListed (λ a. is_member a entering.now) path.now.place.items path.now.last least raised.old raised.new) }
{
    let set = at_place(alloc, &path.place, path.last)?;
    raised.cuts.push(CutWeight { weight: least, set })?;
    let time = raised.cuts.len() as u32;
    lower(
        entering,
        least,
        time,
        &mut raised.reduced,
        &mut raised.since,
    );
    Ok(())
}

/// Lists the set at the last place of the path, where something is left at the least of the arcs that enter it.
fn pay(
    alloc: Global,
    path: &Path,
    raised: &mut Raised,
    entering: &[u32],
    a: u32,
) -> Result<(), AllocError>
    requires few { length raised.old.cuts.items < 10000 }
    requires since { length raised.old.since.items ≡ length raised.old.reduced.items }
    requires range { (b : ℕ) → b < length raised.old.reduced.items → IsWideCost (cost_at raised.old.reduced.items b) }
    requires set { IsSet (length raised.old.reduced.items) entering.now }
    requires least { IsLeastOf entering.now raised.old.reduced.items a }
    requires places { length path.now.place.items < never }
    ensures { OnOk result (IsPaid (λ b. is_member b entering.now) path.now.place.items path.now.last a raised.old raised.new) }
{
    let least = raised.reduced[a as usize];
    if least > 0 {
        list_set(alloc, path, raised, entering, least)?;
    }
    Ok(())
}

/// Gives an arc that enters the set at the last place of the path, with nothing left of its cost: where something is left at each such arc,
/// the set is listed first. None where no arc enters it.
fn spend(
    alloc: Global,
    arcs: &[(u32, u32)],
    path: &Path,
    raised: &mut Raised,
) -> Result<Option<u32>, AllocError>
    requires arcs { IsGraph (length path.now.place.items) arcs.now }
    requires few { length raised.old.cuts.items < 10000 }
    requires reduced { length raised.old.reduced.items ≡ length arcs.now }
    requires since { length raised.old.since.items ≡ length arcs.now }
    requires range { (b : ℕ) → b < length arcs.now → IsWideCost (cost_at raised.old.reduced.items b) }
    requires places { length path.now.place.items < never }
    ensures { IfOk result (TellsSpent arcs.now path.now.place.items path.now.last raised.old raised.new) }
{
    let coming = arcs_coming(alloc, arcs, path)?;
    let entering = coming.as_slice();
    let reduced = raised.reduced.as_slice();
    let Some(a) = least_of(entering, reduced) else {
        return Ok(None);
    };
    pay(alloc, path, raised, entering, a)?;
    Ok(Some(a))
}

/// Begins a path at an unseen vertex, where there is no path. False where there is no path and all vertices are seen.
fn begin(path: &mut Path) -> bool
    requires below { AllBelow (length path.old.place.items) path.old.fresh }
    requires few { path.old.last + 1 < never }
    ensures { IsBegun path.old path.new result }
{
    if path.last > 0 {
        return true;
    }
    if path.fresh.is_empty() {
        return false;
    }
    let v = path.fresh.get(0);
    push(path, v);
    true
}

/// Goes back along the arc: its tail comes to the end of the path, or all sets from its place on are joined.
fn follow(path: &mut Path, t: u32)
    requires below { t < length path.old.place.items }
    requires few { path.old.last + 1 < never }
    ensures { IsFollowed t path.old path.new }
{
    let to = path.place[t as usize];
    if to == UNSEEN {
        push(path, t);
    } else {
        join(path, to);
    }
}

/// A cheapest spanning arborescence from the root, with weighted cuts that prove it and what they leave of each cost; or a non-empty vertex
/// set without the root that no arc enters (Edmonds 1967, Fulkerson 1974; Schrijver, chapter 52). There are at most 2,000 vertices and
/// 20,000 arcs, each with a cost from 0 to 10^30. For V vertices and E arcs the time is that of 3V passes over the E arcs. The only error is
/// want of memory.
pub fn priced(
    alloc: Global,
    vertices: u32,
    arcs: &[(u32, u32)],
    costs: &[i128],
    root: u32,
) -> Result<Priced, AllocError>
    requires few { vertices ≤ vertex_bound }
    requires root { root < vertices }
    requires graph { IsGraph vertices arcs.now }
    requires many { length arcs.now ≤ arc_bound }
    requires costs { length costs.now ≡ length arcs.now }
    requires range { All IsWideCost costs.now }
    ensures { IfOk result (IsRightlyPriced vertices arcs.now costs.now root) }
{
    let mut path = Path {
        place: vec![in alloc; UNSEEN; vertices as usize]?,
        fresh: ElemSet::all_below(alloc, vertices)?,
        last: 0,
    };
    path.fresh.take_out(root);
    path.place[root as usize] = 0;
    let mut raised = Raised {
        reduced: Vec::from_slice(alloc, costs)?,
        since: first_times(alloc, costs)?,
        cuts: Vec::new(alloc),
    };
    'search: loop {
        if !begin(&mut path) {
            break 'search;
        }
        let spent = spend(alloc, arcs, &path, &mut raised)?;
        let Some(a) = spent else {
            return Ok(Priced::Unreached(at_place(alloc, &path.place, path.last)?));
        };
        follow(&mut path, arcs[a as usize].0);
    }
    let tree = grow(alloc, vertices, arcs, costs, root, &raised)?;
    Ok(Priced::Tree {
        arcs: tree,
        cuts: raised.cuts,
        left: raised.reduced,
    })
}

/// A cheapest spanning arborescence from the root, with weighted cuts that prove it; or a non-empty vertex set without the root that no
/// arc enters (Edmonds 1967, Fulkerson 1974; Schrijver, chapter 52). There are at most 2,000 vertices and 20,000 arcs, each with a cost
/// from 0 to 10^12. For V vertices and E arcs the time is that of 3V passes over the E arcs. The only error is want of memory.
pub fn cheapest(
    alloc: Global,
    vertices: u32,
    arcs: &Pairs,
    costs: &[i128],
    root: u32,
) -> Result<Cuts, AllocError>
    requires few { vertices ≤ vertex_bound }
    requires root { root < vertices }
    requires graph { IsGraph vertices arcs.now }
    requires many { length arcs.now ≤ arc_bound }
    requires costs { length costs.now ≡ length arcs.now }
    requires range { All IsCost costs.now }
    ensures right { IfOk result (AreRight vertices arcs.now costs.now root) }
    ensures reached { IfOk result (TellsReached vertices arcs.now root) }
    ensures range { IfOk result (AreInRange vertices (length arcs.now)) }
{
    match priced(alloc, vertices, arcs.as_slice(), costs, root)? {
        Priced::Tree {
            arcs: tree,
            cuts,
            ..
        } => Ok(Cuts::Tree { arcs: tree, cuts }),
        Priced::Unreached(set) => Ok(Cuts::Unreached(set)),
    }
}
