//! The costs that are left at the arcs, and since when they are spent.
ghost use Rattle.std.specs.Prelude.{◌≡◌, ◌<◌, ◌≤ℤ◌, ℕ, length, pos, true, IfOk};
ghost use Rattle.mat_sets.specs.{Graphs.{ends_of, IsGraph}, Search.{those_below}, Sets.{is_member, IsSet}};
ghost use Rattle.mat_cuts.specs.{Costs.{cost_at, IsWideCost}, Raising.{at, comes, IsFirstTime, IsLowered, TellsLeastOf}};

use crate::joining::Path;
use std::alloc::{AllocError, Global};

/// The time of an arc that is not spent.
pub(crate) const NEVER: u32 = 1_000_000;

/// Time 0 for each arc that costs nothing.
pub(crate) fn first_times(alloc: Global, costs: &[i128]) -> Result<Vec<u32>, AllocError>
    ensures long { IfOk result (λ since. length since.items ≡ length costs.now) }
    ensures times { IfOk result (λ since. (a : ℕ) → a < length costs.now → IsFirstTime (cost_at costs.now a) (at since.items a)) }
{
    let mut since = Vec::new(alloc);
    for cost in costs {
        since.push(if *cost == 0 { 0 } else { NEVER })?;
    }
    Ok(since)
}

/// The arcs that lead to the last place from another one, in rising order.
pub(crate) fn arcs_coming(
    alloc: Global,
    arcs: &[(u32, u32)],
    path: &Path,
) -> Result<Vec<u32>, AllocError>
    requires { IsGraph (length path.now.place.items) arcs.now }
    ensures { IfOk result (λ coming. coming.items ≡ those_below (length arcs.now)
        (comes (ends_of arcs.now) path.now.place.items path.now.last)) }
{
    let mut coming = Vec::new(alloc);
    for a in 0..arcs.len() {
        let (tail, head) = arcs[a];
        if path.place[head as usize] == path.last && path.place[tail as usize] != path.last {
            coming.push(a as u32)?;
        }
    }
    Ok(coming)
}

/// An arc of these with the least cost.
pub(crate) fn least_of(arcs: &[u32], reduced: &[i128]) -> Option<u32>
    requires { IsSet (length reduced.now) arcs.now }
    ensures { TellsLeastOf arcs.now reduced.now result }
{
    if arcs.is_empty() {
        return None;
    }
    let mut best = arcs[0];
    for a in arcs {
        if reduced[*a as usize] < reduced[best as usize] {
            best = *a;
        }
    }
    Some(best)
}

/// Takes the least cost from each of these arcs. An arc at which nothing is left gets the time.
pub(crate) fn lower(
    arcs: &[u32],
    least: i128,
    time: u32,
    reduced: &mut Vec<i128>,
    since: &mut Vec<u32>,
)
    requires set { IsSet (length reduced.old.items) arcs.now }
    requires since { length since.old.items ≡ length reduced.old.items }
    requires some { pos 0 ≤ℤ least }
    requires range { (a : ℕ) → a < length reduced.old.items → IsWideCost (cost_at reduced.old.items a) }
    requires enough { (a : ℕ) → is_member a arcs.now ≡ true → least ≤ℤ cost_at reduced.old.items a }
    ensures { IsLowered (length reduced.old.items) (λ a. is_member a arcs.now) least time reduced.old.items reduced.new.items since.old.items since.new.items }
{
    for a in arcs {
        let left = reduced[*a as usize] - least;
        reduced[*a as usize] = left;
        if left == 0 {
            since[*a as usize] = time;
        }
    }
}
