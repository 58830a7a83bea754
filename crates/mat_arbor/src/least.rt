//! The search for a least spanning arborescence.
ghost use Rattle.std.specs.Prelude.{◌≡◌, ◌<◌, ◌≤◌, ◌↔◌, true, length, IfOk};
ghost use Rattle.mat_sets.specs.{Limits.{largest_weight, most_vertices, most_elements}, Graphs.{IsGraph}, Weights.{AreWeightsWithin}};
ghost use Rattle.mat_work.specs.Workers.{AreWorkers};
ghost use Rattle.mat_arbor.specs.Arborescences.{HasNoArborescence, IsRightArbor, is_unreached};

use crate::arbor::Arbor;
use crate::growing::unreached_from;
use crate::halves::halves;
use crate::held::held_weights;
use crate::numbers::{raised_values, unit_of};
use mat_cuts::{Priced, priced};
use mat_sets::{Pairs, Weight};
use std::alloc::{AllocError, Global};

/// A least spanning arborescence with its split, or the unreached vertices, by weighted vertex sets.
fn least_among(
    alloc: Global,
    vertices: u32,
    arcs: &[(u32, u32)],
    costs: &[Weight],
    root: u32,
) -> Result<Arbor, AllocError>
    requires graph { IsGraph vertices arcs.now }
    requires root { root < vertices }
    requires vertices { vertices ≤ most_vertices }
    requires few { length arcs.now ≤ most_elements }
    requires lengths { length costs.now ≡ length arcs.now }
    requires small { AreWeightsWithin largest_weight costs.now }
    ensures right { IfOk result (IsRightArbor vertices arcs.now costs.now root) }
    ensures unreached { IfOk result (λ a. (is_unreached a ≡ true) ↔ HasNoArborescence vertices arcs.now root) }
{
    let unit = unit_of(arcs.len());
    let numbers = raised_values(alloc, unit, costs)?;
    match priced(alloc, vertices, arcs, numbers.as_slice(), root)? {
        Priced::Tree {
            arcs: tree,
            cuts,
            left,
        } => {
            let held = held_weights(
                alloc,
                vertices,
                arcs,
                numbers.as_slice(),
                cuts.as_slice(),
                left.as_slice(),
            )?;
            let (first, second) = halves(alloc, unit, costs, held.as_slice())?;
            Ok(Arbor::Tree {
                arcs: tree,
                first,
                second,
            })
        }
        Priced::Unreached(_) => {
            let rest = unreached_from(alloc, vertices, arcs, root)?;
            Ok(Arbor::Unreached(rest))
        }
    }
}

/// A spanning arborescence from the root that costs least, with a split of its negated costs that proves it, or the set of the
/// vertices that the root does not reach (Edmonds 1967; Schrijver, chapter 52; the split is Frank's). Weighted vertex sets, each of which
/// the arborescence enters once, prove that it is cheapest. The first half of an arc's negated cost is what the sets that hold both its
/// ends weigh, since the arborescence has as many arcs inside each as a forest can have; the second half is the rest. There are at most 500
/// vertices and 500 arcs; both numbers of each cost are at least -10^12 and at most 10^12; there are 1 to 16 workers, for which no
/// thread is started. For V vertices and E arcs the time is that of 3V passes over the E arcs. The only error is want of memory.
pub fn least_arborescence(
    alloc: Global,
    vertices: u32,
    arcs: &Pairs,
    costs: &[Weight],
    root: u32,
    workers: u32,
) -> Result<Arbor, AllocError>
    requires graph { IsGraph vertices arcs.now }
    requires root { root < vertices }
    requires vertices { vertices ≤ most_vertices }
    requires few { length arcs.now ≤ most_elements }
    requires lengths { length costs.now ≡ length arcs.now }
    requires small { AreWeightsWithin largest_weight costs.now }
    requires workers { AreWorkers workers }
    ensures right { IfOk result (IsRightArbor vertices arcs.now costs.now root) }
    ensures unreached { IfOk result (λ a. (is_unreached a ≡ true) ↔ HasNoArborescence vertices arcs.now root) }
{
    least_among(alloc, vertices, arcs.as_slice(), costs, root)
}
