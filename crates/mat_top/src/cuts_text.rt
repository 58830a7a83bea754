//! Cheapest spanning arborescences with the weighted vertex sets that prove them, as texts.

ghost use Rattle.std.specs.Prelude.{◌≡◌, ◌↔◌, true, All, IfOk, IsTrue};
ghost use Rattle.mat_check.specs.Fitting.{is_rooted};
ghost use Rattle.mat_problem.specs.{Validity.{IsValid}, Instances.{rooted}, Views.{instance_of}};
ghost use Rattle.mat_top.specs.CutTexts.{mains, HasPayableCosts, IsCutsText, IsPayable};

use crate::cut_lines::{tree_text, unreached_text};
use mat_cuts::{Cuts, cheapest, total_cost};
use mat_problem::Problem;
use mat_sets::{Pairs, Weight};
use std::alloc::{AllocError, Global};

// Whether weights of vertex sets can pay every cost: none is below 0 or has a tie.
fn are_payable(costs: &[Weight]) -> bool
    ensures { IsTrue result ↔ All IsPayable costs.now }
{
    costs.iter().all(|cost| cost.main >= 0 && cost.tie == 0)
}

// The numbers that the costs stand for.
fn mains_of(alloc: Global, costs: &[Weight]) -> Result<Vec<i128>, AllocError>
    ensures { IfOk result (λ v. v.items ≡ mains costs.now) }
{
    costs.iter().map(|cost| cost.main).collect(alloc)
}

// The text of a cheapest spanning arborescence and of weighted vertex sets that prove it, or of a vertex set that no arc enters.
fn payable_text(
    alloc: Global,
    vertices: u32,
    root: u32,
    arcs: &Pairs,
    costs: &[Weight],
) -> Result<Vec<u8>, AllocError>
    requires valid { IsValid (rooted vertices root arcs.now costs.now) }
    requires payable { All IsPayable costs.now }
    ensures { IfOk result (λ v. IsCutsText (rooted vertices root arcs.now costs.now) v.items) }
{
    let count = arcs.len() as u32;
    let mains = mains_of(alloc, costs)?;
    let answer = cheapest(alloc, vertices, arcs, &mains, root)?;
    match &answer {
        Cuts::Tree { arcs: tree, cuts } => {
            let cost = total_cost(&mains, tree.as_slice());
            tree_text(alloc, count, cost, tree, cuts)
        }
        Cuts::Unreached(set) => unreached_text(alloc, count, vertices, set),
    }
}

/// Whether weights of vertex sets can pay every cost of a problem of arcs with costs and a root: none is below 0 or has a tie.
pub(crate) fn has_payable_costs(problem: &Problem) -> bool
    requires form { is_rooted (instance_of problem.now) ≡ true }
    ensures { IsTrue result ↔ HasPayableCosts (instance_of problem.now) }
{
    let Problem::Rooted { costs, .. } = problem else {
        unreachable!()
    };
    are_payable(costs.as_slice())
}

/// The text of a cheapest spanning arborescence of a problem whose costs can be paid, and of weighted vertex sets that prove it, or of a
/// vertex set that no arc enters. The only error is want of memory.
pub(crate) fn cuts_text(alloc: Global, problem: &Problem) -> Result<Vec<u8>, AllocError>
    requires valid { IsValid (instance_of problem.now) }
    requires form { is_rooted (instance_of problem.now) ≡ true }
    requires payable { HasPayableCosts (instance_of problem.now) }
    ensures { IfOk result (λ v. IsCutsText (instance_of problem.now) v.items) }
{
    let Problem::Rooted {
        vertices,
        root,
        arcs,
        costs,
    } = problem
    else {
        unreachable!()
    };
    payable_text(alloc, *vertices, *root, arcs, costs.as_slice())
}
