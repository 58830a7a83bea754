//! How the bounds of a rung stand in a row.

ghost use Rattle.std.specs.Prelude.{◌≡◌, ◌≤◌, ◌-◌, length, drop, IfOk};
ghost use Rattle.mat_sets.specs.Limits.{most_elements};
ghost use Rattle.mat_any.specs.Trees.{Tree};
ghost use Rattle.mat_witness.specs.{BoundRows.{row_trees}, Shown.{bounded_trees}};

use crate::demands::demands_under;
use crate::witness::Most;
use mat_cert::PricedRung;
use std::alloc::{AllocError, Global};

/// The bounds behind the first `count`.
pub(crate) fn bounds_behind(bounds: &[Most], count: usize) -> &[Most]
    requires { count ≤ length bounds.now }
    ensures rest { result.now ≡ drop count bounds.now }
    ensures length { length result.now ≡ length bounds.now - count }
{
    &bounds[count..]
}

/// How many bounds rung k has for its first half, and how many for its second, before the two for the cut. The only error is want of memory.
pub(crate) fn bound_counts(
    alloc: Global,
    k: u32,
    rung: &PricedRung,
) -> Result<(usize, usize), AllocError>
    requires first_half { length rung.now.first ≤ most_elements }
    requires second_half { length rung.now.second ≤ most_elements }
    ensures { IfOk result (λ counts. (first second : Tree)
        → bounded_trees first second k rung.now ≡ row_trees first second counts.0 counts.1) }
{
    let firsts = demands_under(alloc, k, &rung.set, rung.first.as_slice())?.len();
    let seconds = demands_under(alloc, k, &rung.set, rung.second.as_slice())?.len();
    Ok((firsts, seconds))
}
