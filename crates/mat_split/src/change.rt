//! The change of a common independent set along a path.

ghost use Rattle.std.specs.Prelude.{◌≡◌, IfOk};
ghost use Rattle.mat_sets.specs.Sets.{IsRising};
ghost use Rattle.mat_laws.specs.TightPaths.{exchanged_along};

use mat_sets::ElemSet;
use std::alloc::{AllocError, Global};

/// The set after an exchange along a path: each vertex of the path that is a member is taken out, and each other one is added (Frank
/// 1981). One removal or insertion for each vertex. The only error is want of memory.
pub(crate) fn exchange_along(
    alloc: Global,
    set: &ElemSet,
    path: &[u32],
) -> Result<ElemSet, AllocError>
    ensures set { IfOk result (λ s. s ≡ exchanged_along set.now path.now) }
    ensures rises { IfOk result (λ s. IsRising s) }
{
    let mut exchanged = set.copy(alloc)?;
    for x in path {
        if set.contains(*x) {
            exchanged.take_out(*x);
        } else {
            exchanged.add(*x)?;
        }
    }
    Ok(exchanged)
}
