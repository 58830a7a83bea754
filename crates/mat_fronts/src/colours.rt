//! The edges of some colours.

ghost use Rattle.std.specs.Prelude.{◌≡◌, ◌<◌, ◌^◌, length, slice_index, IfOk};
ghost use Rattle.mat_fronts.specs.Rainbow.{edges_without};

use mat_sets::ElemSet;
use std::alloc::{AllocError, Global};

/// The edges whose colour is not in the set. The only error is want of memory.
pub fn edges_without(
    alloc: Global,
    colour_of: &[u32],
    colours: &ElemSet,
) -> Result<ElemSet, AllocError>
    requires { length colour_of.now < 2 ^ 32 }
    ensures { IfOk result (λ rest. rest ≡ edges_without (length colour_of.now) (slice_index colour_of.now) colours.now) }
{
    let mut rest = ElemSet::new(alloc);
    for e in 0..colour_of.len() as u32 {
        if !colours.contains(colour_of[e as usize]) {
            rest.add(e)?;
        }
    }
    Ok(rest)
}
