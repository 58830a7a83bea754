//! The separator that shows that there is no path more.
ghost use Rattle.std.specs.Prelude.{◌≡◌, ℕ, Some, true, length, IfOk};
ghost use Rattle.mat_sets.specs.Sets.{is_member, AllBelow, IsRising};
ghost use Rattle.mat_flow.specs.LinkTables.{entry_at, IsFrontier};

use mat_sets::ElemSet;
use std::alloc::{AllocError, Global};

/// The reached vertices that are before no reached vertex: on each path the last one that is reached. The only error is want
/// of memory.
pub(crate) fn frontier(
    alloc: Global,
    before: &[Option<u32>],
    reached: &ElemSet,
) -> Result<ElemSet, AllocError>
    requires inside { AllBelow (length before.now) reached.now }
    requires closed { (v u : ℕ) → is_member v reached.now ≡ true → entry_at before.now v ≡ Some u → is_member u reached.now ≡ true }
    requires once { (v w u : ℕ) → entry_at before.now v ≡ Some u → entry_at before.now w ≡ Some u → v ≡ w }
    ensures frontier { IfOk result (λ s. IsFrontier before.now reached.now s) }
    ensures rises { IfOk result (λ s. IsRising s) }
    ensures reached { IfOk result (λ _. IsRising reached.now) }
{
    let mut separator = reached.copy(alloc)?;
    for v in reached.as_slice() {
        if let Some(u) = before[*v as usize] {
            separator.take_out(u);
        }
    }
    Ok(separator)
}
