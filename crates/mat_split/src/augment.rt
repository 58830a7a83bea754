//! The step of weight splitting from one size to the next.

ghost use Rattle.std.specs.Prelude.{◌≡◌, ◌<◌, ◌≤◌, ℕ, length, IfOk};
ghost use Rattle.mat_sets.specs.{Limits.{most_elements, largest_weight}, Weights.{IsWeightWithin}};
ghost use Rattle.mat_laws.specs.Exchanges.{rows_of};
ghost use Rattle.mat_split.specs.Augmenting.{weights_of, IsSplitRung, IsAugmented};

use crate::augmented::Augmented;
use crate::change::exchange_along;
use crate::ladder::Rung;
use mat_exchange::{Found, Grown, RowTable, grow};
use mat_laws::Matroid;
use std::alloc::{AllocError, Global};

/// From a heaviest common independent set to one of one element more, or to the cut that proves that there is none (Frank 1981;
/// Schrijver, chapter 41). The two weights change while one reached set grows; where then a tight path is found, the set is
/// exchanged along it, and otherwise the reached set is the cut. The time is that of the pairs of elements. The only error is want of memory.
pub(crate) fn augment<A: Matroid, B: Matroid>(
    alloc: Global,
    a: &A,
    b: &B,
    rung: &Rung,
    first_rows: &RowTable,
    second_rows: &RowTable,
) -> Result<Augmented, AllocError>
    requires first_sound { A.sound a.now }
    requires second_sound { B.sound b.now }
    requires ground { B.ground_size b.now ≡ A.ground_size a.now }
    requires few { A.ground_size a.now ≤ most_elements }
    requires small { (e : ℕ) → e < A.ground_size a.now → IsWeightWithin largest_weight (weights_of rung.now e) }
    requires rung { IsSplitRung (A.ground_size a.now) (A.indep a.now) (B.indep b.now) (weights_of rung.now) (length rung.now.set) rung.now }
    requires first_rows { first_rows.now ≡ rows_of (A.ground_size a.now) (A.indep a.now) rung.now.set }
    requires second_rows { second_rows.now ≡ rows_of (B.ground_size b.now) (B.indep b.now) rung.now.set }
    ensures { IfOk result (IsAugmented (A.ground_size a.now) (A.indep a.now) (B.indep b.now) (weights_of rung.now) (length rung.now.set)) }
{
    a.lawful();
    b.lawful();
    let first = rung.first.as_slice();
    let second = rung.second.as_slice();
    let Grown {
        first,
        second,
        found,
    } = grow(alloc, first_rows, second_rows, &rung.set, first, second)?;
    match found {
        Found::Path(path) => {
            let set = exchange_along(alloc, &rung.set, &path)?;
            Ok(Augmented::Larger(Rung { set, first, second }))
        }
        Found::Stuck { reach, .. } => Ok(Augmented::Last(reach)),
    }
}
