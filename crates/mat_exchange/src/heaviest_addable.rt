//! The greatest weight among the elements that can be added.
ghost use Rattle.std.specs.Prelude.{◌≡◌, ◌<◌, ◌≤◌, if◌then◌else◌, length};
ghost use Rattle.mat_sets.specs.{Limits.{most_elements}, Weights.{weight_at}};
ghost use Rattle.mat_laws.specs.TightPaths.{exchanges_in};
ghost use Rattle.mat_exchange.specs.HeaviestAddable.{IsHeaviestWeightOrNone, greater_of};

use crate::heaviest_members::heaviest_member;
use crate::row_table::RowTable;
use mat_sets::Weight;

/// The greatest weight of the elements that can be added in each of two matroids; none where none can be.
#[derive(Drop)]
pub(crate) struct GreatestWeights {
    pub(crate) first: Option<Weight>,
    pub(crate) second: Option<Weight>,
}

/// The greater of a weight, if there is one, and another.
fn greater(heaviest: Option<Weight>, weight: Weight) -> Option<Weight>
    ensures { result ≡ greater_of heaviest weight }
{
    match heaviest {
        Some(most) => Some(if most < weight { weight } else { most }),
        None => Some(weight),
    }
}

/// The greatest weight of the elements that can be added; none where none can be. The time is that of those elements.
pub(crate) fn heaviest_addable(table: &RowTable, weights: &[Weight]) -> Option<Weight>
    requires count { length table.now ≡ length weights.now }
    requires few { length weights.now ≤ most_elements }
    ensures { IsHeaviestWeightOrNone (exchanges_in table.now).adds (weight_at weights.now) result }
{
    let x = heaviest_member(table.addable_elements(), weights)?;
    Some(weights[x as usize])
}

/// The greatest weight of the addable elements of a set once x is in it too.
pub(crate) fn heaviest_with(
    table: &RowTable,
    heaviest: Option<Weight>,
    x: u32,
    weights: &[Weight],
) -> Option<Weight>
    requires count { length table.now ≡ length weights.now }
    requires below { x < length weights.now }
    ensures { result ≡ (if (exchanges_in table.now).adds x then greater_of heaviest (weight_at weights.now x) else heaviest) }
{
    if table.addable(x) {
        greater(heaviest, weights[x as usize])
    } else {
        heaviest
    }
}
