//! The search for a tight path.
ghost use Rattle.std.specs.Prelude.{◌≡◌, ◌≤◌, length, IfOk, ◌↔◌, true};
ghost use Rattle.mat_sets.specs.{Limits.{most_elements, largest_number}, Weights.{weight_at, AreWeightsWithin}};
ghost use Rattle.mat_laws.specs.TightPaths.{exchanges_in};
ghost use Rattle.mat_exchange.specs.{
  HeaviestAddable.{AreGreatestWeights},
  Searching.{is_stuck, HasNoTightPath, IsFound},
  Tables.{IsTableAt},
};

use crate::found::Found;
use crate::heaviest_addable::{GreatestWeights, heaviest_addable};
use crate::row_table::RowTable;
use crate::slack::least_slack;
use crate::tight_arcs::TightArcs;
use mat_sets::{ElemSet, WalkSearch, Weight, shortest_walk};
use std::alloc::{AllocError, Global};

/// A tight path with fewest vertices at a common independent set, or, exactly where there is no tight path, all that the sources reach
/// along tight arcs and its least slack (Frank 1981; Schrijver, chapter 41). The time is that of the numbers in both tables. The only
/// error is want of memory.
pub fn tight_search(
    alloc: Global,
    first: &RowTable,
    second: &RowTable,
    set: &ElemSet,
    w1: &[Weight],
    w2: &[Weight],
) -> Result<Found, AllocError>
    requires few { length w1.now ≤ most_elements }
    requires lengths { length w2.now ≡ length w1.now }
    requires first_table { IsTableAt (length w1.now) set.now first.now }
    requires second_table { IsTableAt (length w1.now) set.now second.now }
    requires first_small { AreWeightsWithin largest_number w1.now }
    requires second_small { AreWeightsWithin largest_number w2.now }
    ensures found { IfOk result (IsFound (length w1.now) (exchanges_in first.now) (exchanges_in second.now) (weight_at w1.now) (weight_at w2.now)) }
    ensures stuck { IfOk result (λ found. (is_stuck found ≡ true)
        ↔ HasNoTightPath (length w1.now) (exchanges_in first.now) (exchanges_in second.now) (weight_at w1.now) (weight_at w2.now)) }
{
    let heaviest = GreatestWeights {
        first: heaviest_addable(first, w1),
        second: heaviest_addable(second, w2),
    };
    tight_search_with(alloc, first, second, set, w1, w2, heaviest)
}

/// The same search, where the greatest weights of the elements that can be added are known. The only error is want of memory.
pub(crate) fn tight_search_with(
    alloc: Global,
    first: &RowTable,
    second: &RowTable,
    set: &ElemSet,
    w1: &[Weight],
    w2: &[Weight],
    heaviest: GreatestWeights,
) -> Result<Found, AllocError>
    requires few { length w1.now ≤ most_elements }
    requires lengths { length w2.now ≡ length w1.now }
    requires first_table { IsTableAt (length w1.now) set.now first.now }
    requires second_table { IsTableAt (length w1.now) set.now second.now }
    requires first_small { AreWeightsWithin largest_number w1.now }
    requires second_small { AreWeightsWithin largest_number w2.now }
    requires heaviest { AreGreatestWeights (exchanges_in first.now) (exchanges_in second.now) (weight_at w1.now) (weight_at w2.now) heaviest }
    ensures found { IfOk result (IsFound (length w1.now) (exchanges_in first.now) (exchanges_in second.now) (weight_at w1.now) (weight_at w2.now)) }
    ensures stuck { IfOk result (λ found. (is_stuck found ≡ true)
        ↔ HasNoTightPath (length w1.now) (exchanges_in first.now) (exchanges_in second.now) (weight_at w1.now) (weight_at w2.now)) }
{
    let arcs = TightArcs {
        set,
        first,
        second,
        w1,
        w2,
        top1: heaviest.first,
        top2: heaviest.second,
    };
    match shortest_walk(alloc, &arcs)? {
        WalkSearch::Walk(path) => Ok(Found::Path(path)),
        WalkSearch::Reached(reach) => {
            let slack = least_slack(alloc, first, second, &reach, w1, w2)?;
            Ok(Found::Stuck { reach, slack })
        }
    }
}
