//! What the numbers of an answer come to.

ghost use Rattle.std.specs.Prelude.{◌≡◌, ◌+◌, ◌≤◌, length, All};
ghost use Rattle.mat_sets.specs.{Limits.{largest_number, most_elements, most_matroids}, Weights.{IsWeightWithin}};
ghost use Rattle.mat_summary.specs.Summaries.{all_members, ladder_weight, last_weight};

use mat_cert::PricedRung;
use mat_sets::{ElemSet, Weight};

/// The weight of the last rung, and 0 where there is none.
pub(crate) fn last_weight(rungs: &[PricedRung]) -> Weight
    ensures { result ≡ last_weight rungs.now }
{
    match rungs.last() {
        Some(rung) => rung.weight,
        None => Weight::ZERO,
    }
}

/// The weights of all rungs, added: at most 501 rungs, both numbers of each weight within ±10^30. It takes no memory.
pub(crate) fn ladder_weight(rungs: &[PricedRung]) -> Weight
    requires few { length rungs.now ≤ most_elements + 1 }
    requires small { All (λ rung. IsWeightWithin largest_number rung.weight) rungs.now }
    ensures { result ≡ ladder_weight rungs.now }
{
    let mut sum = Weight::ZERO;
    for rung in rungs {
        sum += rung.weight;
    }
    sum
}

/// How many members the sets have together: at most 64 sets of at most 500 members each. It takes no memory.
pub(crate) fn all_members(sets: &[ElemSet]) -> usize
    requires few { length sets.now ≤ most_matroids }
    requires small { All (λ set. length set ≤ most_elements) sets.now }
    ensures { result ≡ all_members sets.now }
{
    let mut count = 0;
    for set in sets {
        count += set.len();
    }
    count
}
