//! The numbers of a rung: the weight of its set, and the halves of its split.

ghost use Rattle.std.specs.{Prelude.{◌≡◌, ◌≤◌, length}, List.{list_all}};
ghost use Rattle.mat_sets.specs.{Limits.{largest_number, most_elements}, Sets.{all_below, IsSet}, Weights.{adds_up, AreWeightsWithin}};
ghost use Rattle.mat_cert.specs.Certificates.{IsRangedPart};
ghost use Rattle.mat_witness.specs.Shown.{is_priced};

use mat_cert::PricedRung;
use mat_sets::{Weight, first_unsplit, weigh};

// Whether the halves add up to the weight of each element.
fn all_add_up(weights: &[Weight], first: &[Weight], second: &[Weight]) -> bool
    requires few { length weights.now ≤ most_elements }
    requires first { length first.now ≡ length weights.now }
    requires second { length second.now ≡ length weights.now }
    requires first_small { AreWeightsWithin largest_number first.now }
    requires second_small { AreWeightsWithin largest_number second.now }
    ensures { result ≡ list_all (adds_up first.now second.now weights.now) (all_below (length weights.now)) }
{
    first_unsplit(weights, first, second).is_none()
}

/// Whether `count`, the number of elements that the answer states, is the number of weights, the weight of the rung is that of its set, and
/// its halves add up to the weights.
pub(crate) fn is_priced(weights: &[Weight], count: u32, rung: &PricedRung) -> bool
    requires few { length weights.now ≤ most_elements }
    requires small { AreWeightsWithin largest_number weights.now }
    requires set { IsSet count rung.now.set }
    requires first { IsRangedPart count rung.now.first }
    requires second { IsRangedPart count rung.now.second }
    ensures { result ≡ is_priced weights.now count rung.now }
{
    if count as usize != weights.len() {
        return false;
    }
    if rung.weight != weigh(&rung.set, weights) {
        return false;
    }
    all_add_up(weights, rung.first.as_slice(), rung.second.as_slice())
}
