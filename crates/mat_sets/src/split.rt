//! Weights that are split in two parts.
ghost use Rattle.std.specs.Prelude.{◌≡◌, ◌<◌, ◌≤◌, ℕ, true, not, length, MatchOption};
ghost use Rattle.mat_sets.specs.{Limits.{largest_number, most_elements}, Search.{IsFirstFrom}, Weights.{adds_up, AreWeightsWithin}};

use crate::weight::Weight;

// Whether the two parts add up to the weight of e.
fn adds_up(weights: &[Weight], first: &[Weight], second: &[Weight], e: u32) -> bool
    requires below { e < length weights.now }
    requires first { length first.now ≡ length weights.now }
    requires second { length second.now ≡ length weights.now }
    requires first_small { AreWeightsWithin largest_number first.now }
    requires second_small { AreWeightsWithin largest_number second.now }
    ensures { result ≡ adds_up first.now second.now weights.now e }
{
    let at = e as usize;
    first[at] + second[at] == weights[at]
}

/// The first element at which two parts of the weights don't add up to its weight; none where they do at each.
pub fn first_unsplit(weights: &[Weight], first: &[Weight], second: &[Weight]) -> Option<u32>
    requires few { length weights.now ≤ most_elements }
    requires first { length first.now ≡ length weights.now }
    requires second { length second.now ≡ length weights.now }
    requires first_small { AreWeightsWithin largest_number first.now }
    requires second_small { AreWeightsWithin largest_number second.now }
    ensures { MatchOption result ((e : ℕ) → e < length weights.now → adds_up first.now second.now weights.now e ≡ true)
        (λ e. (e < length weights.now) × IsFirstFrom (λ x. not (adds_up first.now second.now weights.now x)) 0 e) }
{
    for e in 0..weights.len() as u32 {
        if !adds_up(weights, first, second, e) {
            return Some(e);
        }
    }
    None
}
