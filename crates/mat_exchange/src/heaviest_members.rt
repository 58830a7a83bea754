//! A heaviest member of a set, and one that two sets have in common.
ghost use Rattle.std.specs.Prelude.{◌≡◌, ◌&&◌, ◌*◌, ◌<◌, ◌≤◌, ℕ, true, length, IfSome};
ghost use Rattle.mat_sets.specs.{Bits.{bits_of}, Limits.{most_elements}, Sets.{is_member}, Weights.{weight_at}};
ghost use Rattle.mat_exchange.specs.Growing.{heavier_of, IsHeaviestOrNone};
ghost use Rattle.mat_exchange.specs.HeaviestMembers.{heavier_of_two, in_bucket};

use mat_sets::{BitSet, Weight};

/// The heavier of x and the heaviest element so far, if there is one.
pub(crate) fn heavier(heaviest: Option<u32>, x: u32, weights: &[Weight]) -> Option<u32>
    requires below { x < length weights.now }
    requires heaviest { IfSome heaviest (λ y. y < length weights.now) }
    ensures { result ≡ heavier_of (weight_at weights.now) heaviest x }
{
    match heaviest {
        Some(y) => Some(if weights[y as usize] < weights[x as usize] {
            x
        } else {
            y
        }),
        None => Some(x),
    }
}

/// The heavier of the heaviest element so far and another, where there are any.
pub(crate) fn heavier_of_both(
    heaviest: Option<u32>,
    other: Option<u32>,
    weights: &[Weight],
) -> Option<u32>
    requires heaviest { IfSome heaviest (λ y. y < length weights.now) }
    requires other { IfSome other (λ y. y < length weights.now) }
    ensures { result ≡ heavier_of_two (weight_at weights.now) heaviest other }
{
    match other {
        Some(x) => heavier(heaviest, x, weights),
        None => heaviest,
    }
}

/// A heaviest one of the members in a word, a bucket of 64 numbers; none if it has none. The time is that of the members in the word.
pub(crate) fn heaviest_in_bucket(words: &[u64], at: usize, weights: &[Weight]) -> Option<u32>
    requires few { length weights.now ≤ most_elements }
    requires starts { at * 64 < length weights.now }
    requires below { (x : ℕ) → is_member x (bits_of words.now) ≡ true → x < length weights.now }
    ensures { IsHeaviestOrNone (in_bucket (bits_of words.now) at) (weight_at weights.now) result }
{
    if at >= words.len() {
        return None;
    }
    let first = at as u32 * 64;
    let mut heaviest = None;
    let mut rest = words[at];
    while rest != 0 {
        let bit = rest.trailing_zeros();
        heaviest = heavier(heaviest, first + bit, weights);
        rest &= !(1 << bit);
    }
    heaviest
}

/// A heaviest member; none where the set is empty. The time is that of the members and of the words of the weights.
pub(crate) fn heaviest_member(members: &BitSet, weights: &[Weight]) -> Option<u32>
    requires few { length weights.now ≤ most_elements }
    requires below { (x : ℕ) → is_member x members.now ≡ true → x < length weights.now }
    ensures { IsHeaviestOrNone (λ x. is_member x members.now) (weight_at weights.now) result }
{
    let words = members.as_words();
    let mut heaviest = None;
    for at in 0..weights.len().div_ceil(64) {
        let top = heaviest_in_bucket(words, at, weights);
        heaviest = heavier_of_both(heaviest, top, weights);
    }
    heaviest
}

/// A heaviest member that two sets have in common; none where they have none. The time is that of those members and of the words of the sets.
pub(crate) fn heaviest_common(first: &BitSet, second: &BitSet, weights: &[Weight]) -> Option<u32>
    requires few { length weights.now ≤ most_elements }
    requires below { (x : ℕ) → (is_member x first.now && is_member x second.now) ≡ true → x < length weights.now }
    ensures { IsHeaviestOrNone (λ x. is_member x first.now && is_member x second.now) (weight_at weights.now) result }
{
    let mut heaviest = None;
    let mut from = 0;
    while let Some(x) = first.next_common(second, from) {
        heaviest = heavier(heaviest, x, weights);
        from = x + 1;
    }
    heaviest
}
