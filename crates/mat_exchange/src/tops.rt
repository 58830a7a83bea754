//! Buckets of 64 numbers, each with a member that has the greatest gain of those in it: so a priority queue is kept where its keys only rise
//! until they are taken out.
ghost use Rattle.std.specs.Prelude.{◌≡◌, ◌/◌, ◌<◌, ℕ, List, length, slice_set, IfSome};
ghost use Rattle.mat_sets.specs.{Sets.{is_member}, Weights.{weight_at}};
ghost use Rattle.mat_exchange.specs.Growing.{heavier_of, IsHeaviestOrNone};
ghost use Rattle.mat_exchange.specs.Tops.{top_at, AreTops};

use crate::heaviest_members::{heavier, heavier_of_both};
use mat_sets::Weight;

/// z has come, or its gain has risen: it is the top of its bucket if its gain is greater than that of the top.
pub(crate) fn raise_top(tops: &mut Vec<Option<u32>>, z: u32, gains: &[Weight])
    requires bucket { z / 64 < length tops.old.items }
    requires below { z < length gains.now }
    requires top { IfSome (top_at tops.old.items (z / 64)) (λ y. y < length gains.now) }
    ensures { tops.new.items ≡ slice_set tops.old.items (z / 64) (heavier_of (weight_at gains.now) (top_at tops.old.items (z / 64)) z) }
{
    let at = (z / 64) as usize;
    let top = heavier(tops[at], z, gains);
    tops[at] = top;
}

/// A number with the greatest gain of all tops; none where there is no top.
pub(crate) fn heaviest_top(tops: &[Option<u32>], gains: &[Weight]) -> Option<u32>
    requires { (members : List ℕ) × AreTops members gains.now tops.now }
    ensures { (members : List ℕ) → AreTops members gains.now tops.now → IsHeaviestOrNone (λ x. is_member x members) (weight_at gains.now) result }
{
    let mut heaviest = None;
    for at in 0..tops.len() {
        heaviest = heavier_of_both(heaviest, tops[at], gains);
    }
    heaviest
}
