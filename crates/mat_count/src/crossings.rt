//! Sets that cross: they share a member, and neither contains the other.
ghost use Rattle.std.specs.Prelude.{◌≡◌, ◌<◌, ◌^◌, length, MatchOption};
ghost use Rattle.mat_count.specs.{Laminar.{crosses}, LaminarFaults.{IsFirstCrossing, NoneCrosses}};

use mat_sets::{BitSet, ElemSet};

// Whether two sets cross: they share a member, and neither lies inside the other.
fn do_cross(a: &ElemSet, b: &ElemSet) -> bool
    ensures { result ≡ crosses a.now b.now }
{
    if a.is_disjoint(b) {
        return false;
    }
    !a.is_subset(b) && !b.is_subset(a)
}

/// The least index of a set that crosses `next`, if one does. It takes no memory; for each of the sets that are looked at the time is that of
/// reading it and `next`.
pub fn crossing(sets: &[ElemSet], next: &ElemSet) -> Option<u32>
    requires { length sets.now < 2 ^ 32 }
    ensures { MatchOption result (NoneCrosses sets.now next.now) (λ a. IsFirstCrossing sets.now next.now a) }
{
    for i in 0..sets.len() {
        if do_cross(&sets[i], next) {
            return Some(i as u32);
        }
    }
    None
}

// Whether two sets of bits cross.
fn bits_cross(a: &BitSet, b: &BitSet) -> bool
    ensures { result ≡ crosses a.now b.now }
{
    if a.next_common(b, 0).is_none() {
        return false;
    }
    !a.is_subset(b) && !b.is_subset(a)
}

/// What `crossing` answers, of sets that are kept as bits. It takes no memory; for each of the sets that are looked at the time is that of
/// reading its words and those of `next`, which have 64 numbers each.
pub fn crossing_bits(sets: &[BitSet], next: &BitSet) -> Option<u32>
    requires { length sets.now < 2 ^ 32 }
    ensures { MatchOption result (NoneCrosses sets.now next.now) (λ a. IsFirstCrossing sets.now next.now a) }
{
    for i in 0..sets.len() {
        if bits_cross(&sets[i], next) {
            return Some(i as u32);
        }
    }
    None
}
