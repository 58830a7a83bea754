//! The elements outside a reached set that a change of the weights lets in, each with the greatest of its gains: the frontier and the keys of
//! Dijkstra's algorithm, as the Hungarian method runs it (Schrijver, chapters 7 and 17).
ghost use Rattle.std.specs.Prelude.{◌≡◌, ◌&&◌, ◌==◌, if◌then◌else◌, ◌<◌, ◌≤◌, ℕ, true, [], length, IfOk, IfSome, OnOk};
ghost use Rattle.mat_sets.specs.{
  Bits.{bits_of},
  Limits.{largest_number, most_elements},
  Sets.{is_member, without_one},
  Weights.{◌⊕◌, ◌⊖◌, weight_at, IsWeightWithin, AreWeightsWithin},
};
ghost use Rattle.mat_laws.specs.TightPaths.{exchanges_in};
ghost use Rattle.mat_exchange.specs.{
  Changes.{change_room, lowered, raised},
  Growing.{IsHeaviestOrNone, IsOffered, gain_at, leads, entry_gain},
  Tops.{AreTops},
};

use crate::heaviest_members::heaviest_in_bucket;
use crate::row_table::RowTable;
use crate::slack::excess;
use crate::tops::{heaviest_top, raise_top};
use mat_sets::{BitSet, ElemSet, Weight};
use std::alloc::{AllocError, Global};
use std::marker::Model;

/// A set of numbers that have gains. Of each 64 numbers one with the greatest gain is at hand.
#[derive(Drop)]
pub(crate) struct Fringe {
    members: BitSet,
    gains: Vec<Weight>,
    tops: Vec<Option<u32>>,
}

impl Model for Fringe {
    ghost use Rattle.mat_exchange.specs.Tops.{AreTops, Frontier};

    ghost Value = { Frontier };

    ghost view = { λ f. record { members = f.members; gains = f.gains.items } };

    ghost invariant = { λ f. AreTops f.members f.gains.items f.tops.items };
}

impl Fringe {
    /// No numbers yet, of those below n. The only error is want of memory.
    pub(crate) fn new(alloc: Global, n: u32) -> Result<Fringe, AllocError>
        ensures members { IfOk result (λ f. f.members ≡ []) }
        ensures count { IfOk result (λ f. length f.gains ≡ n) }
    {
        let members = BitSet::with_capacity(alloc, n)?;
        let gains = vec![in alloc; Weight::ZERO; n as usize]?;
        let tops = vec![in alloc; None; n.div_ceil(64) as usize]?;
        Ok(Fringe {
            members,
            gains,
            tops,
        })
    }

    /// Offers a gain to z, which keeps the greatest: an arc to z is relaxed.
    fn offer(&mut self, z: u32, gain: Weight) -> Result<(), AllocError>
        requires { z < length self.old.gains }
        ensures length { length self.new.gains ≡ length self.old.gains }
        ensures offered { OnOk result (IsOffered (λ v. v == z) (λ v. gain)
            self.old.members (weight_at self.old.gains) self.new.members (weight_at self.new.gains)) }
    {
        offer_one(&mut self.members, &mut self.gains, &mut self.tops, z, gain)
    }

    /// Takes x out, and seeks the next with the greatest gain of its 64 numbers.
    pub(crate) fn remove(&mut self, x: u32)
        requires few { length self.old.gains ≤ most_elements }
        requires below { x < length self.old.gains }
        ensures members { self.new.members ≡ without_one self.old.members x }
        ensures gains { self.new.gains ≡ self.old.gains }
    {
        let at = (x / 64) as usize;
        self.members.remove(x);
        let top = heaviest_in_bucket(self.members.as_words(), at, self.gains.as_slice());
        self.tops[at] = top;
    }

    /// A member with the greatest gain; none where there is no member. The time is that of one number in 64.
    pub(crate) fn heaviest(&self) -> Option<u32>
        ensures heaviest { IsHeaviestOrNone (λ x. is_member x self.now.members) (weight_at self.now.gains) result }
        ensures below { IfSome result (λ x. x < length self.now.gains) }
    {
        heaviest_top(self.tops.as_slice(), self.gains.as_slice())
    }

    /// The gain of x.
    pub(crate) fn gain(&self, x: u32) -> Weight
        requires { x < length self.now.gains }
        ensures { result ≡ weight_at self.now.gains x }
    {
        self.gains[x as usize]
    }
}

/// Offers a gain to z, which keeps the greatest.
fn offer_one(
    members: &mut BitSet,
    gains: &mut Vec<Weight>,
    tops: &mut Vec<Option<u32>>,
    z: u32,
    gain: Weight,
) -> Result<(), AllocError>
    requires below { z < length gains.old.items }
    requires tops { AreTops members.old gains.old.items tops.old.items }
    ensures length { length gains.new.items ≡ length gains.old.items }
    ensures offered { OnOk result (IsOffered (λ v. v == z) (λ v. gain) members.old (weight_at gains.old.items) members.new (weight_at gains.new.items)) }
    ensures tops { AreTops members.new gains.new.items tops.new.items }
{
    if !members.contains(z) {
        members.insert(z)?;
        gains[z as usize] = gain;
        raise_top(tops, z, gains.as_slice());
    } else if gains[z as usize] < gain {
        gains[z as usize] = gain;
        raise_top(tops, z, gains.as_slice());
    }
    Ok(())
}

/// By how much z weighs more than x if `inside`, and x more than z if not.
fn gain_of(weights: &[Weight], x: u32, z: u32, inside: bool) -> Weight
    requires small { AreWeightsWithin largest_number weights.now }
    requires from_below { x < length weights.now }
    requires to_below { z < length weights.now }
    ensures { result ≡ gain_at inside (weight_at weights.now) x z }
{
    if inside {
        excess(weights[z as usize], weights[x as usize])
    } else {
        excess(weights[x as usize], weights[z as usize])
    }
}

/// Offers to each candidate outside the reached set its gain from x, so that the arcs from x are relaxed. The candidates are given as bits.
pub(crate) fn offer(
    candidates: &[u64],
    others: &BitSet,
    weights: &[Weight],
    x: u32,
    inside: bool,
    fringe: &mut Fringe,
) -> Result<(), AllocError>
    requires few { length weights.now ≤ most_elements }
    requires lengths { length fringe.old.gains ≡ length weights.now }
    requires small { AreWeightsWithin largest_number weights.now }
    requires from_below { x < length weights.now }
    requires others { (v : ℕ) → is_member v others.now ≡ true → v < length weights.now }
    ensures length { length fringe.new.gains ≡ length fringe.old.gains }
    ensures offered { OnOk result (IsOffered (λ v. is_member v (bits_of candidates.now) && is_member v others.now)
        (gain_at inside (weight_at weights.now) x) fringe.old.members (weight_at fringe.old.gains) fringe.new.members (weight_at fringe.new.gains)) }
{
    let mut from = 0;
    while let Some(z) = others.next_among(candidates, from) {
        let gain = gain_of(weights, x, z, inside);
        fringe.offer(z, gain)?;
        from = z + 1;
    }
    Ok(())
}

/// Offers its gain to each element outside the reached set to which an arc from x can lead. Where x is a member, elements that can be added in
/// the first matroid are passed over: their gain by that is at least as great.
pub(crate) fn offer_exchanges(
    first: &RowTable,
    second: &RowTable,
    set: &ElemSet,
    w1: &[Weight],
    w2: &[Weight],
    x: u32,
    others: &BitSet,
    fringe: &mut Fringe,
) -> Result<(), AllocError>
    requires few { length w1.now ≤ most_elements }
    requires lengths { length w2.now ≡ length w1.now }
    requires gains { length fringe.old.gains ≡ length w1.now }
    requires first_count { length first.now ≡ length w1.now }
    requires second_count { length second.now ≡ length w1.now }
    requires first_small { AreWeightsWithin largest_number w1.now }
    requires second_small { AreWeightsWithin largest_number w2.now }
    requires from_below { x < length w1.now }
    requires others { (v : ℕ) → is_member v others.now ≡ true → v < length w1.now }
    ensures length { length fringe.new.gains ≡ length fringe.old.gains }
    ensures offered { OnOk result (IsOffered (λ v. leads (exchanges_in first.now) (exchanges_in second.now) set.now x v && is_member v others.now)
        (entry_gain (weight_at w1.now) (weight_at w2.now) set.now x) fringe.old.members (weight_at fringe.old.gains) fringe.new.members (weight_at fringe.new.gains)) }
{
    if set.contains(x) {
        offer(first.rest_of_column(x), others, w1, x, true, fringe)
    } else {
        offer(second.row(x), others, w2, x, false, fringe)
    }
}

/// Adds `step` to the weights of the members.
fn raise_on(weights: &mut [Weight], members: &BitSet, step: Weight)
    requires few { length weights.old ≤ most_elements }
    requires below { (x : ℕ) → is_member x members.now ≡ true → x < length weights.old }
    requires small { (x : ℕ) → is_member x members.now ≡ true → IsWeightWithin largest_number (weight_at weights.old x) }
    requires step { IsWeightWithin change_room step }
    ensures length { length weights.new ≡ length weights.old }
    ensures weights { (x : ℕ) → weight_at weights.new x ≡ raised (weight_at weights.old) members.now step x }
{
    let mut from = 0;
    while let Some(x) = members.next_from(from) {
        weights[x as usize] += step;
        from = x + 1;
    }
}

/// Adds the change so far to the first weight of x and takes it off the second, so that x can change together with the set that it enters.
pub(crate) fn put_back(w1: &mut [Weight], w2: &mut [Weight], x: u32, total: Weight)
    requires lengths { length w2.old ≡ length w1.old }
    requires below { x < length w1.old }
    requires first_small { AreWeightsWithin largest_number w1.old }
    requires second_small { AreWeightsWithin largest_number w2.old }
    requires total { IsWeightWithin change_room total }
    ensures first_length { length w1.new ≡ length w1.old }
    ensures second_length { length w2.new ≡ length w2.old }
    ensures first { (z : ℕ) → weight_at w1.new z ≡ (if z == x then weight_at w1.old z ⊕ total else weight_at w1.old z) }
    ensures second { (z : ℕ) → weight_at w2.new z ≡ (if z == x then weight_at w2.old z ⊖ total else weight_at w2.old z) }
{
    w1[x as usize] += total;
    w2[x as usize] = w2[x as usize] - total;
}

/// The change of the weights of the reached set by `step`: the first fall, and the second rise.
pub(crate) fn change(w1: &mut [Weight], w2: &mut [Weight], reached: &BitSet, step: Weight)
    requires few { length w1.old ≤ most_elements }
    requires lengths { length w2.old ≡ length w1.old }
    requires reached { (x : ℕ) → is_member x reached.now ≡ true → x < length w1.old }
    requires first_small { AreWeightsWithin largest_number w1.old }
    requires second_small { AreWeightsWithin largest_number w2.old }
    requires step { IsWeightWithin change_room step }
    ensures first_length { length w1.new ≡ length w1.old }
    ensures second_length { length w2.new ≡ length w2.old }
    ensures first { (x : ℕ) → weight_at w1.new x ≡ lowered (weight_at w1.old) reached.now step x }
    ensures second { (x : ℕ) → weight_at w2.new x ≡ raised (weight_at w2.old) reached.now step x }
{
    raise_on(w1, reached, -step);
    raise_on(w2, reached, step);
}
