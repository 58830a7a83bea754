//! The tight arcs at a common independent set of two matroids.
ghost use Rattle.std.specs.Prelude.{◌≡◌, ◌<◌, ◌≤◌, ◌&&◌, ◌||◌, ℕ, Bool, true, length};
ghost use Rattle.mat_sets.specs.{
  Bits.{bits_of},
  Limits.{most_elements},
  Search.{IsNextFrom},
  Sets.{is_member},
  Weights.{is_same, weight_at},
};
ghost use Rattle.mat_laws.specs.TightPaths.{exchanges_in, is_heaviest_addable};
ghost use Rattle.mat_exchange.specs.HeaviestAddable.{IsHeaviestWeightOrNone, is_above};

use crate::row_table::RowTable;
use mat_sets::{BitSet, ElemSet, Relation, Weight};

/// The tight arcs at a set, by the tables of both matroids, the weights, and the greatest weights of the elements that can be
/// added (Frank 1981).
#[derive(Drop)]
pub(crate) struct TightArcs<'a> {
    pub(crate) set: &'a ElemSet,
    pub(crate) first: &'a RowTable,
    pub(crate) second: &'a RowTable,
    pub(crate) w1: &'a [Weight],
    pub(crate) w2: &'a [Weight],
    pub(crate) top1: Option<Weight>,
    pub(crate) top2: Option<Weight>,
}

impl Relation for TightArcs<'_> {
    ghost use Rattle.std.specs.Prelude.{length};
    ghost use Rattle.mat_laws.specs.TightPaths.{exchanges_in, is_heaviest_addable, is_tight};
    ghost use Rattle.mat_exchange.specs.TightSearches.{AreTightArcs};

    ghost count = { λ a. length a.w1.now };

    ghost sound = { λ a. AreTightArcs a.set.now a.first.now a.second.now a.w1.now a.w2.now a.top1 a.top2 };

    ghost arc = { λ a. is_tight (exchanges_in a.first.now) (exchanges_in a.second.now) (weight_at a.w1.now) (weight_at a.w2.now) };

    ghost start = { λ a. is_heaviest_addable (length a.w1.now) (exchanges_in a.first.now) (weight_at a.w1.now) };

    ghost goal = { λ a. is_heaviest_addable (length a.w1.now) (exchanges_in a.second.now) (weight_at a.w2.now) };

    fn size(&self) -> u32 {
        self.w1.len() as u32
    }

    fn is_start(&self, v: u32) -> bool {
        is_heaviest(self.first, self.w1, self.top1, v)
    }

    fn is_goal(&self, v: u32) -> bool {
        is_heaviest(self.second, self.w2, self.top2, v)
    }

    fn next_arc(&self, u: u32, among: &BitSet, from: u32) -> Option<u32> {
        if self.set.contains(u) {
            next_in_column(self.first, among, self.w1, self.top1, u, from)
        } else {
            next_equal(self.second.row(u), among, self.w2, u, from)
        }
    }
}

/// Whether x can be added and has the greatest weight of those that can.
pub(crate) fn is_heaviest(table: &RowTable, weights: &[Weight], top: Option<Weight>, x: u32) -> bool
    requires table { length table.now ≡ length weights.now }
    requires below { x < length weights.now }
    requires top { IsHeaviestWeightOrNone (exchanges_in table.now).adds (weight_at weights.now) top }
    ensures { result ≡ is_heaviest_addable (length weights.now) (exchanges_in table.now) (weight_at weights.now) x }
{
    match top {
        Some(weight) => table.addable(x) && weighs(weights, x, weight),
        None => false,
    }
}

/// Whether x has this weight.
fn weighs(weights: &[Weight], x: u32, weight: Weight) -> bool
    requires { x < length weights.now }
    ensures { result ≡ is_same weight (weight_at weights.now x) }
{
    weight == weights[x as usize]
}

/// The first element from `from` on that is in `among`, can be exchanged for u, and weighs as much as u.
fn next_in_column(
    table: &RowTable,
    among: &BitSet,
    weights: &[Weight],
    top: Option<Weight>,
    u: u32,
    from: u32,
) -> Option<u32>
    requires few { length weights.now ≤ most_elements }
    requires table { length table.now ≡ length weights.now }
    requires below { u < length weights.now }
    requires top { IsHeaviestWeightOrNone (exchanges_in table.now).adds (weight_at weights.now) top }
    requires among { (v : ℕ) → is_member v among.now ≡ true → v < length weights.now }
    ensures { IsNextFrom (λ v. ((exchanges_in table.now).trades u v && is_member v among.now)
        && is_same (weight_at weights.now u) (weight_at weights.now v)) from result }
{
    let rest = next_equal(table.rest_of_column(u), among, weights, u, from);
    if !table.base().contains(u) {
        return rest;
    }
    if outweighs(weights[u as usize], top) {
        return rest;
    }
    let addable = table.addable_elements().as_words();
    earlier(rest, next_equal(addable, among, weights, u, from))
}

/// Whether a weight is above another, or there is no other.
fn outweighs(weight: Weight, top: Option<Weight>) -> bool
    ensures { result ≡ is_above weight top }
{
    match top {
        Some(most) => most < weight,
        None => true,
    }
}

/// The earlier of two numbers, where there are any.
fn earlier(a: Option<u32>, b: Option<u32>) -> Option<u32>
    ensures { (one two : ℕ → Bool) (from : ℕ) → IsNextFrom one from a → IsNextFrom two from b → IsNextFrom (λ v. one v || two v) from result }
{
    match (a, b) {
        (Some(x), Some(y)) if y < x => Some(y),
        (Some(x), _) => Some(x),
        (None, _) => b,
    }
}

/// The first element from `from` on that is among these bits and in `among`, and weighs as much as u.
fn next_equal(
    candidates: &[u64],
    among: &BitSet,
    weights: &[Weight],
    u: u32,
    from: u32,
) -> Option<u32>
    requires few { length weights.now ≤ most_elements }
    requires below { u < length weights.now }
    requires among { (v : ℕ) → is_member v among.now ≡ true → v < length weights.now }
    ensures { IsNextFrom (λ v. (is_member v (bits_of candidates.now) && is_member v among.now)
        && is_same (weight_at weights.now u) (weight_at weights.now v)) from result }
{
    let weight = weights[u as usize];
    let mut at = from;
    while let Some(v) = among.next_among(candidates, at) {
        if weighs(weights, v, weight) {
            return Some(v);
        }
        at = v + 1;
    }
    None
}
