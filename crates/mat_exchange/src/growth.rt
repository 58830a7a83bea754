//! The search that grows until it finds a tight path or has no slack.
ghost use Rattle.std.specs.Prelude.{◌≡◌, ◌<◌, ◌≤◌, ◌&&◌, ◌==◌, ℕ, true, not, nat_lt, [], length, IfOk, OnOk, ◌↔◌};
ghost use Rattle.mat_sets.specs.{
  Limits.{most_elements, largest_number, largest_weight, split_room},
  Sets.{is_member, with_one},
  Weights.{◌⊕◌, weight_at, IsWeightWithin, AreWeightsWithin},
};
ghost use Rattle.mat_laws.specs.TightPaths.{exchanges_in};
ghost use Rattle.mat_exchange.specs.{
  RowTables.{AreAlike},
  Tables.{IsTableAt},
  Searching.{is_stuck, HasNoTightPath},
  Growing.{IsEntry, IsFringe, NoExchangeGains, IsGrown, IsGrownSplit, IsHeaviestOf, StaysHeaviest, sum_at},
  HeaviestAddable.{AreGreatestWeights, IsHeaviestWeightOrNone},
};

use crate::fringe::{Fringe, change, offer, offer_exchanges, put_back};
use crate::grown::Grown;
use crate::heaviest_addable::{GreatestWeights, heaviest_addable, heaviest_with};
use crate::heaviest_members::heaviest_member;
use crate::path_search::tight_search_with;
use crate::row_table::RowTable;
use crate::slack::excess_or_none;
use crate::steps::{NextStep, next_step};
use crate::tight_arcs::is_heaviest;
use mat_sets::{BitSet, ElemSet, PairWeights, Weight};
use std::alloc::{AllocError, Global};

/// A set that is reached from one source, and the elements outside it.
#[derive(Drop)]
struct GrowingReach {
    reached: BitSet,
    others: BitSet,
    // Those of the others that a change of the weights lets in.
    fringe: Fringe,
}

/// The two halves of the weights after all changes, and the greatest weights of what can be added under them.
#[derive(Drop)]
struct GrownHalves {
    first: PairWeights,
    second: PairWeights,
    heaviest: GreatestWeights,
}

/// The root alone is reached, and the elements that can be added and those that its arcs can lead to are offered their gains.
fn reach_root(
    alloc: Global,
    first: &RowTable,
    second: &RowTable,
    set: &ElemSet,
    root: u32,
    w1: &[Weight],
    w2: &[Weight],
) -> Result<GrowingReach, AllocError>
    requires few { length w1.now ≤ most_elements }
    requires lengths { length w2.now ≡ length w1.now }
    requires first_table { IsTableAt (length w1.now) set.now first.now }
    requires second_table { IsTableAt (length w1.now) set.now second.now }
    requires first_small { AreWeightsWithin largest_number w1.now }
    requires second_small { AreWeightsWithin largest_number w2.now }
    requires root { root < length w1.now }
    ensures length { IfOk result (λ g. length g.fringe.gains ≡ length w1.now) }
    ensures reached { IfOk result (λ g. g.reached ≡ with_one [] root) }
    ensures others { IfOk result (λ g. (x : ℕ) → is_member x g.others ≡ (nat_lt x (length w1.now) && not (x == root))) }
    ensures fringe { IfOk result (λ g. IsFringe g.others g.fringe.members
        (IsEntry (exchanges_in first.now) (exchanges_in second.now) (weight_at w1.now) (weight_at w2.now) root g.reached) (weight_at g.fringe.gains)) }
    ensures alike { OnOk result (AreAlike (exchanges_in first.now)) }
{
    let n = w1.len() as u32;
    let mut reached = BitSet::with_capacity(alloc, n)?;
    let mut others = BitSet::all_below(alloc, n)?;
    let mut fringe = Fringe::new(alloc, n)?;
    reached.insert(root)?;
    others.remove(root);
    offer(
        first.addable_elements().as_words(),
        &others,
        w1,
        root,
        true,
        &mut fringe,
    )?;
    offer_exchanges(first, second, set, w1, w2, root, &others, &mut fringe)?;
    Ok(GrowingReach {
        reached,
        others,
        fringe,
    })
}

/// Lets the reached set grow from one source, and changes the weights as it needs, until it holds a sink or nothing can enter it. The
/// change is one number, which is put on the weights of the whole set only at the end; so the change so far is first undone at an element
/// that enters, and the gains of the fringe are less by it. The source stays a heaviest addable element of the first matroid, and
/// `top` the greatest weight of what can be added in the second.
fn grow_from(
    alloc: Global,
    first: &RowTable,
    second: &RowTable,
    set: &ElemSet,
    root: u32,
    top: Option<Weight>,
    w1: &mut [Weight],
    w2: &mut [Weight],
) -> Result<(), AllocError>
    requires few { length w1.old ≤ most_elements }
    requires lengths { length w2.old ≡ length w1.old }
    requires first_table { IsTableAt (length w1.old) set.now first.now }
    requires second_table { IsTableAt (length w1.old) set.now second.now }
    requires root { IsHeaviestOf (exchanges_in first.now).adds (weight_at w1.old) root }
    requires first_gains { NoExchangeGains (exchanges_in first.now) (weight_at w1.old) }
    requires second_gains { NoExchangeGains (exchanges_in second.now) (weight_at w2.old) }
    requires small { (x : ℕ) → x < length w1.old → IsWeightWithin largest_weight (weight_at w1.old x ⊕ weight_at w2.old x) }
    requires second_small { AreWeightsWithin split_room w2.old }
    requires top { IsHeaviestWeightOrNone (exchanges_in second.now).adds (weight_at w2.old) top }
    ensures first_length { length w1.new ≡ length w1.old }
    ensures second_length { length w2.new ≡ length w2.old }
    ensures grown { OnOk result (IsGrownSplit (length w1.old) (exchanges_in first.now) (exchanges_in second.now)
        (sum_at (weight_at w1.old) (weight_at w2.old)) (weight_at w2.old) (weight_at w1.new) (weight_at w2.new)) }
    ensures root { OnOk result (IsHeaviestOf (exchanges_in first.now).adds (weight_at w1.new) root) }
    ensures top { OnOk result (IsHeaviestWeightOrNone (exchanges_in second.now).adds (weight_at w2.new) top) }
{
    let GrowingReach {
        mut reached,
        mut others,
        mut fringe,
    } = reach_root(alloc, first, second, set, root, w1, w2)?;
    let mut inside = heaviest_with(second, None, root, w2);
    let mut total = Weight::ZERO;
    loop {
        let slack = excess_or_none(top, inside);
        match next_step(&fringe, slack) {
            NextStep::Enter(x, step) => {
                put_back(w1, w2, x, step);
                total = step;
                reached.insert(x)?;
                others.remove(x);
                fringe.remove(x);
                inside = heaviest_with(second, inside, x, w2);
                offer_exchanges(first, second, set, w1, w2, x, &others, &mut fringe)?;
            }
            NextStep::Sink(step) => {
                change(w1, w2, &reached, step);
                return Ok(());
            }
            NextStep::Nothing => {
                change(w1, w2, &reached, total);
                return Ok(());
            }
        }
    }
}

/// The same from a heaviest addable element of the first matroid; where there is none, nothing changes. The answer is the greatest weights of
/// what can be added, after the changes.
fn grow_from_heaviest(
    alloc: Global,
    first: &RowTable,
    second: &RowTable,
    set: &ElemSet,
    w1: &mut [Weight],
    w2: &mut [Weight],
) -> Result<GreatestWeights, AllocError>
    requires few { length w1.old ≤ most_elements }
    requires lengths { length w2.old ≡ length w1.old }
    requires first_table { IsTableAt (length w1.old) set.now first.now }
    requires second_table { IsTableAt (length w1.old) set.now second.now }
    requires first_gains { NoExchangeGains (exchanges_in first.now) (weight_at w1.old) }
    requires second_gains { NoExchangeGains (exchanges_in second.now) (weight_at w2.old) }
    requires small { (x : ℕ) → x < length w1.old → IsWeightWithin largest_weight (weight_at w1.old x ⊕ weight_at w2.old x) }
    requires second_small { AreWeightsWithin split_room w2.old }
    ensures first_length { length w1.new ≡ length w1.old }
    ensures second_length { length w2.new ≡ length w2.old }
    ensures grown { OnOk result (IsGrownSplit (length w1.old) (exchanges_in first.now) (exchanges_in second.now)
        (sum_at (weight_at w1.old) (weight_at w2.old)) (weight_at w2.old) (weight_at w1.new) (weight_at w2.new)) }
    ensures heaviest { IfOk result (AreGreatestWeights (exchanges_in first.now) (exchanges_in second.now) (weight_at w1.new) (weight_at w2.new)) }
{
    let Some(root) = heaviest_member(first.addable_elements(), w1) else {
        return Ok(GreatestWeights {
            first: None,
            second: heaviest_addable(second, w2),
        });
    };
    let top = heaviest_addable(second, w2);
    if is_heaviest(second, w2, top, root) {
        return Ok(GreatestWeights {
            first: Some(w1[root as usize]),
            second: top,
        });
    }
    grow_from(alloc, first, second, set, root, top, w1, w2)?;
    Ok(GreatestWeights {
        first: Some(w1[root as usize]),
        second: top,
    })
}

/// The two halves once the weights have changed until a search for a tight path finds one, or is stuck without a slack.
fn grown_halves(
    alloc: Global,
    first: &RowTable,
    second: &RowTable,
    set: &ElemSet,
    w1: &[Weight],
    w2: &[Weight],
) -> Result<GrownHalves, AllocError>
    requires few { length w1.now ≤ most_elements }
    requires lengths { length w2.now ≡ length w1.now }
    requires first_table { IsTableAt (length w1.now) set.now first.now }
    requires second_table { IsTableAt (length w1.now) set.now second.now }
    requires first_gains { NoExchangeGains (exchanges_in first.now) (weight_at w1.now) }
    requires second_gains { NoExchangeGains (exchanges_in second.now) (weight_at w2.now) }
    requires small { (x : ℕ) → x < length w1.now → IsWeightWithin largest_weight (weight_at w1.now x ⊕ weight_at w2.now x) }
    requires second_small { AreWeightsWithin split_room w2.now }
    ensures first_length { IfOk result (λ halves. length halves.first ≡ length w1.now) }
    ensures second_length { IfOk result (λ halves. length halves.second ≡ length w1.now) }
    ensures grown { IfOk result (λ halves. IsGrownSplit (length w1.now) (exchanges_in first.now) (exchanges_in second.now)
        (sum_at (weight_at w1.now) (weight_at w2.now)) (weight_at w2.now) (weight_at halves.first) (weight_at halves.second)) }
    ensures heaviest { IfOk result (λ halves. AreGreatestWeights (exchanges_in first.now) (exchanges_in second.now)
        (weight_at halves.first) (weight_at halves.second) halves.heaviest) }
{
    let mut new1 = Vec::from_slice(alloc, w1)?;
    let mut new2 = Vec::from_slice(alloc, w2)?;
    let heaviest = grow_from_heaviest(alloc, first, second, set, &mut new1, &mut new2)?;
    Ok(GrownHalves {
        first: PairWeights::new(new1),
        second: PairWeights::new(new2),
        heaviest,
    })
}

/// Changes the two weights until a tight path with fewest vertices is found, or there is none and the reached set has no slack
/// (Frank 1981; Schrijver, chapter 41). One reached set grows, and a table has the least change after which each element outside enters it, as in the
/// Hungarian method; so the time is that of the pairs of elements, and of one search. The only error is want of memory.
pub fn grow(
    alloc: Global,
    first: &RowTable,
    second: &RowTable,
    set: &ElemSet,
    w1: &[Weight],
    w2: &[Weight],
) -> Result<Grown, AllocError>
    requires few { length w1.now ≤ most_elements }
    requires lengths { length w2.now ≡ length w1.now }
    requires first_table { IsTableAt (length w1.now) set.now first.now }
    requires second_table { IsTableAt (length w1.now) set.now second.now }
    requires first_gains { NoExchangeGains (exchanges_in first.now) (weight_at w1.now) }
    requires second_gains { NoExchangeGains (exchanges_in second.now) (weight_at w2.now) }
    requires small { (x : ℕ) → x < length w1.now → IsWeightWithin largest_weight (weight_at w1.now x ⊕ weight_at w2.now x) }
    requires second_small { AreWeightsWithin split_room w2.now }
    ensures grown { IfOk result (IsGrown (length w1.now) (exchanges_in first.now) (exchanges_in second.now) w1.now w2.now) }
    ensures stuck { IfOk result (λ grown. (is_stuck grown.found ≡ true)
        ↔ HasNoTightPath (length w1.now) (exchanges_in first.now) (exchanges_in second.now) (weight_at grown.first) (weight_at grown.second)) }
    ensures heaviest { IfOk result (StaysHeaviest (length w1.now) first.now second.now set.now w1.now w2.now) }
{
    let GrownHalves {
        first: new1,
        second: new2,
        heaviest,
    } = grown_halves(alloc, first, second, set, w1, w2)?;
    let found = tight_search_with(
        alloc,
        first,
        second,
        set,
        new1.as_slice(),
        new2.as_slice(),
        heaviest,
    )?;
    Ok(Grown {
        first: new1,
        second: new2,
        found,
    })
}
