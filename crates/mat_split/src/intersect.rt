//! Weighted matroid intersection.

ghost use Rattle.std.specs.Prelude.{◌≡◌, ◌≤◌, [], true, length, replicate, IfOk};
ghost use Rattle.mat_sets.specs.{Limits.{most_elements, largest_weight}, Weights.{zero_weight, AreWeightsWithin}};
ghost use Rattle.mat_laws.specs.Exchanges.{rows_of};
ghost use Rattle.mat_work.specs.Workers.{AreWorkers};
ghost use Rattle.mat_split.specs.Ladders.{IsLadder};

use crate::augment::augment;
use crate::augmented::Augmented;
use crate::ladder::{Ladder, Rung};
use mat_exchange::{ExchangesAt, exchanges_at, exchanges_in_turn, next_exchanges, next_in_turn};
use mat_laws::Matroid;
use mat_sets::{ElemSet, PairWeights, Weight};
use std::alloc::{AllocError, Global};
use std::thread::Threads;

/// The empty set, under the whole weights for the first matroid and none for the second.
fn first_rung(alloc: Global, weights: &[Weight]) -> Result<Rung, AllocError>
    ensures set { IfOk result (λ r. r.set ≡ []) }
    ensures first { IfOk result (λ r. r.first ≡ weights.now) }
    ensures second { IfOk result (λ r. r.second ≡ replicate (length weights.now) zero_weight) }
{
    let first = PairWeights::new(Vec::from_slice(alloc, weights)?);
    let second = PairWeights::new(vec![in alloc; Weight::ZERO; weights.len()]?);
    Ok(Rung {
        set: ElemSet::new(alloc),
        first,
        second,
    })
}

// A heaviest common independent set for each size, from what each matroid keeps of the empty set with the exchanges at it, which these calls
// hand on from one set to the next.
fn ladder_by<
    A: Matroid,
    B: Matroid,
    F: Fn(&ElemSet, ExchangesAt<A::Kept>, &ElemSet) -> Result<ExchangesAt<A::Kept>, AllocError>,
    G: Fn(&ElemSet, ExchangesAt<B::Kept>, &ElemSet) -> Result<ExchangesAt<B::Kept>, AllocError>,
>(
    alloc: Global,
    a: &A,
    b: &B,
    weights: &[Weight],
    first_at: ExchangesAt<A::Kept>,
    second_at: ExchangesAt<B::Kept>,
    first_next: &F,
    second_next: &G,
) -> Result<Ladder, AllocError>
    requires first_sound { A.sound a.now }
    requires second_sound { B.sound b.now }
    requires ground { B.ground_size b.now ≡ A.ground_size a.now }
    requires few { A.ground_size a.now ≤ most_elements }
    requires lengths { length weights.now ≡ A.ground_size a.now }
    requires small { AreWeightsWithin largest_weight weights.now }
    requires first_kept { A.keeps a.now [] first_at.kept }
    requires first_table { first_at.table ≡ rows_of (A.ground_size a.now) (A.indep a.now) [] }
    requires second_kept { B.keeps b.now [] second_at.kept }
    requires second_table { second_at.table ≡ rows_of (B.ground_size b.now) (B.indep b.now) [] }
    requires first_asked { (set : _) (at : _) (next : _) → A.indep a.now set.now ≡ true → A.keeps a.now set.now at.kept
        → at.table ≡ rows_of (A.ground_size a.now) (A.indep a.now) set.now → A.indep a.now next.now ≡ true → F.pre first_next.now set at next }
    requires second_asked { (set : _) (at : _) (next : _) → B.indep b.now set.now ≡ true → B.keeps b.now set.now at.kept
        → at.table ≡ rows_of (B.ground_size b.now) (B.indep b.now) set.now → B.indep b.now next.now ≡ true → G.pre second_next.now set at next }
    requires first_made { (set : _) (at : _) (next : _) (made : _) → F.post first_next.now set at next made
        → IfOk made (λ at. A.keeps a.now next.now at.kept × (at.table ≡ rows_of (A.ground_size a.now) (A.indep a.now) next.now)) }
    requires second_made { (set : _) (at : _) (next : _) (made : _) → G.post second_next.now set at next made
        → IfOk made (λ at. B.keeps b.now next.now at.kept × (at.table ≡ rows_of (B.ground_size b.now) (B.indep b.now) next.now)) }
    ensures { IfOk result (λ l. IsLadder (A.ground_size a.now) (A.indep a.now) (B.indep b.now) weights.now l.rungs.items l.cut) }
{
    a.lawful();
    b.lawful();
    let mut rungs = Vec::new(alloc);
    let mut rung = first_rung(alloc, weights)?;
    let mut first = first_at;
    let mut second = second_at;
    loop {
        match augment(alloc, a, b, &rung, &first.table, &second.table)? {
            Augmented::Larger(larger) => {
                first = first_next(&rung.set, first, &larger.set)?;
                second = second_next(&rung.set, second, &larger.set)?;
                rungs.push(rung)?;
                rung = larger;
            }
            Augmented::Last(cut) => {
                rungs.push(rung)?;
                return Ok(Ladder { rungs, cut });
            }
        }
    }
}

/// A heaviest common independent set of two matroids for each size from 0 to the largest, each with a split of the weights that
/// proves it, and a set that proves that there is no larger one, by weight splitting (Frank 1981; Schrijver, chapter 41). Both
/// matroids have the same elements, at most 500; both numbers of each weight are at least -10^12 and at most 10^12; there are 1 to 16
/// workers, who share the rows of each matroid: more than one pay where a row takes longer than a thread takes to start. For n elements
/// at most n + 1 reached sets grow; what each matroid keeps of a set, and the rows at it, are made from those of the set before. The only error
/// is want of memory.
pub fn intersect_all<R: Threads + Sync, A: Matroid, B: Matroid>(
    rt: &R,
    alloc: Global,
    a: &A,
    b: &B,
    weights: &[Weight],
    workers: u32,
) -> Result<Ladder, AllocError>
    requires first_sound { A.sound a.now }
    requires second_sound { B.sound b.now }
    requires ground { B.ground_size b.now ≡ A.ground_size a.now }
    requires few { A.ground_size a.now ≤ most_elements }
    requires workers { AreWorkers workers }
    requires lengths { length weights.now ≡ A.ground_size a.now }
    requires small { AreWeightsWithin largest_weight weights.now }
    ensures { IfOk result (λ l. IsLadder (A.ground_size a.now) (A.indep a.now) (B.indep b.now) weights.now l.rungs.items l.cut) }
{
    a.lawful();
    b.lawful();
    let empty = ElemSet::new(alloc);
    let first_at = exchanges_at(rt, alloc, a, &empty, workers)?;
    let second_at = exchanges_at(rt, alloc, b, &empty, workers)?;
    let first_next = |set: &ElemSet, at: ExchangesAt<A::Kept>, next: &ElemSet| -> Result<
        ExchangesAt<A::Kept>,
        AllocError,
    >
        requires { A.sound a.now × (A.indep a.now set.now ≡ true) × (A.ground_size a.now ≤ most_elements) × A.keeps a.now set.now at.kept
            × (at.table ≡ rows_of (A.ground_size a.now) (A.indep a.now) set.now) × (A.indep a.now next.now ≡ true) × AreWorkers workers }
        ensures { IfOk result (λ at. A.keeps a.entry.now next.now at.kept
            × (at.table ≡ rows_of (A.ground_size a.entry.now) (A.indep a.entry.now) next.now)) }
    { next_exchanges(rt, alloc, a, set, at, next, workers) };
    let second_next = |set: &ElemSet, at: ExchangesAt<B::Kept>, next: &ElemSet| -> Result<
        ExchangesAt<B::Kept>,
        AllocError,
    >
        requires { B.sound b.now × (B.indep b.now set.now ≡ true) × (B.ground_size b.now ≤ most_elements) × B.keeps b.now set.now at.kept
            × (at.table ≡ rows_of (B.ground_size b.now) (B.indep b.now) set.now) × (B.indep b.now next.now ≡ true) × AreWorkers workers }
        ensures { IfOk result (λ at. B.keeps b.entry.now next.now at.kept
            × (at.table ≡ rows_of (B.ground_size b.entry.now) (B.indep b.entry.now) next.now)) }
    { next_exchanges(rt, alloc, b, set, at, next, workers) };
    ladder_by(
        alloc,
        a,
        b,
        weights,
        first_at,
        second_at,
        &first_next,
        &second_next,
    )
}

/// What [`intersect_all`] says, by one worker, who starts no thread.
pub fn intersect_in_turn<A: Matroid, B: Matroid>(
    alloc: Global,
    a: &A,
    b: &B,
    weights: &[Weight],
) -> Result<Ladder, AllocError>
    requires first_sound { A.sound a.now }
    requires second_sound { B.sound b.now }
    requires ground { B.ground_size b.now ≡ A.ground_size a.now }
    requires few { A.ground_size a.now ≤ most_elements }
    requires lengths { length weights.now ≡ A.ground_size a.now }
    requires small { AreWeightsWithin largest_weight weights.now }
    ensures { IfOk result (λ l. IsLadder (A.ground_size a.now) (A.indep a.now) (B.indep b.now) weights.now l.rungs.items l.cut) }
{
    a.lawful();
    b.lawful();
    let empty = ElemSet::new(alloc);
    let first_at = exchanges_in_turn(alloc, a, &empty)?;
    let second_at = exchanges_in_turn(alloc, b, &empty)?;
    let first_next = |set: &ElemSet, at: ExchangesAt<A::Kept>, next: &ElemSet| -> Result<
        ExchangesAt<A::Kept>,
        AllocError,
    >
        requires { A.sound a.now × (A.indep a.now set.now ≡ true) × (A.ground_size a.now ≤ most_elements) × A.keeps a.now set.now at.kept
            × (at.table ≡ rows_of (A.ground_size a.now) (A.indep a.now) set.now) × (A.indep a.now next.now ≡ true) }
        ensures { IfOk result (λ at. A.keeps a.entry.now next.now at.kept
            × (at.table ≡ rows_of (A.ground_size a.entry.now) (A.indep a.entry.now) next.now)) }
    { next_in_turn(alloc, a, set, at, next) };
    let second_next = |set: &ElemSet, at: ExchangesAt<B::Kept>, next: &ElemSet| -> Result<
        ExchangesAt<B::Kept>,
        AllocError,
    >
        requires { B.sound b.now × (B.indep b.now set.now ≡ true) × (B.ground_size b.now ≤ most_elements) × B.keeps b.now set.now at.kept
            × (at.table ≡ rows_of (B.ground_size b.now) (B.indep b.now) set.now) × (B.indep b.now next.now ≡ true) }
        ensures { IfOk result (λ at. B.keeps b.entry.now next.now at.kept
            × (at.table ≡ rows_of (B.ground_size b.entry.now) (B.indep b.entry.now) next.now)) }
    { next_in_turn(alloc, b, set, at, next) };
    ladder_by(
        alloc,
        a,
        b,
        weights,
        first_at,
        second_at,
        &first_next,
        &second_next,
    )
}
