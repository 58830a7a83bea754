//! Parts that grow by one element at a time.
ghost use Rattle.std.specs.Prelude.{
  ◌≡◌,
  ◌<◌,
  ◌^◌,
  ◌||◌,
  ◌&&◌,
  ◌==◌,
  ℕ,
  Bool,
  true,
  false,
  not,
  length,
  map,
  slice_set,
  None,
  IfNone,
  IfOk,
  IfSome,
  OnErr,
  OnOk,
};
ghost use Rattle.mat_sets.specs.{Families.{family_union}, Sets.{is_member, IsRising, IsSubset}};
ghost use Rattle.mat_laws.specs.{Exchanges.{row_of}, GreedyRuns.{grown_by}};
ghost use Rattle.mat_union.specs.{
  GrownParts.{AreDone, AreGrowing, AreKept, AreSound},
  Moves.{all_moved, exchanges_with},
  MoveSearches.{IsQuestion, IsReaching},
  Placings.{IsPlaceSearch, IsPlacing},
  Unions.{union_test, AreMatroids, AreParts},
};

use crate::asked::Asked;
use crate::ended::{PlaceSearch, found_place};
use crate::move_search::MoveSearch;
use crate::moved_sets::{is_entered_or_left, move_into, moved_part};
use crate::moves::Move;
use mat_laws::Exchange;
use mat_sets::{BitSet, ElemSet, SetList};
use std::alloc::{AllocError, Global};

/// Disjoint independent sets, what each matroid keeps of its set, and elements that each set spans in its matroid.
#[derive(Drop)]
pub struct Growth<K: Drop> {
    /// The sets.
    pub parts: SetList,
    /// What each matroid keeps of its set.
    pub kept: Vec<K>,
    /// Elements that are found to be spanned by each set in its matroid: no moves bring another one of them into the sets.
    pub spanned: ElemSet,
    /// The elements that are not found to be spanned.
    pub unspanned: BitSet,
}

/// The laws hold of each of these matroids.
pub(crate) fn all_lawful<M: Asked>(matroids: &[M], _n: u32)
    requires sound { AreSound M.ground_size M.sound _n matroids.now }
    ensures { AreMatroids _n (map M.indep matroids.now) }
{
    for i in 0..matroids.len() {
        matroids[i].obeys();
    }
}

/// The exchanges of x at a part, by what is kept of it: a member has none.
fn row_at<M: Asked>(
    alloc: Global,
    m: &M,
    part: &ElemSet,
    kept: &M::Kept,
    x: u32,
) -> Result<Exchange, AllocError>
    requires sound { M.sound m.now }
    requires independent { M.indep m.now part.now ≡ true }
    requires kept { M.keeps m.now part.now kept.now }
    requires below { x < M.ground_size m.now }
    ensures { IfOk result (λ e. e ≡ row_of (M.indep m.now) part.now x) }
{
    if part.contains(x) {
        return Ok(Exchange {
            addable: false,
            with: ElemSet::new(alloc),
        });
    }
    m.row_from(alloc, part, kept, x)
}

/// Whether x can be added to a part, by what is kept of it: a member cannot.
pub(crate) fn adds_at<M: Asked>(
    alloc: Global,
    m: &M,
    part: &ElemSet,
    kept: &M::Kept,
    x: u32,
) -> Result<bool, AllocError>
    requires sound { M.sound m.now }
    requires independent { M.indep m.now part.now ≡ true }
    requires kept { M.keeps m.now part.now kept.now }
    requires below { x < M.ground_size m.now }
    ensures { IfOk result (λ added. added ≡ (row_of (M.indep m.now) part.now x).addable) }
{
    if part.contains(x) {
        return Ok(false);
    }
    m.adds_from(alloc, part, kept, x)
}

/// What each matroid keeps of its part.
pub(crate) fn keep_all<M: Asked>(
    alloc: Global,
    matroids: &[M],
    parts: &SetList,
    _n: u32,
) -> Result<Vec<M::Kept>, AllocError>
    requires sound { AreSound M.ground_size M.sound _n matroids.now }
    requires parts { AreParts (map M.indep matroids.now) parts.now }
    ensures { IfOk result (λ kept. AreKept M.keeps matroids.now parts.now kept.items) }
{
    let mut kept = Vec::new(alloc);
    for i in 0..matroids.len() {
        kept.push(matroids[i].keep_of(alloc, parts.get(i))?)?;
    }
    Ok(kept)
}

/// These parts, and no element is found to be spanned yet.
pub(crate) fn growth_from<M: Asked>(
    alloc: Global,
    matroids: &[M],
    parts: SetList,
    n: u32,
) -> Result<Growth<M::Kept>, AllocError>
    requires sound { AreSound M.ground_size M.sound n matroids.now }
    requires parts { AreParts (map M.indep matroids.now) parts }
    ensures growing { IfOk result (λ g. AreGrowing n (map M.indep matroids.now) g.parts g.spanned g.unspanned) }
    ensures kept { IfOk result (λ g. AreKept M.keeps matroids.now g.parts g.kept.items) }
    ensures done { IfOk result (λ g. AreDone n (λ v. is_member v (family_union parts)) g.parts g.spanned) }
    ensures same { IfOk result (λ g. g.parts ≡ parts) }
{
    all_lawful(matroids, n);
    let kept = keep_all(alloc, matroids, &parts, n)?;
    Ok(Growth {
        parts,
        kept,
        spanned: ElemSet::new(alloc),
        unspanned: BitSet::all_below(alloc, n)?,
    })
}

/// A search for moves from x among these elements, to its end.
pub(crate) fn search_from<M: Asked>(
    alloc: Global,
    matroids: &[M],
    parts: &SetList,
    kept: &[M::Kept],
    among: &BitSet,
    n: u32,
    x: u32,
) -> Result<MoveSearch, AllocError>
    requires some { 0 < length matroids.now }
    requires few { length matroids.now < 2 ^ 32 }
    requires sound { AreSound M.ground_size M.sound n matroids.now }
    requires parts { AreParts (map M.indep matroids.now) parts.now }
    requires kept { AreKept M.keeps matroids.now parts.now kept.now }
    requires among { (v : ℕ) → is_member v among.now ≡ true → v < n }
    requires below { x < n }
    ensures reaching { IfOk result (λ s. IsReaching n (length parts.now) (exchanges_with (map M.indep matroids.now) parts.now) among.now x s) }
    ensures end { IfOk result (λ s. IsQuestion s None) }
{
    let mut search = MoveSearch::new(alloc, n, matroids.len() as u32, x, among)?;
    while let Some(asked) = search.question() {
        let i = asked.part as usize;
        let row = row_at(alloc, &matroids[i], parts.get(i), &kept[i], asked.element)?;
        search = search.tell(alloc, &row)?;
    }
    Ok(search)
}

/// This is kept of part i.
pub fn put_kept<K: Drop>(kept: &mut Vec<K>, i: usize, one: K)
    requires { i < length kept.old.items }
    ensures { kept.new.items ≡ slice_set kept.old.items i one }
{
    kept[i] = one;
}

/// Makes moves. A part that one of them enters or leaves becomes the one after all of them, and what its matroid keeps of it is made from
/// what it kept before. The only error is want of memory: then each part is the old or the new one, with what is kept of that.
fn make_moves<M: Asked>(
    alloc: Global,
    matroids: &[M],
    parts: &mut SetList,
    kept: &mut Vec<M::Kept>,
    moves: &[Move],
    _n: u32,
) -> Result<(), AllocError>
    requires few { length matroids.now < 2 ^ 32 }
    requires sound { AreSound M.ground_size M.sound _n matroids.now }
    requires before { AreParts (map M.indep matroids.now) parts.old }
    requires after { AreParts (map M.indep matroids.now) (all_moved parts.old moves.now) }
    requires kept { AreKept M.keeps matroids.now parts.old kept.old.items }
    ensures parts { OnOk result (parts.new ≡ all_moved parts.old moves.now) }
    ensures kept { OnOk result (AreKept M.keeps matroids.now parts.new kept.new.items) }
{
    for i in 0..matroids.len() {
        let part = parts.get(i);
        if is_entered_or_left(part, moves, i as u32) {
            let next = moved_part(alloc, part, moves, i as u32)?;
            let one = matroids[i].keep_next_of(alloc, part, &kept[i], &next)?;
            put_kept(kept, i, one);
            parts.replace(i, next);
        }
    }
    Ok(())
}

/// The first part to which x can be added, by what is kept of the parts.
fn part_that_takes<M: Asked>(
    alloc: Global,
    matroids: &[M],
    parts: &SetList,
    kept: &[M::Kept],
    _n: u32,
    x: u32,
) -> Result<Option<u32>, AllocError>
    requires few { length matroids.now < 2 ^ 32 }
    requires sound { AreSound M.ground_size M.sound _n matroids.now }
    requires parts { AreParts (map M.indep matroids.now) parts.now }
    requires kept { AreKept M.keeps matroids.now parts.now kept.now }
    requires below { x < _n }
    ensures below { IfOk result (λ found. IfSome found (λ q. q < length parts.now)) }
    ensures takes { IfOk result (λ found. IfSome found (λ q. (exchanges_with (map M.indep matroids.now) parts.now q).adds x ≡ true)) }
    ensures first { IfOk result (λ found. IfSome found (λ q. (i : ℕ) → i < q
        → (exchanges_with (map M.indep matroids.now) parts.now i).adds x ≡ false)) }
    ensures none { IfOk result (λ found. IfNone found ((i : ℕ) → i < length parts.now
        → (exchanges_with (map M.indep matroids.now) parts.now i).adds x ≡ false)) }
{
    for i in 0..matroids.len() {
        if adds_at(alloc, &matroids[i], parts.get(i), &kept[i], x)? {
            return Ok(Some(i as u32));
        }
    }
    Ok(None)
}

/// Moves that bring x into the parts: one into the first part to which it can be added, else those along a path, of x and of elements among
/// these; where there are none, the search that is stuck (Schrijver, chapter 42). The only error is want of memory.
fn place_for<M: Asked>(
    alloc: Global,
    matroids: &[M],
    parts: &SetList,
    kept: &[M::Kept],
    among: &BitSet,
    n: u32,
    x: u32,
) -> Result<PlaceSearch, AllocError>
    requires some { 0 < length matroids.now }
    requires few { length matroids.now < 2 ^ 32 }
    requires sound { AreSound M.ground_size M.sound n matroids.now }
    requires parts { AreParts (map M.indep matroids.now) parts.now }
    requires kept { AreKept M.keeps matroids.now parts.now kept.now }
    requires among { (v : ℕ) → is_member v among.now ≡ true → v < n }
    requires below { x < n }
    requires fresh { is_member x (family_union parts.now) ≡ false }
    ensures { IfOk result (IsPlaceSearch n (map M.indep matroids.now) parts.now among.now x) }
{
    all_lawful(matroids, n);
    if let Some(q) = part_that_takes(alloc, matroids, parts, kept, n, x)? {
        return Ok(PlaceSearch::Placed(move_into(alloc, x, q)?));
    }
    let search = search_from(alloc, matroids, parts, kept, among, n, x)?;
    found_place(alloc, parts, search)
}

/// Brings x into the parts by moves along a path, of x and of elements among these, or else gives back the search that is stuck; what
/// changed is kept anew (Schrijver, chapter 42). The only error is want of memory: then some of the parts may have changed.
pub(crate) fn place<M: Asked>(
    alloc: Global,
    matroids: &[M],
    parts: &mut SetList,
    kept: &mut Vec<M::Kept>,
    among: &BitSet,
    n: u32,
    x: u32,
) -> Result<Option<MoveSearch>, AllocError>
    requires some { 0 < length matroids.now }
    requires few { length matroids.now < 2 ^ 32 }
    requires sound { AreSound M.ground_size M.sound n matroids.now }
    requires parts { AreParts (map M.indep matroids.now) parts.old }
    requires kept { AreKept M.keeps matroids.now parts.old kept.old.items }
    requires among { (v : ℕ) → is_member v among.now ≡ true → v < n }
    requires below { x < n }
    requires fresh { is_member x (family_union parts.old) ≡ false }
    ensures placed { IfOk result (IsPlacing n (map M.indep matroids.now) parts.old among.now x parts.new) }
    ensures kept { OnOk result (AreKept M.keeps matroids.now parts.new kept.new.items) }
{
    match place_for(alloc, matroids, parts, kept.as_slice(), among, n, x)? {
        PlaceSearch::Placed(moves) => {
            make_moves(alloc, matroids, parts, kept, &moves, n)?;
            Ok(None)
        }
        PlaceSearch::Stuck(search) => Ok(Some(search)),
    }
}

/// Marks these elements as spanned. After an error nothing has changed. The only error is want of memory.
pub fn mark_spanned(
    alloc: Global,
    spanned: &mut ElemSet,
    unspanned: &mut BitSet,
    elements: &[u32],
) -> Result<(), AllocError>
    ensures spanned { OnOk result ((v : ℕ) → is_member v spanned.new ≡ (is_member v spanned.old || is_member v elements.now)) }
    ensures unspanned { OnOk result ((v : ℕ) → is_member v unspanned.new ≡ (is_member v unspanned.old && not (is_member v elements.now))) }
    ensures rises { IsRising spanned.new }
    ensures spanned_err { OnErr result (spanned.new ≡ spanned.old) }
    ensures unspanned_err { OnErr result (unspanned.new ≡ unspanned.old) }
{
    // Most searches reach one element alone.
    if let [only] = elements {
        spanned.add(*only)?;
        unspanned.remove(*only);
        return Ok(());
    }
    spanned.rises();
    let more = ElemSet::from_members(alloc, elements)?;
    *spanned = spanned.union(alloc, &more)?;
    for v in elements {
        unspanned.remove(*v);
    }
    Ok(())
}

/// Adds x to the parts by moves along a path, or else marks all that x reaches as spanned (Schrijver, chapter 42).
pub(crate) fn grow<M: Asked>(
    alloc: Global,
    matroids: &[M],
    growth: &mut Growth<M::Kept>,
    n: u32,
    x: u32,
) -> Result<(), AllocError>
    requires some { 0 < length matroids.now }
    requires few { length matroids.now < 2 ^ 32 }
    requires sound { AreSound M.ground_size M.sound n matroids.now }
    requires growing { AreGrowing n (map M.indep matroids.now) growth.old.parts growth.old.spanned growth.old.unspanned }
    requires kept { AreKept M.keeps matroids.now growth.old.parts growth.old.kept.items }
    requires fresh { is_member x (family_union growth.old.parts) ≡ false }
    requires unspanned { is_member x growth.old.unspanned ≡ true }
    ensures growing { OnOk result (AreGrowing n (map M.indep matroids.now) growth.new.parts growth.new.spanned growth.new.unspanned) }
    ensures kept { OnOk result (AreKept M.keeps matroids.now growth.new.parts growth.new.kept.items) }
    ensures done { OnOk result ((done : ℕ → Bool) → AreDone n done growth.old.parts growth.old.spanned
        → AreDone n (λ v. done v || v == x) growth.new.parts growth.new.spanned) }
    ensures holds { OnOk result (IsSubset (family_union growth.old.parts) (family_union growth.new.parts)) }
    ensures step { OnOk result (family_union growth.new.parts
        ≡ grown_by (union_test n (map M.indep matroids.now)) (family_union growth.old.parts) x) }
{
    all_lawful(matroids, n);
    let parts = &mut growth.parts;
    let kept = &mut growth.kept;
    match place(alloc, matroids, parts, kept, &growth.unspanned, n, x)? {
        None => Ok(()),
        Some(stuck) => {
            mark_spanned(
                alloc,
                &mut growth.spanned,
                &mut growth.unspanned,
                stuck.reached(),
            )?;
            Ok(())
        }
    }
}
