//! The trait of matroids.

ghost use Rattle.std.specs.Prelude.{◌≡◌, ◌<◌, ◌&&◌, ℕ, List, [], Bool, true, false, not, if◌then◌else◌, IfOk, OnErr};
ghost use Rattle.mat_sets.specs.Sets.{AllBelow, AreDistinct, IsRising, IsSubset, is_member, with_one, union};
ghost use Rattle.mat_laws.specs.{
  Columns.{AreColumns},
  Exchanges.{circuit_members, row_of},
  GreedyRuns.{grown_along},
  Matroids.{IsMatroid, IsMaximal},
};

use crate::bases::one_after_another;
use crate::exchange::Exchange;
use mat_sets::{BitRows, ElemSet};
use std::alloc::{AllocError, Global};

/// A matroid on the elements below its size, by its test of independence (Schrijver, chapter 39).
///
/// A value is sound where it meets the conditions of its constructor; each sound value obeys the laws of a matroid.
pub trait Matroid: Sync + Drop {
    /// How many elements there are.
    ghost ground_size: { Self → ℕ };

    /// The value meets the conditions of its constructor.
    ghost sound: { Self → Type 0 };

    /// Whether a set is independent.
    ghost indep: { Self → List ℕ → Bool };

    /// What is kept of an independent set, so that the exchanges at it come without questions of independence: `()` for a kind
    /// that keeps nothing.
    type Kept: Send + Sync + Drop;

    /// What is kept is right for this independent set of this matroid.
    ghost keeps: { Self → List ℕ → Self.Kept → Type 0 };

    /// The number of elements.
    fn size(&self) -> u32
        requires { sound self.now }
        ensures { result ≡ ground_size self.now };

    /// Whether a set of elements below the size is independent. The only error is want of memory.
    fn independent(&self, alloc: Global, set: &ElemSet) -> Result<bool, AllocError>
        requires sound { sound self.now }
        requires below { AllBelow (ground_size self.now) set.now }
        ensures { IfOk result (λ b. b ≡ indep self.now set.now) };

    /// The laws hold of a sound value; there is nothing to do.
    fn lawful(&self)
        requires { sound self.now }
        ensures { IsMatroid (ground_size self.now) (indep self.now) }
    {}

    /// Adds x where it is not yet there and the set stays independent, and tells whether it did. The only error is want
    /// of memory.
    #[tactic(auto, using(mat_sets::proofs::Changes::set_changes, mat_sets::proofs::Members::set_rises))]
    fn add_if_independent(
        &self,
        alloc: Global,
        set: &mut ElemSet,
        x: u32,
    ) -> Result<bool, AllocError>
        requires sound { sound self.now }
        requires set { AllBelow (ground_size self.now) set.old }
        requires below { x < ground_size self.now }
        ensures added { IfOk result (λ added. added ≡ (not (is_member x set.old) && indep self.now (with_one set.old x))) }
        ensures set { IfOk result (λ added. set.new ≡ (if added then with_one set.old x else set.old)) }
        ensures err { OnErr result (set.new ≡ set.old) }
    {
        if !set.add(x)? {
            return Ok(false);
        }
        let answer = self.independent(alloc, set);
        if !matches!(answer, Ok(true)) {
            set.take_out(x);
        }
        answer
    }

    /// The greedy run along an order in which no element stands twice: from the empty set on each element in turn is added
    /// where the set stays independent (Schrijver, chapter 40). A kind may have a faster body; this one asks one question an
    /// element. The only error is want of memory.
    fn run(&self, alloc: Global, order: &[u32]) -> Result<ElemSet, AllocError>
        requires sound { sound self.now }
        requires below { AllBelow (ground_size self.now) order.now }
        requires distinct { AreDistinct order.now }
        ensures { IfOk result (λ set. set ≡ grown_along (indep self.now) [] order.now) }
    {
        self.lawful();
        let mut set = ElemSet::new(alloc);
        for x in order {
            self.add_if_independent(alloc, &mut set, *x)?;
        }
        Ok(set)
    }

    /// A maximal independent subset of `from` ∪ `within` that holds `from`, by one run through `from` and then through the
    /// other members of `within`. The only error is want of memory.
    fn grown_base(
        &self,
        alloc: Global,
        from: &ElemSet,
        within: &ElemSet,
    ) -> Result<ElemSet, AllocError>
        requires sound { sound self.now }
        requires start { indep self.now from.now ≡ true }
        requires below { AllBelow (ground_size self.now) within.now }
        ensures maximal { IfOk result (λ base. IsMaximal (indep self.now) (union from.now within.now) base) }
        ensures holds { IfOk result (λ base. IsSubset from.now base) }
    {
        self.lawful();
        within.rises();
        let order = one_after_another(alloc, from, within)?;
        self.run(alloc, &order)
    }

    /// The exchanges of an element x outside an independent set, by questions of independence alone: one, and one more for
    /// each member. The only error is want of memory.
    fn circuit_by_questions(
        &self,
        alloc: Global,
        base: &ElemSet,
        x: u32,
    ) -> Result<Exchange, AllocError>
        requires sound { sound self.now }
        requires base { indep self.now base.now ≡ true }
        requires below { x < ground_size self.now }
        requires outside { is_member x base.now ≡ false }
        ensures row { IfOk result (λ e. e ≡ row_of (indep self.now) base.now x) }
        ensures rises { IfOk result (λ e. IsRising e.with) }
    {
        self.lawful();
        let mut larger = base.copy(alloc)?;
        larger.add(x)?;
        let addable = self.independent(alloc, &larger)?;
        let mut with = ElemSet::new(alloc);
        for y in base.as_slice() {
            let rest = larger.without(alloc, *y)?;
            if self.independent(alloc, &rest)? {
                with.add(*y)?;
            }
        }
        Ok(Exchange { addable, with })
    }

    /// What is kept of an independent set, for `row` and `columns` while the set stays as it is. The only error is want of memory.
    fn keep(&self, alloc: Global, base: &ElemSet) -> Result<Self::Kept, AllocError>
        requires sound { sound self.now }
        requires base { indep self.now base.now ≡ true }
        ensures { IfOk result (λ kept. keeps self.now base.now kept) };

    /// What is kept of another independent set, where something is kept of this one: a kind may make it from that in less time, and this
    /// body makes it anew. The only error is want of memory.
    fn keep_next(
        &self,
        alloc: Global,
        _base: &ElemSet,
        _kept: &Self::Kept,
        next: &ElemSet,
    ) -> Result<Self::Kept, AllocError>
        requires sound { sound self.now }
        requires base { indep self.now _base.now ≡ true }
        requires kept { keeps self.now _base.now _kept.now }
        requires next { indep self.now next.now ≡ true }
        ensures { IfOk result (λ kept. keeps self.now next.now kept) }
    {
        self.keep(alloc, next)
    }

    /// The exchanges of an element x outside an independent set of which something is kept: whether it can be added, and for which members
    /// it can be exchanged (Schrijver, chapter 39). A kind may have a faster body; this one asks questions of independence alone. The only error
    /// is want of memory.
    fn row(
        &self,
        alloc: Global,
        base: &ElemSet,
        _kept: &Self::Kept,
        x: u32,
    ) -> Result<Exchange, AllocError>
        requires sound { sound self.now }
        requires base { indep self.now base.now ≡ true }
        requires kept { keeps self.now base.now _kept.now }
        requires below { x < ground_size self.now }
        requires outside { is_member x base.now ≡ false }
        ensures row { IfOk result (λ e. e ≡ row_of (indep self.now) base.now x) }
        ensures rises { IfOk result (λ e. IsRising e.with) }
    {
        self.circuit_by_questions(alloc, base, x)
    }

    /// The exchanges of an element x outside an independent set, by what is kept of the set for this one. The only error is want of memory.
    fn circuit(&self, alloc: Global, base: &ElemSet, x: u32) -> Result<Exchange, AllocError>
        requires sound { sound self.now }
        requires base { indep self.now base.now ≡ true }
        requires below { x < ground_size self.now }
        requires outside { is_member x base.now ≡ false }
        ensures row { IfOk result (λ e. e ≡ row_of (indep self.now) base.now x) }
        ensures rises { IfOk result (λ e. IsRising e.with) }
    {
        let kept = self.keep(alloc, base)?;
        self.row(alloc, base, &kept, x)
    }

    /// Whether an element x outside an independent set of which something is kept can be added to it. A kind may have a body that makes no
    /// row; this one makes it. The only error is want of memory.
    fn adds(
        &self,
        alloc: Global,
        base: &ElemSet,
        kept: &Self::Kept,
        x: u32,
    ) -> Result<bool, AllocError>
        requires sound { sound self.now }
        requires base { indep self.now base.now ≡ true }
        requires kept { keeps self.now base.now kept.now }
        requires below { x < ground_size self.now }
        requires outside { is_member x base.now ≡ false }
        ensures { IfOk result (λ added. added ≡ (row_of (indep self.now) base.now x).addable) }
    {
        let row = self.row(alloc, base, kept, x)?;
        Ok(row.addable)
    }

    /// The members of an independent set, of which something is kept, that stand in the fundamental circuit of an element x outside it: all of
    /// the circuit but x, none for a loop; None where x can be added (Oxley, Proposition 1.1.6; section 1.2 for a base). This body asks `adds`, and
    /// then `row` where x cannot be added; a kind whose `adds` makes the row may have a body that makes it only once. The only error is want of
    /// memory.
    fn circuit_members(
        &self,
        alloc: Global,
        base: &ElemSet,
        kept: &Self::Kept,
        x: u32,
    ) -> Result<Option<ElemSet>, AllocError>
        requires sound { sound self.now }
        requires base { indep self.now base.now ≡ true }
        requires kept { keeps self.now base.now kept.now }
        requires below { x < ground_size self.now }
        requires outside { is_member x base.now ≡ false }
        ensures { IfOk result (λ members. members ≡ circuit_members (row_of (indep self.now) base.now x)) }
    {
        if self.adds(alloc, base, kept, x)? {
            return Ok(None);
        }
        let row = self.row(alloc, base, kept, x)?;
        Ok(row.circuit_members())
    }

    /// For each member of an independent set, at its number, the elements outside it that can take its place, as bits: all rows, turned
    /// (Schrijver, chapter 39). A kind may have a body that makes no rows; this one makes one row an element. The only error is want of memory.
    fn columns(
        &self,
        alloc: Global,
        base: &ElemSet,
        kept: &Self::Kept,
    ) -> Result<BitRows, AllocError>
        requires sound { sound self.now }
        requires base { indep self.now base.now ≡ true }
        requires kept { keeps self.now base.now kept.now }
        ensures { IfOk result (λ columns. AreColumns (ground_size self.now) (indep self.now) base.now columns) }
    {
        self.lawful();
        let size = self.size();
        let members = base.to_bits(alloc)?;
        let mut columns = BitRows::with_rows(alloc, size, 0)?;
        columns.empty_each(alloc, base.as_slice(), size)?;
        for z in 0..size {
            if !members.contains(z) {
                let row = self.row(alloc, base, kept, z)?;
                columns.insert_each(row.with.as_slice(), z)?;
            }
        }
        Ok(columns)
    }

    ghost laws: { (m : Self) → sound m → IsMatroid (ground_size m) (indep m) };
}

impl<M: Matroid> Matroid for &M {
    ghost ground_size = { λ m. M.ground_size m.now };

    ghost sound = { λ m. M.sound m.now };

    ghost indep = { λ m. M.indep m.now };

    type Kept = M::Kept;

    ghost keeps = { λ m base kept. M.keeps m.now base kept };

    ghost laws = { λ m h. M.laws m.now h };

    fn size(&self) -> u32 {
        (**self).size()
    }

    fn independent(&self, alloc: Global, set: &ElemSet) -> Result<bool, AllocError> {
        (**self).independent(alloc, set)
    }

    fn run(&self, alloc: Global, order: &[u32]) -> Result<ElemSet, AllocError> {
        (**self).run(alloc, order)
    }

    fn keep(&self, alloc: Global, base: &ElemSet) -> Result<M::Kept, AllocError> {
        (**self).keep(alloc, base)
    }

    fn keep_next(
        &self,
        alloc: Global,
        base: &ElemSet,
        kept: &M::Kept,
        next: &ElemSet,
    ) -> Result<M::Kept, AllocError> {
        (**self).keep_next(alloc, base, kept, next)
    }

    fn adds(
        &self,
        alloc: Global,
        base: &ElemSet,
        kept: &M::Kept,
        x: u32,
    ) -> Result<bool, AllocError> {
        (**self).adds(alloc, base, kept, x)
    }

    fn row(
        &self,
        alloc: Global,
        base: &ElemSet,
        kept: &M::Kept,
        x: u32,
    ) -> Result<Exchange, AllocError> {
        (**self).row(alloc, base, kept, x)
    }

    fn circuit(&self, alloc: Global, base: &ElemSet, x: u32) -> Result<Exchange, AllocError> {
        (**self).circuit(alloc, base, x)
    }

    fn circuit_members(
        &self,
        alloc: Global,
        base: &ElemSet,
        kept: &M::Kept,
        x: u32,
    ) -> Result<Option<ElemSet>, AllocError> {
        (**self).circuit_members(alloc, base, kept, x)
    }

    fn columns(
        &self,
        alloc: Global,
        base: &ElemSet,
        kept: &M::Kept,
    ) -> Result<BitRows, AllocError> {
        (**self).columns(alloc, base, kept)
    }
}
