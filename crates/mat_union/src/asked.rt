//! What is asked of each matroid of a union.
ghost use Rattle.std.specs.Prelude.{◌≡◌, ◌<◌, ℕ, List, [], Bool, true, false, IfOk};
ghost use Rattle.mat_sets.specs.Sets.{AllBelow, AreDistinct, is_member, union};
ghost use Rattle.mat_laws.specs.{Columns.{AreColumns}, Exchanges.{row_of}, GreedyRuns.{grown_along}, Matroids.{IsMatroid, IsMaximal}};

use mat_laws::{Exchange, Matroid};
use mat_sets::{BitRows, ElemSet};
use std::alloc::{AllocError, Global};

/// What the searches for moves ask of a matroid, with the contracts of `Matroid`. A matroid's own methods call no function that is generic
/// over `Matroid`, whose values may go to other threads; they call those that are generic over this.
pub(crate) trait Asked {
    /// How many elements there are.
    ghost ground_size: { Self → ℕ };

    /// The value meets the conditions of its constructor.
    ghost sound: { Self → Type 0 };

    /// Whether a set is independent.
    ghost indep: { Self → List ℕ → Bool };

    /// What is kept of an independent set.
    type Kept: Drop;

    /// What is kept is right for this independent set of this matroid.
    ghost keeps: { Self → List ℕ → Self.Kept → Type 0 };

    /// The laws hold of a sound value.
    fn obeys(&self)
        requires { sound self.now }
        ensures { IsMatroid (ground_size self.now) (indep self.now) };

    /// A maximal independent subset.
    fn base_within(&self, alloc: Global, within: &ElemSet) -> Result<ElemSet, AllocError>
        requires sound { sound self.now }
        requires below { AllBelow (ground_size self.now) within.now }
        ensures { IfOk result (λ base. IsMaximal (indep self.now) (union [] within.now) base) };

    /// The greedy run along an order in which no element stands twice.
    fn run_along(&self, alloc: Global, order: &[u32]) -> Result<ElemSet, AllocError>
        requires sound { sound self.now }
        requires below { AllBelow (ground_size self.now) order.now }
        requires distinct { AreDistinct order.now }
        ensures { IfOk result (λ set. set ≡ grown_along (indep self.now) [] order.now) };

    /// What is kept of an independent set.
    fn keep_of(&self, alloc: Global, base: &ElemSet) -> Result<Self::Kept, AllocError>
        requires sound { sound self.now }
        requires base { indep self.now base.now ≡ true }
        ensures { IfOk result (λ kept. keeps self.now base.now kept) };

    /// What is kept of another independent set, where something is kept of this one.
    fn keep_next_of(
        &self,
        alloc: Global,
        base: &ElemSet,
        kept: &Self::Kept,
        next: &ElemSet,
    ) -> Result<Self::Kept, AllocError>
        requires sound { sound self.now }
        requires base { indep self.now base.now ≡ true }
        requires kept { keeps self.now base.now kept.now }
        requires next { indep self.now next.now ≡ true }
        ensures { IfOk result (λ kept. keeps self.now next.now kept) };

    /// Whether an element outside an independent set of which something is kept can be added to it.
    fn adds_from(
        &self,
        alloc: Global,
        base: &ElemSet,
        kept: &Self::Kept,
        x: u32,
    ) -> Result<bool, AllocError>
        requires sound { sound self.now }
        requires base { indep self.now base.now ≡ true }
        requires kept { keeps self.now base.now kept.now }
        requires below { x < ground_size self.now }
        requires outside { is_member x base.now ≡ false }
        ensures { IfOk result (λ added. added ≡ (row_of (indep self.now) base.now x).addable) };

    /// The exchanges of an element outside an independent set of which something is kept.
    fn row_from(
        &self,
        alloc: Global,
        base: &ElemSet,
        kept: &Self::Kept,
        x: u32,
    ) -> Result<Exchange, AllocError>
        requires sound { sound self.now }
        requires base { indep self.now base.now ≡ true }
        requires kept { keeps self.now base.now kept.now }
        requires below { x < ground_size self.now }
        requires outside { is_member x base.now ≡ false }
        ensures { IfOk result (λ e. e ≡ row_of (indep self.now) base.now x) };

    /// For each member of an independent set of which something is kept, at its number, the elements outside it that can take its place.
    fn columns_from(
        &self,
        alloc: Global,
        base: &ElemSet,
        kept: &Self::Kept,
    ) -> Result<BitRows, AllocError>
        requires sound { sound self.now }
        requires base { indep self.now base.now ≡ true }
        requires kept { keeps self.now base.now kept.now }
        ensures { IfOk result (λ columns. AreColumns (ground_size self.now) (indep self.now) base.now columns) };
}

impl<M: Matroid> Asked for M {
    ghost ground_size = { M.ground_size };

    ghost sound = { M.sound };

    ghost indep = { M.indep };

    type Kept = M::Kept;

    ghost keeps = { M.keeps };

    fn obeys(&self) {
        self.lawful()
    }

    fn base_within(&self, alloc: Global, within: &ElemSet) -> Result<ElemSet, AllocError> {
        self.lawful();
        self.grown_base(alloc, &ElemSet::new(alloc), within)
    }

    fn run_along(&self, alloc: Global, order: &[u32]) -> Result<ElemSet, AllocError> {
        self.run(alloc, order)
    }

    fn keep_of(&self, alloc: Global, base: &ElemSet) -> Result<M::Kept, AllocError> {
        self.keep(alloc, base)
    }

    fn keep_next_of(
        &self,
        alloc: Global,
        base: &ElemSet,
        kept: &M::Kept,
        next: &ElemSet,
    ) -> Result<M::Kept, AllocError> {
        self.keep_next(alloc, base, kept, next)
    }

    fn adds_from(
        &self,
        alloc: Global,
        base: &ElemSet,
        kept: &M::Kept,
        x: u32,
    ) -> Result<bool, AllocError> {
        self.adds(alloc, base, kept, x)
    }

    fn row_from(
        &self,
        alloc: Global,
        base: &ElemSet,
        kept: &M::Kept,
        x: u32,
    ) -> Result<Exchange, AllocError> {
        self.row(alloc, base, kept, x)
    }

    fn columns_from(
        &self,
        alloc: Global,
        base: &ElemSet,
        kept: &M::Kept,
    ) -> Result<BitRows, AllocError> {
        self.columns(alloc, base, kept)
    }
}
