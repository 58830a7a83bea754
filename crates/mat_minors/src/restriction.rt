//! Restrictions.
ghost use Rattle.std.specs.Prelude.{◌≡◌};
ghost use Rattle.mat_sets.specs.Sets.{AllBelow};
ghost use Rattle.mat_minors.specs.{Minors.{is_restricted}, MinorLaws.{restricted_laws}};

use crate::run_orders::items_in;
use mat_laws::{Exchange, Matroid};
use mat_sets::ElemSet;
use std::alloc::{AllocError, Global};

/// The restriction of a matroid to some of its elements: its independent sets of these (Schrijver, chapter 39). The
/// number of elements stays, and the other elements are loops.
#[derive(Debug, Drop)]
pub struct Restriction<M: Matroid> {
    inner: M,
    kept: ElemSet,
}

impl<M: Matroid> Restriction<M> {
    /// The restriction of this matroid to these of its elements. It takes no memory.
    pub fn new(inner: M, kept: ElemSet) -> Restriction<M>
        requires sound { M.sound inner }
        requires below { AllBelow (M.ground_size inner) kept }
        ensures value { result ≡ record { inner = inner; kept = kept } }
        ensures sound { M.sound result.inner × AllBelow (M.ground_size result.inner) result.kept }
    {
        Restriction { inner, kept }
    }

    /// The matroid that is restricted, as it was handed in.
    pub fn inner(&self) -> &M
        ensures { result.now ≡ self.now.inner }
    {
        &self.inner
    }

    /// The elements that are kept, as they were handed in.
    pub fn kept(&self) -> &ElemSet
        ensures { result.now ≡ self.now.kept }
    {
        &self.kept
    }
}

impl<M: Matroid> Matroid for Restriction<M> {
    ghost ground_size = { λ m. M.ground_size m.inner };

    ghost sound = { λ m. M.sound m.inner × AllBelow (M.ground_size m.inner) m.kept };

    ghost indep = { λ m. is_restricted m.kept (M.indep m.inner) };

    type Kept = M::Kept;

    ghost keeps = { λ m base kept. M.keeps m.inner base kept };

    ghost laws = { λ m h. restricted_laws (M.ground_size m.inner) (M.indep m.inner) m.kept (M.laws m.inner h.0) };

    fn size(&self) -> u32 {
        self.inner.size()
    }

    /// Asks the inner matroid once, and not at all where a member is not kept. The only error is want of memory.
    fn independent(&self, alloc: Global, set: &ElemSet) -> Result<bool, AllocError> {
        if !set.is_subset(&self.kept) {
            return Ok(false);
        }
        self.inner.independent(alloc, set)
    }

    /// One run of the inner matroid along the elements of the order that are kept. The only error is want of memory.
    fn run(&self, alloc: Global, order: &[u32]) -> Result<ElemSet, AllocError> {
        self.inner.lawful();
        let items = items_in(alloc, order, &self.kept)?;
        self.inner.run(alloc, &items)
    }

    /// What the inner matroid keeps. The only error is want of memory.
    fn keep(&self, alloc: Global, base: &ElemSet) -> Result<M::Kept, AllocError> {
        self.inner.keep(alloc, base)
    }

    /// The exchanges of the inner matroid for an element that is kept, and none for another. The only error is want of
    /// memory.
    fn row(
        &self,
        alloc: Global,
        base: &ElemSet,
        kept: &M::Kept,
        x: u32,
    ) -> Result<Exchange, AllocError> {
        if !self.kept.contains(x) {
            return Ok(Exchange {
                addable: false,
                with: ElemSet::new(alloc),
            });
        }
        self.inner.row(alloc, base, kept, x)
    }
}
