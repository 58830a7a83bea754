//! Truncations.
ghost use Rattle.std.specs.Prelude.{◌≡◌, ◌&&◌};
ghost use Rattle.mat_minors.specs.{Minors.{is_truncated}, MinorLaws.{truncated_laws}};

use crate::run_orders::first_taken;
use mat_laws::{Exchange, Matroid};
use mat_sets::ElemSet;
use std::alloc::{AllocError, Global};

/// The truncation of a matroid: its independent sets of at most `cap` elements (Schrijver, chapter 39).
#[derive(Debug, Drop)]
pub struct Truncation<M: Matroid> {
    inner: M,
    cap: u32,
}

impl<M: Matroid> Truncation<M> {
    /// The truncation of this matroid to this cap, which may be any number. It takes no memory.
    pub fn new(inner: M, cap: u32) -> Truncation<M>
        requires { M.sound inner }
        ensures value { result ≡ record { inner = inner; cap = cap } }
        ensures sound { M.sound result.inner }
    {
        Truncation { inner, cap }
    }

    /// The matroid that is truncated, as it was handed in.
    pub fn inner(&self) -> &M
        ensures { result.now ≡ self.now.inner }
    {
        &self.inner
    }

    /// How many elements an independent set may have, as it was handed in: the rank of the inner matroid may be smaller.
    pub fn cap(&self) -> u32
        ensures { result ≡ self.now.cap }
    {
        self.cap
    }
}

// These exchanges, of which the element can be added only where there is room.
fn addable_where(inner: Exchange, room: bool) -> Exchange
    ensures addable { result.addable ≡ (inner.addable && room) }
    ensures with { result.with ≡ inner.with }
{
    Exchange {
        addable: inner.addable && room,
        with: inner.with,
    }
}

impl<M: Matroid> Matroid for Truncation<M> {
    ghost ground_size = { λ m. M.ground_size m.inner };

    ghost sound = { λ m. M.sound m.inner };

    ghost indep = { λ m. is_truncated m.cap (M.indep m.inner) };

    type Kept = M::Kept;

    ghost keeps = { λ m base kept. M.keeps m.inner base kept };

    ghost laws = { λ m h. truncated_laws (M.ground_size m.inner) (M.indep m.inner) m.cap (M.laws m.inner h) };

    fn size(&self) -> u32 {
        self.inner.size()
    }

    /// Asks the inner matroid once, and not at all where the set is larger than the cap. The only error is want of memory.
    fn independent(&self, alloc: Global, set: &ElemSet) -> Result<bool, AllocError> {
        if set.len() > self.cap as usize {
            return Ok(false);
        }
        self.inner.independent(alloc, set)
    }

    /// One run of the inner matroid, of which the first that the order has are taken, up to the cap. The only error is want of
    /// memory.
    fn run(&self, alloc: Global, order: &[u32]) -> Result<ElemSet, AllocError> {
        self.inner.lawful();
        let all = self.inner.run(alloc, order)?;
        first_taken(alloc, order, &all, self.cap)
    }

    /// What the inner matroid keeps. The only error is want of memory.
    fn keep(&self, alloc: Global, base: &ElemSet) -> Result<M::Kept, AllocError> {
        self.inner.keep(alloc, base)
    }

    /// The exchanges of the inner matroid; an element can be added only below the cap. The only error is want of memory.
    fn row(
        &self,
        alloc: Global,
        base: &ElemSet,
        kept: &M::Kept,
        x: u32,
    ) -> Result<Exchange, AllocError> {
        let inner = self.inner.row(alloc, base, kept, x)?;
        Ok(addable_where(inner, base.len() < self.cap as usize))
    }
}
