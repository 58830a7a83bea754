//! Contractions.
ghost use Rattle.std.specs.Prelude.{◌≡◌, IfOk};
ghost use Rattle.mat_sets.specs.Sets.{AllBelow, union};
ghost use Rattle.mat_minors.specs.{Minors.{is_contracted, IsContraction}, MinorLaws.{contracted_laws}};

use crate::run_orders::members_first;
use mat_laws::{Exchange, Matroid};
use mat_sets::ElemSet;
use std::alloc::{AllocError, Global};

/// The contraction of some elements of a matroid: the sets that are disjoint from them, and independent together with a
/// maximal independent subset of them (Schrijver, chapter 39). The number of elements stays, and the contracted ones are loops.
#[derive(Debug, Drop)]
pub struct Contraction<M: Matroid> {
    inner: M,
    away: ElemSet,
    // a maximal independent subset of `away`
    chosen: ElemSet,
}

/// What a contraction keeps of an independent set.
#[derive(Drop)]
pub struct ContractionKept<M: Matroid> {
    /// The set together with what was chosen of the contracted elements.
    joined: ElemSet,
    /// What the matroid that is contracted keeps of their union.
    inner: M::Kept,
}

impl<M: Matroid> Contraction<M> {
    /// The contraction of these elements of this matroid, by one greedy run of it through them. The only error is want of
    /// memory.
    pub fn new(alloc: Global, inner: M, away: ElemSet) -> Result<Contraction<M>, AllocError>
        requires sound { M.sound inner }
        requires below { AllBelow (M.ground_size inner) away }
        ensures inner { IfOk result (λ m. m.inner ≡ inner) }
        ensures away { IfOk result (λ m. m.away ≡ away) }
        ensures sound { IfOk result (λ m. M.sound m.inner × IsContraction (M.ground_size m.inner) (M.indep m.inner) m.away m.chosen) }
    {
        let chosen = inner.grown_base(alloc, &ElemSet::new(alloc), &away)?;
        Ok(Contraction {
            inner,
            away,
            chosen,
        })
    }

    /// The matroid that is contracted, as it was handed in.
    pub fn inner(&self) -> &M
        ensures { result.now ≡ self.now.inner }
    {
        &self.inner
    }

    /// The elements that are contracted, as they were handed in.
    pub fn away(&self) -> &ElemSet
        ensures { result.now ≡ self.now.away }
    {
        &self.away
    }
}

impl<M: Matroid> Matroid for Contraction<M> {
    ghost ground_size = { λ m. M.ground_size m.inner };

    ghost sound = { λ m. M.sound m.inner × IsContraction (M.ground_size m.inner) (M.indep m.inner) m.away m.chosen };

    ghost indep = { λ m. is_contracted (M.ground_size m.inner) m.away (M.indep m.inner) };

    type Kept = ContractionKept<M>;

    ghost keeps = { λ m base kept. (kept.joined ≡ union base m.chosen) × M.keeps m.inner kept.joined kept.inner };

    ghost laws = { λ m h. contracted_laws (M.ground_size m.inner) (M.indep m.inner) m.away h.1.set.rising (M.laws m.inner h.0) };

    fn size(&self) -> u32 {
        self.inner.size()
    }

    /// Asks the inner matroid once, and not at all where a member is contracted. The only error is want of memory.
    fn independent(&self, alloc: Global, set: &ElemSet) -> Result<bool, AllocError> {
        if !set.is_disjoint(&self.away) {
            return Ok(false);
        }
        let joined = set.union(alloc, &self.chosen)?;
        self.inner.independent(alloc, &joined)
    }

    /// One run of the inner matroid, first through the contracted elements, and then through the others of the order. The
    /// only error is want of memory.
    fn run(&self, alloc: Global, order: &[u32]) -> Result<ElemSet, AllocError> {
        self.inner.lawful();
        let items = members_first(alloc, &self.away, order)?;
        let all = self.inner.run(alloc, &items)?;
        all.minus(alloc, &self.away)
    }

    /// The set together with what was chosen of the contracted elements, and what the inner matroid keeps of their union.
    /// The only error is want of memory.
    fn keep(&self, alloc: Global, base: &ElemSet) -> Result<ContractionKept<M>, AllocError> {
        let joined = base.union(alloc, &self.chosen)?;
        let inner = self.inner.keep(alloc, &joined)?;
        Ok(ContractionKept { joined, inner })
    }

    /// The exchanges of the inner matroid at the set together with what was chosen of the contracted elements, for
    /// members of the set; none for a contracted element. The only error is want of memory.
    fn row(
        &self,
        alloc: Global,
        base: &ElemSet,
        kept: &ContractionKept<M>,
        x: u32,
    ) -> Result<Exchange, AllocError> {
        if self.away.contains(x) {
            return Ok(Exchange {
                addable: false,
                with: ElemSet::new(alloc),
            });
        }
        base.rises();
        let inner = self.inner.row(alloc, &kept.joined, &kept.inner, x)?;
        Ok(Exchange {
            addable: inner.addable,
            with: inner.with.minus(alloc, &self.chosen)?,
        })
    }
}
