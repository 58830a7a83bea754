//! Duals.
ghost use Rattle.std.specs.Prelude.{◌≡◌, ◌<◌, length, IfOk};
ghost use Rattle.mat_sets.specs.Sets.{IsRising};
ghost use Rattle.mat_minors.specs.{DualRows.{IsDualKept, at_same_base, kept_row}, Minors.{is_dual}, MinorLaws.{dual_laws}};

use crate::run_orders::others_first;
use mat_laws::{Exchange, Matroid};
use mat_sets::{BitRows, BitSet, ElemSet};
use std::alloc::{AllocError, Global};

/// The dual of a matroid: the sets from which some base is disjoint (Schrijver, chapter 39).
#[derive(Debug, Drop)]
pub struct Dual<M: Matroid> {
    inner: M,
}

impl<M: Matroid> Dual<M> {
    /// The dual of this matroid. It takes no memory.
    pub fn new(inner: M) -> Dual<M>
        requires { M.sound inner }
        ensures value { result ≡ record { inner = inner } }
        ensures sound { M.sound result.inner }
    {
        Dual { inner }
    }

    /// The matroid of which this is the dual, as it was handed in.
    pub fn inner(&self) -> &M
        ensures { result.now ≡ self.now.inner }
    {
        &self.inner
    }
}

impl<M: Matroid> Matroid for Dual<M> {
    ghost ground_size = { λ m. M.ground_size m.inner };

    ghost sound = { λ m. M.sound m.inner };

    ghost indep = { λ m. is_dual (M.ground_size m.inner) (M.indep m.inner) };

    type Kept = DualKept;

    ghost keeps = { λ m set kept. IsDualKept (M.ground_size m.inner) (M.indep m.inner) set kept.set kept.base kept.columns };

    ghost laws = { λ m h. dual_laws (M.ground_size m.inner) (M.indep m.inner) (M.laws m.inner h) };

    fn size(&self) -> u32 {
        self.inner.size()
    }

    /// A set is independent where the run of the dual through its members takes each of them: one run of the inner matroid. The
    /// only error is want of memory.
    fn independent(&self, alloc: Global, set: &ElemSet) -> Result<bool, AllocError> {
        let taken = self.run(alloc, set.as_slice())?;
        Ok(taken.len() == set.len())
    }

    /// What a run of the inner matroid leaves of the order that goes through all other elements first, and then through the
    /// order from its end. The only error is want of memory.
    fn run(&self, alloc: Global, order: &[u32]) -> Result<ElemSet, AllocError> {
        self.inner.lawful();
        let all = ElemSet::from_members(alloc, order)?;
        let items = others_first(alloc, self.inner.size(), &all, order)?;
        let base = self.inner.run(alloc, &items)?;
        all.minus(alloc, &base)
    }

    /// A base of the inner matroid that is disjoint from the set, by one run, and the columns at it, which the inner
    /// matroid makes. The only error is want of memory.
    fn keep(&self, alloc: Global, base: &ElemSet) -> Result<DualKept, AllocError> {
        self.inner.lawful();
        let outside = ElemSet::all_below(alloc, self.inner.size())?.minus(alloc, base)?;
        let other = self
            .inner
            .grown_base(alloc, &ElemSet::new(alloc), &outside)?;
        let kept = self.inner.keep(alloc, &other)?;
        let columns = self.inner.columns(alloc, &other, &kept)?;
        let set = base.to_bits(alloc)?;
        let marks = other.to_bits(alloc)?;
        Ok(DualKept {
            set,
            base: marks,
            columns,
        })
    }

    /// If the base is disjoint from the next set, a copy of it and of its columns; else both are made anew. The only error is want of memory.
    fn keep_next(
        &self,
        alloc: Global,
        _base: &ElemSet,
        kept: &DualKept,
        next: &ElemSet,
    ) -> Result<DualKept, AllocError> {
        match same_base(alloc, kept, next)? {
            Some(same) => Ok(same),
            None => self.keep(alloc, next),
        }
    }

    /// A look into the column of x, and a copy of the answer. The only error is want of memory.
    fn row(
        &self,
        alloc: Global,
        _base: &ElemSet,
        kept: &DualKept,
        x: u32,
    ) -> Result<Exchange, AllocError> {
        self.inner.lawful();
        dual_row(alloc, kept, x)
    }
}

/// What a dual keeps of an independent set, as bits: the set, a base of its matroid that is disjoint from the set, and for each member of that base
/// the elements that can take its place.
#[derive(Debug, Drop)]
pub struct DualKept {
    /// The set.
    pub set: BitSet,
    /// The base.
    pub base: BitSet,
    /// For each element, at its number: what can take its place, if it is in the base.
    pub columns: BitRows,
}

/// What is kept of another set at the same base, if the base is disjoint from it; else None. The time is that of a copy of the columns. The only
/// error is want of memory.
pub fn same_base(
    alloc: Global,
    kept: &DualKept,
    next: &ElemSet,
) -> Result<Option<DualKept>, AllocError>
    ensures { IfOk result (λ found. found ≡ at_same_base kept.now next.now) }
{
    let set = next.to_bits(alloc)?;
    if kept.base.next_common(&set, 0).is_some() {
        return Ok(None);
    }
    Ok(Some(DualKept {
        set,
        base: kept.base.copy(alloc)?,
        columns: kept.columns.copy(alloc)?,
    }))
}

/// The exchanges of x outside an independent set of a dual, from what is kept of the set. The only error is want of memory.
pub fn dual_row(alloc: Global, kept: &DualKept, x: u32) -> Result<Exchange, AllocError>
    requires { x < length kept.now.columns }
    ensures row { IfOk result (λ e. e ≡ kept_row kept.now.set kept.now.base kept.now.columns x) }
    ensures rises { IfOk result (λ e. IsRising e.with) }
{
    if kept.base.contains(x) {
        let column = kept.columns.row(x);
        if column.is_subset(&kept.set) {
            return Ok(Exchange {
                addable: false,
                with: ElemSet::from_bits(alloc, column)?,
            });
        }
    }
    Ok(Exchange {
        addable: true,
        with: ElemSet::from_bits(alloc, &kept.set)?,
    })
}

/// Whether x, outside an independent set of a dual, can be added, from what is kept of the set. It takes no memory.
pub fn dual_adds(kept: &DualKept, x: u32) -> bool
    requires { x < length kept.now.columns }
    ensures told { result ≡ (kept_row kept.now.set kept.now.base kept.now.columns x).addable }
    ensures rises { IsRising kept.now.set → IsRising (kept_row kept.now.set kept.now.base kept.now.columns x).with }
{
    if !kept.base.contains(x) {
        return true;
    }
    !kept.columns.row(x).is_subset(&kept.set)
}
