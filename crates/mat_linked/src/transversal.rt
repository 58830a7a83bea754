//! Transversal matroids.
ghost use Rattle.std.specs.{Prelude.{◌≡◌, ◌<◌, ◌^◌, length, IfOk}, List.{All}};
ghost use Rattle.mat_sets.specs.Sets.{AllBelow};
ghost use Rattle.mat_linked.specs.{
  KeptMatchings.{IsKeptMatching},
  Matchings.{AreIndices},
  Transversals.{is_transversal, IsFamily},
  TransversalLaws.{transversal_laws},
};

use crate::kept_matching::KeptMatching;
use crate::matching::{are_matchable, matched_along};
use mat_laws::{Exchange, Matroid};
use mat_sets::{BitRows, ElemSet, SetList};
use std::alloc::{AllocError, Global};
use std::marker::Model;

/// The matroid of the partial transversals of a family of sets: a set is independent where its members lie in different sets of
/// the family, each in one that holds it (Schrijver, chapter 39).
#[derive(Debug, Drop)]
pub struct Transversal {
    count: u32,
    family: SetList,
    // At x the indices of the sets that hold the element x.
    rows: BitRows,
}

impl Model for Transversal {
    ghost use Rattle.mat_linked.specs.{Transversals.{Family}, Matchings.{AreIndices}};

    ghost Value = { Family };

    ghost view = { λ t. record { count = t.count; sets = t.family } };

    ghost invariant = { λ t. AreIndices t.count t.family t.rows };
}

// For each element the indices of the sets that hold it.
fn rows_of(alloc: Global, count: u32, family: &SetList) -> Result<BitRows, AllocError>
    requires inside { All (AllBelow count) family.now }
    requires few { length family.now < 2 ^ 32 }
    ensures { IfOk result (λ rows. AreIndices count family.now rows) }
{
    let mut rows = BitRows::with_rows(alloc, count, family.len() as u32)?;
    for j in 0..family.len() {
        rows.insert_each(family.get(j).as_slice(), j as u32)?;
    }
    Ok(rows)
}

impl Transversal {
    /// The transversal matroid of this family on this many elements. It takes a bit for each element and each set. The only error
    /// is want of memory.
    pub fn new(alloc: Global, count: u32, family: SetList) -> Result<Transversal, AllocError>
        requires inside { All (AllBelow count) family }
        requires few { length family < 2 ^ 32 }
        ensures value { IfOk result (λ t. t ≡ record { count = count; sets = family }) }
        ensures sound { IfOk result (λ t. IsFamily t.count t.sets) }
    {
        let rows = rows_of(alloc, count, &family)?;
        Ok(Transversal {
            count,
            family,
            rows,
        })
    }

    /// The number of elements.
    pub fn count(&self) -> u32
        ensures { result ≡ self.now.count }
    {
        self.count
    }

    /// The sets of the family.
    pub fn family(&self) -> &SetList
        ensures { result.now ≡ self.now.sets }
    {
        &self.family
    }
}

impl Matroid for Transversal {
    ghost ground_size = { λ m. m.count };

    ghost sound = { λ m. IsFamily m.count m.sets };

    ghost indep = { λ m. is_transversal m.count m.sets };

    type Kept = KeptMatching;

    ghost keeps = { λ m base kept. IsKeptMatching m.count m.sets base kept };

    ghost laws = { λ m h. transversal_laws m.count m.sets h.inside };

    fn size(&self) -> u32 {
        self.count
    }

    /// Whether the members of a set can be matched with different sets of the family: one search of the bits of their rows for
    /// each member. The only error is want of memory.
    fn independent(&self, alloc: Global, set: &ElemSet) -> Result<bool, AllocError> {
        are_matchable(alloc, &self.rows, self.family.len() as u32, set.as_slice())
    }

    /// The greedy run along an order: one matching, and one search of the bits of the rows for each element. The only error is
    /// want of memory.
    fn run(&self, alloc: Global, order: &[u32]) -> Result<ElemSet, AllocError> {
        matched_along(alloc, &self.rows, self.family.len() as u32, order)
    }

    /// A matching of the set. The only error is want of memory.
    fn keep(&self, alloc: Global, base: &ElemSet) -> Result<KeptMatching, AllocError> {
        KeptMatching::new(alloc, &self.rows, self.family.len() as u32, base)
    }

    /// A matching of the other set, made from that of the first: one search of the bits of the rows for each member that is new; each that
    /// is gone is taken out. The only error is want of memory.
    fn keep_next(
        &self,
        alloc: Global,
        base: &ElemSet,
        kept: &KeptMatching,
        next: &ElemSet,
    ) -> Result<KeptMatching, AllocError> {
        kept.next(alloc, &self.rows, self.family.len() as u32, base, next)
    }

    /// The exchanges of an element by one search of the bits of the rows. The only error is want of memory.
    fn row(
        &self,
        alloc: Global,
        base: &ElemSet,
        kept: &KeptMatching,
        x: u32,
    ) -> Result<Exchange, AllocError> {
        kept.row(alloc, &self.rows, base, x)
    }

    /// Whether an element can be added, by the bits of its row. It takes no memory.
    fn adds(
        &self,
        _alloc: Global,
        _base: &ElemSet,
        kept: &KeptMatching,
        x: u32,
    ) -> Result<bool, AllocError> {
        Ok(kept.adds(&self.rows, x))
    }
}
