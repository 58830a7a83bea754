//! The union of matroids.
ghost use Rattle.std.specs.Prelude.{◌≡◌, map};
ghost use Rattle.mat_union.specs.{
  GrownParts.{AreKeptParts},
  UnionOfLaws.{joined_laws},
  UnionsOf.{AreJoined, common_size},
  Unions.{union_test},
};

use crate::kept_columns::columns_of_parts;
use crate::kept_parts::{KeptParts, parts_of, row_of_parts};
use crate::running::run_along;
use mat_laws::{Exchange, Matroid};
use mat_sets::{BitRows, ElemSet};
use std::alloc::{AllocError, Global};

/// The union of matroids on the same elements: a set is independent where it is the union of pairwise disjoint sets, one for each matroid
/// and independent in it (Schrijver, chapter 42). What is kept of a set is parts of it, so that each row costs one search for moves.
#[derive(Debug, Drop)]
pub struct UnionOf<M: Matroid> {
    parts: Vec<M>,
}

impl<M: Matroid> UnionOf<M> {
    /// The union of these matroids: at least one, fewer than 2^32, and all of one size. It takes no memory.
    pub fn new(parts: Vec<M>) -> UnionOf<M>
        requires { AreJoined M.ground_size M.sound parts.items }
        ensures value { result ≡ record { parts = parts } }
        ensures sound { AreJoined M.ground_size M.sound result.parts.items }
    {
        UnionOf { parts }
    }

    /// The matroids, as they were handed in.
    pub fn parts(&self) -> &[M]
        ensures { result.now ≡ self.now.parts.items }
    {
        &self.parts
    }
}

impl<M: Matroid> Matroid for UnionOf<M> {
    ghost ground_size = { λ u. common_size M.ground_size u.parts.items };

    ghost sound = { λ u. AreJoined M.ground_size M.sound u.parts.items };

    ghost indep = { λ u. union_test (common_size M.ground_size u.parts.items) (map M.indep u.parts.items) };

    type Kept = KeptParts<M::Kept>;

    ghost keeps = { λ u base kept. AreJoined M.ground_size M.sound u.parts.items × AreKeptParts M.indep M.keeps u.parts.items base kept.parts kept.kept.items };

    ghost laws = { λ u h. joined_laws M.ground_size M.sound M.indep M.laws u.parts.items h };

    fn size(&self) -> u32 {
        self.parts[0].size()
    }

    /// Whether the set has parts: each matroid takes by one greedy run what it can, and the other members come one after the other, each by a
    /// search for moves, which asks for one row, by what is kept, at each part for each element that it reaches. The only error is want of
    /// memory.
    fn independent(&self, alloc: Global, set: &ElemSet) -> Result<bool, AllocError> {
        let n = self.size();
        let found = parts_of(alloc, self.parts.as_slice(), n, set)?;
        Ok(found.is_some())
    }

    /// The run of the first matroid, into which the other elements of the order come one after the other: each is added to a part that can
    /// take it at once, or comes by a search for moves; what a stuck search reached needs no search any more. The only error is want of
    /// memory.
    fn run(&self, alloc: Global, order: &[u32]) -> Result<ElemSet, AllocError> {
        let n = self.size();
        run_along(alloc, self.parts.as_slice(), n, order)
    }

    /// Parts of the set, found as `independent` does, and what each matroid keeps of its part. The only error is want of memory.
    fn keep(&self, alloc: Global, base: &ElemSet) -> Result<KeptParts<M::Kept>, AllocError> {
        let n = self.size();
        match parts_of(alloc, self.parts.as_slice(), n, base)? {
            Some(kept) => Ok(kept),
            None => unreachable!(),
        }
    }

    /// One search for moves from x, among the parts that are kept, which asks for one row, by what is kept, at each part for each element that
    /// it reaches. The only error is want of memory.
    fn row(
        &self,
        alloc: Global,
        base: &ElemSet,
        kept: &KeptParts<M::Kept>,
        x: u32,
    ) -> Result<Exchange, AllocError> {
        let n = self.size();
        row_of_parts(alloc, self.parts.as_slice(), n, base, kept, x)
    }

    /// All columns at once: each matroid is asked for the columns at its part, and what is reached from one part to another is told for all
    /// elements together. The only error is want of memory.
    fn columns(
        &self,
        alloc: Global,
        base: &ElemSet,
        kept: &KeptParts<M::Kept>,
    ) -> Result<BitRows, AllocError> {
        let n = self.size();
        columns_of_parts(alloc, self.parts.as_slice(), n, base, kept)
    }
}
