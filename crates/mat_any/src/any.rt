//! A matroid of any kind.
ghost use Rattle.mat_any.specs.{
  FlatUnions.{KeepsFlat},
  Trees.{element_count, is_independent, IsSound},
  TreeLaws.{tree_laws},
  Views.{tree_of},
};

use crate::flat::{united, united_again};
use crate::flat_kept::FlatKept;
use crate::independence::independent;
use crate::rows::{adds, circuit_members, row};
use crate::runs::{keep, keep_next, run};
use crate::sizes::size_of;
use mat_count::{Laminar, Partition, Uniform};
use mat_gf2::Gf2;
use mat_graphic::Graphic;
use mat_laws::{Exchange, Matroid};
use mat_linked::{Gammoid, Transversal};
use mat_sets::ElemSet;
use std::alloc::{AllocError, Global};

/// A matroid of any kind. Contracts see the tree of its kinds.
#[derive(Debug, Drop)]
pub enum AnyMatroid {
    /// The sets of at most so many elements.
    Uniform(Uniform),
    /// The sets with at most so many elements of each class.
    Partition(Partition),
    /// The sets with at most so many elements of each set of a laminar family.
    Laminar(Laminar),
    /// The forests of a graph, by their edges.
    Graphic(Graphic),
    /// The partial transversals of a family of sets.
    Transversal(Transversal),
    /// The sets to whose vertices disjoint paths lead from the sources of a directed graph.
    Gammoid(Gammoid),
    /// The sets of linearly independent columns over the field of two elements.
    Gf2(Gf2),
    /// The dual of a matroid.
    Dual(Box<AnyMatroid>),
    /// The independent sets of at most `cap` elements of a matroid.
    Truncate {
        cap: u32,
        inner: Box<AnyMatroid>,
    },
    /// The independent sets of kept elements of a matroid.
    Restrict {
        kept: ElemSet,
        inner: Box<AnyMatroid>,
    },
    /// The contraction of the elements in `away` of a matroid.
    Contract {
        away: ElemSet,
        inner: Box<AnyMatroid>,
    },
    /// The union of matroids on the same elements.
    Union {
        parts: Vec<AnyMatroid>,
    },
}

impl Matroid for AnyMatroid {
    ghost ground_size = { λ m. element_count (tree_of m) };

    ghost sound = { λ m. IsSound (tree_of m) };

    ghost indep = { λ m. is_independent (tree_of m) };

    type Kept = FlatKept;

    ghost keeps = { λ m base kept. KeepsFlat (tree_of m) base kept };

    ghost laws = { λ m. tree_laws (tree_of m) };

    fn size(&self) -> u32 {
        size_of(self)
    }

    fn independent(&self, alloc: Global, set: &ElemSet) -> Result<bool, AllocError> {
        match united(alloc, self)? {
            Some(union) => union.independent(alloc, set),
            None => independent(alloc, self, set),
        }
    }

    fn run(&self, alloc: Global, order: &[u32]) -> Result<ElemSet, AllocError> {
        match united(alloc, self)? {
            Some(union) => union.run(alloc, order),
            None => run(alloc, self, order),
        }
    }

    fn keep(&self, alloc: Global, base: &ElemSet) -> Result<FlatKept, AllocError> {
        match united(alloc, self)? {
            Some(union) => Ok(FlatKept::Flat(union.keep(alloc, base)?)),
            None => Ok(FlatKept::Own(keep(alloc, self, base)?)),
        }
    }

    fn keep_next(
        &self,
        alloc: Global,
        base: &ElemSet,
        kept: &FlatKept,
        next: &ElemSet,
    ) -> Result<FlatKept, AllocError> {
        match kept {
            FlatKept::Own(own) => Ok(FlatKept::Own(keep_next(alloc, self, base, own, next)?)),
            FlatKept::Flat(_) => self.keep(alloc, next),
        }
    }

    fn row(
        &self,
        alloc: Global,
        base: &ElemSet,
        kept: &FlatKept,
        x: u32,
    ) -> Result<Exchange, AllocError> {
        match kept {
            FlatKept::Own(own) => row(alloc, self, base, own, x),
            FlatKept::Flat(held) => {
                let union = united_again(alloc, self)?;
                union.row(alloc, base, held, x)
            }
        }
    }

    fn adds(
        &self,
        alloc: Global,
        base: &ElemSet,
        kept: &FlatKept,
        x: u32,
    ) -> Result<bool, AllocError> {
        match kept {
            FlatKept::Own(own) => adds(alloc, self, base, own, x),
            FlatKept::Flat(_) => Ok(self.row(alloc, base, kept, x)?.addable),
        }
    }

    fn circuit_members(
        &self,
        alloc: Global,
        base: &ElemSet,
        kept: &FlatKept,
        x: u32,
    ) -> Result<Option<ElemSet>, AllocError> {
        match kept {
            FlatKept::Own(own) => circuit_members(alloc, self, base, own, x),
            FlatKept::Flat(_) => Ok(self.row(alloc, base, kept, x)?.circuit_members()),
        }
    }
}
