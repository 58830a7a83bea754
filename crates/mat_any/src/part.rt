//! A matroid of any kind, borrowed as one of a union.
ghost use Rattle.mat_any.specs.{AnyKeeps.{KeepsAny}, Trees.{element_count, is_independent, IsSound}, TreeLaws.{tree_laws}, Views.{tree_of}};

use crate::any::AnyMatroid;
use crate::any_kept::AnyKept;
use crate::independence::independent;
use crate::rows::{adds, circuit_members, row};
use crate::runs::{keep, keep_next, run};
use crate::sizes::size_of;
use mat_laws::{Exchange, Matroid};
use mat_sets::ElemSet;
use std::alloc::{AllocError, Global};

/// A matroid of any kind, borrowed as one of a union.
#[derive(Debug, Drop)]
pub(crate) struct Part<'a> {
    pub(crate) matroid: &'a AnyMatroid,
}

impl<'a> Matroid for Part<'a> {
    ghost ground_size = { λ p. element_count (tree_of p.matroid.now) };

    ghost sound = { λ p. IsSound (tree_of p.matroid.now) };

    ghost indep = { λ p. is_independent (tree_of p.matroid.now) };

    type Kept = AnyKept;

    ghost keeps = { λ p base kept. KeepsAny (tree_of p.matroid.now) base kept };

    ghost laws = { λ p. tree_laws (tree_of p.matroid.now) };

    fn size(&self) -> u32 {
        size_of(self.matroid)
    }

    fn independent(&self, alloc: Global, set: &ElemSet) -> Result<bool, AllocError> {
        independent(alloc, self.matroid, set)
    }

    fn run(&self, alloc: Global, order: &[u32]) -> Result<ElemSet, AllocError> {
        run(alloc, self.matroid, order)
    }

    fn keep(&self, alloc: Global, base: &ElemSet) -> Result<AnyKept, AllocError> {
        keep(alloc, self.matroid, base)
    }

    fn keep_next(
        &self,
        alloc: Global,
        base: &ElemSet,
        kept: &AnyKept,
        next: &ElemSet,
    ) -> Result<AnyKept, AllocError> {
        keep_next(alloc, self.matroid, base, kept, next)
    }

    fn row(
        &self,
        alloc: Global,
        base: &ElemSet,
        kept: &AnyKept,
        x: u32,
    ) -> Result<Exchange, AllocError> {
        row(alloc, self.matroid, base, kept, x)
    }

    fn adds(
        &self,
        alloc: Global,
        base: &ElemSet,
        kept: &AnyKept,
        x: u32,
    ) -> Result<bool, AllocError> {
        adds(alloc, self.matroid, base, kept, x)
    }

    fn circuit_members(
        &self,
        alloc: Global,
        base: &ElemSet,
        kept: &AnyKept,
        x: u32,
    ) -> Result<Option<ElemSet>, AllocError> {
        circuit_members(alloc, self.matroid, base, kept, x)
    }
}
