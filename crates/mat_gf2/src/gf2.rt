//! Matroids of columns over the field of two elements.
ghost use Rattle.std.specs.Prelude.{◌≡◌, length, IfOk};
ghost use Rattle.mat_gf2.specs.{Columns.{IsBinaryMatrix, column_of, is_gf2}, Gf2Laws.{gf2_laws}, KeptBases.{IsKeptBasis}};

use crate::elimination::{
    TaggedColumn, are_independent, marked_members, reduce_tagged, run_along, tagged_basis,
};
use crate::kept_basis::KeptBasis;
use crate::parity::{fails_check, parity_checks};
use mat_laws::{Exchange, Matroid};
use mat_sets::ElemSet;
use std::alloc::{AllocError, Global};
use std::marker::Model;

/// The linear matroid of columns over the field of two elements, each a number whose bits are its entries: a set is
/// independent where no non-empty part of it has columns whose exclusive-or is zero (Schrijver, chapter 39).
#[derive(Debug, Drop)]
pub struct Gf2 {
    dim: u32,
    columns: Vec<u128>,
}

impl Model for Gf2 {
    ghost use Rattle.mat_gf2.specs.Columns.{BinaryMatrix};

    ghost Value = { BinaryMatrix };

    ghost view = { λ g. record { dim = g.dim; columns = g.columns.items } };
}

impl Gf2 {
    /// The matroid of these columns, which have `dim` entries each. The only error is want of memory; as the columns are
    /// taken as they stand, none comes.
    pub fn new(_alloc: Global, dim: u32, columns: Vec<u128>) -> Result<Gf2, AllocError>
        requires { IsBinaryMatrix dim columns.items }
        ensures value { IfOk result (λ g. g ≡ record { dim = dim; columns = columns.items }) }
        ensures sound { IfOk result (λ g. IsBinaryMatrix g.dim g.columns) }
    {
        Ok(Gf2 { dim, columns })
    }

    /// How many entries a column has.
    pub fn dim(&self) -> u32
        ensures { result ≡ self.now.dim }
    {
        self.dim
    }

    /// The columns, as they were handed in.
    pub fn columns(&self) -> &[u128]
        ensures { result.now ≡ self.now.columns }
    {
        self.columns.as_slice()
    }
}

impl Matroid for Gf2 {
    ghost ground_size = { λ m. length m.columns };

    ghost sound = { λ m. IsBinaryMatrix m.dim m.columns };

    ghost indep = { λ m. is_gf2 (length m.columns) (column_of m.columns) };

    type Kept = KeptBasis;

    ghost keeps = { λ m base kept. IsKeptBasis (column_of m.columns) base kept };

    ghost laws = { λ m h. gf2_laws (length m.columns) (column_of m.columns) };

    fn size(&self) -> u32 {
        self.columns.len() as u32
    }

    /// Whether the columns of a set are linearly independent, by one elimination: an exclusive-or for each member and each
    /// column of the basis, of which there are at most `dim`. The only error is want of memory.
    fn independent(&self, alloc: Global, set: &ElemSet) -> Result<bool, AllocError> {
        are_independent(alloc, &self.columns, set)
    }

    /// One elimination that grows by a column: an exclusive-or for each item of the order and each column of the basis, of
    /// which there are at most `dim`. The only error is want of memory.
    fn run(&self, alloc: Global, order: &[u32]) -> Result<ElemSet, AllocError> {
        run_along(alloc, &self.columns, order)
    }

    /// A basis of the columns of the set, by one elimination: an exclusive-or for each two members; and eight parity checks of
    /// its span, by an inner product for each of them and each member. The only error is want of memory.
    fn keep(&self, alloc: Global, base: &ElemSet) -> Result<KeptBasis, AllocError> {
        let rows = tagged_basis(alloc, &self.columns, base)?;
        let checks = parity_checks(alloc, &rows)?;
        Ok(KeptBasis { rows, checks })
    }

    /// The exchanges of x: where its column is a sum of columns of the set, it can be exchanged for the members of that
    /// sum alone, and else it can be added, and be exchanged for every member. An exclusive-or for each member tells the sum.
    /// The only error is want of memory.
    fn row(
        &self,
        alloc: Global,
        base: &ElemSet,
        kept: &KeptBasis,
        x: u32,
    ) -> Result<Exchange, AllocError> {
        let column = TaggedColumn {
            column: self.columns[x as usize],
            tag: 0,
        };
        let left = reduce_tagged(&kept.rows, column);
        if left.column == 0 {
            let with = marked_members(alloc, base, left.tag)?;
            return Ok(Exchange {
                addable: false,
                with,
            });
        }
        let with = base.copy(alloc)?;
        Ok(Exchange {
            addable: true,
            with,
        })
    }

    /// Whether the column of x is no sum of columns of the set: it is none where it fails a parity check, and where it passes
    /// all of them an exclusive-or for each member tells. It takes no memory.
    fn adds(
        &self,
        _alloc: Global,
        _base: &ElemSet,
        kept: &KeptBasis,
        x: u32,
    ) -> Result<bool, AllocError> {
        let column = TaggedColumn {
            column: self.columns[x as usize],
            tag: 0,
        };
        if fails_check(&kept.checks, column.column) {
            return Ok(true);
        }
        let left = reduce_tagged(&kept.rows, column);
        Ok(left.column != 0)
    }
}
