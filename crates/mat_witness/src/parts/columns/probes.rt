//! Numbers that tell the columns of a set from one another, in linear matroids over the field of two elements.

ghost use Rattle.std.specs.{Prelude.{◌≡◌, ◌<◌, true, not, ◌==◌, if◌then◌else◌, length, slice_index_or, IfOk}, List.{list_all}};
ghost use Rattle.mat_sets.specs.Sets.{AllBelow, IsSet, all_below};
ghost use Rattle.mat_gf2.specs.{Columns.{IsBinaryMatrix, column_of, is_gf2}, InnerProducts.{inner_product_is_one}};
ghost use Rattle.mat_any.specs.Trees.{gf2};
ghost use Rattle.mat_witness.specs.{FreeParts.{shows_free, shows_probes}, Parts.{IsFreeFor, probes}};

use super::rows::{make_even, take_odd_row, unit_rows};
use mat_gf2::{Gf2, inner_product_is_one};
use mat_sets::ElemSet;
use std::alloc::{AllocError, Global};

// Whether the number meets the column oddly where it is its own, and evenly where it is another's.
fn meets_rightly(number: u128, column: u128, own: bool) -> bool
    ensures { result ≡ (if own then inner_product_is_one number column else not (inner_product_is_one number column)) }
{
    let odd = inner_product_is_one(number, column);
    if own { odd } else { !odd }
}

// Whether the number meets the column of the member at this place oddly, and those of the others evenly.
fn tells_member(columns: &[u128], set: &[u32], number: u128, place: usize) -> bool
    requires { AllBelow (length columns.now) set.now }
    ensures { result ≡ list_all (λ j. if place == j then inner_product_is_one number (column_of columns.now (slice_index_or set.now j 0))
        else not (inner_product_is_one number (column_of columns.now (slice_index_or set.now j 0)))) (all_below (length set.now)) }
{
    for j in 0..set.len() {
        if !meets_rightly(number, columns[set[j] as usize], place == j) {
            return false;
        }
    }
    true
}

/// Whether the i-th number has an odd number of binary ones in common with the column of the i-th member of the set, and an even number
/// with the others.
pub(crate) fn shows_probes(matroid: &Gf2, numbers: &[u128], set: &ElemSet) -> bool
    requires sound { IsBinaryMatrix matroid.now.dim matroid.now.columns }
    requires set { IsSet (length matroid.now.columns) set.now }
    ensures { result ≡ shows_probes (column_of matroid.now.columns) numbers.now set.now }
{
    if numbers.len() != set.len() {
        return false;
    }
    for i in 0..numbers.len() {
        if !tells_member(matroid.columns(), set.as_slice(), numbers[i], i) {
            return false;
        }
    }
    true
}

/// For an independent set, a number for each member that has an odd number of ones in common with its column, and an even number with those of
/// the others, by elimination: at first there is a row for each entry of a column, with a one there alone. Each column
/// in turn takes the first row with which it has an odd number of ones in common out of the rows, as its probe, and the probe is added to the
/// other rows and to the earlier probes with which the column has an odd number of ones in common. The only error is want of memory.
pub(crate) fn probes_of(
    alloc: Global,
    matroid: &Gf2,
    set: &ElemSet,
) -> Result<Vec<u128>, AllocError>
    requires sound { IsBinaryMatrix matroid.now.dim matroid.now.columns }
    requires set { is_gf2 (length matroid.now.columns) (column_of matroid.now.columns) set.now ≡ true }
    ensures part { IfOk result (λ numbers. IsFreeFor (length matroid.now.columns) (length set.now)
        (gf2 matroid.now.dim matroid.now.columns) (probes numbers.items)) }
    ensures shows { IfOk result (λ numbers. shows_free (gf2 matroid.now.dim matroid.now.columns) (probes numbers.items) set.now ≡ true) }
{
    let mut rows = unit_rows(alloc, matroid.dim())?;
    let mut probes = Vec::new(alloc);
    for e in set.as_slice() {
        let column = matroid.columns()[*e as usize];
        let Some(row) = take_odd_row(&mut rows, column) else {
            unreachable!()
        };
        make_even(probes.as_mut_slice(), row, column);
        probes.push(row)?;
    }
    Ok(probes)
}
