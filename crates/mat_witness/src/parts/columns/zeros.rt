//! Equations that hold of the columns of a set, in linear matroids over the field of two elements.

ghost use Rattle.std.specs.{
  Prelude.{◌≡◌, ℕ, ◌<◌, ◌≤◌, ◌-◌, ◌^◌, not, if◌then◌else◌, true, List, length, All, IfOk, Some, None},
  List.{list_all},
};
ghost use Rattle.mat_sets.specs.Sets.{AllBelow, IsSet, all_below};
ghost use Rattle.mat_laws.specs.Matroids.{IsMaximal};
ghost use Rattle.mat_gf2.specs.{Columns.{IsBinaryMatrix, column_of, is_gf2}, InnerProducts.{inner_product_is_one}};
ghost use Rattle.mat_any.specs.Trees.{gf2};
ghost use Rattle.mat_witness.specs.{
  BoundParts.{are_zeros, bound_of, has_own_one, shows_bound},
  Parts.{IsBoundFor, zeros},
  Rows.{AreOnesOfOthers},
};

use super::rows::{take_odd_row, unit_rows};
use mat_gf2::{Gf2, inner_product_is_one};
use mat_sets::ElemSet;
use std::alloc::{AllocError, Global};

// Whether the number meets the column of each item evenly.
fn meets_evenly(columns: &[u128], set: &[u32], number: u128) -> bool
    requires { AllBelow (length columns.now) set.now }
    ensures { result ≡ list_all (λ e. not (inner_product_is_one number (column_of columns.now e))) set.now }
{
    for e in set {
        if inner_product_is_one(number, columns[*e as usize]) {
            return false;
        }
    }
    true
}

// Whether each number meets the column of each item evenly.
fn all_meet_evenly(columns: &[u128], set: &[u32], numbers: &[u128]) -> bool
    requires { AllBelow (length columns.now) set.now }
    ensures { result ≡ list_all (λ zero. list_all (λ e. not (inner_product_is_one zero (column_of columns.now e))) set.now) numbers.now }
{
    for number in numbers {
        if !meets_evenly(columns, set, *number) {
            return false;
        }
    }
    true
}

// The ones of all numbers but the one at this place.
fn ones_of_others(numbers: &[u128], place: usize) -> u128
    ensures { AreOnesOfOthers numbers.now place (length numbers.now) result }
{
    let mut ones = 0;
    for j in 0..numbers.len() {
        if j != place {
            ones |= numbers[j];
        }
    }
    ones
}

// Whether each number has a one at a place where the others have none.
fn have_own_ones(numbers: &[u128]) -> bool
    ensures { (dim : ℕ) → All (λ zero. zero < 2 ^ dim) numbers.now
        → result ≡ list_all (has_own_one dim numbers.now) (all_below (length numbers.now)) }
{
    for i in 0..numbers.len() {
        if numbers[i] & ones_of_others(numbers, i) == numbers[i] {
            return false;
        }
    }
    true
}

/// The number of entries of a column less that of the numbers, and None where one of these has an odd number of binary ones in common with
/// a column of the set, or no binary one of its own.
pub(crate) fn zeros_bound(matroid: &Gf2, numbers: &[u128], set: &ElemSet) -> Option<u32>
    requires sound { IsBinaryMatrix matroid.now.dim matroid.now.columns }
    requires set { IsSet (length matroid.now.columns) set.now }
    requires few { length numbers.now ≤ matroid.now.dim }
    requires below { All (λ zero. zero < 2 ^ matroid.now.dim) numbers.now }
    ensures { result ≡ (if are_zeros matroid.now.dim (column_of matroid.now.columns) numbers.now set.now
        then Some (matroid.now.dim - length numbers.now) else None) }
{
    if !all_meet_evenly(matroid.columns(), set.as_slice(), numbers) {
        return None;
    }
    if !have_own_ones(numbers) {
        return None;
    }
    Some(matroid.dim() - numbers.len() as u32)
}

/// Numbers that have an even number of binary ones in common with each column of an independent set, and so of any set in which it is
/// maximal, each with a one of its own: at first one for each entry, of which each column takes away at most one. The only error is want of
/// memory.
pub(crate) fn zeros_of(
    alloc: Global,
    matroid: &Gf2,
    inside: &ElemSet,
) -> Result<Vec<u128>, AllocError>
    requires sound { IsBinaryMatrix matroid.now.dim matroid.now.columns }
    requires inside { is_gf2 (length matroid.now.columns) (column_of matroid.now.columns) inside.now ≡ true }
    ensures part { IfOk result (λ numbers. IsBoundFor (length matroid.now.columns) (gf2 matroid.now.dim matroid.now.columns)
        (zeros numbers.items)) }
    ensures shows { IfOk result (λ numbers. (set : List ℕ) → IsSet (length matroid.now.columns) set
        → IsMaximal (is_gf2 (length matroid.now.columns) (column_of matroid.now.columns)) set inside.now
        → shows_bound (gf2 matroid.now.dim matroid.now.columns) (zeros numbers.items) set ≡ true) }
    ensures number { IfOk result (λ numbers. bound_of (gf2 matroid.now.dim matroid.now.columns) (zeros numbers.items)
        ≤ length inside.now) }
{
    let mut rows = unit_rows(alloc, matroid.dim())?;
    for e in inside.as_slice() {
        let _taken = take_odd_row(&mut rows, matroid.columns()[*e as usize]);
    }
    Ok(rows)
}
