//! Binary numbers that meet columns evenly, by elimination.

ghost use Rattle.std.specs.Prelude.{◌≡◌, ℕ, ◌<◌, ◌≤◌, ◌^◌, true, false, length, map, slice_index_or, IfOk, IfSome, IfNone};
ghost use Rattle.mat_sets.specs.Sets.{all_below};
ghost use Rattle.mat_gf2.specs.InnerProducts.{inner_product_is_one};
ghost use Rattle.mat_witness.specs.Rows.{evened, IsTaken};

use mat_gf2::inner_product_is_one;
use std::alloc::{AllocError, Global};

// The place of the first row that meets the column oddly.
fn odd_row(rows: &[u128], column: u128) -> Option<usize>
    ensures some { IfSome result (λ at. (at < length rows.now) × (inner_product_is_one (slice_index_or rows.now at 0) column ≡ true)) }
    ensures none_before { IfSome result (λ at. (i : ℕ) → i < at → inner_product_is_one (slice_index_or rows.now i 0) column ≡ false) }
    ensures none { IfNone result ((i : ℕ) → i < length rows.now → inner_product_is_one (slice_index_or rows.now i 0) column ≡ false) }
{
    for i in 0..rows.len() {
        if inner_product_is_one(rows[i], column) {
            return Some(i);
        }
    }
    None
}

// The number, with the row added where it meets the column oddly.
fn evened(row: u128, column: u128, number: u128) -> u128
    ensures { result ≡ evened row column number }
{
    if inner_product_is_one(number, column) {
        number ^ row
    } else {
        number
    }
}

/// Adds a row to each number that meets the column oddly.
pub(crate) fn make_even(numbers: &mut [u128], row: u128, column: u128)
    ensures { numbers.new ≡ map (evened row column) numbers.old }
{
    for i in 0..numbers.len() {
        numbers[i] = evened(row, column, numbers[i]);
    }
}

/// Takes the first row that meets the column oddly out of the rows, and adds it to the others that do so. None where no row does.
pub(crate) fn take_odd_row(rows: &mut Vec<u128>, column: u128) -> Option<u128>
    ensures some { IfSome result (λ row. IsTaken rows.old.items column row rows.new.items) }
    ensures same { IfNone result (rows.new.items ≡ rows.old.items) }
    ensures none { IfNone result ((i : ℕ) → i < length rows.old.items → inner_product_is_one (slice_index_or rows.old.items i 0) column ≡ false) }
{
    let at = odd_row(rows, column)?;
    let row = rows.remove(at);
    make_even(rows.as_mut_slice(), row, column);
    Some(row)
}

/// A row for each of so many places, with a one there alone. The only error is want of memory.
pub(crate) fn unit_rows(alloc: Global, dim: u32) -> Result<Vec<u128>, AllocError>
    requires { dim ≤ 128 }
    ensures { IfOk result (λ rows. rows.items ≡ map (λ place. 2 ^ place) (all_below dim)) }
{
    let mut rows = Vec::new(alloc);
    for place in 0..dim {
        rows.push(1 << place)?;
    }
    Ok(rows)
}
