//! Parity checks of the span of a basis, as those of a linear code over the field of two elements.
ghost use Rattle.std.specs.{Prelude.{◌≡◌, ℕ, All, length, IfOk}, List.{list_any}};
ghost use Rattle.mat_gf2.specs.{Eliminations.{reduced}, InnerProducts.{inner_product_is_one}, ParityChecks.{IsParityCheck, IsTransposed}};

use crate::elimination::TaggedColumn;
use std::alloc::{AllocError, Global};

// The parity checks of the extended Hamming code of length 128: a number that has from one to three binary ones has an odd
// number of them in common with one of these.
const STARTS: [u128; 8] = [
    0xffff_ffff_ffff_ffff_ffff_ffff_ffff_ffff,
    0x0000_0000_0000_0000_ffff_ffff_ffff_ffff,
    0x0000_0000_ffff_ffff_0000_0000_ffff_ffff,
    0x0000_ffff_0000_ffff_0000_ffff_0000_ffff,
    0x00ff_00ff_00ff_00ff_00ff_00ff_00ff_00ff,
    0x0f0f_0f0f_0f0f_0f0f_0f0f_0f0f_0f0f_0f0f,
    0x3333_3333_3333_3333_3333_3333_3333_3333,
    0x5555_5555_5555_5555_5555_5555_5555_5555,
];

/// Whether two numbers, as columns over the field of two elements, have the inner product one: an odd number of binary ones
/// in common.
pub fn inner_product_is_one(a: u128, b: u128) -> bool
    ensures { result ≡ inner_product_is_one a b }
{
    (a & b).count_ones() % 2 == 1
}

// The transpose of reduction by a row: the number whose inner product with a column is that of the check with what is left
// of the column when it is reduced by the row.
fn transposed(row: u128, check: u128) -> u128
    ensures { (v : ℕ) → inner_product_is_one result v ≡ inner_product_is_one check (reduced v row) }
{
    if !inner_product_is_one(check, row) {
        return check;
    }
    let place = row.ilog2();
    check ^ (1 << place)
}

// A parity check of the span of a basis, from any number: the transposes of reduction by its rows are applied to it, from the
// last row to the first.
fn parity_check(basis: &[TaggedColumn], start: u128) -> u128
    ensures transposed { IsTransposed basis.now start result }
    ensures check { IsParityCheck basis.now result }
{
    let mut check = start;
    for place in (0..basis.len()).rev() {
        check = transposed(basis[place].column, check);
    }
    check
}

/// Eight parity checks of the span of a basis, by an inner product for each of them and each column of the basis. The only
/// error is want of memory.
pub(crate) fn parity_checks(alloc: Global, basis: &[TaggedColumn]) -> Result<Vec<u128>, AllocError>
    ensures eight { IfOk result (λ checks. length checks.items ≡ 8) }
    ensures checks { IfOk result (λ checks. All (IsParityCheck basis.now) checks.items) }
{
    let mut checks = Vec::with_capacity(alloc, STARTS.len())?;
    for start in STARTS {
        checks.push(parity_check(basis, start))?;
    }
    Ok(checks)
}

/// Whether a column fails one of the parity checks: its inner product with it is one.
pub(crate) fn fails_check(checks: &[u128], column: u128) -> bool
    ensures { result ≡ list_any (λ check. inner_product_is_one check column) checks.now }
{
    for check in checks {
        if inner_product_is_one(*check, column) {
            return true;
        }
    }
    false
}
