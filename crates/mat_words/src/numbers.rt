//! Numbers as words.

ghost use Rattle.std.specs.Prelude.{
  ◌≡◌,
  ◌≤◌,
  ◌+◌,
  ◌-◌,
  ◌*◌,
  ◌<◌,
  ◌↔◌,
  ◌^◌,
  ◌++◌,
  length,
  min,
  Some,
  None,
  Ok,
  if◌then◌else◌,
  OnOk,
  OnErr,
  IfSome,
  IsTrue,
  pos,
  neg_ℤ,
  drop,
  List,
  ℕ,
  ℤ,
  IfOk,
  ◌≤ℤ◌,
};
ghost use Rattle.mat_words.specs.{
  Numbers.{numeral, decimal, is_counting, value_of, number_in, in_range, number_of, magnitude_bound},
  Words.{is_word},
};

use std::alloc::AllocError;
use thiserror::Error;

/// Why a word is not a number, or a weight, in a range.
#[derive(Clone, Copy, Debug, PartialEq, Eq, Error)]
pub enum NumberFault {
    /// It is no number, or no weight.
    #[error("no number")]
    Spelling,
    /// It is a number outside the range, or a weight with one.
    #[error("a number outside the range")]
    Range,
}

// 2 ^ 127 + 1, above the absolute value of every i128.
const MAGNITUDE_BOUND: u128 = 170141183460469231731687303715884105729;

// One more digit, as far as the bound. Up to 19 digits are put together in 64 bits, which is faster.
fn append_digit(n: u128, digit: u8) -> u128
    requires bounded { n ≤ magnitude_bound }
    requires digit { digit < 10 }
    ensures { result ≡ min (n * 10 + digit) magnitude_bound }
{
    if n < 1000000000000000000 {
        return (n as u64 * 10 + digit as u64) as u128;
    }
    if n > MAGNITUDE_BOUND / 10 {
        return MAGNITUDE_BOUND;
    }
    let more = n * 10 + digit as u128;
    if more > MAGNITUDE_BOUND {
        MAGNITUDE_BOUND
    } else {
        more
    }
}

// What at most 18 digits stand for, put together in 64 bits: None where they are not a digit from 1 to 9 followed by any digits.
fn short_magnitude(digits: &[u8]) -> Option<u64>
    requires { length digits.now ≤ 18 }
    ensures value { result ≡ (if is_counting digits.now then Some (value_of digits.now) else None) }
    ensures some { IfSome result (λ n. 0 < n) }
{
    if digits.is_empty() || digits[0] < b'1' {
        return None;
    }
    let mut n: u64 = 0;
    for c in digits {
        if *c < b'0' || *c > b'9' {
            return None;
        }
        n = n * 10 + (*c - b'0') as u64;
    }
    Some(n)
}

// The same for any number of digits, as far as the bound.
fn long_magnitude(digits: &[u8]) -> Option<u128>
    ensures value { result ≡ (if is_counting digits.now then Some (min (value_of digits.now) magnitude_bound) else None) }
    ensures some { IfSome result (λ n. 0 < n) }
{
    if digits.is_empty() || digits[0] < b'1' {
        return None;
    }
    let mut n: u128 = 0;
    for c in digits {
        if *c < b'0' || *c > b'9' {
            return None;
        }
        n = append_digit(n, *c - b'0');
    }
    Some(n)
}

// What digits stand for, as far as the bound: None where they are not a digit from 1 to 9 followed by any digits.
fn magnitude(digits: &[u8]) -> Option<u128>
    ensures value { result ≡ (if is_counting digits.now then Some (min (value_of digits.now) magnitude_bound) else None) }
    ensures some { IfSome result (λ n. 0 < n) }
{
    if digits.len() > 18 {
        return long_magnitude(digits);
    }
    match short_magnitude(digits) {
        Some(n) => Some(n as u128),
        None => None,
    }
}

// The number itself, if it is in the range.
fn within(z: i128, low: i128, high: i128) -> Result<i128, NumberFault>
    ensures value { result ≡ in_range low high (Some z) }
    ensures range { IfOk result (λ z. (low ≤ℤ z) × (z ≤ℤ high)) }
{
    if low <= z && z <= high {
        Ok(z)
    } else {
        Err(NumberFault::Range)
    }
}

// Digits with no sign before them, as a number in the range.
fn positive(digits: &[u8], low: i128, high: i128) -> Result<i128, NumberFault>
    ensures value { result ≡ in_range low high (if is_counting digits.now then Some (pos (value_of digits.now)) else None) }
    ensures range { IfOk result (λ z. (low ≤ℤ z) × (z ≤ℤ high)) }
{
    let Some(n) = magnitude(digits) else {
        return Err(NumberFault::Spelling);
    };
    if n >= MAGNITUDE_BOUND - 1 {
        return Err(NumberFault::Range);
    }
    within(n as i128, low, high)
}

// The number -n.
fn negated(n: u128) -> i128
    requires some { 0 < n }
    requires fits { n ≤ 2 ^ 127 }
    ensures { result ≡ neg_ℤ (pos n) }
{
    -1 - (n - 1) as i128
}

// Digits behind a `-`, as a number in the range.
fn negative(digits: &[u8], low: i128, high: i128) -> Result<i128, NumberFault>
    ensures value { result ≡ in_range low high (if is_counting digits.now then Some (neg_ℤ (pos (value_of digits.now))) else None) }
    ensures range { IfOk result (λ z. (low ≤ℤ z) × (z ≤ℤ high)) }
{
    let Some(n) = magnitude(digits) else {
        return Err(NumberFault::Spelling);
    };
    if n == MAGNITUDE_BOUND {
        return Err(NumberFault::Range);
    }
    within(negated(n), low, high)
}

/// The number that a word of any length spells, where one in `low..=high` is needed. [`NumberFault::Spelling`] where the word is no
/// number, and [`NumberFault::Range`] where it is one outside the range. It takes no memory.
pub fn read_number(word: &[u8], low: i128, high: i128) -> Result<i128, NumberFault>
    ensures value { result ≡ number_in low high word.now }
    ensures range { IfOk result (λ z. (low ≤ℤ z) × (z ≤ℤ high)) }
{
    match word {
        [] => Err(NumberFault::Spelling),
        [b'0'] => within(0, low, high),
        [b'0', ..] => Err(NumberFault::Spelling),
        [b'-', digits @ ..] => negative(digits, low, high),
        _ => positive(word, low, high),
    }
}

// Writes the digits of a number right before the place `end`, and answers where they begin.
fn short_decimal_into(buffer: &mut [u8; 40], end: usize, n: u64) -> usize
    requires end { (0 < end) × (end ≤ 40) }
    requires room { n < 10 ^ (end - 1) }
    ensures digits { drop result buffer.new ≡ decimal n ++ drop end buffer.old }
    ensures room { (0 < result) × (result ≤ end) }
{
    let mut left = n;
    let mut at = end;
    while left > 0 {
        at -= 1;
        buffer[at] = b'0' + (left % 10) as u8;
        left /= 10;
    }
    at
}

// Writes the digits of a number at the end of the buffer, and answers where they begin. Digits are split off 64 bits at a time as soon
// as the rest fits, since a division of 128 bits is slow.
fn decimal_into(buffer: &mut [u8; 40], n: u128) -> usize
    requires { n < 10 ^ 39 }
    ensures digits { drop result buffer.new ≡ decimal n }
    ensures room { (0 < result) × (result ≤ 40) }
{
    let mut left = n;
    let mut at = 40;
    while left > u64::MAX as u128 {
        at -= 1;
        buffer[at] = b'0' + (left % 10) as u8;
        left /= 10;
    }
    short_decimal_into(buffer, at, left as u64)
}

/// Writes the one spelling of a number at the end of a buffer, and answers where it begins. It takes no memory, and is fastest where the
/// absolute value fits 64 bits.
pub fn spell_into(buffer: &mut [u8; 40], n: i128) -> usize
    ensures spelling { drop result buffer.new ≡ numeral n }
    ensures within { result < 40 }
{
    if n == 0 {
        buffer[39] = b'0';
        return 39;
    }
    let at = decimal_into(buffer, n.unsigned_abs());
    if n > 0 {
        return at;
    }
    buffer[at - 1] = b'-';
    at - 1
}

/// Appends the one spelling of a number. After an AllocError `out` is as before.
pub fn put_number(out: &mut Vec<u8>, n: i128) -> Result<(), AllocError>
    ensures ok { OnOk result (out.new.items ≡ out.old.items ++ numeral n) }
    ensures err { OnErr result (out.new.items ≡ out.old.items) }
{
    let mut buffer = [0; 40];
    let at = spell_into(&mut buffer, n);
    out.extend_from_slice(&buffer[at..])?;
    Ok(())
}

/// What holds of every number: it has one spelling, which is a word, and each word that is a number is the spelling of that number.
pub fn number_laws()
    ensures spelled { (word : List ℕ) (z : ℤ) → number_of word ≡ Some z → word ≡ numeral z }
    ensures read { (z : ℤ) → number_of (numeral z) ≡ Some z }
    ensures word { (z : ℤ) → IsTrue (is_word (numeral z)) }
    // A word is read as a number in a range exactly where it is its spelling and the range holds it.
    ensures exact { (low : ℤ) (high : ℤ) (z : ℤ) (word : List ℕ)
        → (number_in low high word ≡ Ok z) ↔ ((word ≡ numeral z) × (low ≤ℤ z) × (z ≤ℤ high)) }
{}
