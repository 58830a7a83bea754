//! Weights as words.

ghost use Rattle.std.specs.Prelude.{◌≡◌, ◌↔◌, ◌++◌, ◌∷◌, Some, Ok, OnOk, OnErr, IfOk, IsTrue, length, take, List, ℕ, ℤ, pos};
ghost use Rattle.mat_sets.specs.declared.weight.Weight.{Weight};
ghost use Rattle.mat_words.specs.{
  Numbers.{numeral, number_of, ranged},
  Words.{is_word},
  Weights.{weight_word, untied, tied, weight_of_word, IsWeightBetween, is_weight_between, weight_in, both_in},
};

use crate::numbers::{NumberFault, put_number, read_number};
use crate::words::split_at_byte;
use mat_sets::Weight;
use std::alloc::AllocError;

// The weight without a tie that a word spells, where one is needed of which each number is in `low..=high`.
fn read_untied(word: &[u8], low: i128, high: i128) -> Result<Weight, NumberFault>
    ensures { result ≡ ranged (is_weight_between low high) (untied (number_of word.now)) }
{
    match read_number(word, low, high) {
        Ok(main) if low <= 0 && 0 <= high => Ok(Weight { main, tie: 0 }),
        Ok(_) => Err(NumberFault::Range),
        Err(fault) => Err(fault),
    }
}

// The weight of two numbers: one that is misspelled comes before one outside the range.
fn both(
    main: Result<i128, NumberFault>,
    tie: Result<i128, NumberFault>,
) -> Result<Weight, NumberFault>
    ensures { result ≡ both_in main tie }
{
    match (main, tie) {
        (Ok(main), Ok(tie)) => Ok(Weight { main, tie }),
        (Err(NumberFault::Spelling), _) | (_, Err(NumberFault::Spelling)) => {
            Err(NumberFault::Spelling)
        }
        _ => Err(NumberFault::Range),
    }
}

// The weight with a tie that two words spell, where one is needed of which each number is in `low..=high`.
fn read_tied(main: &[u8], tie: &[u8], low: i128, high: i128) -> Result<Weight, NumberFault>
    ensures { result ≡ ranged (is_weight_between low high) (tied (number_of main.now) (number_of tie.now)) }
{
    if tie == b"0".as_slice() {
        return Err(NumberFault::Spelling);
    }
    both(read_number(main, low, high), read_number(tie, low, high))
}

// The weight that a word spells, by its parts before and behind the first `:`.
fn read_parts(word: &[u8], low: i128, high: i128) -> Result<Weight, NumberFault>
    ensures value { result ≡ weight_in low high word.now }
    ensures range { IfOk result (λ w. IsWeightBetween low high w) }
{
    match split_at_byte(word, b':') {
        (main, None) => read_untied(main, low, high),
        (main, Some(tie)) => read_tied(main, tie, low, high),
    }
}

/// The weight that a word of any length spells, where one is needed of which each number is in `low..=high`. [`NumberFault::Spelling`]
/// where the word is no weight word, and [`NumberFault::Range`] where it is one with a number outside the range. It takes no memory, and
/// is fastest where the weight has no tie.
pub fn read_weight(word: &[u8], low: i128, high: i128) -> Result<Weight, NumberFault>
    ensures value { result ≡ weight_in low high word.now }
    ensures range { IfOk result (λ w. IsWeightBetween low high w) }
{
    match read_untied(word, low, high) {
        Ok(weight) => Ok(weight),
        Err(NumberFault::Range) => Err(NumberFault::Range),
        Err(NumberFault::Spelling) => read_parts(word, low, high),
    }
}

// Appends two numbers with a `:` between them. After an AllocError a part of them may stand behind what `out` had.
fn put_tied(out: &mut Vec<u8>, weight: Weight) -> Result<(), AllocError>
    ensures ok { OnOk result (out.new.items ≡ out.old.items ++ numeral weight.main ++ 58 ∷ numeral weight.tie) }
    ensures err { OnErr result (take (length out.old.items) out.new.items ≡ out.old.items) }
{
    put_number(out, weight.main)?;
    out.push(b':')?;
    put_number(out, weight.tie)?;
    Ok(())
}

/// Appends the one spelling of a weight. After an AllocError `out` is as before.
pub fn put_weight(out: &mut Vec<u8>, weight: Weight) -> Result<(), AllocError>
    ensures ok { OnOk result (out.new.items ≡ out.old.items ++ weight_word weight) }
    ensures err { OnErr result (out.new.items ≡ out.old.items) }
{
    if weight.tie == 0 {
        return put_number(out, weight.main);
    }
    let before = out.len();
    let written = put_tied(out, weight);
    if written.is_err() {
        out.truncate(before);
    }
    written
}

/// What holds of every weight: it has one spelling, which is a word, and each word that is a weight word is the spelling of its weight.
pub fn weight_laws()
    ensures spelled { (word : List ℕ) (w : Weight) → weight_of_word word ≡ Some w → word ≡ weight_word w }
    ensures read { (w : Weight) → weight_of_word (weight_word w) ≡ Some w }
    ensures word { (w : Weight) → IsTrue (is_word (weight_word w)) }
    // A number is a weight word, and spells the weight without a tie.
    ensures number { (word : List ℕ) (z : ℤ) → number_of word ≡ Some z → weight_of_word word ≡ Some (record { main = z; tie = pos 0 }) }
    // A word is read as a weight in a range exactly where it is its spelling and the range holds both of its numbers.
    ensures exact { (low : ℤ) (high : ℤ) (w : Weight) (word : List ℕ)
        → (weight_in low high word ≡ Ok w) ↔ ((word ≡ weight_word w) × IsWeightBetween low high w) }
{}
