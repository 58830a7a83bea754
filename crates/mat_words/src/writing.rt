//! Writing lines word by word.

ghost use Rattle.std.specs.Prelude.{◌≡◌, ◌<◌, ◌++◌, ◌∷◌, [], OnErr, OnOk, length, take, pos};
ghost use Rattle.mat_words.specs.{
  Lines.{text_of},
  Numbers.{numeral},
  Weights.{weight_word},
  Writing.{members_line, numbers_line, weights_line},
};

use crate::numbers::put_number;
use crate::weights::put_weight;
use mat_sets::Weight;
use std::alloc::AllocError;

// Appends a number below 1000 as the next word of a line, behind a space, as one piece. After an AllocError `out` is as before.
fn put_small_word(out: &mut Vec<u8>, number: u32) -> Result<(), AllocError>
    requires { number < 1000 }
    ensures ok { OnOk result (out.new.items ≡ out.old.items ++ 32 ∷ numeral (pos number)) }
    ensures err { OnErr result (out.new.items ≡ out.old.items) }
{
    let ones = b'0' + (number % 10) as u8;
    let tens = b'0' + (number / 10 % 10) as u8;
    let hundreds = b'0' + (number / 100) as u8;
    if number < 10 {
        out.extend_from_slice(&[b' ', ones])?;
    } else if number < 100 {
        out.extend_from_slice(&[b' ', tens, ones])?;
    } else {
        out.extend_from_slice(&[b' ', hundreds, tens, ones])?;
    }
    Ok(())
}

/// Appends a number as the next word of a line, behind a space. It is fastest for numbers from 0 on below 1000. After an AllocError
/// `out` is as before.
pub fn put_number_word(out: &mut Vec<u8>, number: i128) -> Result<(), AllocError>
    ensures ok { OnOk result (out.new.items ≡ out.old.items ++ 32 ∷ numeral number) }
    ensures err { OnErr result (out.new.items ≡ out.old.items) }
{
    if 0 <= number && number < 1000 {
        return put_small_word(out, number as u32);
    }
    out.push(b' ')?;
    let written = put_number(out, number);
    if written.is_err() {
        out.truncate(out.len() - 1);
    }
    written
}

// Appends a line of a keyword and numbers. After an AllocError a part of it may stand behind what `out` had.
fn put_numbers_behind(out: &mut Vec<u8>, keyword: &[u8], numbers: &[i128]) -> Result<(), AllocError>
    ensures ok { OnOk result (out.new.items ≡ out.old.items ++ text_of (numbers_line keyword.now numbers.now ∷ [])) }
    ensures err { OnErr result (take (length out.old.items) out.new.items ≡ out.old.items) }
{
    out.extend_from_slice(keyword)?;
    for z in numbers {
        put_number_word(out, *z)?;
    }
    out.push(b'\n')?;
    Ok(())
}

/// Appends a line of a keyword and numbers. After an AllocError `out` is as before.
pub fn put_numbers_line(
    out: &mut Vec<u8>,
    keyword: &[u8],
    numbers: &[i128],
) -> Result<(), AllocError>
    ensures ok { OnOk result (out.new.items ≡ out.old.items ++ text_of (numbers_line keyword.now numbers.now ∷ [])) }
    ensures err { OnErr result (out.new.items ≡ out.old.items) }
{
    let before = out.len();
    let written = put_numbers_behind(out, keyword, numbers);
    if written.is_err() {
        out.truncate(before);
    }
    written
}

/// Appends a weight as the next word of a line, behind a space. After an AllocError `out` is as before.
pub fn put_weight_word(out: &mut Vec<u8>, weight: Weight) -> Result<(), AllocError>
    ensures ok { OnOk result (out.new.items ≡ out.old.items ++ 32 ∷ weight_word weight) }
    ensures err { OnErr result (out.new.items ≡ out.old.items) }
{
    if weight.tie == 0 {
        return put_number_word(out, weight.main);
    }
    out.push(b' ')?;
    let written = put_weight(out, weight);
    if written.is_err() {
        out.truncate(out.len() - 1);
    }
    written
}

// Appends a line of a keyword and weights. After an AllocError a part of it may stand behind what `out` had.
fn put_weights_behind(
    out: &mut Vec<u8>,
    keyword: &[u8],
    weights: &[Weight],
) -> Result<(), AllocError>
    ensures ok { OnOk result (out.new.items ≡ out.old.items ++ text_of (weights_line keyword.now weights.now ∷ [])) }
    ensures err { OnErr result (take (length out.old.items) out.new.items ≡ out.old.items) }
{
    out.extend_from_slice(keyword)?;
    for w in weights {
        put_weight_word(out, *w)?;
    }
    out.push(b'\n')?;
    Ok(())
}

/// Appends a line of a keyword and weights. After an AllocError `out` is as before.
pub fn put_weights_line(
    out: &mut Vec<u8>,
    keyword: &[u8],
    weights: &[Weight],
) -> Result<(), AllocError>
    ensures ok { OnOk result (out.new.items ≡ out.old.items ++ text_of (weights_line keyword.now weights.now ∷ [])) }
    ensures err { OnErr result (out.new.items ≡ out.old.items) }
{
    let before = out.len();
    let written = put_weights_behind(out, keyword, weights);
    if written.is_err() {
        out.truncate(before);
    }
    written
}

// Appends a line of a keyword and the members of a list, in their order. After an AllocError a part of it may stand behind what `out` had.
fn put_members_behind(out: &mut Vec<u8>, keyword: &[u8], members: &[u32]) -> Result<(), AllocError>
    ensures ok { OnOk result (out.new.items ≡ out.old.items ++ text_of (members_line keyword.now members.now ∷ [])) }
    ensures err { OnErr result (take (length out.old.items) out.new.items ≡ out.old.items) }
{
    out.extend_from_slice(keyword)?;
    for x in members {
        put_number_word(out, i128::from(*x))?;
    }
    out.push(b'\n')?;
    Ok(())
}

/// Appends a line of a keyword and the members of a list, in their order. After an AllocError `out` is as before.
pub fn put_members_line(
    out: &mut Vec<u8>,
    keyword: &[u8],
    members: &[u32],
) -> Result<(), AllocError>
    ensures ok { OnOk result (out.new.items ≡ out.old.items ++ text_of (members_line keyword.now members.now ∷ [])) }
    ensures err { OnErr result (out.new.items ≡ out.old.items) }
{
    let before = out.len();
    let written = put_members_behind(out, keyword, members);
    if written.is_err() {
        out.truncate(before);
    }
    written
}
