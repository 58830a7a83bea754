//! The texts of rungs.

ghost use Rattle.std.specs.Prelude.{◌≡◌, ◌++◌, ◌∷◌, [], codes, IfOk, OnOk};
ghost use Rattle.mat_words.specs.{Lines.{text_of}, Writing.{members_line}};
ghost use Rattle.mat_cert.specs.{Certificates.{rung_line, plain_rung_lines, priced_rung_lines, rungs_lines}, Writing.{IsWeightsLine}};

use crate::answer::{PlainRung, PricedRung};
use mat_sets::{ElemSet, Weight};
use mat_words::{put_members_line, put_number_word, put_weight_word, put_weights_line};
use std::alloc::{AllocError, Global};

// Appends the first line of rung k.
fn put_rung_line(out: &mut Vec<u8>, k: usize, weight: Weight) -> Result<(), AllocError>
    ensures { OnOk result (out.new.items ≡ out.old.items ++ text_of (rung_line k weight ∷ [])) }
{
    out.extend_from_slice(b"rung")?;
    put_number_word(out, k as i128)?;
    put_weight_word(out, weight)?;
    out.push(b'\n')?;
    Ok(())
}

// A line of weights with its text, at hand for the next rung, whose weights are often the same.
#[derive(Drop)]
struct WrittenLine<'a> {
    weights: &'a [Weight],
    text: Vec<u8>,
}

// The line of a keyword and no weights.
fn empty_line<'a>(alloc: Global, keyword: &[u8]) -> Result<WrittenLine<'a>, AllocError>
    ensures { IfOk result (λ line. IsWeightsLine keyword.now line.weights.now line.text.items) }
{
    let mut text = Vec::new(alloc);
    put_weights_line(&mut text, keyword, &[])?;
    Ok(WrittenLine { weights: &[], text })
}

// The line of these weights. It is written anew only where they are others than those of the line before.
fn renewed_line<'a>(
    before: WrittenLine<'a>,
    keyword: &[u8],
    weights: &'a [Weight],
) -> Result<WrittenLine<'a>, AllocError>
    requires { IsWeightsLine keyword.now before.weights.now before.text.items }
    ensures weights { IfOk result (λ line. line.weights.now ≡ weights.now) }
    ensures text { IfOk result (λ line. IsWeightsLine keyword.now weights.now line.text.items) }
{
    if before.weights == weights {
        return Ok(before);
    }
    let mut text = before.text;
    text.clear();
    put_weights_line(&mut text, keyword, weights)?;
    Ok(WrittenLine { weights, text })
}

// Appends the two lines of rung k that tell its weight and its set.
fn put_weighted_set(
    out: &mut Vec<u8>,
    k: usize,
    weight: Weight,
    set: &ElemSet,
) -> Result<(), AllocError>
    ensures { OnOk result (out.new.items ≡ out.old.items ++ text_of (rung_line k weight ∷ members_line (codes "set") set.now ∷ [])) }
{
    put_rung_line(out, k, weight)?;
    put_members_line(out, b"set", set.as_slice())?;
    Ok(())
}

// Appends the four lines of rung k with a split, of which the last two were written before.
fn put_priced_rung(
    out: &mut Vec<u8>,
    k: usize,
    rung: &PricedRung,
    first: &[u8],
    second: &[u8],
) -> Result<(), AllocError>
    requires first { IsWeightsLine (codes "first") rung.now.first first.now }
    requires second { IsWeightsLine (codes "second") rung.now.second second.now }
    ensures { OnOk result (out.new.items ≡ out.old.items ++ text_of (priced_rung_lines k rung.now)) }
{
    put_weighted_set(out, k, rung.weight, &rung.set)?;
    out.extend_from_slice(first)?;
    out.extend_from_slice(second)?;
    Ok(())
}

/// Appends the lines of all rungs without a split.
pub(crate) fn put_plain_rungs(out: &mut Vec<u8>, rungs: &[PlainRung]) -> Result<(), AllocError>
    ensures { OnOk result (out.new.items ≡ out.old.items ++ text_of (rungs_lines plain_rung_lines 0 rungs.now)) }
{
    for (k, rung) in rungs.iter().enumerate() {
        put_weighted_set(out, k, rung.weight, &rung.set)?;
    }
    Ok(())
}

/// Appends the lines of all rungs with a split.
pub(crate) fn put_priced_rungs(
    alloc: Global,
    out: &mut Vec<u8>,
    rungs: &[PricedRung],
) -> Result<(), AllocError>
    ensures { OnOk result (out.new.items ≡ out.old.items ++ text_of (rungs_lines priced_rung_lines 0 rungs.now)) }
{
    let mut first = empty_line(alloc, b"first")?;
    let mut second = empty_line(alloc, b"second")?;
    for (k, rung) in rungs.iter().enumerate() {
        first = renewed_line(first, b"first", rung.first.as_slice())?;
        second = renewed_line(second, b"second", rung.second.as_slice())?;
        put_priced_rung(out, k, rung, &first.text, &second.text)?;
    }
    Ok(())
}
