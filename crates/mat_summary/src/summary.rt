//! The line that sums up an answer.

ghost use Rattle.std.specs.Prelude.{◌≡◌, ◌+◌, ◌≤◌, ◌++◌, ◌∷◌, [], length, codes, pos, All, IfOk, OnOk};
ghost use Rattle.mat_sets.specs.{Limits.{largest_number, most_elements, most_matroids}, Weights.{IsWeightWithin}};
ghost use Rattle.mat_words.specs.{Lines.{text_of}, Numbers.{numeral}, Weights.{weight_word}, Writing.{spaced}};
ghost use Rattle.mat_cert.specs.{Certificates.{IsRanged}, Views.{certificate_of}};
ghost use Rattle.mat_summary.specs.Summaries.{all_members, kind_word, ladder_words, summary_line, summary_words};

use crate::totals::{all_members, ladder_weight, last_weight};
use mat_cert::{Answer, PricedRung};
use mat_gen::SampleKind;
use mat_sets::{SetList, Weight};
use mat_words::TextWord::{self, Fixed, Number};
use mat_words::put_words;
use std::alloc::{AllocError, Global};

// Appends what a ladder comes to.
fn put_ladder_words(out: &mut Vec<u8>, rungs: &[PricedRung]) -> Result<(), AllocError>
    requires few { length rungs.now ≤ most_elements + 1 }
    requires small { All (λ rung. IsWeightWithin largest_number rung.weight) rungs.now }
    ensures { OnOk result (out.new.items ≡ out.old.items ++ spaced (ladder_words rungs.now)) }
{
    let words = [
        Fixed(b"size"),
        Number(rungs.len().saturating_sub(1) as i128),
        Fixed(b"weight"),
        TextWord::Weight(last_weight(rungs)),
        Fixed(b"ladder"),
        TextWord::Weight(ladder_weight(rungs)),
    ];
    put_words(out, &words)
}

// Appends what a union comes to.
fn put_union_words(out: &mut Vec<u8>, weight: Weight, parts: &SetList) -> Result<(), AllocError>
    requires few { length parts.now ≤ most_matroids }
    requires small { All (λ set. length set ≤ most_elements) parts.now }
    ensures { OnOk result (out.new.items ≡ out.old.items
        ++ spaced (codes "size" ∷ numeral (pos (all_members parts.now)) ∷ codes "weight" ∷ weight_word weight ∷ [])) }
{
    let words = [
        Fixed(b"size"),
        Number(all_members(parts.as_slice()) as i128),
        Fixed(b"weight"),
        TextWord::Weight(weight),
    ];
    put_words(out, &words)
}

// Appends what an answer comes to.
fn put_answer_words(out: &mut Vec<u8>, answer: &Answer) -> Result<(), AllocError>
    requires { IsRanged (certificate_of answer.now) }
    ensures { OnOk result (out.new.items ≡ out.old.items ++ spaced (summary_words (certificate_of answer.now))) }
{
    match answer {
        Answer::Intersect { rungs, .. } => put_ladder_words(out, rungs),
        Answer::Assign { rungs, .. } => put_ladder_words(out, rungs),
        Answer::UnionOf { weight, parts, .. } => put_union_words(out, *weight, parts),
        Answer::Trees { .. } => put_words(out, &[Fixed(b"trees")]),
        Answer::TreesNone { .. } => put_words(out, &[Fixed(b"partition")]),
        Answer::Arbor { cost, .. } => put_words(out, &[Fixed(b"cost"), TextWord::Weight(*cost)]),
        Answer::Unreached { .. } => put_words(out, &[Fixed(b"unreached")]),
        _ => Ok(()),
    }
}

// The word that names a kind.
fn kind_word(kind: SampleKind) -> &'static [u8]
    ensures { result.now ≡ kind_word kind }
{
    match kind {
        SampleKind::Pair => b"pair",
        SampleKind::List => b"list",
        SampleKind::Graph => b"graph",
        SampleKind::Rooted => b"rooted",
        SampleKind::Table => b"table",
    }
}

/// The summary of an answer in range to the problem of this kind, size and seed. The only error is want of memory.
pub(crate) fn summary_text(
    alloc: Global,
    kind: SampleKind,
    size: u32,
    seed: u64,
    answer: &Answer,
) -> Result<Vec<u8>, AllocError>
    requires { IsRanged (certificate_of answer.now) }
    ensures { IfOk result (λ v. v.items ≡ text_of (summary_line kind size seed (certificate_of answer.now) ∷ [])) }
{
    let mut out = b"sample".to_vec(alloc)?;
    let words = [
        Fixed(kind_word(kind)),
        Number(i128::from(size)),
        Number(i128::from(seed)),
    ];
    put_words(&mut out, &words)?;
    put_answer_words(&mut out, answer)?;
    put_words(&mut out, &[Fixed(b"accepted")])?;
    out.push(b'\n')?;
    Ok(out)
}
