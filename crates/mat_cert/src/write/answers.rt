//! The texts of answers, by their variants.

ghost use Rattle.std.specs.Prelude.{◌≡◌, IfOk};
ghost use Rattle.mat_cert.specs.Certificates.{
  certificate_text,
  intersect,
  best,
  union_of,
  pack_any,
  pack,
  cover_never,
  cover,
  trees,
  trees_none,
  arbor,
  unreached,
  disjoint,
  disjoint_none,
  rainbow,
  assign,
};

use crate::answer::{LevelLine, PlainRung, PricedRung};
use crate::write::header::{begun, put_end_line};
use crate::write::rungs::{put_plain_rungs, put_priced_rungs};
use crate::write::sets::{put_level_lines, put_option_line, put_set_lines};
use mat_sets::{ElemSet, PairWeights, SetList, Weight};
use mat_words::TextWord::{Fixed, Number};
use mat_words::{TextWord, put_members_line, put_weights_line};
use std::alloc::{AllocError, Global};

/// The text of an `intersect` certificate.
pub(crate) fn intersect_text(
    alloc: Global,
    count: u32,
    rungs: &[PricedRung],
    cut: &ElemSet,
) -> Result<Vec<u8>, AllocError>
    ensures { IfOk result (λ v. v.items ≡ certificate_text (intersect count rungs.now cut.now)) }
{
    let words = [
        Fixed(b"intersect"),
        Number(count as i128),
        Number(rungs.len().saturating_sub(1) as i128),
    ];
    let mut out = begun(alloc, &words)?;
    put_priced_rungs(alloc, &mut out, rungs)?;
    put_members_line(&mut out, b"cut", cut.as_slice())?;
    put_end_line(&mut out)?;
    Ok(out)
}

/// The text of a `best` certificate.
pub(crate) fn best_text(
    alloc: Global,
    count: u32,
    rungs: &[PlainRung],
) -> Result<Vec<u8>, AllocError>
    ensures { IfOk result (λ v. v.items ≡ certificate_text (best count rungs.now)) }
{
    let words = [
        Fixed(b"best"),
        Number(count as i128),
        Number(rungs.len().saturating_sub(1) as i128),
    ];
    let mut out = begun(alloc, &words)?;
    put_plain_rungs(&mut out, rungs)?;
    put_end_line(&mut out)?;
    Ok(out)
}

/// The text of a `union` certificate.
pub(crate) fn union_text(
    alloc: Global,
    count: u32,
    weight: Weight,
    parts: &SetList,
    levels: &[LevelLine],
) -> Result<Vec<u8>, AllocError>
    ensures { IfOk result (λ v. v.items ≡ certificate_text (union_of count weight parts.now levels.now)) }
{
    let words = [
        Fixed(b"union"),
        Number(count as i128),
        Number(parts.len() as i128),
        Number(levels.len() as i128),
        TextWord::Weight(weight),
    ];
    let mut out = begun(alloc, &words)?;
    put_set_lines(&mut out, b"part", parts)?;
    put_level_lines(&mut out, levels)?;
    put_end_line(&mut out)?;
    Ok(out)
}

/// The text of a `pack` certificate that says `any`.
pub(crate) fn pack_any_text(alloc: Global, count: u32) -> Result<Vec<u8>, AllocError>
    ensures { IfOk result (λ v. v.items ≡ certificate_text (pack_any count)) }
{
    let words = [Fixed(b"pack"), Number(count as i128), Fixed(b"any")];
    let mut out = begun(alloc, &words)?;
    put_end_line(&mut out)?;
    Ok(out)
}

/// The text of a `pack` certificate with a number of bases.
pub(crate) fn pack_text(
    alloc: Global,
    count: u32,
    bases: &SetList,
    cut: &ElemSet,
) -> Result<Vec<u8>, AllocError>
    ensures { IfOk result (λ v. v.items ≡ certificate_text (pack count bases.now cut.now)) }
{
    let words = [
        Fixed(b"pack"),
        Number(count as i128),
        Number(bases.len() as i128),
    ];
    let mut out = begun(alloc, &words)?;
    put_set_lines(&mut out, b"base", bases)?;
    put_members_line(&mut out, b"cut", cut.as_slice())?;
    put_end_line(&mut out)?;
    Ok(out)
}

/// The text of a `cover` certificate that says `never`.
pub(crate) fn never_text(alloc: Global, count: u32, loop_at: u32) -> Result<Vec<u8>, AllocError>
    ensures { IfOk result (λ v. v.items ≡ certificate_text (cover_never count loop_at)) }
{
    let words = [
        Fixed(b"cover"),
        Number(count as i128),
        Fixed(b"never"),
        Number(loop_at as i128),
    ];
    let mut out = begun(alloc, &words)?;
    put_end_line(&mut out)?;
    Ok(out)
}

/// The text of a `cover` certificate with sets.
pub(crate) fn cover_text(
    alloc: Global,
    count: u32,
    sets: &SetList,
    cut: &Option<ElemSet>,
) -> Result<Vec<u8>, AllocError>
    ensures { IfOk result (λ v. v.items ≡ certificate_text (cover count sets.now cut.now)) }
{
    let words = [
        Fixed(b"cover"),
        Number(count as i128),
        Number(sets.len() as i128),
    ];
    let mut out = begun(alloc, &words)?;
    put_set_lines(&mut out, b"part", sets)?;
    put_option_line(&mut out, b"cut", cut)?;
    put_end_line(&mut out)?;
    Ok(out)
}

/// The text of a `trees` certificate with trees.
pub(crate) fn trees_text(alloc: Global, count: u32, sets: &SetList) -> Result<Vec<u8>, AllocError>
    ensures { IfOk result (λ v. v.items ≡ certificate_text (trees count sets.now)) }
{
    let words = [
        Fixed(b"trees"),
        Number(count as i128),
        Number(sets.len() as i128),
    ];
    let mut out = begun(alloc, &words)?;
    put_set_lines(&mut out, b"tree", sets)?;
    put_end_line(&mut out)?;
    Ok(out)
}

/// The text of a `trees` certificate that says `none`.
pub(crate) fn classes_text(
    alloc: Global,
    count: u32,
    k: u32,
    vertices: u32,
    classes: &SetList,
) -> Result<Vec<u8>, AllocError>
    ensures { IfOk result (λ v. v.items ≡ certificate_text (trees_none count k vertices classes.now)) }
{
    let words = [
        Fixed(b"trees"),
        Number(count as i128),
        Number(k as i128),
        Fixed(b"none"),
        Number(vertices as i128),
        Number(classes.len() as i128),
    ];
    let mut out = begun(alloc, &words)?;
    put_set_lines(&mut out, b"class", classes)?;
    put_end_line(&mut out)?;
    Ok(out)
}

/// The text of an `arborescence` certificate that says `tree`.
pub(crate) fn arbor_text(
    alloc: Global,
    count: u32,
    cost: Weight,
    arcs: &ElemSet,
    first: &PairWeights,
    second: &PairWeights,
) -> Result<Vec<u8>, AllocError>
    ensures { IfOk result (λ v. v.items ≡ certificate_text (arbor count cost arcs.now first.now second.now)) }
{
    let words = [
        Fixed(b"arborescence"),
        Number(count as i128),
        Fixed(b"tree"),
        TextWord::Weight(cost),
    ];
    let mut out = begun(alloc, &words)?;
    put_members_line(&mut out, b"set", arcs.as_slice())?;
    put_weights_line(&mut out, b"first", first.as_slice())?;
    put_weights_line(&mut out, b"second", second.as_slice())?;
    put_end_line(&mut out)?;
    Ok(out)
}

/// The text of an `arborescence` certificate that says `unreached`.
pub(crate) fn unreached_text(
    alloc: Global,
    count: u32,
    vertices: u32,
    set: &ElemSet,
) -> Result<Vec<u8>, AllocError>
    ensures { IfOk result (λ v. v.items ≡ certificate_text (unreached count vertices set.now)) }
{
    let words = [
        Fixed(b"arborescence"),
        Number(count as i128),
        Fixed(b"unreached"),
        Number(vertices as i128),
    ];
    let mut out = begun(alloc, &words)?;
    put_members_line(&mut out, b"vertices", set.as_slice())?;
    put_end_line(&mut out)?;
    Ok(out)
}

/// The text of a `disjoint` certificate with arborescences.
pub(crate) fn disjoint_text(
    alloc: Global,
    count: u32,
    sets: &SetList,
) -> Result<Vec<u8>, AllocError>
    ensures { IfOk result (λ v. v.items ≡ certificate_text (disjoint count sets.now)) }
{
    let words = [
        Fixed(b"disjoint"),
        Number(count as i128),
        Number(sets.len() as i128),
    ];
    let mut out = begun(alloc, &words)?;
    put_set_lines(&mut out, b"tree", sets)?;
    put_end_line(&mut out)?;
    Ok(out)
}

/// The text of a `disjoint` certificate that says `none`.
pub(crate) fn entered_text(
    alloc: Global,
    count: u32,
    k: u32,
    vertices: u32,
    set: &ElemSet,
) -> Result<Vec<u8>, AllocError>
    ensures { IfOk result (λ v. v.items ≡ certificate_text (disjoint_none count k vertices set.now)) }
{
    let words = [
        Fixed(b"disjoint"),
        Number(count as i128),
        Number(k as i128),
        Fixed(b"none"),
        Number(vertices as i128),
    ];
    let mut out = begun(alloc, &words)?;
    put_members_line(&mut out, b"vertices", set.as_slice())?;
    put_end_line(&mut out)?;
    Ok(out)
}

/// The text of a `rainbow` certificate.
pub(crate) fn rainbow_text(
    alloc: Global,
    count: u32,
    vertices: u32,
    colours: u32,
    rungs: &[PricedRung],
    cut: &ElemSet,
    missing: &Option<ElemSet>,
) -> Result<Vec<u8>, AllocError>
    ensures { IfOk result (λ v. v.items ≡ certificate_text (rainbow count vertices colours rungs.now cut.now missing.now)) }
{
    let words = [
        Fixed(b"rainbow"),
        Number(count as i128),
        Number(rungs.len().saturating_sub(1) as i128),
        Number(vertices as i128),
        Number(colours as i128),
    ];
    let mut out = begun(alloc, &words)?;
    put_priced_rungs(alloc, &mut out, rungs)?;
    put_members_line(&mut out, b"cut", cut.as_slice())?;
    put_option_line(&mut out, b"colours", missing)?;
    put_end_line(&mut out)?;
    Ok(out)
}

/// The text of an `assign` certificate.
pub(crate) fn assign_text(
    alloc: Global,
    count: u32,
    rows: u32,
    columns: u32,
    rungs: &[PricedRung],
    cut: &ElemSet,
) -> Result<Vec<u8>, AllocError>
    ensures { IfOk result (λ v. v.items ≡ certificate_text (assign count rows columns rungs.now cut.now)) }
{
    let words = [
        Fixed(b"assign"),
        Number(count as i128),
        Number(rungs.len().saturating_sub(1) as i128),
        Number(rows as i128),
        Number(columns as i128),
    ];
    let mut out = begun(alloc, &words)?;
    put_priced_rungs(alloc, &mut out, rungs)?;
    put_members_line(&mut out, b"cut", cut.as_slice())?;
    put_end_line(&mut out)?;
    Ok(out)
}
