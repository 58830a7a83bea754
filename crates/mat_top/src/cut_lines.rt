//! The lines of right cuts.

ghost use Rattle.std.specs.Prelude.{◌≡◌, ◌++◌, ◌∷◌, [], codes, length, map, pos, IfOk, OnOk};
ghost use Rattle.mat_words.specs.{Lines.{text_of}, Numbers.{numeral}, Writing.{end_line, members_line}};
ghost use Rattle.mat_cert.specs.Certificates.{header_line, version_line};
ghost use Rattle.mat_top.specs.CutTexts.{cut_line};

use mat_cuts::CutWeight;
use mat_sets::ElemSet;
use mat_words::{put_members_line, put_number, put_number_word, put_numbers_line};
use std::alloc::{AllocError, Global};

// Appends the line of a vertex set with its weight.
fn put_cut_line(out: &mut Vec<u8>, cut: &CutWeight) -> Result<(), AllocError>
    ensures { OnOk result (out.new.items ≡ out.old.items ++ text_of (cut_line cut.now ∷ [])) }
{
    let members = cut.set.as_slice();
    out.extend_from_slice(b"cut ")?;
    put_number(out, cut.weight)?;
    for v in members {
        put_number_word(out, i128::from(*v))?;
    }
    out.push(b'\n')?;
    Ok(())
}

// Appends the lines of weighted vertex sets.
fn put_cut_lines(out: &mut Vec<u8>, cuts: &[CutWeight]) -> Result<(), AllocError>
    ensures { OnOk result (out.new.items ≡ out.old.items ++ text_of (map cut_line cuts.now)) }
{
    for cut in cuts {
        put_cut_line(out, cut)?;
    }
    Ok(())
}

/// The text of an arborescence among so many arcs, of its cost, and of the weighted vertex sets that prove it.
pub(crate) fn tree_text(
    alloc: Global,
    count: u32,
    cost: i128,
    tree: &ElemSet,
    cuts: &[CutWeight],
) -> Result<Vec<u8>, AllocError>
    ensures { IfOk result (λ v. v.items ≡ text_of (version_line
        ∷ header_line (codes "cuts") (numeral (pos count) ∷ numeral cost ∷ numeral (pos (length cuts.now)) ∷ [])
        ∷ members_line (codes "set") tree.now ∷ map cut_line cuts.now ++ end_line ∷ [])) }
{
    let mut out = Vec::new(alloc);
    out.extend_from_slice(b"certificate 1\n")?;
    let numbers = [i128::from(count), cost, cuts.len() as i128];
    put_numbers_line(&mut out, b"answer cuts", &numbers)?;
    put_members_line(&mut out, b"set", tree.as_slice())?;
    put_cut_lines(&mut out, cuts)?;
    out.extend_from_slice(b"end\n")?;
    Ok(out)
}

// The first two lines of the text of a set of so many vertices that none of so many arcs enters.
fn unreached_header(alloc: Global, count: u32, vertices: u32) -> Result<Vec<u8>, AllocError>
    ensures { IfOk result (λ v. v.items ≡ text_of (version_line
        ∷ header_line (codes "cuts") (numeral (pos count) ∷ codes "unreached" ∷ numeral (pos vertices) ∷ []) ∷ [])) }
{
    let mut out = Vec::new(alloc);
    out.extend_from_slice(b"certificate 1\nanswer cuts")?;
    put_number_word(&mut out, i128::from(count))?;
    out.extend_from_slice(b" unreached")?;
    put_number_word(&mut out, i128::from(vertices))?;
    out.push(b'\n')?;
    Ok(out)
}

/// The text of a set among so many vertices that none of so many arcs enters.
pub(crate) fn unreached_text(
    alloc: Global,
    count: u32,
    vertices: u32,
    set: &ElemSet,
) -> Result<Vec<u8>, AllocError>
    ensures { IfOk result (λ v. v.items ≡ text_of (version_line
        ∷ header_line (codes "cuts") (numeral (pos count) ∷ codes "unreached" ∷ numeral (pos vertices) ∷ [])
        ∷ members_line (codes "vertices") set.now ∷ end_line ∷ [])) }
{
    let mut out = unreached_header(alloc, count, vertices)?;
    put_members_line(&mut out, b"vertices", set.as_slice())?;
    out.extend_from_slice(b"end\n")?;
    Ok(out)
}
