//! Writing lines whose words stand for elements or for vertices: their numerals, or their names where they have names.

ghost use Rattle.std.specs.{Prelude.{◌≡◌, ◌++◌, ◌∷◌, ◌<◌, [], codes, length, map, All, IfSome, OnOk}, List.{zip}};
ghost use Rattle.mat_sets.specs.Sets.{AllBelow, IsSet};
ghost use Rattle.mat_words.specs.{Lines.{text_of}, NameLists.{names_of}, Writing.{spaced}};
ghost use Rattle.mat_problem.specs.Validity.{IsPairBelow};
ghost use Rattle.mat_desc.specs.{
  Canonical.{capped_line, capped_lines},
  Grammar.{listing_line, ends_line, weighted_line, coloured_edge_line},
  Notations.{word_for, words_for},
  Views.{naming},
};

use mat_sets::{ElemSet, Weight};
use mat_words::{Names, TextWord, put_number_word, put_text_word, put_weight_word};
use std::alloc::AllocError;

/// Appends the word for a number, behind a space: its numeral, or its name where numbers have names.
pub(crate) fn put_member_word(
    out: &mut Vec<u8>,
    names: Option<&Names>,
    x: u32,
) -> Result<(), AllocError>
    requires { IfSome (naming names) (λ listed. x < length listed) }
    ensures { OnOk result (out.new.items ≡ out.old.items ++ 32 ∷ word_for (naming names.entry) x) }
{
    match names {
        None => put_number_word(out, i128::from(x)),
        Some(names) => put_text_word(out, TextWord::Fixed(names.get(x as usize))),
    }
}

/// Appends the words for the members of a set, each behind a space.
fn put_member_words(out: &mut Vec<u8>, names: Option<&Names>, set: &[u32]) -> Result<(), AllocError>
    requires { IfSome (naming names) (λ listed. AllBelow (length listed) set.now) }
    ensures { OnOk result (out.new.items ≡ out.old.items ++ spaced (words_for (naming names.entry) set.now)) }
{
    for x in set {
        put_member_word(out, names, *x)?;
    }
    Ok(())
}

/// Appends the line of this keyword with the members of a set.
pub(crate) fn put_listing_line(
    out: &mut Vec<u8>,
    names: Option<&Names>,
    keyword: &[u8],
    set: &[u32],
) -> Result<(), AllocError>
    requires { IfSome (naming names) (λ listed. AllBelow (length listed) set.now) }
    ensures { OnOk result (out.new.items ≡ out.old.items ++ text_of (listing_line (naming names.entry) keyword.now set.now ∷ [])) }
{
    out.extend_from_slice(keyword)?;
    put_member_words(out, names, set)?;
    out.push(b'\n')?;
    Ok(())
}

/// Appends a set line for each set of a family.
pub(crate) fn put_family_lines(
    out: &mut Vec<u8>,
    names: Option<&Names>,
    family: &[ElemSet],
) -> Result<(), AllocError>
    requires { IfSome (naming names) (λ listed. All (IsSet (length listed)) family.now) }
    ensures { OnOk result (out.new.items ≡ out.old.items ++ text_of (map (listing_line (naming names.entry) (codes "set")) family.now)) }
{
    for set in family {
        put_listing_line(out, names, b"set", set.as_slice())?;
    }
    Ok(())
}

/// Appends the line of this keyword with a set and its cap.
fn put_capped_line(
    out: &mut Vec<u8>,
    names: Option<&Names>,
    keyword: &[u8],
    set: &[u32],
    cap: u32,
) -> Result<(), AllocError>
    requires { IfSome (naming names) (λ listed. AllBelow (length listed) set.now) }
    ensures { OnOk result (out.new.items ≡ out.old.items ++ text_of (capped_line (naming names.entry) keyword.now (set.now, cap) ∷ [])) }
{
    out.extend_from_slice(keyword)?;
    put_number_word(out, i128::from(cap))?;
    put_member_words(out, names, set)?;
    out.push(b'\n')?;
    Ok(())
}

/// Appends a line of this keyword for each set with its cap.
pub(crate) fn put_capped_lines(
    out: &mut Vec<u8>,
    names: Option<&Names>,
    keyword: &[u8],
    sets: &[ElemSet],
    caps: &[u32],
) -> Result<(), AllocError>
    requires { IfSome (naming names) (λ listed. All (IsSet (length listed)) sets.now) }
    ensures { OnOk result (out.new.items ≡ out.old.items ++ text_of (capped_lines (naming names.entry) keyword.now sets.now caps.now)) }
{
    for i in 0..sets.len().min(caps.len()) {
        put_capped_line(out, names, keyword, sets[i].as_slice(), caps[i])?;
    }
    Ok(())
}

/// Appends the line of this keyword with the two ends of an edge or arc.
fn put_ends_line(
    out: &mut Vec<u8>,
    names: Option<&Names>,
    keyword: &[u8],
    ends: (u32, u32),
) -> Result<(), AllocError>
    requires { IfSome (naming names) (λ listed. IsPairBelow (length listed) (length listed) ends) }
    ensures { OnOk result (out.new.items ≡ out.old.items ++ text_of (ends_line (naming names.entry) keyword.now ends ∷ [])) }
{
    out.extend_from_slice(keyword)?;
    put_member_word(out, names, ends.0)?;
    put_member_word(out, names, ends.1)?;
    out.push(b'\n')?;
    Ok(())
}

/// Appends a line of this keyword for the two ends of each edge or arc.
pub(crate) fn put_ends_lines(
    out: &mut Vec<u8>,
    names: Option<&Names>,
    keyword: &[u8],
    pairs: &[(u32, u32)],
) -> Result<(), AllocError>
    requires { IfSome (naming names) (λ listed. All (IsPairBelow (length listed) (length listed)) pairs.now) }
    ensures { OnOk result (out.new.items ≡ out.old.items ++ text_of (map (ends_line (naming names.entry) keyword.now) pairs.now)) }
{
    for ends in pairs {
        put_ends_line(out, names, keyword, *ends)?;
    }
    Ok(())
}

/// Appends a line of this keyword with two numbers and a weight.
fn put_weighted_line(
    out: &mut Vec<u8>,
    names: Option<&Names>,
    keyword: &[u8],
    pair: (u32, u32),
    weight: Weight,
) -> Result<(), AllocError>
    requires { IfSome (naming names) (λ listed. IsPairBelow (length listed) (length listed) pair) }
    ensures { OnOk result (out.new.items ≡ out.old.items ++ text_of (weighted_line (naming names.entry) keyword.now (pair, weight) ∷ [])) }
{
    out.extend_from_slice(keyword)?;
    put_member_word(out, names, pair.0)?;
    put_member_word(out, names, pair.1)?;
    put_weight_word(out, weight)?;
    out.push(b'\n')?;
    Ok(())
}

/// Appends a line of this keyword for each pair of numbers with its weight.
pub(crate) fn put_weighted_lines(
    out: &mut Vec<u8>,
    names: Option<&Names>,
    keyword: &[u8],
    pairs: &[(u32, u32)],
    weights: &[Weight],
) -> Result<(), AllocError>
    requires { IfSome (naming names) (λ listed. All (IsPairBelow (length listed) (length listed)) pairs.now) }
    ensures { OnOk result (out.new.items ≡ out.old.items
        ++ text_of (map (weighted_line (naming names.entry) keyword.now) (zip pairs.now weights.now))) }
{
    for i in 0..pairs.len().min(weights.len()) {
        put_weighted_line(out, names, keyword, pairs[i], weights[i])?;
    }
    Ok(())
}

/// Appends the line of an edge with its colour and its weight.
fn put_coloured_edge_line(
    out: &mut Vec<u8>,
    names: Option<&Names>,
    edge: (u32, u32),
    colour: u32,
    weight: Weight,
) -> Result<(), AllocError>
    requires { IfSome (naming names) (λ listed. IsPairBelow (length listed) (length listed) edge) }
    ensures { OnOk result (out.new.items ≡ out.old.items ++ text_of (coloured_edge_line (naming names.entry) (edge, (colour, weight)) ∷ [])) }
{
    out.extend_from_slice(b"edge")?;
    put_member_word(out, names, edge.0)?;
    put_member_word(out, names, edge.1)?;
    put_number_word(out, i128::from(colour))?;
    put_weight_word(out, weight)?;
    out.push(b'\n')?;
    Ok(())
}

/// Appends a line for each edge with its colour and its weight.
pub(crate) fn put_coloured_edge_lines(
    out: &mut Vec<u8>,
    names: Option<&Names>,
    edges: &[(u32, u32)],
    colour_of: &[u32],
    weights: &[Weight],
) -> Result<(), AllocError>
    requires { IfSome (naming names) (λ listed. All (IsPairBelow (length listed) (length listed)) edges.now) }
    ensures { OnOk result (out.new.items ≡ out.old.items
        ++ text_of (map (coloured_edge_line (naming names.entry)) (zip edges.now (zip colour_of.now weights.now)))) }
{
    for i in 0..edges.len().min(colour_of.len().min(weights.len())) {
        put_coloured_edge_line(out, names, edges[i], colour_of[i], weights[i])?;
    }
    Ok(())
}

/// Appends the line of this keyword with all names.
pub(crate) fn put_names_line(
    out: &mut Vec<u8>,
    keyword: &[u8],
    names: &Names,
) -> Result<(), AllocError>
    ensures { OnOk result (out.new.items ≡ out.old.items ++ text_of ((keyword.now ∷ names_of names.now) ∷ [])) }
{
    out.extend_from_slice(keyword)?;
    for i in 0..names.len() {
        put_text_word(out, TextWord::Fixed(names.get(i)))?;
    }
    out.push(b'\n')?;
    Ok(())
}
