//! Parts of names that the elements of a set share, and no other element has.

ghost use Rattle.std.specs.{
  Prelude.{◌≡◌, true, ◌<◌, ◌≤◌, length, IfOk, IfSome, MatchOption},
  Bool.{Decides},
  List.{list_all},
};
ghost use Rattle.mat_words.specs.NameLists.{names_of};
ghost use Rattle.mat_text.specs.Shared.{
  has_part,
  has_two_parts,
  ends_part,
  other_side,
  part_at,
  those_with,
  IsNameOfFirst,
  IsShared,
  SharesNone,
};

use mat_sets::ElemSet;
use mat_words::Names;
use std::alloc::{AllocError, Global};

/// A side of a name.
#[derive(Clone, Copy)]
pub enum Side {
    /// Where it begins.
    Front,
    /// Where it ends.
    Back,
}

// Whether a name has two parts: a dot stands in it, neither at its start nor at its end.
fn has_two_parts(name: &[u8]) -> bool
    ensures { result ≡ has_two_parts name.now }
{
    name.len() > 2 && name[1..name.len() - 1].contains(&b'.')
}

// Whether all names have two parts.
fn have_two_parts(names: &Names) -> bool
    ensures { result ≡ list_all has_two_parts (names_of names.now) }
{
    for i in 0..names.len() {
        if !has_two_parts(names.get(i)) {
            return false;
        }
    }
    true
}

// Whether a part of a name ends in front of this place.
fn ends_part(name: &[u8], k: usize) -> bool
    requires { k < length name.now }
    ensures { result ≡ ends_part name.now k }
{
    name[k] == b'.' || (name[k] == b'_' && name[..k].contains(&b'.'))
}

// Whether a name has this part at this side.
fn has_part(side: Side, part: &[u8], name: &[u8]) -> bool
    ensures { result ≡ has_part side part.now name.now }
{
    if name.len() <= part.len() {
        return false;
    }
    match side {
        Side::Front => name.starts_with(part) && ends_part(name, part.len()),
        Side::Back => name.ends_with(part) && name[name.len() - part.len() - 1] == b'.',
    }
}

// The part of so many bytes of a name at this side.
fn part_at(side: Side, name: &[u8], count: usize) -> &[u8]
    requires { count ≤ length name.now }
    ensures { result.now ≡ part_at side name.now count }
{
    match side {
        Side::Front => &name[..count],
        Side::Back => &name[name.len() - count..],
    }
}

// The elements whose names have this part.
#[tactic(auto, using(crate::proofs::Numbers::numbers_below))]
fn those_with(alloc: Global, names: &Names, side: Side, part: &[u8]) -> Result<ElemSet, AllocError>
    ensures { IfOk result (λ set. set ≡ those_with (names_of names.now) side part.now) }
{
    let mut set = ElemSet::new(alloc);
    for e in 0..names.len() {
        if has_part(side, part, names.get(e)) {
            set.add(e as u32)?;
        }
    }
    Ok(set)
}

// Whether the members of a set are exactly the elements whose names have this part; `name` is the name of the first member.
fn are_exactly(
    alloc: Global,
    names: &Names,
    set: &ElemSet,
    side: Side,
    part: &[u8],
    name: &[u8],
) -> Result<bool, AllocError>
    requires some { 0 < length set.now }
    requires first { IsNameOfFirst (names_of names.now) set.now name.now }
    ensures { IfOk result (λ same. Decides same (set.now ≡ those_with (names_of names.now) side part.now)) }
{
    if !has_part(side, part, name) {
        return Ok(false);
    }
    let with = those_with(alloc, names, side, part)?;
    Ok(set.as_slice() == with.as_slice())
}

// The shortest part of a name that its element shares with the other members of a set.
fn first_part<'a>(
    alloc: Global,
    names: &Names,
    set: &ElemSet,
    side: Side,
    name: &'a [u8],
) -> Result<Option<&'a [u8]>, AllocError>
    requires parts { list_all has_two_parts (names_of names.now) ≡ true }
    requires some { 0 < length set.now }
    requires first { IsNameOfFirst (names_of names.now) set.now name.now }
    ensures { IfOk result (λ found. MatchOption found (SharesNone (names_of names.now) set.now side)
        (λ part. IsShared (names_of names.now) set.now side part.now)) }
{
    for count in 1..name.len() {
        let part = part_at(side, name, count);
        if are_exactly(alloc, names, set, side, part, name)? {
            return Ok(Some(part));
        }
    }
    Ok(None)
}

/// The shortest part at this side of the names of a set's elements that they share and no other element has: None where there is none, where
/// the set is empty, or where a name has not two parts. The time is that of reading all names for each byte of one of them, and less where
/// that part is short. The only error is want of memory.
pub fn shared_part<'a>(
    alloc: Global,
    names: &'a Names,
    set: &ElemSet,
    side: Side,
) -> Result<Option<&'a [u8]>, AllocError>
    ensures { IfOk result (λ found. MatchOption found (SharesNone (names_of names.now) set.now side)
        (λ part. IsShared (names_of names.now) set.now side part.now)) }
{
    if set.is_empty() || !have_two_parts(names) {
        return Ok(None);
    }
    let first = set.get(0) as usize;
    if first >= names.len() {
        return Ok(None);
    }
    first_part(alloc, names, set, side, names.get(first))
}

// The other side of a name.
fn other_side(side: Side) -> Side
    ensures { result ≡ other_side side }
{
    match side {
        Side::Front => Side::Back,
        Side::Back => Side::Front,
    }
}

/// What [`shared_part`] finds, if no element has that part at the other side of its name: so it can be taken for nothing else. The only error
/// is want of memory.
pub fn own_part<'a>(
    alloc: Global,
    names: &'a Names,
    set: &ElemSet,
    side: Side,
) -> Result<Option<&'a [u8]>, AllocError>
    ensures shared { IfOk result (λ found. IfSome found (λ part. IsShared (names_of names.now) set.now side part.now)) }
    ensures own { IfOk result (λ found. IfSome found (λ part. length (those_with (names_of names.now) (other_side side) part.now) ≡ 0)) }
{
    let Some(part) = shared_part(alloc, names, set, side)? else {
        return Ok(None);
    };
    let others = those_with(alloc, names, other_side(side), part)?;
    if others.is_empty() {
        Ok(Some(part))
    } else {
        Ok(None)
    }
}
