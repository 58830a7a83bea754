//! The texts of lines that hold sets.

ghost use Rattle.std.specs.Prelude.{◌≡◌, ◌++◌, ◌∷◌, [], codes, map, OnOk};
ghost use Rattle.mat_words.specs.{Lines.{text_of}, Numbers.{numerals}, Weights.{weight_word}};
ghost use Rattle.mat_cert.specs.Certificates.{level_line, option_lines, sets_lines};

use crate::answer::LevelLine;
use mat_sets::{ElemSet, SetList, Weight};
use mat_words::{put_members_line, put_number_word, put_weight};
use std::alloc::AllocError;

/// Appends sets, each on a line of this keyword.
pub(crate) fn put_set_lines(
    out: &mut Vec<u8>,
    keyword: &[u8],
    sets: &SetList,
) -> Result<(), AllocError>
    ensures { OnOk result (out.new.items ≡ out.old.items ++ text_of (sets_lines keyword.now sets.now)) }
{
    let items = sets.as_slice();
    for set in items {
        put_members_line(out, keyword, set.as_slice())?;
    }
    Ok(())
}

/// Appends a line of this keyword and a set, where there is one.
pub(crate) fn put_option_line(
    out: &mut Vec<u8>,
    keyword: &[u8],
    set: &Option<ElemSet>,
) -> Result<(), AllocError>
    ensures { OnOk result (out.new.items ≡ out.old.items ++ text_of (option_lines keyword.now set.now)) }
{
    match set {
        Some(set) => put_members_line(out, keyword, set.as_slice()),
        None => Ok(()),
    }
}

// Appends the line of a level of this weight.
fn put_level_line(out: &mut Vec<u8>, weight: Weight, members: &[u32]) -> Result<(), AllocError>
    ensures { OnOk result (out.new.items ≡ out.old.items ++ text_of ((codes "level" ∷ weight_word weight ∷ numerals members.now) ∷ [])) }
{
    out.extend_from_slice(b"level ")?;
    put_weight(out, weight)?;
    for x in members {
        put_number_word(out, i128::from(*x))?;
    }
    out.push(b'\n')?;
    Ok(())
}

/// Appends the lines of levels.
pub(crate) fn put_level_lines(out: &mut Vec<u8>, levels: &[LevelLine]) -> Result<(), AllocError>
    ensures { OnOk result (out.new.items ≡ out.old.items ++ text_of (map level_line levels.now)) }
{
    for level in levels {
        put_level_line(out, level.at, level.cut.as_slice())?;
    }
    Ok(())
}
