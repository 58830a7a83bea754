//! Writing the parts of a witness.

ghost use Rattle.std.specs.{Prelude.{◌≡◌, ◌+◌, ◌++◌, ◌∷◌, [], length, codes, map, pos, OnOk}, List.{flat_map}};
ghost use Rattle.mat_words.specs.{Lines.{text_of}, Numbers.{numeral}, Writing.{members_line}};
ghost use Rattle.mat_any.specs.Views.{tree_of};
ghost use Rattle.mat_witness.specs.{
  BoundRows.{row_trees},
  Lines.{binary_line, bound_lines, bounds_lines, digits_of, free_lines},
  Views.{bound_part, free_part},
};

use crate::bound_rows::bounds_behind;
use crate::witness::{Free, Most};
use mat_any::AnyMatroid;
use mat_flow::Walk;
use mat_words::{put_binary, put_members_line, put_number_word, put_numbers_line};
use std::alloc::AllocError;

// ---- lines

// Appends a line of a keyword and a number of so many binary digits.
fn put_binary_line(
    out: &mut Vec<u8>,
    keyword: &[u8],
    digits: u32,
    number: u128,
) -> Result<(), AllocError>
    ensures { OnOk result (out.new.items ≡ out.old.items ++ text_of (binary_line keyword.now digits number ∷ [])) }
{
    out.extend_from_slice(keyword)?;
    out.push(b' ')?;
    put_binary(out, digits, number)?;
    out.push(b'\n')?;
    Ok(())
}

// Appends such a line for each number.
fn put_binary_lines(
    out: &mut Vec<u8>,
    keyword: &[u8],
    digits: u32,
    numbers: &[u128],
) -> Result<(), AllocError>
    ensures { OnOk result (out.new.items ≡ out.old.items ++ text_of (map (binary_line keyword.now digits) numbers.now)) }
{
    for number in numbers {
        put_binary_line(out, keyword, digits, *number)?;
    }
    Ok(())
}

// Appends the line of pairs of an edge and a vertex.
fn put_forest_line(out: &mut Vec<u8>, pairs: &[(u32, u32)]) -> Result<(), AllocError>
    ensures { OnOk result (out.new.items ≡ out.old.items
        ++ text_of (members_line (codes "forest") (flat_map (λ pair. pair.0 ∷ pair.1 ∷ []) pairs.now) ∷ [])) }
{
    out.extend_from_slice(b"forest")?;
    for pair in pairs {
        put_number_word(out, i128::from(pair.0))?;
        put_number_word(out, i128::from(pair.1))?;
    }
    out.push(b'\n')?;
    Ok(())
}

// Appends a line for each path.
fn put_path_lines(out: &mut Vec<u8>, paths: &[Walk]) -> Result<(), AllocError>
    ensures { OnOk result (out.new.items ≡ out.old.items ++ text_of (map (members_line (codes "path")) paths.now)) }
{
    for path in paths {
        put_members_line(out, b"path", path.as_slice())?;
    }
    Ok(())
}

// ---- parts

// The number of digits of the columns of a matroid, and 0 where it has no columns.
fn digits(matroid: &AnyMatroid) -> u32
    ensures { result ≡ digits_of (tree_of matroid.now) }
{
    match matroid {
        AnyMatroid::Gf2(gf2) => gf2.dim(),
        _ => 0,
    }
}

/// Appends the lines of a part that shows independence in a matroid.
pub(crate) fn put_free(
    out: &mut Vec<u8>,
    matroid: &AnyMatroid,
    part: &Free,
) -> Result<(), AllocError>
    ensures { OnOk result (out.new.items ≡ out.old.items ++ text_of (free_lines (tree_of matroid.now) (free_part part.now))) }
{
    match part {
        Free::Count => out.extend_from_slice(b"count\n"),
        Free::Forest(pairs) => put_forest_line(out, pairs.as_slice()),
        Free::Paths(paths) => put_path_lines(out, paths),
        Free::Probes(numbers) => put_binary_lines(out, b"probe", digits(matroid), numbers),
    }
}

// Appends two lines of lists.
fn put_two_lines(
    out: &mut Vec<u8>,
    keyword: &[u8],
    members: &[u32],
    other: &[u8],
    others: &[u32],
) -> Result<(), AllocError>
    ensures { OnOk result (out.new.items ≡ out.old.items
        ++ text_of (members_line keyword.now members.now ∷ members_line other.now others.now ∷ [])) }
{
    put_members_line(out, keyword, members)?;
    put_members_line(out, other, others)
}

// Appends the lines of a bound in a linear matroid over the field of two elements.
fn put_zeros(out: &mut Vec<u8>, digits: u32, numbers: &[u128]) -> Result<(), AllocError>
    ensures { OnOk result (out.new.items ≡ out.old.items
        ++ text_of ((codes "zeros" ∷ numeral (pos (length numbers.now)) ∷ []) ∷ map (binary_line (codes "zero") digits) numbers.now)) }
{
    put_numbers_line(out, b"zeros", &[numbers.len() as i128])?;
    put_binary_lines(out, b"zero", digits, numbers)
}

// Appends the lines of a bound in a matroid.
fn put_bound(out: &mut Vec<u8>, matroid: &AnyMatroid, bound: &Most) -> Result<(), AllocError>
    ensures { OnOk result (out.new.items ≡ out.old.items ++ text_of (bound_lines (tree_of matroid.now) (bound_part bound.now))) }
{
    match bound {
        Most::Spent { spent, sets } => {
            put_two_lines(out, b"spent", spent.as_slice(), b"sets", sets.as_slice())
        }
        Most::Labels(numbers) => put_members_line(out, b"labels", numbers),
        Most::Gate { reach, gate } => {
            put_two_lines(out, b"reach", reach.as_slice(), b"gate", gate.as_slice())
        }
        Most::Zeros(numbers) => put_zeros(out, digits(matroid), numbers),
    }
}

// Appends the lines of bounds in one matroid.
fn put_bounds(out: &mut Vec<u8>, matroid: &AnyMatroid, bounds: &[Most]) -> Result<(), AllocError>
    ensures { OnOk result (out.new.items ≡ out.old.items
        ++ text_of (flat_map (λ bound. bound_lines (tree_of matroid.now) (bound_part bound)) bounds.now)) }
{
    for bound in bounds {
        put_bound(out, matroid, bound)?;
    }
    Ok(())
}

/// Appends the lines of bounds in a row: so many in the first of two matroids, so many in the second, and then one in each.
pub(crate) fn put_row(
    out: &mut Vec<u8>,
    first: &AnyMatroid,
    second: &AnyMatroid,
    firsts: usize,
    seconds: usize,
    bounds: &[Most],
) -> Result<(), AllocError>
    requires { length bounds.now ≡ firsts + (seconds + 2) }
    ensures { OnOk result (out.new.items ≡ out.old.items
        ++ text_of (bounds_lines (row_trees (tree_of first.now) (tree_of second.now) firsts seconds) (map bound_part bounds.now))) }
{
    let rest = bounds_behind(bounds, firsts);
    let last_two = bounds_behind(rest, seconds);
    put_bounds(out, first, &bounds[..firsts])?;
    put_bounds(out, second, &rest[..seconds])?;
    put_bounds(out, first, &last_two[..1])?;
    put_bounds(out, second, bounds_behind(last_two, 1))
}
