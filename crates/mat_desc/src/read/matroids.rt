//! Reading matroids.

ghost use Rattle.std.specs.Prelude.{◌≡◌, ◌<◌, ◌≤◌, ◌++◌, ◌∷◌, [], length, map, IfOk};
ghost use Rattle.mat_any.specs.{Trees.{trees_from, union}, Views.{tree_of}};
ghost use Rattle.mat_problem.specs.Limits.{most_sets};
ghost use Rattle.mat_desc.specs.{
  Notations.{IsNaming},
  Views.{naming},
  Reading.{class_at, classes_at, nested_set_at, nested_sets_at, uniform_at, partition_at, laminar_at, graphic_at, gf2_at, dual_at, truncate_at, restrict_at, contract_at, union_at, matroid_within, matroid_at, two_matroids_at},
};
ghost use Rattle.mat_words.specs.{Steps.{repeat_at}, Cursors.{lines_left, words_left}, Reading.{Gives}};

use crate::limits::{DEEPEST, MOST_DIGITS, MOST_ELEMENTS, MOST_MATROIDS, MOST_SETS, MOST_VERTICES};
use crate::read::earlier_sets::EarlierSets;
use crate::read::items::{column_lines, ends_lines};
use crate::read::keywords::{Keyword, keyword_from};
use crate::read::lines::{element_bits, elements_alone, elements_line, ended};
use crate::read::linked::{gammoid, transversal};
use crate::read::{Found, Read};
use crate::refusal::{DescKind, DescRefusal};
use mat_any::AnyMatroid;
use mat_count::{Laminar, Partition, Uniform};
use mat_gf2::Gf2;
use mat_graphic::Graphic;
use mat_sets::{ElemSet, SetList};
use mat_words::{
    LineCursor, Names, WordCursor, fault, keyed_line, next_size, next_word, words_line,
};
use std::alloc::Global;

/// A class line of a partition of `count` elements: the cap, and the class, whose elements are put among the taken ones.
#[tactic(auto, unfolding(crate::specs::Reading::class_at))]
fn class_line<'a>(
    alloc: Global,
    names: Option<&Names>,
    count: u32,
    taken: &mut ElemSet,
    lines: LineCursor<'a>,
) -> Result<(u32, ElemSet, LineCursor<'a>), DescRefusal>
    ensures { Gives (λ x. (x.0, x.1, taken.new, lines_left x.2)) result
        (class_at (naming names.entry) count taken.old (lines_left lines.entry)) }
{
    let (words, rest) = keyed_line(lines, b"class")?;
    let (cap, words) = next_size(words, 0, MOST_ELEMENTS)?;
    let class = elements_line(alloc, words, names, count, taken)?;
    Ok((cap, class, rest))
}

/// As many class lines: the classes and their caps.
fn class_lines<'a>(
    alloc: Global,
    names: Option<&Names>,
    count: u32,
    many: u32,
    lines: LineCursor<'a>,
) -> Result<(SetList, Vec<u32>, LineCursor<'a>), DescRefusal>
    ensures { Gives (λ x. (x.0, x.1.items, lines_left x.2)) result
        (classes_at (naming names.entry) count many [] (lines_left lines.entry)) }
{
    let mut classes = Vec::new(alloc);
    let mut caps = Vec::new(alloc);
    let mut taken = ElemSet::new(alloc);
    let mut rest = lines;
    for _ in 0..many {
        let (cap, class, after) = class_line(alloc, names, count, &mut taken, rest)?;
        classes.push(class)?;
        caps.push(cap)?;
        rest = after;
    }
    Ok((SetList::new(classes), caps, rest))
}

/// A set line of a laminar family on `count` elements: the cap, and the set, which no earlier one may cross. It is put behind the
/// earlier sets.
#[tactic(auto, unfolding(crate::specs::Reading::nested_set_at))]
fn nested_set_line<'a>(
    alloc: Global,
    names: Option<&Names>,
    count: u32,
    earlier: &mut EarlierSets,
    lines: LineCursor<'a>,
) -> Result<(u32, ElemSet, LineCursor<'a>), DescRefusal>
    requires named { IsNaming count (naming names) }
    requires few { length earlier.old.sets < 512 }
    requires room { earlier.old.count ≡ count }
    ensures read { Gives (λ x. (x.0, x.1, lines_left x.2)) result
        (nested_set_at (naming names.entry) count earlier.old.sets (lines_left lines.entry)) }
    ensures more { IfOk result (λ x. earlier.new.sets ≡ earlier.old.sets ++ x.1 ∷ []) }
    ensures elements { IfOk result (λ _. earlier.new.count ≡ count) }
{
    let line = lines.line;
    let (words, rest) = keyed_line(lines, b"set")?;
    let (cap, words) = next_size(words, 0, MOST_ELEMENTS)?;
    let bits = element_bits(alloc, words, names, count)?;
    let set = ElemSet::from_bits(alloc, &bits)?;
    if earlier.crosses(alloc, &set, &bits)? {
        return Err(fault(DescKind::Crossing, line));
    }
    earlier.push(&set, bits)?;
    Ok((cap, set, rest))
}

/// As many set lines, no two of which cross: the sets and their caps.
fn nested_set_lines<'a>(
    alloc: Global,
    names: Option<&Names>,
    count: u32,
    many: u32,
    lines: LineCursor<'a>,
) -> Result<(SetList, Vec<u32>, LineCursor<'a>), DescRefusal>
    requires named { IsNaming count (naming names) }
    requires few { many ≤ most_sets }
    ensures { Gives (λ x. (x.0, x.1.items, lines_left x.2)) result
        (nested_sets_at (naming names.entry) count many [] (lines_left lines.entry)) }
{
    let mut sets = Vec::new(alloc);
    let mut caps = Vec::new(alloc);
    let mut earlier = EarlierSets::new(alloc, count)?;
    let mut rest = lines;
    for _ in 0..many {
        let (cap, set, after) = nested_set_line(alloc, names, count, &mut earlier, rest)?;
        sets.push(set)?;
        caps.push(cap)?;
        rest = after;
    }
    Ok((SetList::new(sets), caps, rest))
}

/// A uniform matroid, from the words behind its keyword on.
#[tactic(auto, unfolding(crate::specs::Reading::uniform_at))]
fn uniform<'a>(count: u32, words: WordCursor<'a>, lines: LineCursor<'a>) -> Found<'a>
    ensures { Gives (λ x. (tree_of x.0, lines_left x.1)) result
        (uniform_at count (words_left words.entry) (lines_left lines.entry)) }
{
    let (cap, words) = next_size(words, 0, MOST_ELEMENTS)?;
    ended(words)?;
    Ok((AnyMatroid::Uniform(Uniform::new(count, cap)), lines))
}

/// A partition matroid, from the words behind its keyword on.
#[tactic(auto, using(crate::proofs::ClassLaws::classes_sound), unfolding(crate::specs::Reading::partition_at))]
fn partition<'a>(
    alloc: Global,
    names: Option<&Names>,
    count: u32,
    words: WordCursor<'a>,
    lines: LineCursor<'a>,
) -> Found<'a>
    requires { IsNaming count (naming names) }
    ensures { Gives (λ x. (tree_of x.0, lines_left x.1)) result
        (partition_at (naming names.entry) count (words_left words.entry) (lines_left lines.entry)) }
{
    let (many, words) = next_size(words, 0, MOST_SETS)?;
    ended(words)?;
    let (classes, caps, rest) = class_lines(alloc, names, count, many, lines)?;
    let matroid = Partition::new(alloc, count, classes, caps)?;
    Ok((AnyMatroid::Partition(matroid), rest))
}

/// A laminar matroid, from the words behind its keyword on.
#[tactic(auto, using(crate::proofs::NestedSetLaws::nested_building), unfolding(crate::specs::Reading::laminar_at))]
fn laminar<'a>(
    alloc: Global,
    names: Option<&Names>,
    count: u32,
    words: WordCursor<'a>,
    lines: LineCursor<'a>,
) -> Found<'a>
    requires { IsNaming count (naming names) }
    ensures { Gives (λ x. (tree_of x.0, lines_left x.1)) result
        (laminar_at (naming names.entry) count (words_left words.entry) (lines_left lines.entry)) }
{
    let (many, words) = next_size(words, 0, MOST_SETS)?;
    ended(words)?;
    let (sets, caps, rest) = nested_set_lines(alloc, names, count, many, lines)?;
    let matroid = Laminar::from_family(alloc, count, sets, caps)?;
    Ok((AnyMatroid::Laminar(matroid), rest))
}

/// A graphic matroid, from the words behind its keyword on.
#[tactic(auto, using(crate::proofs::ItemLaws::ends_lines_sound), unfolding(crate::specs::Reading::graphic_at))]
fn graphic<'a>(alloc: Global, count: u32, words: WordCursor<'a>, lines: LineCursor<'a>) -> Found<'a>
    ensures { Gives (λ x. (tree_of x.0, lines_left x.1)) result
        (graphic_at count (words_left words.entry) (lines_left lines.entry)) }
{
    let (vertices, words) = next_size(words, 1, MOST_VERTICES)?;
    ended(words)?;
    let (edges, rest) = ends_lines(alloc, None, b"edge", vertices, count, lines)?;
    let matroid = Graphic::new(alloc, vertices, edges)?;
    Ok((AnyMatroid::Graphic(matroid), rest))
}

/// A matroid of columns over the field of two elements, from the words behind its keyword on.
#[tactic(auto, using(crate::proofs::ItemLaws::columns_sound), unfolding(crate::specs::Reading::gf2_at))]
fn gf2<'a>(alloc: Global, count: u32, words: WordCursor<'a>, lines: LineCursor<'a>) -> Found<'a>
    ensures { Gives (λ x. (tree_of x.0, lines_left x.1)) result
        (gf2_at count (words_left words.entry) (lines_left lines.entry)) }
{
    let (dim, words) = next_size(words, 1, MOST_DIGITS)?;
    ended(words)?;
    let (columns, rest) = column_lines(alloc, dim, count, lines)?;
    let matroid = Gf2::new(alloc, dim, columns)?;
    Ok((AnyMatroid::Gf2(matroid), rest))
}

/// The dual of a matroid, from the words behind its keyword on. In the matroid within it at most `room` matroids may stand within one
/// another, itself counted.
#[cycle(reading)]
#[tactic(auto, unfolding(crate::specs::Reading::dual_at))]
fn dual<'a>(
    alloc: Global,
    room: u32,
    names: Option<&Names>,
    count: u32,
    words: WordCursor<'a>,
    lines: LineCursor<'a>,
) -> Found<'a>
    requires { IsNaming count (naming names) }
    ensures { Gives (λ x. (tree_of x.0, lines_left x.1)) result
        (dual_at (matroid_within room (naming names.entry) count) (words_left words.entry) (lines_left lines.entry)) }
{
    ended(words)?;
    let (inner, rest) = next_matroid_within(alloc, room, names, count, lines)?;
    let inner = Box::new(alloc, inner)?;
    Ok((AnyMatroid::Dual(inner), rest))
}

/// A truncation, from the words behind its keyword on, with `room` as for [`dual`].
#[cycle(reading)]
#[tactic(auto, unfolding(crate::specs::Reading::truncate_at))]
fn truncation<'a>(
    alloc: Global,
    room: u32,
    names: Option<&Names>,
    count: u32,
    words: WordCursor<'a>,
    lines: LineCursor<'a>,
) -> Found<'a>
    requires { IsNaming count (naming names) }
    ensures { Gives (λ x. (tree_of x.0, lines_left x.1)) result
        (truncate_at (matroid_within room (naming names.entry) count) (words_left words.entry) (lines_left lines.entry)) }
{
    let (cap, words) = next_size(words, 0, MOST_ELEMENTS)?;
    ended(words)?;
    let (inner, rest) = next_matroid_within(alloc, room, names, count, lines)?;
    let inner = Box::new(alloc, inner)?;
    Ok((AnyMatroid::Truncate { cap, inner }, rest))
}

/// A restriction, from the words behind its keyword on, with `room` as for [`dual`].
#[cycle(reading)]
#[tactic(auto, unfolding(crate::specs::Reading::restrict_at))]
fn restriction<'a>(
    alloc: Global,
    room: u32,
    names: Option<&Names>,
    count: u32,
    words: WordCursor<'a>,
    lines: LineCursor<'a>,
) -> Found<'a>
    requires { IsNaming count (naming names) }
    ensures { Gives (λ x. (tree_of x.0, lines_left x.1)) result
        (restrict_at (matroid_within room (naming names.entry) count) (naming names.entry) count (words_left words.entry) (lines_left lines.entry)) }
{
    let kept = elements_alone(alloc, words, names, count)?;
    let (inner, rest) = next_matroid_within(alloc, room, names, count, lines)?;
    let inner = Box::new(alloc, inner)?;
    Ok((AnyMatroid::Restrict { kept, inner }, rest))
}

/// A contraction, from the words behind its keyword on, with `room` as for [`dual`].
#[cycle(reading)]
#[tactic(auto, unfolding(crate::specs::Reading::contract_at))]
fn contraction<'a>(
    alloc: Global,
    room: u32,
    names: Option<&Names>,
    count: u32,
    words: WordCursor<'a>,
    lines: LineCursor<'a>,
) -> Found<'a>
    requires { IsNaming count (naming names) }
    ensures { Gives (λ x. (tree_of x.0, lines_left x.1)) result
        (contract_at (matroid_within room (naming names.entry) count) (naming names.entry) count (words_left words.entry) (lines_left lines.entry)) }
{
    let away = elements_alone(alloc, words, names, count)?;
    let (inner, rest) = next_matroid_within(alloc, room, names, count, lines)?;
    let inner = Box::new(alloc, inner)?;
    Ok((AnyMatroid::Contract { away, inner }, rest))
}

/// A union, from the words behind its keyword on, with `room` as for [`dual`].
#[cycle(reading)]
#[tactic(auto, unfolding(crate::specs::Reading::union_at))]
fn union_of<'a>(
    alloc: Global,
    room: u32,
    names: Option<&Names>,
    count: u32,
    words: WordCursor<'a>,
    lines: LineCursor<'a>,
) -> Found<'a>
    requires { IsNaming count (naming names) }
    ensures { Gives (λ x. (tree_of x.0, lines_left x.1)) result
        (union_at (matroid_within room (naming names.entry) count) (words_left words.entry) (lines_left lines.entry)) }
{
    let (many, words) = next_size(words, 1, MOST_MATROIDS)?;
    ended(words)?;
    let (parts, rest) = matroids_within(alloc, room, names, count, many, lines)?;
    Ok((joined(parts), rest))
}

/// The union of these matroids. It takes no memory.
fn joined(parts: Vec<AnyMatroid>) -> AnyMatroid
    ensures { tree_of result ≡ union (trees_from (map tree_of parts.items)) }
{
    AnyMatroid::Union { parts }
}

/// The next `many` matroids, on `count` elements each, with `room` as for [`next_matroid_within`].
#[cycle(reading)]
fn matroids_within<'a>(
    alloc: Global,
    room: u32,
    names: Option<&Names>,
    count: u32,
    many: u32,
    lines: LineCursor<'a>,
) -> Read<'a, Vec<AnyMatroid>>
    requires { IsNaming count (naming names) }
    ensures { Gives (λ x. (map tree_of x.0.items, lines_left x.1)) result
        (repeat_at (matroid_within room (naming names.entry) count) many (lines_left lines.entry)) }
{
    let mut matroids = Vec::new(alloc);
    let mut rest = lines;
    for _ in 0..many {
        let (matroid, after) = next_matroid_within(alloc, room, names, count, rest)?;
        matroids.push(matroid)?;
        rest = after;
    }
    Ok((matroids, rest))
}

/// The next matroid, on `count` elements, in which at most `room` matroids stand within one another, itself counted. The recursion goes
/// no deeper than that. [`DescKind::TooDeep`] where `room` is 0 and the next line is well spaced and has words.
#[cycle(reading)]
#[tactic(auto, unfolding(crate::specs::Reading::matroid_within))]
fn next_matroid_within<'a>(
    alloc: Global,
    room: u32,
    names: Option<&Names>,
    count: u32,
    lines: LineCursor<'a>,
) -> Found<'a>
    requires { IsNaming count (naming names) }
    ensures { Gives (λ x. (tree_of x.0, lines_left x.1)) result
        (matroid_within room (naming names.entry) count (lines_left lines.entry)) }
{
    let line = lines.line;
    let (words, rest) = words_line(lines)?;
    if room == 0 {
        return Err(fault(DescKind::TooDeep, line));
    }
    let (word, words) = next_word(words)?;
    match keyword_from(word) {
        None => Err(fault(DescKind::UnknownWord, line)),
        Some(Keyword::Uniform) => uniform(count, words, rest),
        Some(Keyword::Partition) => partition(alloc, names, count, words, rest),
        Some(Keyword::Laminar) => laminar(alloc, names, count, words, rest),
        Some(Keyword::Graphic) => graphic(alloc, count, words, rest),
        Some(Keyword::Transversal) => transversal(alloc, names, count, words, rest),
        Some(Keyword::Gammoid) => gammoid(alloc, count, words, rest),
        Some(Keyword::Gf2) => gf2(alloc, count, words, rest),
        Some(Keyword::Dual) => dual(alloc, room - 1, names, count, words, rest),
        Some(Keyword::Truncate) => truncation(alloc, room - 1, names, count, words, rest),
        Some(Keyword::Restrict) => restriction(alloc, room - 1, names, count, words, rest),
        Some(Keyword::Contract) => contraction(alloc, room - 1, names, count, words, rest),
        Some(Keyword::Union) => union_of(alloc, room - 1, names, count, words, rest),
    }
}

/// The next matroid, on `count` elements.
fn next_matroid<'a>(
    alloc: Global,
    names: Option<&Names>,
    count: u32,
    lines: LineCursor<'a>,
) -> Found<'a>
    requires { IsNaming count (naming names) }
    ensures { Gives (λ x. (tree_of x.0, lines_left x.1)) result
        (matroid_at (naming names.entry) count (lines_left lines.entry)) }
{
    next_matroid_within(alloc, DEEPEST, names, count, lines)
}

/// The next two matroids, on `count` elements each.
#[tactic(auto, unfolding(crate::specs::Reading::two_matroids_at))]
pub(crate) fn two_matroids<'a>(
    alloc: Global,
    names: Option<&Names>,
    count: u32,
    lines: LineCursor<'a>,
) -> Result<(AnyMatroid, AnyMatroid, LineCursor<'a>), DescRefusal>
    requires { IsNaming count (naming names) }
    ensures { Gives (λ x. ((tree_of x.0, tree_of x.1), lines_left x.2)) result
        (two_matroids_at (naming names.entry) count (lines_left lines.entry)) }
{
    let (first, lines) = next_matroid(alloc, names, count, lines)?;
    match next_matroid(alloc, names, count, lines) {
        Ok((second, lines)) => Ok((first, second, lines)),
        Err(refusal) => {
            drop(first);
            Err(refusal)
        }
    }
}

/// As many matroids, on `count` elements each.
pub(crate) fn next_matroids<'a>(
    alloc: Global,
    names: Option<&Names>,
    count: u32,
    many: u32,
    lines: LineCursor<'a>,
) -> Read<'a, Vec<AnyMatroid>>
    requires { IsNaming count (naming names) }
    ensures { Gives (λ x. (map tree_of x.0.items, lines_left x.1)) result
        (repeat_at (matroid_at (naming names.entry) count) many (lines_left lines.entry)) }
{
    matroids_within(alloc, DEEPEST, names, count, many, lines)
}
