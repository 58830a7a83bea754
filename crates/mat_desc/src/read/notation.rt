//! Reading the names of elements and of vertices, and the words that stand for them.

ghost use Rattle.std.specs.{Prelude.{◌≡◌, true, [], IfOk}, List.{list_all}};
ghost use Rattle.mat_desc.specs.{
  Notations.{IsNaming, element_naming, vertex_naming},
  Reading.{member_at, names_from, names_line_at, vertex_names_at, notation_at, header_root_at, root_at},
  Views.{notation_of, naming},
};
ghost use Rattle.mat_words.specs.{Cursors.{lines_left, words_left}, NameLists.{names_of}, Words.{is_word}, Reading.{Gives}};

use crate::read::Read;
use crate::read::keywords::Version;
use crate::read::lines::ended;
use crate::refusal::{DescKind, DescRefusal};
use mat_words::{
    LONGEST_NAME, LineCursor, Names, WordCursor, fault, keyed_line, next_below, next_word,
};
use std::alloc::Global;

/// How a description writes the elements and the vertices of a problem.
#[derive(Drop)]
pub(crate) enum Notation {
    /// Their numbers.
    Numbers,
    /// Names.
    Names {
        /// The name of each element.
        elements: Names,
        /// The name of each vertex: none where the form has no vertices.
        vertices: Names,
    },
}

impl Notation {
    ghost use Rattle.std.specs.Prelude.{◌≡◌};
    ghost use Rattle.mat_desc.specs.{Notations.{element_naming, vertex_naming}, Views.{notation_of, naming}};

    /// The names of the elements, where they have names.
    pub(crate) fn element_names(&self) -> Option<&Names>
        ensures { naming result ≡ element_naming (notation_of self.now) }
    {
        match self {
            Notation::Numbers => None,
            Notation::Names { elements, .. } => Some(elements),
        }
    }

    /// The names of the vertices, where they have names.
    pub(crate) fn vertex_names(&self) -> Option<&Names>
        ensures { naming result ≡ vertex_naming (notation_of self.now) }
    {
        match self {
            Notation::Numbers => None,
            Notation::Names { vertices, .. } => Some(vertices),
        }
    }
}

/// The next word as a number below the bound: by its numeral, or where numbers have names by its name. It takes no memory.
#[inline(always)]
#[tactic(auto, unfolding(crate::specs::Reading::member_at))]
pub(crate) fn next_member<'a>(
    words: WordCursor<'a>,
    names: Option<&Names>,
    bound: u32,
) -> Result<(u32, WordCursor<'a>), DescRefusal>
    ensures { Gives (λ x. (x.0, words_left x.1)) result (member_at (naming names.entry) bound (words_left words.entry)) }
{
    let Some(names) = names else {
        return Ok(next_below(words, bound)?);
    };
    let (word, rest) = next_word(words)?;
    match names.find(word) {
        Some(number) => Ok((number, rest)),
        None => Err(fault(DescKind::UnknownName, rest.line)),
    }
}

/// As many names, none of which stands twice.
fn next_names<'a>(
    alloc: Global,
    many: u32,
    words: WordCursor<'a>,
) -> Result<(Names, WordCursor<'a>), DescRefusal>
    requires { list_all is_word (words_left words).words ≡ true }
    ensures { Gives (λ x. (names_of x.0, words_left x.1)) result (names_from many [] (words_left words.entry)) }
{
    let mut names = Names::new(alloc);
    let mut rest = words;
    for _ in 0..many {
        let (word, after) = next_word(rest)?;
        if word.len() > LONGEST_NAME {
            return Err(fault(DescKind::NameSpelling, rest.line));
        }
        if !names.add(word)? {
            return Err(fault(DescKind::Repeated, rest.line));
        }
        rest = after;
    }
    Ok((names, rest))
}

/// A line of this keyword and as many names.
#[tactic(auto, unfolding(crate::specs::Reading::names_line_at))]
fn names_line<'a>(alloc: Global, key: &[u8], many: u32, lines: LineCursor<'a>) -> Read<'a, Names>
    ensures { Gives (λ x. (names_of x.0, lines_left x.1)) result (names_line_at key.now many (lines_left lines.entry)) }
{
    let (words, rest) = keyed_line(lines, key)?;
    let (names, words) = next_names(alloc, many, words)?;
    ended(words).and(Ok((names, rest)))
}

/// The names of the vertices, which have a line where there are any.
#[tactic(auto, unfolding(crate::specs::Reading::vertex_names_at))]
fn vertex_names<'a>(alloc: Global, vertices: u32, lines: LineCursor<'a>) -> Read<'a, Names>
    ensures { Gives (λ x. (names_of x.0, lines_left x.1)) result (vertex_names_at vertices (lines_left lines.entry)) }
{
    if vertices == 0 {
        return Ok((Names::new(alloc), lines));
    }
    names_line(alloc, b"vertices", vertices, lines)
}

/// How so many elements and vertices are written: by their numbers in version 1, and in version 2 by the names that it lists.
#[tactic(auto, unfolding(crate::specs::Reading::notation_at))]
pub(crate) fn read_notation<'a>(
    alloc: Global,
    version: Version,
    elements: u32,
    vertices: u32,
    lines: LineCursor<'a>,
) -> Read<'a, Notation>
    ensures value { Gives (λ x. (notation_of x.0, lines_left x.1)) result
        (notation_at version elements vertices (lines_left lines.entry)) }
    ensures elements { IfOk result (λ x. IsNaming elements (element_naming (notation_of x.0))) }
    ensures vertices { IfOk result (λ x. IsNaming vertices (vertex_naming (notation_of x.0))) }
{
    match version {
        Version::One => Ok((Notation::Numbers, lines)),
        Version::Two => {
            let (elements, lines) = names_line(alloc, b"elements", elements, lines)?;
            let (vertices, lines) = vertex_names(alloc, vertices, lines)?;
            Ok((Notation::Names { elements, vertices }, lines))
        }
    }
}

/// The root, which stands in the form line in version 1. In version 2 it doesn't, and this is None.
#[tactic(auto, unfolding(crate::specs::Reading::header_root_at))]
pub(crate) fn header_root<'a>(
    version: Version,
    vertices: u32,
    words: WordCursor<'a>,
) -> Result<(Option<u32>, WordCursor<'a>), DescRefusal>
    ensures { Gives (λ x. (x.0, words_left x.1)) result (header_root_at version vertices (words_left words.entry)) }
{
    match version {
        Version::One => {
            let (root, words) = next_below(words, vertices)?;
            Ok((Some(root), words))
        }
        Version::Two => Ok((None, words)),
    }
}

/// The root, which has a line of its own where it isn't known from the form line.
#[tactic(auto, unfolding(crate::specs::Reading::root_at))]
pub(crate) fn root_line<'a>(
    names: Option<&Names>,
    vertices: u32,
    known: Option<u32>,
    lines: LineCursor<'a>,
) -> Read<'a, u32>
    ensures { Gives (λ x. (x.0, lines_left x.1)) result (root_at (naming names.entry) vertices known (lines_left lines.entry)) }
{
    if let Some(root) = known {
        return Ok((root, lines));
    }
    let (words, rest) = keyed_line(lines, b"root")?;
    let (root, words) = next_member(words, names, vertices)?;
    ended(words).and(Ok((root, rest)))
}
