//! Edges and arcs with their ends.

ghost use Rattle.std.specs.Prelude.{◌≡◌, length, IfOk, string_len};
ghost use Rattle.mat_text.specs.Paragraphs.{KeepsParagraphs};

use crate::called::Called;
use crate::nouns::{Noun, many};
use crate::text::Text;
use mat_sets::{ElemSet, Pairs};
use std::alloc::{AllocError, Global};

/// The edges of a graph, or the arcs of a directed one.
#[derive(Clone, Copy)]
pub struct Ends<'a> {
    /// What the edges and the vertices are called.
    pub called: Called<'a>,
    /// The ends of each edge; of an arc first its tail.
    pub pairs: &'a Pairs,
    /// What they are: edges or arcs.
    pub noun: Noun,
}

impl<'a> Ends<'a> {
    /// The edges of a graph.
    pub fn of_edges(called: Called<'a>, pairs: &'a Pairs) -> Ends<'a>
        ensures { result.pairs.now ≡ pairs.now }
    {
        Ends {
            called,
            pairs,
            noun: Noun::Edge,
        }
    }

    /// The arcs of a directed graph.
    pub fn of_arcs(called: Called<'a>, pairs: &'a Pairs) -> Ends<'a>
        ensures { result.pairs.now ≡ pairs.now }
    {
        Ends {
            called,
            pairs,
            noun: Noun::Arc,
        }
    }

    // What stands between the names of both ends.
    fn joint(&self) -> char {
        match self.noun {
            Noun::Arc => '>',
            _ => '-',
        }
    }

    /// The names of those edges that are in a set, with the names of their ends, each behind a space. The only error is want of memory.
    pub fn words(&self, alloc: Global, set: &ElemSet) -> Result<String, AllocError>
        ensures { IfOk result (λ words. length set.now ≡ 0 → string_len words ≡ 0) }
    {
        let joint = self.joint();
        let mut words = String::new(alloc);
        for e in set.as_slice() {
            if let Some((tail, head)) = self.pairs.as_slice().get(*e as usize) {
                let name = self.called.element(*e as usize);
                let tail = self.called.vertex(*tail as usize);
                let head = self.called.vertex(*head as usize);
                write!(words, " {name}({tail}{joint}{head})")?;
            }
        }
        Ok(words)
    }
}

/// Tells the edges of each set, which are numbered from 1. The only error is want of memory.
pub fn tell_numbered(
    text: &mut Text,
    ends: &Ends<'_>,
    noun: Noun,
    sets: &[ElemSet],
) -> Result<(), AllocError>
    ensures { KeepsParagraphs text.old text.new }
{
    for (i, set) in sets.iter().enumerate() {
        let words = ends.words(text.alloc(), set)?;
        text.list(format_args!("{} {}", noun.word(), i + 1), &words)?;
    }
    Ok(())
}

/// Tells that it cannot be done, and begins the reason. The only error is want of memory.
pub fn tell_none(text: &mut Text) -> Result<(), AllocError>
    ensures { KeepsParagraphs text.old text.new }
{
    text.say("NONE: it cannot be done.")?;
    text.say("Why not:")
}

/// Tells how many sets there are, and that each has one edge or arc fewer than there are vertices. `noun` is the word for a set, and `each` the
/// word for an edge or an arc. The only error is want of memory.
pub fn tell_found(
    text: &mut Text,
    count: usize,
    noun: Noun,
    vertices: u32,
    each: Noun,
) -> Result<(), AllocError>
    ensures { KeepsParagraphs text.old text.new }
{
    text.say(format_args!(
        "FOUND: {} of {} each.",
        many(count, noun),
        many(vertices.saturating_sub(1) as usize, each)
    ))
}
