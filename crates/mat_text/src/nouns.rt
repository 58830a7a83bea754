//! Numbers of things.

ghost use Rattle.std.specs.Prelude.{◌≡◌, ◌<◌, length};
ghost use Rattle.mat_text.specs.Texts.{IsPrintable};

use std::fmt;

/// What is counted.
#[derive(Clone, Copy)]
pub enum Noun {
    Arc,
    Base,
    Cell,
    Class,
    Colour,
    Column,
    Edge,
    Element,
    Group,
    Other,
    OtherWeight,
    Part,
    Row,
    Rule,
    Set,
    SpanningTree,
    Tree,
    Vertex,
}

impl Noun {
    /// The word for one of them.
    pub fn word(self) -> &'static str
        ensures some { 0 < length result.now }
        ensures printable { IsPrintable result.now }
    {
        match self {
            Noun::Arc => "arc",
            Noun::Base => "base",
            Noun::Cell => "cell",
            Noun::Class => "class",
            Noun::Colour => "colour",
            Noun::Column => "column",
            Noun::Edge => "edge",
            Noun::Element => "element",
            Noun::Group => "group",
            Noun::Other => "other",
            Noun::OtherWeight => "other weight",
            Noun::Part => "part",
            Noun::Row => "row",
            Noun::Rule => "rule",
            Noun::Set => "set",
            Noun::SpanningTree => "spanning tree",
            Noun::Tree => "tree",
            Noun::Vertex => "vertex",
        }
    }
}

/// So many things, told by their number and the word for one or for more.
#[derive(Clone, Copy)]
pub struct Counted {
    count: usize,
    noun: Noun,
}

/// So many things.
pub fn many(count: usize, noun: Noun) -> Counted
    ensures { result ≡ record { count = count; noun = noun } }
{
    Counted { count, noun }
}

impl fmt::Display for Counted {
    fn fmt<W: fmt::Write>(&self, f: &mut fmt::Formatter<W>) -> fmt::Result {
        let count = self.count;
        match self.noun {
            noun if count == 1 => write!(f, "1 {}", noun.word()),
            Noun::Class => write!(f, "{count} classes"),
            Noun::Vertex => write!(f, "{count} vertices"),
            noun => write!(f, "{count} {}s", noun.word()),
        }
    }
}
