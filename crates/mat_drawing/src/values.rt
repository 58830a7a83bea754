//! Values of attributes.

use crate::colour::Colour;
use crate::point::Point;
use crate::units::Units;
use std::fmt;

/// The part of a text that is at its point.
#[derive(Clone, Copy)]
pub enum Anchor {
    /// The text begins there.
    Start,
    /// Its middle is there.
    Middle,
    /// The text ends there.
    End,
}

impl fmt::Display for Anchor {
    fn fmt<W: fmt::Write>(&self, f: &mut fmt::Formatter<W>) -> fmt::Result {
        f.write_str(match self {
            Anchor::Start => "start",
            Anchor::Middle => "middle",
            Anchor::End => "end",
        })
    }
}

/// A word that is the value of an attribute.
#[derive(Clone, Copy)]
pub(crate) enum Keyword {
    /// All bytes of texts are equally wide.
    Monospace,
    /// What is behind is seen a little.
    Translucent,
    /// Lines are round where they meet or end.
    Round,
    /// Texts are bold.
    Bold,
}

impl fmt::Display for Keyword {
    fn fmt<W: fmt::Write>(&self, f: &mut fmt::Formatter<W>) -> fmt::Result {
        f.write_str(match self {
            Keyword::Monospace => "monospace",
            Keyword::Translucent => "0.85",
            Keyword::Round => "round",
            Keyword::Bold => "bold",
        })
    }
}

/// What fills a shape or a text.
#[derive(Clone, Copy)]
pub(crate) enum Fill {
    /// Nothing.
    Nothing,
    /// A colour.
    Colour(Colour),
}

impl fmt::Display for Fill {
    fn fmt<W: fmt::Write>(&self, f: &mut fmt::Formatter<W>) -> fmt::Result {
        match self {
            Fill::Nothing => f.write_str("none"),
            Fill::Colour(colour) => write!(f, "{colour}"),
        }
    }
}

/// By how many degrees a text is turned, and around which point.
#[derive(Clone, Copy)]
pub(crate) struct Turn {
    pub(crate) degrees: Units,
    pub(crate) around: Point,
}

impl fmt::Display for Turn {
    fn fmt<W: fmt::Write>(&self, f: &mut fmt::Formatter<W>) -> fmt::Result {
        let degrees = self.degrees;
        let around = self.around;
        write!(f, "rotate({degrees} {around})")
    }
}

/// The arrow head of this number, at the end of lines.
#[derive(Clone, Copy)]
pub(crate) struct ArrowEnd(pub(crate) usize);

impl fmt::Display for ArrowEnd {
    fn fmt<W: fmt::Write>(&self, f: &mut fmt::Formatter<W>) -> fmt::Result {
        let number = self.0;
        write!(f, "url(#a{number})")
    }
}

/// The name of the arrow head of this number.
#[derive(Clone, Copy)]
pub(crate) struct ArrowName(pub(crate) usize);

impl fmt::Display for ArrowName {
    fn fmt<W: fmt::Write>(&self, f: &mut fmt::Formatter<W>) -> fmt::Result {
        let number = self.0;
        write!(f, "a{number}")
    }
}

/// The width and the height of all that is seen.
#[derive(Clone, Copy)]
pub(crate) struct ViewBox {
    pub(crate) width: Units,
    pub(crate) height: Units,
}

impl fmt::Display for ViewBox {
    fn fmt<W: fmt::Write>(&self, f: &mut fmt::Formatter<W>) -> fmt::Result {
        let width = self.width;
        let height = self.height;
        write!(f, "0 0 {width} {height}")
    }
}
