//! How texts and shapes look.

ghost use Rattle.std.specs.Prelude.{◌≡◌, Some, OnOk};
ghost use Rattle.mat_drawing.specs.declared.values.Fill.TheVariants as fills;
ghost use Rattle.mat_drawing.specs.declared.values.Keyword.TheVariants as keywords;
ghost use Rattle.mat_drawing.specs.{Attributes.{colour_names, letter_names, line_names, look_names}, Markup.{AddsAttributes}};

use crate::attributes::put;
use crate::colour::Colour;
use crate::dash::Dash;
use crate::point::Point;
use crate::units::Units;
use crate::values::{Anchor, ArrowEnd, Fill, Keyword, Turn};
use std::alloc::{AllocError, Global};

/// How a text, a shape or a group of these looks. What is set twice is as it was set last.
#[derive(Clone, Copy)]
pub struct Look {
    lower: Option<Units>,
    font_family: Option<Keyword>,
    font_size: Option<Units>,
    anchor: Option<Anchor>,
    fill: Option<Fill>,
    opacity: Option<Keyword>,
    stroke: Option<Colour>,
    stroke_width: Option<Units>,
    dashes: Option<Dash>,
    joins: Option<Keyword>,
    ends: Option<Keyword>,
    arrow: Option<ArrowEnd>,
    font_weight: Option<Keyword>,
    turn: Option<Turn>,
}

impl Look {
    /// Nothing is set.
    pub const PLAIN: Look = Look {
        lower: None,
        font_family: None,
        font_size: None,
        anchor: None,
        fill: None,
        opacity: None,
        stroke: None,
        stroke_width: None,
        dashes: None,
        joins: None,
        ends: None,
        arrow: None,
        font_weight: None,
        turn: None,
    };

    /// A text is so much lower.
    pub fn lower(self, by: Units) -> Look
        ensures { result.lower ≡ Some by }
    {
        Look {
            lower: Some(by),
            ..self
        }
    }

    /// All bytes of texts are equally wide.
    pub fn monospace(self) -> Look
        ensures { result.font_family ≡ Some keywords.Monospace }
    {
        Look {
            font_family: Some(Keyword::Monospace),
            ..self
        }
    }

    /// Texts are so high.
    pub fn font_size(self, size: Units) -> Look
        ensures { result.font_size ≡ Some size }
    {
        Look {
            font_size: Some(size),
            ..self
        }
    }

    /// This part of a text is at its point.
    pub fn anchor(self, anchor: Anchor) -> Look
        ensures { result.anchor ≡ Some anchor }
    {
        Look {
            anchor: Some(anchor),
            ..self
        }
    }

    /// This colour fills it.
    pub fn fill(self, colour: Colour) -> Look
        ensures { result.fill ≡ Some (fills.Colour colour) }
    {
        Look {
            fill: Some(Fill::Colour(colour)),
            ..self
        }
    }

    /// No colour fills it.
    pub fn no_fill(self) -> Look
        ensures { result.fill ≡ Some fills.Nothing }
    {
        Look {
            fill: Some(Fill::Nothing),
            ..self
        }
    }

    /// What is behind it is seen a little through what fills it.
    pub fn translucent(self) -> Look
        ensures { result.opacity ≡ Some keywords.Translucent }
    {
        Look {
            opacity: Some(Keyword::Translucent),
            ..self
        }
    }

    /// Lines have this colour.
    pub fn stroke(self, colour: Colour) -> Look
        ensures { result.stroke ≡ Some colour }
    {
        Look {
            stroke: Some(colour),
            ..self
        }
    }

    /// Lines are so wide.
    pub fn stroke_width(self, width: Units) -> Look
        ensures { result.stroke_width ≡ Some width }
    {
        Look {
            stroke_width: Some(width),
            ..self
        }
    }

    /// Lines are dashed so.
    pub fn dashes(self, dash: Dash) -> Look
        ensures { result.dashes ≡ Some dash }
    {
        Look {
            dashes: Some(dash),
            ..self
        }
    }

    /// Lines are round where they meet and where they end.
    pub fn round(self) -> Look
        ensures joins { result.joins ≡ Some keywords.Round }
        ensures ends { result.ends ≡ Some keywords.Round }
    {
        Look {
            joins: Some(Keyword::Round),
            ends: Some(Keyword::Round),
            ..self
        }
    }

    /// At the end of lines is the arrow head of this number.
    pub fn arrow(self, number: usize) -> Look
        ensures { result.arrow ≡ Some (record { 0 = number }) }
    {
        Look {
            arrow: Some(ArrowEnd(number)),
            ..self
        }
    }

    /// Texts are bold.
    pub fn bold(self) -> Look
        ensures { result.font_weight ≡ Some keywords.Bold }
    {
        Look {
            font_weight: Some(Keyword::Bold),
            ..self
        }
    }

    /// A text is turned by so many degrees around a point.
    pub fn turned(self, degrees: Units, around: Point) -> Look
        ensures { result.turn ≡ Some (record { degrees = degrees; around = around }) }
    {
        Look {
            turn: Some(Turn { degrees, around }),
            ..self
        }
    }

    // Appends the attributes that tell how high letters are and where they stand.
    fn put_letters(&self, alloc: Global, tag: &mut Vec<u8>) -> Result<(), AllocError>
        ensures { OnOk result (AddsAttributes letter_names tag.old.items tag.new.items) }
    {
        put(alloc, tag, "dy", self.lower)?;
        put(alloc, tag, "font-family", self.font_family)?;
        put(alloc, tag, "font-size", self.font_size)?;
        put(alloc, tag, "text-anchor", self.anchor)
    }

    // Appends the attributes that tell what fills it, and the colour and the width of lines.
    fn put_colours(&self, alloc: Global, tag: &mut Vec<u8>) -> Result<(), AllocError>
        ensures { OnOk result (AddsAttributes colour_names tag.old.items tag.new.items) }
    {
        put(alloc, tag, "fill", self.fill)?;
        put(alloc, tag, "fill-opacity", self.opacity)?;
        put(alloc, tag, "stroke", self.stroke)?;
        put(alloc, tag, "stroke-width", self.stroke_width)
    }

    // Appends the attributes that tell the dashes, the corners and the ends of lines.
    fn put_lines(&self, alloc: Global, tag: &mut Vec<u8>) -> Result<(), AllocError>
        ensures { OnOk result (AddsAttributes line_names tag.old.items tag.new.items) }
    {
        put(alloc, tag, "stroke-dasharray", self.dashes)?;
        put(alloc, tag, "stroke-linejoin", self.joins)?;
        put(alloc, tag, "stroke-linecap", self.ends)?;
        put(alloc, tag, "marker-end", self.arrow)
    }

    /// Appends the attributes that tell it, each behind a space. The only error is want of memory.
    pub(crate) fn put(&self, alloc: Global, tag: &mut Vec<u8>) -> Result<(), AllocError>
        ensures { OnOk result (AddsAttributes look_names tag.old.items tag.new.items) }
    {
        self.put_letters(alloc, tag)?;
        self.put_colours(alloc, tag)?;
        self.put_lines(alloc, tag)?;
        put(alloc, tag, "font-weight", self.font_weight)?;
        put(alloc, tag, "transform", self.turn)
    }
}
