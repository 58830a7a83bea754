//! Drawings, line by line of markup.

ghost use Rattle.std.specs.{
  Prelude.{◌≡◌, ◌++◌, [], pos, ◌+ℤ◌, ◌*ℤ◌, length, true, IfOk, OnOk},
  Int.{w64, saturate_signed},
  List.{list_all},
  Str.Lines.{lines},
};
ghost use Rattle.mat_drawing.specs.Markup.{AddsMarkup, IsMarkup, IsPicture};
ghost use Rattle.mat_text.specs.Texts.{is_text_byte};

use crate::area::Area;
use crate::attributes::Attributes;
use crate::colour::Colour;
use crate::elements::{document, element, empty_element};
use crate::escaping::words_of;
use crate::look::Look;
use crate::point::Point;
use crate::shape::Shape;
use crate::units::Units;
use crate::values::{ArrowName, ViewBox};
use std::alloc::{AllocError, Global};
use std::fmt::Display;
use std::marker::Model;

/// Lines of well-formed markup. Words become texts or titles of shapes, in which they are escaped, and a question mark stands for each of
/// their bytes that may not be printed. The clauses of the calls that add something say only that well-formed markup is added: what it shows
/// is tested.
#[derive(Drop)]
pub struct Drawing {
    alloc: Global,
    markup: Vec<u8>,
}

impl Model for Drawing {
    ghost use Rattle.mat_drawing.specs.{Drawn.{Drawn}, Markup.{IsMarkup}};

    ghost Value = { Drawn };

    ghost view = { λ drawing. record { alloc = drawing.alloc; markup = drawing.markup.items } };

    ghost invariant = { λ drawing. IsMarkup drawing.markup.items };
}

// The element of a shape without a title.
fn untitled(alloc: Global, shape: Shape<'_>, look: &Look) -> Result<Vec<u8>, AllocError>
    ensures { IfOk result (λ text. IsMarkup text.items) }
{
    empty_element(alloc, shape.name(), &shape.attributes(look))
}

impl Drawing {
    /// No lines. It takes no memory.
    pub fn new(alloc: Global) -> Drawing
        ensures { result ≡ record { alloc = alloc; markup = [] } }
    {
        Drawing {
            alloc,
            markup: Vec::new(alloc),
        }
    }

    /// Where the markup gets its memory.
    pub fn alloc(&self) -> Global
        ensures { result ≡ self.now.alloc }
    {
        self.alloc
    }

    /// The lines.
    pub fn markup(&self) -> &[u8]
        ensures lines { result.now ≡ self.now.markup }
        ensures markup { IsMarkup self.now.markup }
    {
        self.markup.as_slice()
    }

    // Adds markup.
    fn add(&mut self, markup: &[u8]) -> Result<(), AllocError>
        requires { IsMarkup markup.now }
        ensures { OnOk result (self.new.markup ≡ self.old.markup ++ markup.now) }
    {
        self.markup.extend_from_slice(markup)
    }

    // Adds markup, and ends its line.
    fn add_line(&mut self, markup: &[u8]) -> Result<(), AllocError>
        requires { IsMarkup markup.now }
        ensures { OnOk result (AddsMarkup self.old.markup self.new.markup) }
    {
        self.add(markup)?;
        self.add(b"\n")
    }

    /// Adds the lines of another drawing. The only error is want of memory.
    pub fn append(&mut self, other: &Drawing) -> Result<(), AllocError>
        ensures lines { OnOk result (self.new.markup ≡ self.old.markup ++ other.now.markup) }
        ensures added { OnOk result (AddsMarkup self.old.markup self.new.markup) }
    {
        self.add(other.markup())
    }

    /// Adds a text at a point. The only error is want of memory.
    pub fn text<W: Display + Drop>(
        &mut self,
        at: Point,
        words: W,
        look: &Look,
    ) -> Result<(), AllocError>
        ensures { OnOk result (AddsMarkup self.old.markup self.new.markup) }
    {
        let words = words_of(self.alloc, words)?;
        let attributes = Attributes {
            x: Some(at.x),
            y: Some(at.y),
            ..Attributes::of(look)
        };
        let text = element(self.alloc, "text", &attributes, &words)?;
        self.add_line(&text)
    }

    /// Adds lines of words, the first at a point and each so much lower than the one before it, and gives the point that is as much lower
    /// than the last. The only error is want of memory.
    pub fn lines(
        &mut self,
        from: Point,
        words: &str,
        apart: i64,
        look: &Look,
    ) -> Result<Point, AllocError>
        ensures added { OnOk result (AddsMarkup self.old.markup self.new.markup) }
        ensures across { IfOk result (λ end. end.x ≡ from.x) }
        ensures down { IfOk result (λ end. end.y.0 ≡ saturate_signed w64 (from.y.0 +ℤ pos (length (lines words.now)) *ℤ apart)) }
    {
        let mut at = from;
        for line in words.lines() {
            self.text(at, line, look)?;
            at = at.below(apart);
        }
        Ok(at)
    }

    /// Adds a shape. The only error is want of memory.
    pub fn shape(&mut self, shape: Shape<'_>, look: &Look) -> Result<(), AllocError>
        ensures { OnOk result (AddsMarkup self.old.markup self.new.markup) }
    {
        self.add_line(&untitled(self.alloc, shape, look)?)
    }

    /// Adds a shape that has a title. The only error is want of memory.
    pub fn titled<W: Display + Drop>(
        &mut self,
        shape: Shape<'_>,
        look: &Look,
        title: W,
    ) -> Result<(), AllocError>
        ensures { OnOk result (AddsMarkup self.old.markup self.new.markup) }
    {
        let words = words_of(self.alloc, title)?;
        let none = Attributes::of(&Look::PLAIN);
        let title = element(self.alloc, "title", &none, &words)?;
        let shape = element(self.alloc, shape.name(), &shape.attributes(look), &title)?;
        self.add_line(&shape)
    }

    /// Adds a rectangle of one colour. The only error is want of memory.
    pub fn rectangle(&mut self, area: Area, fill: Colour) -> Result<(), AllocError>
        ensures { OnOk result (AddsMarkup self.old.markup self.new.markup) }
    {
        self.shape(Shape::Rectangle(area), &Look::PLAIN.fill(fill))
    }

    /// Adds a path of this data. The only error is want of memory.
    pub fn path<D: Display + Drop>(&mut self, data: D, look: &Look) -> Result<(), AllocError>
        ensures { OnOk result (AddsMarkup self.old.markup self.new.markup) }
    {
        let data = data.to_string(self.alloc)?;
        self.shape(Shape::Path(&data), look)
    }

    /// Adds the lines of another drawing, all of which look so where they do not tell otherwise. The only error is want of memory.
    pub fn group(&mut self, look: &Look, inside: &Drawing) -> Result<(), AllocError>
        ensures { OnOk result (AddsMarkup self.old.markup self.new.markup) }
    {
        let group = document(self.alloc, "g", &Attributes::of(look), inside.markup())?;
        self.add(&group)
    }

    /// Adds the lines of another drawing, which are not seen where they stand. The only error is want of memory.
    pub fn definitions(&mut self, inside: &Drawing) -> Result<(), AllocError>
        ensures { OnOk result (AddsMarkup self.old.markup self.new.markup) }
    {
        let none = Attributes::of(&Look::PLAIN);
        let definitions = document(self.alloc, "defs", &none, inside.markup())?;
        self.add(&definitions)
    }

    /// Adds the arrow head of this number, which is 12 units wide and 10 high: a path of one colour. Its right side stands 6 units before the end
    /// of the line that it is put on. The only error is want of memory.
    pub fn arrow_head(&mut self, number: usize, data: &str, fill: Colour) -> Result<(), AllocError>
        ensures { OnOk result (AddsMarkup self.old.markup self.new.markup) }
    {
        let attributes = Attributes {
            arrow_name: Some(ArrowName(number)),
            marker_units: Some("userSpaceOnUse"),
            marker_width: Some(Units(12)),
            marker_height: Some(Units(10)),
            marker_x: Some(Units(18)),
            marker_y: Some(Units(5)),
            direction: Some("auto"),
            ..Attributes::of(&Look::PLAIN)
        };
        let path = untitled(self.alloc, Shape::Path(data), &Look::PLAIN.fill(fill))?;
        let marker = element(self.alloc, "marker", &attributes, &path)?;
        self.add_line(&marker)
    }

    /// The drawing as a picture of this width and height, one SVG that needs no other file. The only error is want of memory.
    pub fn picture(&self, width: Units, height: Units) -> Result<Vec<u8>, AllocError>
        ensures picture { IfOk result (λ text. IsPicture text.items) }
        ensures printable { IfOk result (λ text. list_all is_text_byte text.items ≡ true) }
    {
        let look = Look::PLAIN.monospace().font_size(Units(12));
        let attributes = Attributes {
            namespace: Some("http://www.w3.org/2000/svg"),
            width: Some(width),
            height: Some(height),
            view_box: Some(ViewBox { width, height }),
            ..Attributes::of(&look)
        };
        document(self.alloc, "svg", &attributes, self.markup())
    }
}
