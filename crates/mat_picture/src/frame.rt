//! The frame of a picture: what was wanted, what was found, and around it all.

ghost use Rattle.std.specs.Prelude.{IfOk};
ghost use Rattle.mat_drawing.specs.Markup.{IsPicture};
ghost use Rattle.mat_text.specs.Texts.{IsPrintable};

use mat_charts::{LINE, MARGIN};
use mat_drawing::{Area, Colour, Drawing, Look, Point, Units};
use mat_text::{Paragraph, Text};
use std::alloc::{AllocError, Global};
use std::str;

// Whether a paragraph tells what was found.
fn tells_result(paragraph: &Paragraph) -> bool {
    let words = paragraph.words();
    paragraph.indentation() == 0
        && (words.starts_with("BEST:")
            || words.starts_with("LARGEST:")
            || words.starts_with("FOUND:")
            || words.starts_with("NONE:"))
}

// The first paragraph of a text, filled.
fn question(alloc: Global, told: &Text) -> Result<Vec<u8>, AllocError> {
    let mut question = Text::new(alloc);
    if let Some(paragraph) = told.paragraphs().first() {
        question.say(paragraph.words())?;
    }
    question.filled(LINE)
}

// The paragraphs that tell what was found, filled.
fn results(alloc: Global, told: &Text) -> Result<Vec<u8>, AllocError> {
    let mut results = Text::new(alloc);
    for paragraph in told.paragraphs() {
        if tells_result(paragraph) {
            results.say(paragraph.words())?;
        }
    }
    results.filled(LINE)
}

// The lines of a filled text, whose bytes are ASCII.
fn text_of(filled: &[u8]) -> &str {
    str::from_utf8(filled).unwrap_or("")
}

// The most bytes of a line.
fn longest_line(text: &str) -> usize {
    let mut longest: usize = 0;
    for line in text.lines() {
        longest = longest.max(line.len());
    }
    longest
}

/// The lines at the head of a picture.
#[derive(Drop)]
pub(crate) struct Head {
    question: Vec<u8>,
    results: Vec<u8>,
}

impl Head {
    /// What a told text says was wanted, and what it says was found. The only error is want of memory.
    pub(crate) fn new(alloc: Global, told: &Text) -> Result<Head, AllocError> {
        Ok(Head {
            question: question(alloc, told)?,
            results: results(alloc, told)?,
        })
    }

    // How many lines tell what was wanted.
    fn asked(&self) -> usize {
        text_of(&self.question).lines().count()
    }

    /// Where the parts of the picture begin.
    pub(crate) fn bottom(&self) -> Units {
        let found = text_of(&self.results).lines().count();
        (Units::of(self.asked()) + Units::of(found)) * 20 + 30
    }

    /// How wide the head is, without the margins.
    pub(crate) fn width(&self) -> Units {
        let asked = longest_line(text_of(&self.question));
        let found = longest_line(text_of(&self.results));
        Units::of(asked.max(found)) * 9
    }

    // Draws the head.
    fn draw(&self, drawing: &mut Drawing) -> Result<(), AllocError> {
        let look = Look::PLAIN.font_size(Units(14));
        let from = Point {
            x: MARGIN,
            y: Units(30),
        };
        let end = drawing.lines(from, text_of(&self.question), 20, &look)?;
        let _end = drawing.lines(end, text_of(&self.results), 20, &look.bold())?;
        Ok(())
    }
}

// Draws the arrow heads of arcs: one of each colour, and a small grey one.
fn draw_arrow_heads(drawing: &mut Drawing) -> Result<(), AllocError> {
    let mut heads = Drawing::new(drawing.alloc());
    for i in 0..8usize {
        let (path, fill) = if i == 7 {
            ("M4 2 L12 5 L4 8 Z", Colour::GREY)
        } else {
            ("M0 0 L12 5 L0 10 Z", Colour::numbered(i))
        };
        heads.arrow_head(i, path, fill)?;
    }
    drawing.definitions(&heads)
}

/// A picture with this head and this body, of a width without the margins and of a height. The only error is want of memory.
pub(crate) fn framed(
    head: &Head,
    body: &Drawing,
    width: Units,
    height: Units,
    has_arcs: bool,
) -> Result<Vec<u8>, AllocError>
    ensures picture { IfOk result (λ text. IsPicture text.items) }
    ensures printable { IfOk result (λ text. IsPrintable text.items) }
{
    let mut drawing = Drawing::new(body.alloc());
    let width = width + MARGIN * 2;
    let all = Area {
        x: Units::ZERO,
        y: Units::ZERO,
        width,
        height,
    };
    drawing.rectangle(all, Colour::WHITE)?;
    if has_arcs {
        draw_arrow_heads(&mut drawing)?;
    }
    head.draw(&mut drawing)?;
    drawing.append(body)?;
    drawing.picture(width, height)
}
