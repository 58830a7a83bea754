//! The parts of a picture, one beneath another.

ghost use Rattle.std.specs.Prelude.{◌≡◌, [], ◌≤ℤ◌, OnOk};
ghost use Rattle.mat_drawing.specs.Markup.{AddsMarkup};

use mat_drawing::{Drawing, Look, Point, Units};
use mat_text::Text;
use std::alloc::{AllocError, Global};
use std::str;

/// The most bytes of a line of words, except where its first word and the spaces in front of it have more.
pub const LINE: usize = 72;

/// How far all that is drawn is from the edges.
pub const MARGIN: Units = Units(20);

/// What is drawn so far, how wide it is, and where the next part begins.
#[derive(Drop)]
pub struct Canvas {
    // What is drawn so far.
    drawing: Drawing,
    // How wide the drawing is, without the margins.
    width: Units,
    // Where the next part begins.
    top: Units,
}

// The most bytes of a line.
fn longest_line(words: &str) -> usize {
    let mut longest: usize = 0;
    for line in words.lines() {
        longest = longest.max(line.len());
    }
    longest
}

impl Canvas {
    /// Nothing yet, but so wide, and to be drawn from here on. It takes no memory.
    pub fn new(alloc: Global, width: Units, top: Units) -> Canvas
        ensures empty { result.drawing ≡ record { alloc = alloc; markup = [] } }
        ensures wide { result.width ≡ width }
        ensures from { result.top ≡ top }
    {
        Canvas {
            drawing: Drawing::new(alloc),
            width,
            top,
        }
    }

    /// Where the drawing gets its memory.
    pub fn alloc(&self) -> Global
        ensures { result ≡ self.now.drawing.alloc }
    {
        self.drawing.alloc()
    }

    /// What is drawn so far.
    pub fn drawing(&self) -> &Drawing
        ensures { result.now ≡ self.now.drawing }
    {
        &self.drawing
    }

    /// How wide the drawing is, without the margins: as wide as it was at first, or as its widest part or line of notes.
    pub fn width(&self) -> Units
        ensures { result ≡ self.now.width }
    {
        self.width
    }

    /// Where the next part begins.
    pub fn top(&self) -> Units
        ensures { result ≡ self.now.top }
    {
        self.top
    }

    // Makes room for so much.
    fn widen(&mut self, width: Units)
        ensures wide { self.old.width.0 ≤ℤ self.new.width.0 }
        ensures room { width.0 ≤ℤ self.new.width.0 }
        ensures drawn { self.new.drawing ≡ self.old.drawing }
    {
        if self.width.0 < width.0 {
            self.width = width;
        }
    }

    /// Adds a part of this width, with the notes that stand from here on beneath it. The only error is want of memory.
    pub fn add_part(
        &mut self,
        part: &Drawing,
        width: Units,
        from: Units,
        notes: &Text,
    ) -> Result<(), AllocError>
        ensures drawn { OnOk result (AddsMarkup self.old.drawing.markup self.new.drawing.markup) }
        ensures wide { self.old.width.0 ≤ℤ self.new.width.0 }
        ensures room { OnOk result (width.0 ≤ℤ self.new.width.0) }
    {
        let filled = notes.filled(LINE)?;
        let words = str::from_utf8(&filled).unwrap_or("");
        self.widen(width);
        self.widen(Units::of(longest_line(words)) * 8);
        self.drawing.append(part)?;
        let from = Point { x: MARGIN, y: from };
        let end = self.drawing.lines(from, words, 18, &Look::PLAIN)?;
        self.top = end.y + 20;
        Ok(())
    }
}
