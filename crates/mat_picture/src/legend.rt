//! The legend of a graph: how edges of each kind are drawn.

use crate::arrangement::{Arrangement, Style};
use mat_charts::MARGIN;
use mat_drawing::{Drawing, Look, Point, Units};
use std::alloc::{AllocError, Global};

// The most lines of a column.
const LINES: usize = 12;

/// The styles that have words and that an edge has.
#[derive(Drop)]
pub(crate) struct Legend<'a> {
    arrangement: &'a Arrangement,
    // Their numbers.
    shown: Vec<usize>,
    // The most bytes of their words.
    longest: usize,
}

impl<'a> Legend<'a> {
    /// The legend of an arrangement. The only error is want of memory.
    pub(crate) fn new(
        alloc: Global,
        arrangement: &'a Arrangement,
    ) -> Result<Legend<'a>, AllocError> {
        let mut shown = Vec::new(alloc);
        let mut longest: usize = 0;
        for (i, style) in arrangement.styles.iter().enumerate() {
            if !style.words.is_empty() && arrangement.uses(i) {
                shown.push(i)?;
                longest = longest.max(style.words.len());
            }
        }
        Ok(Legend {
            arrangement,
            shown,
            longest,
        })
    }

    // How wide a column is.
    fn column(&self) -> Units {
        Units::of(self.longest) * 8 + 80
    }

    /// How wide all columns are.
    pub(crate) fn width(&self) -> Units {
        self.column() * Units::of(self.shown.len().div_ceil(LINES))
    }

    /// How high the longest column is.
    pub(crate) fn height(&self) -> Units {
        Units::of(self.shown.len().min(LINES)) * 18
    }

    /// Draws the legend from this height on. The only error is want of memory.
    pub(crate) fn draw(&self, drawing: &mut Drawing, from: Units) -> Result<(), AllocError> {
        for (i, number) in self.shown.iter().enumerate() {
            let at = Point {
                x: MARGIN + self.column() * Units::of(i / LINES),
                y: from + Units::of(i % LINES) * 18,
            };
            if let Some(style) = self.arrangement.styles.get(*number) {
                draw_style(drawing, at, style)?;
            }
        }
        Ok(())
    }
}

// Draws a piece of an edge and the words for its style.
fn draw_style(drawing: &mut Drawing, at: Point, style: &Style) -> Result<(), AllocError> {
    let end = at.x + 50;
    let look = style.look(Units(style.width));
    drawing.path(format_args!("M{at} H{end}"), &look)?;
    let words = Point {
        x: at.x + 60,
        y: at.y + 4,
    };
    drawing.text(words, &style.words, &Look::PLAIN)
}
