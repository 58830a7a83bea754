//! Labels of the edges of a graph, where these are few, and notes on those without a label.

use crate::arrangement::Style;
use crate::layout::Layout;
use mat_drawing::{Anchor, Area, Colour, Drawing, Look, Point, Units};
use mat_text::Text;
use std::alloc::{AllocError, Global};

// The most edges of a graph whose edges have labels, or are listed.
const MOST: usize = 40;

// What is said of an edge, and the middle of it.
#[derive(Drop)]
struct Label {
    words: String,
    at: Point,
}

// The labels of the edges that have one.
fn labels(alloc: Global, layout: &Layout<'_>) -> Result<Vec<Label>, AllocError> {
    let mut labels = Vec::new(alloc);
    for (e, strand) in layout.strands.iter().enumerate() {
        if layout.has_label(strand) {
            labels.push(Label {
                words: layout.graph.label(alloc, e, layout.arrangement.is_priced)?,
                at: layout.label_at(strand),
            })?;
        }
    }
    Ok(labels)
}

// Draws what the labels stand on, through which lines are seen a little.
fn draw_grounds(drawing: &mut Drawing, labels: &[Label]) -> Result<(), AllocError> {
    let mut grounds = Drawing::new(drawing.alloc());
    for label in labels {
        let width = Units::of(label.words.len()) * 7;
        let area = Area {
            x: label.at.x - width.half(),
            y: label.at.y - 7,
            width,
            height: Units(14),
        };
        grounds.rectangle(area, Colour::WHITE)?;
    }
    drawing.group(&Look::PLAIN.translucent(), &grounds)
}

// Draws the words of the labels.
fn draw_words(drawing: &mut Drawing, labels: &[Label]) -> Result<(), AllocError> {
    let mut words = Drawing::new(drawing.alloc());
    for label in labels {
        words.text(label.at.below(4), &label.words, &Look::PLAIN)?;
    }
    let look = Look::PLAIN.font_size(Units(11));
    drawing.group(&look.anchor(Anchor::Middle), &words)
}

/// Draws the labels of the edges, where these are at most 40. The only error is want of memory.
pub(crate) fn draw_labels(drawing: &mut Drawing, layout: &Layout<'_>) -> Result<(), AllocError> {
    if layout.strands.len() > MOST {
        return Ok(());
    }
    let labels = labels(drawing.alloc(), layout)?;
    draw_grounds(drawing, &labels)?;
    draw_words(drawing, &labels)
}

// What is told of each edge of the style of this number that has no label.
fn unlabelled(alloc: Global, layout: &Layout<'_>, number: usize) -> Result<String, AllocError> {
    let mut words = String::new(alloc);
    for (e, strand) in layout.strands.iter().enumerate() {
        if layout.arrangement.style_of.get(e) == Some(&number) && !layout.has_label(strand) {
            let title = layout.graph.title(alloc, e, strand.tail, strand.head)?;
            let before = if words.is_empty() { " " } else { "; " };
            write!(words, "{before}{title}")?;
        }
    }
    Ok(words)
}

// Notes the edges of a style that have no labels.
fn note_unlabelled(notes: &mut Text, style: &Style, words: &str) -> Result<(), AllocError> {
    if words.is_empty() {
        return Ok(());
    }
    let kind = &style.words;
    if kind.is_empty() {
        notes.say(format_args!("Without labels:{words}."))
    } else {
        notes.say(format_args!("Without labels, {kind}:{words}."))
    }
}

/// The notes on a graph: those of its arrangement, and what is told of the edges without a label, where there are at most 40 edges. The only
/// error is want of memory.
pub(crate) fn notes_on(alloc: Global, layout: &Layout<'_>) -> Result<Text, AllocError> {
    let mut notes = Text::new(alloc);
    for paragraph in layout.arrangement.notes.paragraphs() {
        notes.say(paragraph.words())?;
    }
    if layout.arrangement.numbers_groups() {
        notes.say("In brackets: the number of the group.")?;
    }
    if layout.strands.len() > MOST {
        return Ok(notes);
    }
    for (i, style) in layout.arrangement.styles.iter().enumerate() {
        let words = unlabelled(alloc, layout, i)?;
        note_unlabelled(&mut notes, style, &words)?;
    }
    Ok(notes)
}
