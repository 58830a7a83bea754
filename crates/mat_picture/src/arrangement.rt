//! How the edges and vertices of a graph are arranged and styled.

use mat_drawing::{Colour, Dash, Look, Units};
use mat_sets::ElemSet;
use mat_text::Text;

/// The arrow head of arcs that are grey.
pub(crate) const PLAIN_HEAD: usize = 7;

/// How edges are drawn.
#[derive(Drop)]
pub(crate) struct Style {
    pub(crate) colour: Colour,
    pub(crate) dash: Dash,
    pub(crate) width: i64,
    /// What is said of them in the legend: nothing where they are not in it.
    pub(crate) words: String,
    /// The number of their arrow head.
    pub(crate) head: usize,
}

impl Style {
    /// Thin grey edges.
    pub(crate) fn grey(words: String) -> Style {
        Style {
            colour: Colour::GREY,
            dash: Dash::NONE,
            width: 1,
            words,
            head: PLAIN_HEAD,
        }
    }

    /// Edges of this number: it tells their colour and how they are dashed.
    pub(crate) fn numbered(number: usize, width: i64, words: String) -> Style {
        Style {
            colour: Colour::numbered(number),
            dash: Dash::numbered(number / 7),
            width,
            words,
            head: number % 7,
        }
    }

    /// Whether the edges are as thin as can be.
    pub(crate) fn is_thin(&self) -> bool {
        self.width <= 1
    }

    /// How they look where they are so wide.
    pub(crate) fn look(&self, width: Units) -> Look {
        let look = Look::PLAIN.stroke(self.colour).stroke_width(width);
        if self.dash.is_none() {
            look
        } else {
            look.dashes(self.dash)
        }
    }
}

/// Vertices that are shaded together.
#[derive(Drop)]
pub(crate) struct Group {
    pub(crate) vertices: ElemSet,
    /// The number of the colour.
    pub(crate) colour: usize,
}

/// Groups of vertices, the style of each edge, and what is marked and told.
#[derive(Drop)]
pub(crate) struct Arrangement {
    pub(crate) groups: Vec<Group>,
    pub(crate) styles: Vec<Style>,
    /// The number of each edge's style.
    pub(crate) style_of: Vec<usize>,
    /// The vertex that is filled.
    pub(crate) marked: Option<u32>,
    /// Whether the labels of edges tell their costs or weights.
    pub(crate) is_priced: bool,
    pub(crate) notes: Text,
}

impl Arrangement {
    /// Whether there are more groups than colours, so that groups are told apart by their numbers.
    pub(crate) fn numbers_groups(&self) -> bool {
        self.groups.len() > 7
    }

    /// The number of the group that has a vertex, counted from 1: None where no group has it.
    pub(crate) fn group_of(&self, v: u32) -> Option<usize> {
        for group in &self.groups {
            if group.vertices.contains(v) {
                return Some(group.colour.saturating_add(1));
            }
        }
        None
    }

    /// Whether an edge has the style of this number.
    pub(crate) fn uses(&self, style: usize) -> bool {
        self.style_of.contains(&style)
    }
}
