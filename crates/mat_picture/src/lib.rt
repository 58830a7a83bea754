//! Right answers as pictures: ladders as charts, parts as grids, assignments as tables, and graphs with their trees and classes on a circle.
//!
//! A picture is one SVG. Its parts stand beneath one another, each with notes, under lines that tell what was wanted and what was found.
#![tactic(auto)]

mod arborescences;
mod arrangement;
mod circle;
mod drawn_graph;
mod edges;
mod frame;
mod graph;
mod groups;
mod labels;
mod ladder_answers;
mod layout;
mod legend;
mod parts;
mod picturing;
mod rainbow;
mod scene;
mod strands;
mod styles;
mod trees;
mod vertices;

pub use picturing::picture;
