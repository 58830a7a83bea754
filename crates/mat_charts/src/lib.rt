//! Parts of pictures: ladders of sets as charts with rows of squares, tables of cells, and grids of parts. They stand beneath one another on a
//! canvas, each with notes.
#![tactic(auto)]

mod canvas;
mod chart;
mod grid;
mod ladder;
mod measures;
mod orders;
mod rows;
mod table;

pub use canvas::{Canvas, LINE, MARGIN};
pub use grid::{Grid, draw_grid};
pub use ladder::{Ladder, steps_of};
pub use orders::{by_first_set, by_weight};
pub use rows::draw_ladder;
pub use table::{Table, draw_table};
