//! The reader: from the text of a description to its problem, line by line, or to the first fault of a text that is none.

mod description;
mod earlier_sets;
mod forms;
mod items;
mod keywords;
mod lines;
mod linked;
mod matroids;
mod notation;

use crate::refusal::DescRefusal;
use mat_any::AnyMatroid;
use mat_problem::Problem;
use mat_words::LineCursor;

/// What was read, with the lines behind it.
type Read<'a, T> = Result<(T, LineCursor<'a>), DescRefusal>;

/// A matroid that was read, with the lines behind it.
type Found<'a> = Read<'a, AnyMatroid>;

/// A problem that was read with its notation, and the lines behind both.
type Written<'a> = Result<(Problem, Notation, LineCursor<'a>), DescRefusal>;

pub(crate) use description::read_description;
pub use description::read_problem;
pub(crate) use notation::Notation;
