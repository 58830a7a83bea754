//! Drawings as SVG: texts, rectangles, circles and paths of whole numbers of units, in markup that is well formed and in which words are
//! escaped.
#![tactic(auto)]

mod area;
mod attributes;
mod colour;
mod dash;
mod drawing;
mod elements;
mod escaping;
mod look;
mod paths;
mod point;
mod shape;
mod units;
mod values;

pub use area::Area;
pub use colour::Colour;
pub use dash::Dash;
pub use drawing::Drawing;
pub use escaping::escaping_laws;
pub use look::Look;
pub use paths::{polyline, strokes};
pub use point::Point;
pub use shape::Shape;
pub use units::Units;
pub use values::Anchor;
