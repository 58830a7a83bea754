//! Points of a drawing.

ghost use Rattle.std.specs.{Prelude.{◌≡◌, ◌+ℤ◌}, Int.{w64, saturate_signed}};

use crate::units::Units;
use std::fmt;

/// A point: how far it is from the left edge, and how far from the upper edge. In markup a space stands between both numbers.
#[derive(Clone, Copy, Debug, PartialEq, Eq)]
pub struct Point {
    /// How far it is from the left edge.
    pub x: Units,
    /// How far it is from the upper edge.
    pub y: Units,
}

impl Point {
    /// The point in the upper left corner.
    pub const CORNER: Point = Point {
        x: Units(0),
        y: Units(0),
    };

    /// The point that is so much lower.
    pub fn below(self, by: i64) -> Point
        ensures across { result.x ≡ self.x }
        ensures down { result.y.0 ≡ saturate_signed w64 (self.y.0 +ℤ by) }
    {
        Point {
            x: self.x,
            y: self.y + by,
        }
    }
}

impl fmt::Display for Point {
    fn fmt<W: fmt::Write>(&self, f: &mut fmt::Formatter<W>) -> fmt::Result {
        let x = self.x;
        let y = self.y;
        write!(f, "{x} {y}")
    }
}
