//! Areas of a drawing.

use crate::units::Units;

/// A rectangle: its upper left corner, its width and its height.
#[derive(Clone, Copy, Debug, PartialEq, Eq)]
pub struct Area {
    /// How far its left side is from the left edge.
    pub x: Units,
    /// How far its upper side is from the upper edge.
    pub y: Units,
    /// Its width.
    pub width: Units,
    /// Its height.
    pub height: Units,
}
