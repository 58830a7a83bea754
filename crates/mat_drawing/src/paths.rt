//! Paths of straight lines.

ghost use Rattle.std.specs.Prelude.{◌≡◌, length, IfOk, string_len};

use crate::point::Point;
use crate::units::Units;
use std::alloc::{AllocError, Global};

/// The data of a path from point to point. The clause says only that no points have no data. The only error is want of memory.
pub fn polyline(alloc: Global, points: &[Point]) -> Result<String, AllocError>
    ensures { IfOk result (λ path. length points.now ≡ 0 → string_len path ≡ 0) }
{
    let mut path = String::new(alloc);
    for (i, point) in points.iter().enumerate() {
        let step = if i == 0 { "M" } else { " L" };
        write!(path, "{step}{point}")?;
    }
    Ok(path)
}

/// The data of a path of so many strokes down to the same height, the first from this point, each so far from the one before it. The clause
/// says only that no strokes have no data. The only error is want of memory.
pub fn strokes(
    alloc: Global,
    from: Point,
    apart: Units,
    count: usize,
    down_to: Units,
) -> Result<String, AllocError>
    ensures { IfOk result (λ path. count ≡ 0 → string_len path ≡ 0) }
{
    let mut path = String::new(alloc);
    for i in 0..count {
        let step = if i == 0 { "M" } else { " M" };
        let x = from.x + apart * Units::of(i);
        let y = from.y;
        write!(path, "{step}{x} {y} V{down_to}")?;
    }
    Ok(path)
}
