//! Places on a circle, by a table of sines.

use mat_drawing::{Point, Units};

// The sine of a turn, from 0 to a quarter in steps of five degrees, in ten-thousandths.
const SINES: [i64; 19] = [
    0, 872, 1736, 2588, 3420, 4226, 5000, 5736, 6428, 7071, 7660, 8192, 8660, 9063, 9397, 9659,
    9848, 9962, 10000,
];

// The sine of so many times five degrees, in ten-thousandths.
fn sine_of_step(step: usize) -> Units {
    let step = step % 72;
    let (half, sign) = if step > 36 {
        (step - 36, -1)
    } else {
        (step, 1)
    };
    let quarter = if half > 18 { 36 - half } else { half };
    Units(SINES[quarter]) * sign
}

// The sine of so many of equal parts of a turn and so many quarters more, in ten-thousandths and rounded down: between steps of five
// degrees it changes evenly.
fn sine_behind(part: usize, parts: usize, quarters: usize) -> Units {
    let parts = parts.max(1);
    let turned = part.saturating_mul(72);
    let step = (turned / parts).saturating_add(quarters.saturating_mul(18));
    let rest = turned % parts;
    let low = sine_of_step(step) * Units::of(parts - rest);
    let high = sine_of_step(step.saturating_add(1)) * Units::of(rest);
    (low + high).over(Units::of(parts))
}

/// The sine of so many of equal parts of a turn, in ten-thousandths and rounded down.
pub(crate) fn sine(part: usize, parts: usize) -> Units {
    sine_behind(part, parts, 0)
}

/// A circle with places on it, evenly apart and counted from the top, as on a clock.
#[derive(Clone, Copy)]
pub(crate) struct Circle {
    /// Its middle.
    pub(crate) middle: Point,
    /// How many places it has.
    pub(crate) places: usize,
}

impl Circle {
    /// The point at this distance from the middle, in the direction of a place.
    pub(crate) fn at(&self, place: usize, distance: Units) -> Point {
        let across = distance * sine_behind(place, self.places, 0);
        let up = distance * sine_behind(place, self.places, 1);
        Point {
            x: self.middle.x + across.over(Units(10_000)),
            y: self.middle.y - up.over(Units(10_000)),
        }
    }
}
