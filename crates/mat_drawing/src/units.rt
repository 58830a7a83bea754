//! Numbers of units, in which a drawing is measured.

ghost use Rattle.std.specs.{
  Prelude.{◌≡◌, ◌<◌, ◌^◌, pos, ◌+ℤ◌, ◌-ℤ◌, ◌*ℤ◌, ◌<ℤ◌, ◌≤ℤ◌},
  Int.{w64, int_div_euclid, saturate_signed, IsIsqrt},
};

use std::fmt;
use std::ops::{Add, Mul, Sub};

/// A whole number of units of a drawing, or of what is counted in it. A sum, a difference or a product that would leave 64 bits stays at
/// their end.
#[derive(Clone, Copy, Debug, PartialEq, Eq, PartialOrd, Ord)]
pub struct Units(pub i64);

impl Units {
    /// None.
    pub const ZERO: Units = Units(0);

    /// So many units.
    pub fn of(count: usize) -> Units
        ensures { count < 2 ^ 63 → result.0 ≡ pos count }
    {
        Units(i64::try_from(count).unwrap_or(i64::MAX))
    }

    /// The number divided by so many parts, rounded down; all of it where there is no part.
    pub fn over(self, parts: Units) -> Units
        ensures quotient { pos 0 <ℤ parts.0 → result.0 ≡ int_div_euclid self.0 parts.0 }
        ensures no_parts { parts.0 ≤ℤ pos 0 → result ≡ self }
    {
        if parts.0 < 1 {
            return self;
        }
        Units(self.0.div_euclid(parts.0))
    }

    /// Half of the number, rounded down.
    pub fn half(self) -> Units
        ensures { result.0 ≡ int_div_euclid self.0 (pos 2) }
    {
        self.over(Units(2))
    }

    /// The whole square root, rounded down; 0 of a number below 0.
    pub fn root(self) -> Units
        ensures { pos 0 ≤ℤ self.0 → IsIsqrt self.0 result.0 }
    {
        Units(self.0.max(0).isqrt())
    }
}

impl Add for Units {
    type Output = Units;

    ghost add_gives = { λ a b r. r.0 ≡ saturate_signed w64 (a.0 +ℤ b.0) };

    fn add(self, other: Units) -> Units {
        Units(self.0.saturating_add(other.0))
    }
}

impl Add<i64> for Units {
    type Output = Units;

    ghost add_gives = { λ a b r. r.0 ≡ saturate_signed w64 (a.0 +ℤ b) };

    fn add(self, other: i64) -> Units {
        Units(self.0.saturating_add(other))
    }
}

impl Sub for Units {
    type Output = Units;

    ghost sub_gives = { λ a b r. r.0 ≡ saturate_signed w64 (a.0 -ℤ b.0) };

    fn sub(self, other: Units) -> Units {
        Units(self.0.saturating_sub(other.0))
    }
}

impl Sub<i64> for Units {
    type Output = Units;

    ghost sub_gives = { λ a b r. r.0 ≡ saturate_signed w64 (a.0 -ℤ b) };

    fn sub(self, other: i64) -> Units {
        Units(self.0.saturating_sub(other))
    }
}

impl Mul for Units {
    type Output = Units;

    ghost mul_gives = { λ a b r. r.0 ≡ saturate_signed w64 (a.0 *ℤ b.0) };

    fn mul(self, other: Units) -> Units {
        Units(self.0.saturating_mul(other.0))
    }
}

impl Mul<i64> for Units {
    type Output = Units;

    ghost mul_gives = { λ a b r. r.0 ≡ saturate_signed w64 (a.0 *ℤ b) };

    fn mul(self, other: i64) -> Units {
        Units(self.0.saturating_mul(other))
    }
}

impl fmt::Display for Units {
    fn fmt<W: fmt::Write>(&self, f: &mut fmt::Formatter<W>) -> fmt::Result {
        let units = self.0;
        write!(f, "{units}")
    }
}
