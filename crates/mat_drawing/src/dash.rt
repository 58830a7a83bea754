//! How lines are dashed.

ghost use Rattle.std.specs.Prelude.{◌≡◌, ◌%◌, ◌==◌};

use std::fmt;

/// How a line is dashed, in markup the lengths of the dashes and of the gaps between them in turn.
#[derive(Clone, Copy, Debug, PartialEq, Eq)]
pub struct Dash(usize);

impl Dash {
    /// No dashes.
    pub const NONE: Dash = Dash(0);

    /// How a line of this number is dashed: not at all for 0, and after ten they begin again.
    pub fn numbered(number: usize) -> Dash
        ensures { result.0 ≡ number % 10 }
    {
        Dash(number % 10)
    }

    /// Whether the line is not dashed.
    pub fn is_none(&self) -> bool
        ensures { result ≡ (self.now.0 == 0) }
    {
        self.0 == 0
    }
}

impl fmt::Display for Dash {
    fn fmt<W: fmt::Write>(&self, f: &mut fmt::Formatter<W>) -> fmt::Result {
        f.write_str(match self.0 {
            0 => "none",
            1 => "8 3",
            2 => "2 3",
            3 => "12 3 2 3",
            4 => "16 4",
            5 => "5 5",
            6 => "2 6",
            7 => "12 3 2 3 2 3",
            8 => "20 3",
            _ => "8 8",
        })
    }
}
