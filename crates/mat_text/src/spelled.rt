//! Weights as words.

use mat_sets::Weight;
use std::fmt;

/// A weight, told as descriptions and certificates spell it: its main number, and its tie behind a `:` where that is not 0.
#[derive(Clone, Copy)]
pub struct Spelled(pub Weight);

impl fmt::Display for Spelled {
    fn fmt<W: fmt::Write>(&self, f: &mut fmt::Formatter<W>) -> fmt::Result {
        let main = self.0.main;
        let tie = self.0.tie;
        if tie == 0 {
            write!(f, "{main}")
        } else {
            write!(f, "{main}:{tie}")
        }
    }
}
