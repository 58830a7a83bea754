//! What the rows of a table are computed from.
ghost use Rattle.std.specs.Prelude.{◌<◌, ℕ, IfOk};

use std::alloc::AllocError;
use std::marker::Send;

/// A table whose rows are computed one by one, each from its number and from data that stays as it is, so that several workers
/// can compute rows at once. A job whose rows take memory holds the allocator.
pub trait RowJob: Sync {
    /// What is computed for a number.
    type Row: Send + Drop;

    /// How many rows there are: the numbers below it have one.
    ghost jobs: { Self → ℕ };

    /// Which rows are right for a number.
    ghost stands: { Self → ℕ → Self.Row → Type 0 };

    /// The row of number i. The only error is want of memory.
    fn row(&self, i: u32) -> Result<Self::Row, AllocError>
        requires below { i < jobs self.now }
        ensures { IfOk result (λ row. stands self.now i row) };
}
