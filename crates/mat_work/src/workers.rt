//! Who computes rows.
ghost use denote.Param.Send.{IsSync};

use std::thread::Threads;

/// Who computes rows: the threads that a runtime starts, or one who computes them in turn. A crate with jobs of its own has a trait above
/// this one, with a method for each job.
pub trait Workers {
    /// Other threads may be handed a reference to the value.
    ghost shared: { Self → Type 0 };
}

impl<R: Threads + Sync> Workers for R {
    ghost shared = { λ _. IsSync R.row };
}
