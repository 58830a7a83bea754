//! A sink in memory that fails only where it is full.

ghost use Rattle.std.specs.Prelude.{◌≡◌, ◌≤◌, ◌<◌, [], ◌∷◌, Some, length, IfOk};

use mat_shelf::{Failed, Sink};
use std::alloc::{AllocError, Global};
use std::marker::Model;

/// A sink that keeps what it takes, and fails exactly where bytes are put to it when it has no room left. It tells its room, and behind that
/// number the bytes that it took.
#[derive(Drop)]
pub(crate) struct BoundedSink {
    taken: Vec<u8>,
    room: usize,
    faults: u64,
}

impl Model for BoundedSink {
    ghost use Rattle.std.specs.Prelude.{◌<◌, ◌≤◌, vec_len, vec_capacity};
    ghost use Rattle.mat_call.specs.BoundedSinks.{BoundedSinkState};

    ghost Value = { BoundedSinkState };

    ghost view = { λ s. record { taken = s.taken.items; room = s.room; faults = s.faults } };

    ghost invariant = { λ s. (vec_len s.taken ≤ s.room) × (s.room ≤ vec_capacity s.taken) × (0 < s.faults → s.room ≤ vec_len s.taken) };
}

impl BoundedSink {
    /// An empty sink. The memory for `room` bytes is taken here, and no later call takes any.
    pub(crate) fn new(alloc: Global, room: usize) -> Result<BoundedSink, AllocError>
        ensures empty { IfOk result (λ s. s.taken ≡ []) }
        ensures room { IfOk result (λ s. s.room ≡ room) }
    {
        let taken = Vec::with_capacity(alloc, room)?;
        Ok(BoundedSink {
            taken,
            room,
            faults: 0,
        })
    }

    /// Nothing but what the type keeps, for proofs: it took no more than it has room for, and failed only where it is full.
    pub(crate) fn stays_bounded(&self)
        ensures within { length self.now.taken ≤ self.now.room }
        ensures full { 0 < self.now.faults → self.now.room ≤ length self.now.taken }
    {
        // (reading the bytes tells the proof what the type keeps of them)
        let _ = &self.taken;
    }

    /// What it took. It takes no memory.
    pub(crate) fn into_bytes(self) -> Vec<u8>
        ensures { result.items ≡ self.taken }
    {
        self.taken
    }
}

impl Sink for BoundedSink {
    ghost written = { λ s. Some (s.room ∷ s.taken) };

    ghost faults = { λ s. s.faults };

    fn put(&mut self, piece: &[u8]) -> Result<usize, Failed> {
        let left = self.room - self.taken.len();
        if left == 0 && !piece.is_empty() {
            self.faults = self.faults.saturating_add(1);
            return Err(Failed);
        }
        let count = piece.len().min(left);
        self.taken.extend_from_slice(&piece[..count]).unwrap();
        Ok(count)
    }
}
