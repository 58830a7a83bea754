//! A sink in memory that never fails.

ghost use Rattle.std.specs.Prelude.{◌≡◌, ◌≤◌, ◌<◌, [], Some, length, take, IfOk, IfSome};
ghost use Rattle.mat_shelf.specs.{Writing.{Appended}, Sinks.{after_sure_put}};

use crate::traits::{Failed, Sink};
use std::alloc::{AllocError, Global};
use std::marker::Model;

/// A sink that takes every piece whole. It tells what it took while that is at most `room` bytes
/// in all.
#[derive(Drop)]
pub struct SureSink {
    taken: Vec<u8>,
    room: usize,
    is_over: bool,
}

impl Model for SureSink {
    ghost use Rattle.std.specs.Prelude.{◌≤◌, Some, None, vec_len, vec_capacity, if◌then◌else◌};
    ghost use Rattle.mat_shelf.specs.Sinks.{SureSinkState};

    ghost Value = { SureSinkState };

    ghost view = { λ s. record { told = if s.is_over then None else Some s.taken.items; room = s.room } };

    ghost invariant = { λ s. (vec_len s.taken ≤ s.room) × (s.room ≤ vec_capacity s.taken) };
}

impl SureSink {
    /// An empty sink. The memory for `room` bytes is taken here, and no later call takes any.
    pub fn new(alloc: Global, room: usize) -> Result<SureSink, AllocError>
        ensures { IfOk result (λ s. s ≡ record { told = Some []; room = room }) }
    {
        let taken = Vec::with_capacity(alloc, room)?;
        Ok(SureSink {
            taken,
            room,
            is_over: false,
        })
    }

    /// What was put, where that is told. Where more than `room` bytes were put, nothing is said of
    /// the answer.
    pub fn taken(&self) -> &[u8]
        ensures { IfSome (⟦<SureSink as Sink>⟧.written self.now) (λ bytes. result.now ≡ bytes) }
    {
        self.taken.as_slice()
    }
}

impl Sink for SureSink {
    ghost written = { λ s. s.told };

    ghost faults = { λ _. 0 };

    /// Never fails, and takes the whole piece.
    fn put(&mut self, piece: &[u8]) -> Result<usize, Failed>
        ensures whole { result ≡ Ok (length piece.now) }
        ensures after { self.new ≡ after_sure_put self.old piece.now }

        ensures bound { IfOk result (λ c. c ≤ length piece.now) }
        ensures some { IfOk result (λ c. 0 < length piece.now → 0 < c) }
        ensures appended { IfOk result (λ c. Appended self.old.told (take c piece.now) self.new.told) }
    {
        if piece.len() > self.room - self.taken.len() {
            self.is_over = true;
        }
        if !self.is_over {
            self.taken.extend_from_slice(piece).unwrap();
        }
        Ok(piece.len())
    }
}
