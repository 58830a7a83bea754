//! A sink in memory whose calls fail by their numbers.

ghost use Rattle.std.specs.Prelude.{◌≡◌, ◌≤◌, ◌<◌, ◌↔◌, [], Some, length, take, IsErr, OnErr, IfOk};
ghost use Rattle.mat_shelf.specs.{Faults.{Rose}, Writing.{Appended}, Sinks.{FailsToTake, taken_count, after_put, after_failed_put}};

use crate::traits::{Failed, Sink};
use std::alloc::{AllocError, Global};
use std::marker::Model;

/// A sink that keeps what it takes: at most `step` bytes a call and at most `room` bytes in all.
/// Its calls are numbered from 1, and the last value of a `u64` stays the number of all later
/// calls. It counts its faults.
#[derive(Drop)]
pub struct MemSink {
    taken: Vec<u8>,
    room: usize,
    step: usize,
    fail: Vec<u64>,
    calls: u64,
    faults: u64,
}

impl Model for MemSink {
    ghost use Rattle.std.specs.Prelude.{◌<◌, ◌≤◌, vec_len, vec_capacity};
    ghost use Rattle.mat_shelf.specs.Sinks.{MemSinkState};

    ghost Value = { MemSinkState };

    ghost view = { λ s. record {
      taken = s.taken.items;
      room = s.room;
      step = s.step;
      fail = s.fail.items;
      calls = s.calls;
      faults = s.faults;
    } };

    ghost invariant = { λ s. (0 < s.step) × (vec_len s.taken ≤ s.room) × (s.room ≤ vec_capacity s.taken) };
}

impl MemSink {
    /// An empty sink, whose calls with the numbers in `fail` fail. The memory for `room` bytes is
    /// taken here, and no later call takes any.
    pub fn new(
        alloc: Global,
        room: usize,
        step: usize,
        fail: Vec<u64>,
    ) -> Result<MemSink, AllocError>
        requires { 0 < step }
        ensures { IfOk result (λ s. s ≡ record { taken = []; room = room; step = step; fail = fail.items; calls = 0; faults = 0 }) }
    {
        let taken = Vec::with_capacity(alloc, room)?;
        Ok(MemSink {
            taken,
            room,
            step,
            fail,
            calls: 0,
            faults: 0,
        })
    }

    /// What was taken.
    pub fn taken(&self) -> &[u8]
        ensures { ⟦<MemSink as Sink>⟧.written self.now ≡ Some result.now }
    {
        self.taken.as_slice()
    }
}

impl Sink for MemSink {
    ghost written = { λ s. Some s.taken };

    ghost faults = { λ s. s.faults };

    /// Fails exactly where the number of the call stands in `fail`, or the piece is not empty and
    /// `room` bytes were taken.
    fn put(&mut self, piece: &[u8]) -> Result<usize, Failed>
        ensures fails { IsErr result ↔ FailsToTake self.old piece.now }
        ensures count { IfOk result (λ c. c ≡ taken_count self.old piece.now) }
        ensures ok { IfOk result (λ c. self.new ≡ after_put self.old piece.now c) }
        ensures err { OnErr result (self.new ≡ after_failed_put self.old) }

        ensures grows { self.old.faults ≤ self.new.faults }
        ensures bound { IfOk result (λ c. c ≤ length piece.now) }
        ensures some { IfOk result (λ c. 0 < length piece.now → 0 < c) }
        ensures appended { IfOk result (λ c. Appended (Some self.old.taken) (take c piece.now) (Some self.new.taken)) }
        ensures unchanged { OnErr result (Some self.new.taken ≡ Some self.old.taken) }
        ensures cause { OnErr result (Rose self.old.faults self.new.faults) }
    {
        self.calls = self.calls.saturating_add(1);
        let left = self.room - self.taken.len();
        let is_full = left == 0 && !piece.is_empty();
        if self.fail.contains(&self.calls) || is_full {
            self.faults = self.faults.saturating_add(1);
            return Err(Failed);
        }
        let count = piece.len().min(self.step).min(left);
        self.taken.extend_from_slice(&piece[..count]).unwrap();
        Ok(count)
    }
}
