//! A sink over a writer of std.

ghost use Rattle.std.specs.Prelude.{◌≡◌, ◌≤◌, ◌<◌, OnOk, OnErr, IfOk, None, length};
ghost use Rattle.mat_shelf.specs.Faults.{Rose, next_count};

use crate::traits::{Failed, Sink};
use std::io::Write;
use std::marker::Model;

/// A writer of std, of which it tells nothing. It is seen as its count of faults.
#[derive(Drop)]
pub struct StreamSink<W: Write> {
    inner: W,
    faults: u64,
}

impl<W: Write> Model for StreamSink<W> {
    ghost use Rattle.std.specs.Prelude.{ℕ};

    ghost Value = { ℕ };

    ghost view = { λ s. s.faults };
}

impl<W: Write> StreamSink<W> {
    /// A sink over this writer, with the count 0.
    pub fn new(inner: W) -> StreamSink<W>
        ensures { result ≡ 0 }
    {
        StreamSink { inner, faults: 0 }
    }
}

impl<W: Write> Sink for StreamSink<W> {
    ghost written = { λ _. None };

    ghost faults = { λ faults. faults };

    /// Fails where the writer fails, or takes no byte of a piece that is not empty.
    fn put(&mut self, piece: &[u8]) -> Result<usize, Failed>
        ensures ok { OnOk result (self.new ≡ self.old) }
        ensures err { OnErr result (self.new ≡ next_count self.old) }

        ensures grows { self.old ≤ self.new }
        ensures bound { IfOk result (λ c. c ≤ length piece.now) }
        ensures some { IfOk result (λ c. 0 < length piece.now → 0 < c) }
        ensures cause { OnErr result (Rose self.old self.new) }
    {
        match self.inner.write(piece) {
            Ok(count) if count > 0 || piece.is_empty() => Ok(count),
            _ => {
                self.faults = self.faults.saturating_add(1);
                Err(Failed)
            }
        }
    }
}
