//! The real files, and standard input.

ghost use Rattle.std.specs.Prelude.{◌≡◌, ◌≤◌, false, true, OnOk, OnErr, IfOk, IsErr, None, length};
ghost use Rattle.mat_shelf.specs.Faults.{Rose, next_count};

use crate::traits::{Failed, Shelf};
use std::fs::File;
use std::io::{Input, Read};
use std::marker::Model;
use std::rt::Files;

/// What is read.
#[derive(Drop)]
enum Source<F, I> {
    Opened(F),
    Standard(I),
}

/// The real files, and standard input for the name `-`. It tells nothing of what they hold, each
/// name may be read, and a read with nothing open is a fault. It is seen as its count of faults,
/// which is that of every name, and whether something is open.
#[derive(Drop)]
pub struct FileShelf<'a, R: Files + Input> {
    runtime: &'a R,
    source: Option<Source<R::File, R::Reader>>,
    faults: u64,
}

impl<'a, R: Files + Input> Model for FileShelf<'a, R> {
    ghost use Rattle.std.specs.Prelude.{is_some};
    ghost use Rattle.mat_shelf.specs.Files.{FileShelfState};

    ghost Value = { FileShelfState };

    ghost view = { λ s. record { faults = s.faults; is_open = is_some s.source } };
}

impl<'a, R: Files + Input> FileShelf<'a, R> {
    /// The files of this runtime, with nothing open and the count 0.
    pub fn new(runtime: &'a R) -> FileShelf<'a, R>
        ensures { result ≡ record { faults = 0; is_open = false } }
    {
        FileShelf {
            runtime,
            source: None,
            faults: 0,
        }
    }
}

impl<R: Files + Input> Shelf for FileShelf<'_, R> {
    ghost held = { λ _ _. None };

    ghost left = { λ _. None };

    ghost reading = { λ _ _. Unit {0} };

    ghost faults = { λ s _. s.faults };

    /// Fails where the system cannot open the file.
    fn open(&mut self, name: &str) -> Result<(), Failed>
        ensures ok { OnOk result (self.new ≡ record self.old { is_open = true }) }
        ensures err { OnErr result (self.new ≡ record { faults = next_count self.old.faults; is_open = false }) }

        ensures grows { self.old.faults ≤ self.new.faults }
        ensures cause { OnErr result (Rose self.old.faults self.new.faults) }
    {
        self.source = None;
        if name == "-" {
            self.source = Some(Source::Standard(self.runtime.reader()));
            return Ok(());
        }
        match File::open(self.runtime, name) {
            Ok(file) => {
                self.source = Some(Source::Opened(file));
                Ok(())
            }
            Err(_) => {
                self.faults = self.faults.saturating_add(1);
                Err(Failed)
            }
        }
    }

    /// Fails where the system cannot read, or nothing is open.
    fn read(&mut self, _name: &str, into: &mut [u8]) -> Result<usize, Failed>
        ensures nothing { self.old.is_open ≡ false → IsErr result }
        ensures ok { OnOk result (self.new ≡ self.old) }
        ensures err { OnErr result (self.new ≡ record self.old { faults = next_count self.old.faults }) }

        ensures grows { self.old.faults ≤ self.new.faults }
        ensures bound { IfOk result (λ c. c ≤ length into.new) }
        ensures cause { OnErr result (Rose self.old.faults self.new.faults) }
    {
        let got = match &mut self.source {
            None => None,
            Some(Source::Opened(file)) => file.read(into).ok(),
            Some(Source::Standard(input)) => input.read(into).ok(),
        };
        match got {
            Some(count) => Ok(count),
            None => {
                self.faults = self.faults.saturating_add(1);
                Err(Failed)
            }
        }
    }
}
