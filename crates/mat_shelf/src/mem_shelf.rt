//! A shelf in memory whose calls fail by their numbers.

ghost use Rattle.std.specs.Prelude.{◌≡◌, ◌≤◌, ◌<◌, ◌↔◌, ℕ, List, None, length, take, IsErr, IsSome, OnOk, OnErr, IfOk, IfSome};
ghost use Rattle.mat_shelf.specs.{
  Faults.{Rose, last_count},
  Reading.{Gave},
  Files.{HaveDifferentNames, held_in, count_in, left_of, IsReading, FailsNext, FailsToOpen, after_open, after_failed_open, after_read, after_failed_read, read_count},
};

use crate::named_file::{NamedFile, copy_from, count_fault, place_of};
use crate::traits::{Failed, Shelf};
use std::marker::Model;

/// Files in memory, of which a read gives at most `step` bytes. Its calls are numbered from 1,
/// `open` and `read` together, and the last value of a `u64` stays the number of all later calls.
/// It keeps a count of faults for each file and one for all other names.
#[derive(Drop)]
pub struct MemShelf {
    files: Vec<NamedFile>,
    step: usize,
    fail: Vec<u64>,
    calls: u64,
    /// The place of the file that is open.
    place: Option<usize>,
    /// Where the next read of it begins.
    from: usize,
    other_faults: u64,
}

impl Model for MemShelf {
    ghost use Rattle.std.specs.Prelude.{◌<◌};
    ghost use Rattle.mat_shelf.specs.Files.{MemShelfState, open_at};

    ghost Value = { MemShelfState };

    ghost view = { λ s. record {
      files = s.files.items;
      step = s.step;
      fail = s.fail.items;
      calls = s.calls;
      opened = open_at s.files.items s.place s.from;
      other_faults = s.other_faults;
    } };

    ghost invariant = { λ s. 0 < s.step };
}

impl MemShelf {
    /// A shelf of these files with nothing open, whose calls with the numbers in `fail` fail.
    pub fn new(files: Vec<NamedFile>, step: usize, fail: Vec<u64>) -> MemShelf
        requires different { HaveDifferentNames files.items }
        requires steps { 0 < step }
        ensures { result ≡ record { files = files.items; step = step; fail = fail.items; calls = 0; opened = None; other_faults = 0 } }
    {
        MemShelf {
            files,
            step,
            fail,
            calls: 0,
            place: None,
            from: 0,
            other_faults: 0,
        }
    }

    // Opens the file of this name. The call fails by its number, or where no file has the name.
    fn open_file(&mut self, name: &str) -> Result<(), Failed>
        ensures fails { IsErr result ↔ FailsToOpen self.old name.now }
        ensures ok { OnOk result (self.new ≡ after_open self.old name.now) }
        ensures held { OnOk result (IsSome (held_in self.old.files name.now)) }
        ensures err { OnErr result (self.new ≡ after_failed_open self.old name.now) }
        ensures fits { OnErr result (count_in self.old.files self.old.other_faults name.now ≤ last_count) }
    {
        self.calls = self.calls.saturating_add(1);
        self.place = None;
        if self.fail.contains(&self.calls) {
            count_fault(&mut self.files, &mut self.other_faults, name);
            return Err(Failed);
        }
        match place_of(&self.files, name) {
            Some(place) => {
                self.place = Some(place);
                self.from = 0;
                Ok(())
            }
            None => {
                count_fault(&mut self.files, &mut self.other_faults, name);
                Err(Failed)
            }
        }
    }

    // Gives the next bytes of the file that is open. The call fails by its number.
    fn read_file(&mut self, name: &str, into: &mut [u8]) -> Result<usize, Failed>
        requires { IsReading self.old.opened name.now }
        ensures steps { 0 < self.old.step }
        ensures fails { IsErr result ↔ FailsNext self.old }
        ensures ok { IfOk result (λ c. self.new ≡ after_read self.old c) }
        ensures count { IfOk result (λ c. c ≡ read_count self.old (length into.new)) }
        ensures given { IfOk result (λ c. IfSome (left_of self.old.opened) (λ bytes. take c into.new ≡ take c bytes)) }
        ensures err { OnErr result (self.new ≡ after_failed_read self.old name.now) }
        ensures fits { OnErr result (count_in self.old.files self.old.other_faults name.now ≤ last_count) }
    {
        self.calls = self.calls.saturating_add(1);
        if self.fail.contains(&self.calls) {
            count_fault(&mut self.files, &mut self.other_faults, name);
            return Err(Failed);
        }
        let Some(place) = self.place else {
            unreachable!();
        };
        let file = &self.files[place];
        let count = copy_from(file.bytes(), self.from, self.step, into);
        self.from += count;
        Ok(count)
    }
}

impl Shelf for MemShelf {
    ghost held = { λ s name. held_in s.files name };

    ghost left = { λ s. left_of s.opened };

    ghost reading = { λ s name. IsReading s.opened name };

    ghost faults = { λ s name. count_in s.files s.other_faults name };

    /// Fails exactly where the number of the call stands in `fail` or no file has this name.
    fn open(&mut self, name: &str) -> Result<(), Failed>
        ensures fails { IsErr result ↔ FailsToOpen self.old name.now }
        ensures ok { OnOk result (self.new ≡ after_open self.old name.now) }
        ensures err { OnErr result (self.new ≡ after_failed_open self.old name.now) }

        ensures held { (other : List ℕ) → held_in self.new.files other ≡ held_in self.old.files other }
        ensures grows { (other : List ℕ) → count_in self.old.files self.old.other_faults other
            ≤ count_in self.new.files self.new.other_faults other }
        ensures reading { OnOk result (IsReading self.new.opened name.now) }
        ensures left { OnOk result (IfSome (held_in self.old.files name.now) (λ bytes. left_of self.new.opened ≡ Some bytes)) }
        ensures cause { OnErr result (Rose (count_in self.old.files self.old.other_faults name.now)
            (count_in self.new.files self.new.other_faults name.now)) }
    {
        self.open_file(name)
    }

    /// Fails exactly where the number of the call stands in `fail`.
    fn read(&mut self, name: &str, into: &mut [u8]) -> Result<usize, Failed>
        requires { IsReading self.old.opened name.now }
        ensures fails { IsErr result ↔ FailsNext self.old }
        ensures ok { IfOk result (λ c. self.new ≡ after_read self.old c) }
        ensures err { OnErr result (self.new ≡ after_failed_read self.old name.now) }
        ensures count { IfOk result (λ c. c ≡ read_count self.old (length into.new)) }

        ensures held { (other : List ℕ) → held_in self.new.files other ≡ held_in self.old.files other }
        ensures grows { (other : List ℕ) → count_in self.old.files self.old.other_faults other
            ≤ count_in self.new.files self.new.other_faults other }
        ensures reading { IsReading self.new.opened name.now }
        ensures bound { IfOk result (λ c. c ≤ length into.new) }
        ensures bytes { IfOk result (λ c. IfSome (left_of self.old.opened) (λ bytes. Gave bytes c into.new (left_of self.new.opened))) }
        ensures cause { OnErr result (Rose (count_in self.old.files self.old.other_faults name.now)
            (count_in self.new.files self.new.other_faults name.now)) }
    {
        self.read_file(name, into)
    }
}
