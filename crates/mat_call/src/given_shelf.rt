//! A shelf of files in memory that fails only for a name that none of them has.

ghost use Rattle.std.specs.Prelude.{◌≡◌, ◌≤◌, ℕ, List, length, OnOk, OnErr, IfOk, IfSome};
ghost use Rattle.mat_shelf.specs.{
  Faults.{Rose},
  Reading.{Gave},
  Files.{HaveDifferentNames, left_of, IsReading},
};
ghost use Rattle.mat_call.specs.GivenShelves.{told_in, missing_count};

use mat_shelf::{Failed, MemShelf, NamedFile, Shelf};
use std::alloc::Global;
use std::marker::Model;

/// Files in memory. A call fails exactly where it opens a name that none of them has, and only for such a name is a fault counted. Each name is
/// told: of one that no file has, that there is no text.
#[derive(Drop)]
pub(crate) struct GivenShelf {
    shelf: MemShelf,
}

impl Model for GivenShelf {
    ghost use Rattle.std.specs.Prelude.{◌≡◌, []};
    ghost use Rattle.mat_shelf.specs.Files.{MemShelfState};

    ghost Value = { MemShelfState };

    ghost view = { λ s. s.shelf };

    ghost invariant = { λ s. s.shelf.fail ≡ [] };
}

impl GivenShelf {
    /// A shelf of these files.
    pub(crate) fn new(alloc: Global, files: Vec<NamedFile>) -> GivenShelf
        requires { HaveDifferentNames files.items }
        ensures { result.files ≡ files.items }
    {
        GivenShelf {
            shelf: MemShelf::new(files, usize::MAX, Vec::new(alloc)),
        }
    }
}

impl Shelf for GivenShelf {
    ghost held = { λ s name. told_in s.files name };

    ghost left = { λ s. left_of s.opened };

    ghost reading = { λ s name. IsReading s.opened name };

    ghost faults = { λ s name. missing_count s.files s.other_faults name };

    fn open(&mut self, name: &str) -> Result<(), Failed> {
        self.shelf.open(name)
    }

    fn read(&mut self, name: &str, into: &mut [u8]) -> Result<usize, Failed> {
        self.shelf.read(name, into)
    }
}
