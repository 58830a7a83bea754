//! A shelf in memory that never fails.

ghost use Rattle.std.specs.Prelude.{◌≡◌, ℕ, List, Some, [], length};
ghost use Rattle.mat_shelf.specs.{
  Reading.{Gave},
  Files.{HaveDifferentNames, bytes_at, held_or, sure_read_count, after_sure_open, after_sure_read},
};

use crate::named_file::{NamedFile, copy_from, place_of};
use crate::traits::{Failed, Shelf};
use std::marker::Model;

/// Files in memory, and bytes that every other name holds. Each name may be read, no call fails,
/// and nothing is left to read until a file is opened.
#[derive(Drop)]
pub struct SureShelf {
    files: Vec<NamedFile>,
    other: Vec<u8>,
    /// The place of the file that is open, where it is one of the files.
    place: Option<usize>,
    /// Where the next read of it begins.
    from: usize,
}

impl Model for SureShelf {
    ghost use Rattle.std.specs.Prelude.{drop};
    ghost use Rattle.mat_shelf.specs.Files.{SureShelfState, bytes_at};

    ghost Value = { SureShelfState };

    ghost view = { λ s. record {
      files = s.files.items;
      other = s.other.items;
      left = drop s.from (bytes_at s.files.items s.other.items s.place);
    } };
}

impl SureShelf {
    /// A shelf of these files, on which every other name holds `other`.
    pub fn new(files: Vec<NamedFile>, other: Vec<u8>) -> SureShelf
        requires { HaveDifferentNames files.items }
        ensures { result ≡ record { files = files.items; other = other.items; left = [] } }
    {
        let from = other.len();
        SureShelf {
            files,
            other,
            place: None,
            from,
        }
    }
}

// The bytes of the file at a place, or those of every other name.
fn bytes_at<'a>(files: &'a [NamedFile], other: &'a [u8], place: Option<usize>) -> &'a [u8]
    ensures { result.now ≡ bytes_at files.now other.now place }
{
    match place.and_then(|place| files.get(place)) {
        Some(file) => file.bytes(),
        None => other,
    }
}

impl Shelf for SureShelf {
    ghost held = { λ s name. Some (held_or s.files s.other name) };

    ghost left = { λ s. Some s.left };

    ghost reading = { λ _ _. Unit {0} };

    ghost faults = { λ _ _. 0 };

    /// Never fails.
    fn open(&mut self, name: &str) -> Result<(), Failed>
        ensures opened { result ≡ Ok tt }
        ensures after { self.new ≡ after_sure_open self.old name.now }

        ensures held { (other : List ℕ) → Some (held_or self.new.files self.new.other other)
            ≡ Some (held_or self.old.files self.old.other other) }
        ensures left { Some self.new.left ≡ Some (held_or self.old.files self.old.other name.now) }
    {
        self.place = place_of(&self.files, name);
        self.from = 0;
        Ok(())
    }

    /// Never fails, and gives as many bytes as are left and fit.
    fn read(&mut self, _name: &str, into: &mut [u8]) -> Result<usize, Failed>
        ensures count { result ≡ Ok (sure_read_count self.old (length into.new)) }
        ensures after { self.new ≡ after_sure_read self.old (length into.new) }

        ensures held { (other : List ℕ) → Some (held_or self.new.files self.new.other other)
            ≡ Some (held_or self.old.files self.old.other other) }
        ensures bytes { Gave self.old.left (sure_read_count self.old (length into.new)) into.new (Some self.new.left) }
    {
        let bytes = bytes_at(&self.files, &self.other, self.place);
        let most = into.len();
        let count = copy_from(bytes, self.from, most, into);
        self.from += count;
        Ok(count)
    }
}
