//! Files of the objects in memory.

ghost use Rattle.std.specs.Prelude.{◌≡◌, ◌+◌, ◌^◌, ◌<◌, ◌≤◌, position, min, length, take, drop, string_bytes};
ghost use Rattle.mat_shelf.specs.{Faults.{last_count}, Files.{has_name, with_fault, files_with_fault, other_with_fault, count_in}};

use std::marker::Model;

/// A file of an object in memory, with the count of the faults of its name. It is seen as its
/// name, its bytes and its count.
#[derive(Drop)]
pub struct NamedFile {
    name: String,
    bytes: Vec<u8>,
    faults: u64,
}

impl Model for NamedFile {
    ghost use Rattle.std.specs.Prelude.{string_bytes};
    ghost use Rattle.mat_shelf.specs.Files.{FileState};

    ghost Value = { FileState };

    ghost view = { λ f. record { name = string_bytes f.name; bytes = f.bytes.items; faults = f.faults } };
}

impl NamedFile {
    /// A file of this name that holds these bytes, with the count 0.
    pub fn new(name: String, bytes: Vec<u8>) -> NamedFile
        ensures { result ≡ record { name = string_bytes name; bytes = bytes.items; faults = 0 } }
    {
        NamedFile {
            name,
            bytes,
            faults: 0,
        }
    }

    /// Whether the file has this name.
    pub(crate) fn is_named(&self, name: &str) -> bool
        ensures { result ≡ has_name name.now self.now }
    {
        self.name.as_str() == name
    }

    /// What the file holds.
    pub(crate) fn bytes(&self) -> &[u8]
        ensures { result.now ≡ self.now.bytes }
    {
        self.bytes.as_slice()
    }

    /// Raises the count, which stays at its last value.
    pub(crate) fn count_fault(&mut self)
        ensures raised { self.new ≡ with_fault self.old }
        ensures fits { self.old.faults ≤ last_count }
    {
        self.faults = self.faults.saturating_add(1);
    }
}

/// The place of the file of this name.
pub(crate) fn place_of(files: &[NamedFile], name: &str) -> Option<usize>
    ensures { result ≡ position (has_name name.now) files.now }
{
    files.iter().position(|file| file.is_named(name))
}

/// Raises the count of the file of this name, or the one for all other names.
pub(crate) fn count_fault(files: &mut Vec<NamedFile>, other: &mut u64, name: &str)
    ensures files { files.new.items ≡ files_with_fault files.old.items name.now }
    ensures other { other.new ≡ other_with_fault files.old.items other.old name.now }
    ensures fits { count_in files.old.items other.old name.now ≤ last_count }
{
    match place_of(files, name) {
        Some(place) => {
            let file = &mut files[place];
            file.count_fault();
        }
        None => *other = other.saturating_add(1),
    }
}

/// Puts the bytes from an offset on into the front of a buffer, as many as fit and at most `most`.
pub(crate) fn copy_from(bytes: &[u8], from: usize, most: usize, into: &mut [u8]) -> usize
    ensures count { result ≡ min (min most (length into.new)) (length (drop from bytes.now)) }
    ensures copied { take result into.new ≡ take result (drop from bytes.now) }
    ensures next { from + result < 2 ^ 64 }
{
    if from >= bytes.len() {
        return 0;
    }
    let count = (bytes.len() - from).min(most).min(into.len());
    into[..count].copy_from_slice(&bytes[from..from + count]);
    count
}
