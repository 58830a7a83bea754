//! Names of elements and of vertices, kept so that each stands once.

ghost use Rattle.mat_words.specs.Names.{bytes_of, AreNames};

use indexmap::IndexSet;
use std::alloc::{AllocError, Global};

/// The most bytes of a name.
pub const LONGEST_NAME: usize = 32;

/// Names of elements or of vertices: each once, in the order in which they were added. A name is a word of at most 32 bytes, and there
/// are fewer than 2^32 of them.
#[derive(Drop)]
pub struct Names {
    names: IndexSet<Vec<u8>>,
    pub ghost lawful: { AreNames (bytes_of names.keys) },
}

impl Names {
    ghost use Rattle.std.specs.Prelude.{◌≡◌, ◌<◌, ◌+◌, ◌^◌, [], length, get_or, not, slice_get, Some, IsTrue, IfOk, OnOk, OnErr, IsFalse};
    ghost use Rattle.mat_words.specs.{Names.{is_name, is_among, name_index, with_name}, NameLists.{names_of}};

    /// No names. It takes no memory.
    pub fn new(alloc: Global) -> Names
        ensures { names_of result ≡ [] }
    {
        Names {
            names: IndexSet::new(alloc),
        }
    }

    /// Adds a word as the last name, if it isn't there, and gives whether it was added.
    ///
    /// # Errors
    ///
    /// Where memory runs out, which can only be for a word that isn't there, the names stay as they are.
    pub fn add(&mut self, word: &[u8]) -> Result<bool, AllocError>
        requires name { IsTrue (is_name word.now) }
        requires room { length (names_of self.old) + 1 < 2 ^ 32 }
        ensures added { IfOk result (λ added. added ≡ not (is_among (names_of self.old) word.now)) }
        ensures names { OnOk result (names_of self.new ≡ with_name (names_of self.old) word.now) }
        ensures unchanged { OnErr result (names_of self.new ≡ names_of self.old) }
        ensures missing { OnErr result (IsFalse (is_among (names_of self.old) word.now)) }
    {
        if self.find(word).is_some() {
            return Ok(false);
        }
        let name = word.to_vec(*self.names.allocator())?;
        self.names.insert(name)?;
        Ok(true)
    }

    /// The place of a name, counted from 0: None where the word isn't there. It takes no memory.
    pub fn find(&self, word: &[u8]) -> Option<u32>
        ensures { result ≡ name_index (names_of self.now) word.now }
    {
        let place = self.names.get_index_of(word)?;
        Some(place as u32)
    }

    /// How many names there are: fewer than 2^32.
    pub fn len(&self) -> usize
        ensures value { result ≡ length (names_of self.now) }
        ensures few { result < 2 ^ 32 }
    {
        self.names.len()
    }

    /// The i-th name, counted from 0.
    pub fn get(&self, i: usize) -> &[u8]
        requires { i < length (names_of self.now) }
        ensures value { result.now ≡ get_or (names_of self.now) i [] }
        ensures stored { slice_get (names_of self.now) i ≡ Some result.now }
    {
        self.names[i].as_slice()
    }
}
