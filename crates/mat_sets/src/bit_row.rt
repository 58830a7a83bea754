//! A set of numbers below 512, kept as bits in place.
ghost use Rattle.std.specs.Prelude.{◌≡◌, ℕ, ◌<◌, ◌≤◌, not, ◌&&◌, [], length};
ghost use Rattle.mat_sets.specs.{Bits.{bits_of}, Sets.{is_member, with_one}};

use crate::bit_set::{BitSet, clear_all};
use std::marker::Model;

/// A set of numbers below 512, one bit for each. Its words lie in the value itself, so that a list of such sets takes memory once.
#[derive(Debug, Drop)]
pub struct BitRow {
    words: [u64; 8],
}

impl Model for BitRow {
    ghost use Rattle.std.specs.Prelude.{ℕ, List};
    ghost use Rattle.mat_sets.specs.Bits.{bits_of};

    ghost Value = { List ℕ };

    ghost view = { λ s. bits_of s.words };
}

impl BitRow {
    /// The empty set.
    pub fn new() -> BitRow
        ensures { result ≡ [] }
    {
        BitRow { words: [0; 8] }
    }

    /// Whether x is a member.
    pub fn contains(&self, x: u32) -> bool
        ensures { result ≡ is_member x self.now }
    {
        let at = (x / 64) as usize;
        at < 8 && (self.words[at] >> (x % 64)) & 1 == 1
    }

    /// Puts x in.
    pub fn insert(&mut self, x: u32)
        requires { x < 512 }
        ensures { self.new ≡ with_one self.old x }
    {
        self.words[(x / 64) as usize] |= 1 << (x % 64);
    }

    /// Takes the members of another set out.
    pub(crate) fn remove_all(&mut self, gone: &BitSet)
        ensures { (x : ℕ) → is_member x self.new ≡ (is_member x self.old && not (is_member x gone.now)) }
    {
        clear_all(&mut self.words, gone.as_words());
    }

    /// The words, of which each has the bits of 64 numbers.
    pub fn as_words(&self) -> &[u64]
        ensures bits { bits_of result.now ≡ self.now }
        ensures few { length result.now ≤ 8 }
    {
        &self.words
    }
}
