//! A set of numbers kept as bits, seen as a strictly rising list.
ghost use Rattle.std.specs.Prelude.{◌≡◌, ◌↔◌, ℕ, ◌+◌, not, ◌&&◌, ◌||◌, ◌≤◌, ◌^◌, List, [], length, max, slice_index_or, IfOk, IsTrue, OnOk, OnErr};
ghost use Rattle.mat_sets.specs.{
  Bits.{AreMembersBelow, IsWordOf, bits_of},
  Search.{IsNextFrom},
  Sets.{all_below, is_member, with_one, without_one, IsRising, IsSubset},
};

use crate::bit_row::BitRow;
use std::alloc::{AllocError, Global};
use std::marker::Model;

/// A set of numbers, one bit for each. Members are found, put in and taken out in constant time, and two sets are
/// compared 64 numbers at a time.
#[derive(Debug, Drop)]
pub struct BitSet {
    words: Vec<u64>,
}

impl Model for BitSet {
    ghost use Rattle.std.specs.Prelude.{ℕ, ◌≤◌, ◌^◌, List, length};
    ghost use Rattle.mat_sets.specs.Bits.{bits_of};

    ghost Value = { List ℕ };

    ghost view = { λ s. bits_of s.words.items };

    ghost invariant = { λ s. length s.words.items ≤ 2 ^ 26 };
}

impl BitSet {
    /// The empty set. It takes no memory; `alloc` is where later members get theirs.
    pub fn new(alloc: Global) -> BitSet
        ensures { result ≡ [] }
    {
        BitSet {
            words: Vec::new(alloc),
        }
    }

    /// The empty set, with room for the numbers below n. The only error is want of memory.
    pub fn with_capacity(alloc: Global, n: u32) -> Result<BitSet, AllocError>
        ensures { IfOk result (λ s. s ≡ []) }
    {
        let words = vec![in alloc; 0; n.div_ceil(64) as usize]?;
        Ok(BitSet { words })
    }

    /// The set of all numbers below n. The only error is want of memory.
    pub fn all_below(alloc: Global, n: u32) -> Result<BitSet, AllocError>
        ensures { IfOk result (λ s. s ≡ all_below n) }
    {
        let mut words = vec![in alloc; u64::MAX; (n / 64) as usize]?;
        words.push((1 << (n % 64)) - 1)?;
        Ok(BitSet { words })
    }

    /// Whether x is a member. It takes no memory.
    pub fn contains(&self, x: u32) -> bool
        ensures { result ≡ is_member x self.now }
    {
        let at = (x / 64) as usize;
        at < self.words.len() && (self.words[at] >> (x % 64)) & 1 == 1
    }

    /// Puts x in. After an error the set is as before.
    pub fn insert(&mut self, x: u32) -> Result<(), AllocError>
        ensures ok { OnOk result (self.new ≡ with_one self.old x) }
        ensures err { OnErr result (self.new ≡ self.old) }
    {
        let at = (x / 64) as usize;
        make_room(&mut self.words, at + 1)?;
        self.words[at] |= 1 << (x % 64);
        Ok(())
    }

    /// Takes x out. It takes no memory.
    pub fn remove(&mut self, x: u32)
        ensures { self.new ≡ without_one self.old x }
    {
        let at = (x / 64) as usize;
        if at < self.words.len() {
            self.words[at] &= !(1 << (x % 64));
        }
    }

    /// Takes the members of another set out, 64 numbers at a time. It takes no memory.
    pub fn remove_all(&mut self, gone: &BitSet)
        ensures { (x : ℕ) → is_member x self.new ≡ (is_member x self.old && not (is_member x gone.now)) }
    {
        clear_all(&mut self.words, gone.as_words());
    }

    /// Whether each member is one of the other set. The time is that of the words; it takes no memory.
    #[tactic(auto, using(crate::proofs::WordInclusions::inclusions))]
    pub fn is_subset(&self, other: &BitSet) -> bool
        ensures inside { IsTrue result ↔ IsSubset self.now other.now }
        ensures rises { IsRising self.now }
    {
        is_inside(self.words.as_slice(), other.words.as_slice())
    }

    /// Another set of the same members. The time is that of the words. The only error is want of memory.
    pub fn copy(&self, alloc: Global) -> Result<BitSet, AllocError>
        ensures { IfOk result (λ s. s ≡ self.now) }
    {
        let words = Vec::from_slice(alloc, self.words.as_slice())?;
        Ok(BitSet { words })
    }

    /// Puts in all members of another set, 64 numbers at a time. After an error the set is as before.
    pub fn unite(&mut self, other: &BitSet) -> Result<(), AllocError>
        ensures ok { OnOk result ((x : ℕ) → is_member x self.new ≡ (is_member x self.old || is_member x other.now)) }
        ensures err { OnErr result (self.new ≡ self.old) }
    {
        make_room(&mut self.words, other.words.len())?;
        set_all(&mut self.words, other.words.as_slice());
        Ok(())
    }

    /// Puts in all members of a row, 64 numbers at a time. After an error the set is as before; the only error is want of memory.
    pub fn unite_row(&mut self, row: &BitRow) -> Result<(), AllocError>
        ensures ok { OnOk result ((x : ℕ) → is_member x self.new ≡ (is_member x self.old || is_member x row.now)) }
        ensures err { OnErr result (self.new ≡ self.old) }
    {
        let words = row.as_words();
        make_room(&mut self.words, words.len())?;
        set_all(&mut self.words, words);
        Ok(())
    }

    /// The members in rising order. The time is that of the members and of the words. The only error is want of memory.
    pub(crate) fn members(&self, alloc: Global) -> Result<Vec<u32>, AllocError>
        ensures members { IfOk result (λ v. v.items ≡ self.now) }
        ensures rises { IfOk result (λ v. IsRising v.items) }
    {
        // As much room as the words take.
        let mut items = Vec::with_capacity(alloc, 2 * self.words.len())?;
        for at in 0..self.words.len() {
            push_bits(&mut items, at as u32 * 64, self.words[at])?;
        }
        Ok(items)
    }

    /// The words, of which each has the bits of 64 numbers.
    pub fn as_words(&self) -> &[u64]
        ensures { bits_of result.now ≡ self.now }
    {
        self.words.as_slice()
    }

    /// The first number from `from` on that is a member of both sets: the time is that of the words in between. It takes
    /// no memory.
    pub fn next_common(&self, other: &BitSet, from: u32) -> Option<u32>
        ensures { IsNextFrom (λ x. is_member x self.now && is_member x other.now) from result }
    {
        other.next_among(self.as_words(), from)
    }

    /// The first member from `from` on: the time is that of the words in between. It takes no memory.
    pub fn next_from(&self, from: u32) -> Option<u32>
        ensures { IsNextFrom (λ x. is_member x self.now) from result }
    {
        self.next_among(self.as_words(), from)
    }

    /// The first number from `from` on whose bit is set in these words and that is a member: the time is that of the words in between. It
    /// takes no memory.
    pub fn next_among(&self, words: &[u64], from: u32) -> Option<u32>
        ensures { IsNextFrom (λ x. is_member x (bits_of words.now) && is_member x self.now) from result }
    {
        let len = words.len().min(self.words.len());
        let mut mask = u64::MAX << (from % 64);
        for at in (from / 64) as usize..len {
            let common = words[at] & self.words[at] & mask;
            if common != 0 {
                return Some(at as u32 * 64 + common.trailing_zeros());
            }
            mask = u64::MAX;
        }
        None
    }
}

/// Makes the words at least so many, by words with no bit. After an error they are as before.
fn make_room(words: &mut Vec<u64>, len: usize) -> Result<(), AllocError>
    requires { len ≤ 2 ^ 26 }
    ensures same { bits_of words.new.items ≡ bits_of words.old.items }
    ensures room { OnOk result (len ≤ length words.new.items) }
    ensures few { length words.new.items ≤ max (length words.old.items) (2 ^ 26) }
{
    if words.len() < len {
        words.resize(len, 0)?;
    }
    Ok(())
}

/// Sets in the words all bits of the others.
fn set_all(words: &mut [u64], others: &[u64])
    requires { length others.now ≤ length words.old }
    ensures length { length words.new ≡ length words.old }
    ensures bits { (x : ℕ) → is_member x (bits_of words.new) ≡ (is_member x (bits_of words.old) || is_member x (bits_of others.now)) }
{
    for at in 0..others.len() {
        words[at] |= others[at];
    }
}

/// Clears in the words all bits of the others.
pub(crate) fn clear_all(words: &mut [u64], others: &[u64])
    ensures length { length words.new ≡ length words.old }
    ensures bits { (x : ℕ) → is_member x (bits_of words.new) ≡ (is_member x (bits_of words.old) && not (is_member x (bits_of others.now))) }
{
    for at in 0..words.len().min(others.len()) {
        words[at] &= !others[at];
    }
}

/// Puts behind the items the numbers whose bits are set in a word, counted from `first` on.
fn push_bits(items: &mut Vec<u32>, first: u32, word: u64) -> Result<(), AllocError>
    requires { first + 64 ≤ 2 ^ 32 }
    ensures { OnOk result ((bits : List ℕ) → IsWordOf bits first word → AreMembersBelow bits first items.old.items
        → AreMembersBelow bits (first + 64) items.new.items) }
{
    let mut rest = word;
    while rest != 0 {
        let bit = rest.trailing_zeros();
        items.push(first + bit)?;
        rest &= !(1 << bit);
    }
    Ok(())
}

/// The word at a place, or 0 past the last one.
fn word_at(words: &[u64], at: usize) -> u64
    ensures { result ≡ slice_index_or words.now at 0 }
{
    if at < words.len() { words[at] } else { 0 }
}

/// Whether each number of the first words is one of the others: each word is looked at at most once.
#[tactic(auto, using(crate::proofs::WordInclusions::inclusions))]
fn is_inside(words: &[u64], others: &[u64]) -> bool
    ensures { IsTrue result ↔ IsSubset (bits_of words.now) (bits_of others.now) }
{
    for at in 0..words.len() {
        if words[at] & !word_at(others, at) != 0 {
            return false;
        }
    }
    true
}
