//! The words of a line.

ghost use Rattle.std.specs.{
  Prelude.{◌≡◌, ◌<◌, ◌≤◌, ◌+◌, ◌↔◌, [], ◌∷◌, length, slice_get, MatchOption, IfSome, IsTrue, Some, ℕ, List},
  List.{list_all, join_with_byte, slice_split},
};
ghost use Rattle.mat_words.specs.{Words.{words_of, parts_of, is_byte, is_word, is_well_spaced, IsWellSpaced}, Lines.{HasNoNewline}};

/// The part of some bytes in front of the first byte `stop`, and what stands after that byte: None where there is none. It takes no
/// memory.
pub(crate) fn split_at_byte(bytes: &[u8], stop: u8) -> (&[u8], Option<&[u8]>)
    ensures parts { MatchOption result.1 (slice_split (is_byte stop) bytes.now ≡ result.0.now ∷ [])
        (λ rest. slice_split (is_byte stop) bytes.now ≡ result.0.now ∷ slice_split (is_byte stop) rest.now) }
    ensures shorter { IfSome result.1 (λ rest. length result.0.now + length rest.now < length bytes.now) }
{
    for (i, b) in bytes.iter().enumerate() {
        if *b == stop {
            return (&bytes[..i], Some(&bytes[i + 1..]));
        }
    }
    (bytes, None)
}

/// The part of a line in front of its first space, and what stands after that space: None where there is no space, and so the part is
/// the last. Of a well spaced line that isn't empty, the parts are the words. It takes no memory.
pub fn split_word(line: &[u8]) -> (&[u8], Option<&[u8]>)
    ensures parts { MatchOption result.1 (parts_of line.now ≡ result.0.now ∷ [])
        (λ rest. parts_of line.now ≡ result.0.now ∷ parts_of rest.now) }
    ensures shorter { IfSome result.1 (λ rest. length result.0.now + length rest.now < length line.now) }
{
    split_at_byte(line, b' ')
}

/// Whether a line is well spaced, in one pass. It takes no memory.
pub fn well_spaced(line: &[u8]) -> bool
    ensures { result ≡ is_well_spaced line.now }
{
    let mut at_start = true;
    for b in line {
        if *b == b' ' {
            if at_start {
                return false;
            }
            at_start = true;
        } else {
            if *b < 33 || *b > 126 {
                return false;
            }
            at_start = false;
        }
    }
    !at_start || line.is_empty()
}

/// The i-th word of a well spaced line, counted from 0. None where the line has at most i words. It takes no memory, and a pass over
/// the words up to that one: to go over all, use [`split_word`].
pub fn word_at(line: &[u8], i: usize) -> Option<&[u8]>
    requires { IsTrue (is_well_spaced line.now) }
    ensures { MatchOption result (length (words_of line.now) ≤ i)
        (λ word. slice_get (words_of line.now) i ≡ Some word.now) }
{
    if line.is_empty() {
        return None;
    }
    let mut rest = line;
    for _ in 0..i {
        match split_word(rest).1 {
            Some(after) => rest = after,
            None => return None,
        }
    }
    Some(split_word(rest).0)
}

/// What holds of every line: the test `is_well_spaced` is true exactly where the statement `IsWellSpaced` holds, a well spaced line is its
/// words joined by single spaces, and one or more words that are joined so are the words of that line.
pub fn word_laws()
    ensures sentence { (line : List ℕ) → IsTrue (is_well_spaced line) ↔ IsWellSpaced line }
    // A well spaced line is its words, joined.
    ensures words { (line : List ℕ) → IsTrue (is_well_spaced line) → join_with_byte 32 (words_of line) ≡ line }
    // One or more words, joined, are a well spaced line that isn't empty, has no byte 10, and has those words.
    ensures joined { (words : List (List ℕ)) → 0 < length words → IsTrue (list_all is_word words)
        → (words_of (join_with_byte 32 words) ≡ words)
        × (0 < length (join_with_byte 32 words))
        × IsTrue (is_well_spaced (join_with_byte 32 words))
        × HasNoNewline (join_with_byte 32 words) }
{}
