//! The lines of a text.

ghost use Rattle.std.specs.{
  Prelude.{◌≡◌, ◌≤◌, [], ◌∷◌, ◌<◌, ◌+◌, ◌++◌, ◌⊎◌, length, take, map, MatchOption, IfSome, IsTrue, Some, ℕ, List},
  List.{join_with_byte},
};
ghost use Rattle.mat_words.specs.{
  Lines.{lines_of, text_of, AreLines, HasNoNewline, IsNextLine, IsFirstLine},
  Words.{is_letter, is_well_spaced},
};

/// The place of the next byte 10 at `from` or after it, in one pass from there. None where there is none. It takes no memory.
pub fn next_line(text: &[u8], from: usize) -> Option<usize>
    requires { from ≤ length text.now }
    ensures { IsNextLine text.now from result }
{
    for i in from..text.len() {
        if text[i] == b'\n' {
            return Some(i);
        }
    }
    None
}

/// The first line, without its byte 10, and what stands after that byte. None where no byte 10 is left. It takes no memory.
#[tactic(auto, using(crate::proofs::Splitting::some_parts))]
pub(crate) fn split_line(text: &[u8]) -> Option<(&[u8], &[u8])>
    ensures lines { MatchOption result (lines_of text.now ≡ text.now ∷ [])
        (λ x. lines_of text.now ≡ x.0.now ∷ lines_of x.1.now) }
    ensures more { IfSome result (λ x. 0 < length (lines_of x.1.now)) }
    ensures shorter { IfSome result (λ x. length x.0.now + length x.1.now < length text.now) }
{
    match next_line(text, 0) {
        None => None,
        Some(at) => Some((&text[..at], &text[at + 1..])),
    }
}

// Whether a byte may stand in a word.
fn is_letter(byte: u8) -> bool
    ensures { result ≡ is_letter byte }
{
    byte >= 33 && byte <= 126
}

// The place of the first byte 10, in one pass: None where there is none, and where what stands in front of it is no well spaced line
// or is empty.
fn spaced_line_end(text: &[u8]) -> Option<usize>
    ensures first { IfSome result (λ at. IsNextLine text.now 0 (Some at)) }
    ensures spaced { IfSome result (λ at. IsTrue (is_well_spaced (take at text.now))) }
    ensures some { IfSome result (λ at. 0 < at) }
{
    let mut at_start = true;
    for (i, b) in text.iter().enumerate() {
        if is_letter(*b) {
            at_start = false;
        } else if at_start {
            return None;
        } else if *b == b'\n' {
            return Some(i);
        } else if *b == b' ' {
            at_start = true;
        } else {
            return None;
        }
    }
    None
}

/// The first line, without its byte 10, and what stands after that byte, in one pass: None where no byte 10 is left, and where the line
/// is empty or isn't well spaced. It takes no memory.
#[tactic(auto, using(crate::proofs::Splitting::some_parts))]
pub(crate) fn spaced_line(text: &[u8]) -> Option<(&[u8], &[u8])>
    ensures lines { IfSome result (λ x. lines_of text.now ≡ x.0.now ∷ lines_of x.1.now) }
    ensures spaced { IfSome result (λ x. IsTrue (is_well_spaced x.0.now)) }
    ensures some { IfSome result (λ x. 0 < length x.0.now) }
    ensures more { IfSome result (λ x. 0 < length (lines_of x.1.now)) }
    ensures shorter { IfSome result (λ x. length x.0.now + length x.1.now < length text.now) }
{
    let at = spaced_line_end(text)?;
    Some((&text[..at], &text[at + 1..]))
}

/// What holds of every text: it has no byte 10, or it can be cut behind its first line. A text that was written has the lines that
/// were written.
pub fn line_laws()
    // A line that stands in front of a text is its first line.
    ensures first { (line : List ℕ) (rest : List ℕ) → HasNoNewline line
        → lines_of (line ++ 10 ∷ rest) ≡ line ∷ lines_of rest }
    // A text is cut behind its first line, or has none.
    ensures cut { (text : List ℕ) → ((HasNoNewline text) × (lines_of text ≡ text ∷ []))
        ⊎ ((before : List ℕ) × (after : List ℕ) × IsFirstLine text before after) }
    // The lines of a text that was written are those that were written, whatever follows it.
    ensures written { (lines : List (List (List ℕ))) (rest : List ℕ) → AreLines lines
        → lines_of (text_of lines ++ rest) ≡ map (join_with_byte 32) lines ++ lines_of rest }
    // Different lists of lines have different texts.
    ensures one_text { (first : List (List (List ℕ))) (second : List (List (List ℕ))) → AreLines first → AreLines second
        → text_of first ≡ text_of second → first ≡ second }
{}
