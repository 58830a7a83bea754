//! Short numbers, read in one pass from the head of what is left of a line up to the space behind them. A function here that answers None
//! may do so for any line, since its caller then reads the line word by word; only an answer that is there is promised to be right.

ghost use Rattle.std.specs.{
  Prelude.{◌≡◌, ◌≢◌, ◌<◌, ◌≤◌, ◌^◌, ◌∷◌, length, take, get_or, IfSome, IsTrue, ℕ, pos, neg_ℤ, ◌≤ℤ◌},
  List.{list_all},
};
ghost use Rattle.mat_words.specs.{
  Cursors.{parts_left},
  Numbers.{numeral, is_digit, value_of},
  Words.{parts_of},
};

// The digits in front of any other byte, as far as the 18th: what they stand for, and how many they are.
#[inline(always)]
fn leading_digits(bytes: &[u8]) -> (u64, usize)
    ensures digits { IsTrue (list_all is_digit (take result.1 bytes.now)) }
    ensures value { result.0 ≡ value_of (take result.1 bytes.now) }
    ensures within { result.1 ≤ length bytes.now }
    ensures short { result.0 < 10 ^ 18 }
{
    let most = bytes.len().min(18);
    let mut n: u64 = 0;
    for i in 0..most {
        if bytes[i] < b'0' || bytes[i] > b'9' {
            return (n, i);
        }
        n = n * 10 + (bytes[i] - b'0') as u64;
    }
    (n, most)
}

// What is left of a line behind its first word, which are its first bytes up to this place: None where another byte than a space
// stands there.
#[inline(always)]
fn left_behind(line: &[u8], place: usize) -> Option<Option<&[u8]>>
    requires within { place ≤ length line.now }
    requires one_word { (k : ℕ) → k < place → get_or line.now k 0 ≢ 32 }
    ensures { IfSome result (λ rest. parts_of line.now ≡ take place line.now ∷ parts_left rest) }
{
    if place == line.len() {
        return Some(None);
    }
    if line[place] != b' ' {
        return None;
    }
    Some(Some(&line[place + 1..]))
}

// Whether so many digits in front of a line are a numeral: there is one, and no `0` stands before others.
#[inline(always)]
fn are_numeral(line: &[u8], count: usize) -> bool
    requires { count ≤ length line.now }
    ensures some { IsTrue result → 0 < count }
    ensures alone { IsTrue result → get_or line.now 0 0 ≡ 48 → count ≤ 1 }
{
    match count {
        0 => false,
        1 => true,
        _ => line[0] != b'0',
    }
}

// The number without a sign that is the first word of a line, and what is left behind it. None where the word is another, or has more
// than 18 digits.
#[inline(always)]
fn short_natural(line: &[u8]) -> Option<(u64, Option<&[u8]>)>
    ensures word { IfSome result (λ x. parts_of line.now ≡ numeral (pos x.0) ∷ parts_left x.1) }
    ensures short { IfSome result (λ x. x.0 < 10 ^ 18) }
{
    let (n, count) = leading_digits(line);
    if !are_numeral(line, count) {
        return None;
    }
    let rest = left_behind(line, count)?;
    Some((n, rest))
}

/// The number that is the first word of a line, and what is left behind it. None where the word is no number, or has more than 18
/// digits. It takes no memory.
#[inline(always)]
pub(crate) fn short_number(line: &[u8]) -> Option<(i128, Option<&[u8]>)>
    ensures word { IfSome result (λ x. parts_of line.now ≡ numeral x.0 ∷ parts_left x.1) }
    ensures short { IfSome result (λ x. (neg_ℤ (pos (10 ^ 18)) ≤ℤ x.0) × (x.0 ≤ℤ pos (10 ^ 18))) }
{
    if line.is_empty() || line[0] != b'-' {
        let (n, rest) = short_natural(line)?;
        return Some((n as i128, rest));
    }
    let (n, rest) = short_natural(&line[1..])?;
    if n == 0 {
        return None;
    }
    Some((-(n as i128), rest))
}
