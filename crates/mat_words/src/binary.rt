//! Words that are binary numbers, the highest digit first.

ghost use Rattle.std.specs.{Prelude.{◌≡◌, ◌<◌, ◌≤◌, ◌+◌, ◌^◌, ◌++◌, ◌||◌, ◌==◌, IfOk, OnErr, OnOk, length, take}, Int.{bit_at}};
ghost use Rattle.mat_words.specs.Binary.{binary, binary_in};

use crate::numbers::NumberFault;
use std::alloc::AllocError;

// Whether a byte is a binary digit.
fn is_binary_digit(byte: u8) -> bool
    ensures { result ≡ (byte == 48 || byte == 49) }
{
    byte == b'0' || byte == b'1'
}

/// The number that a word of so many binary digits is, and [`NumberFault::Spelling`] where it is no such word. It takes no memory.
pub(crate) fn read_binary(word: &[u8], digits: u32) -> Result<u128, NumberFault>
    requires { digits ≤ 128 }
    ensures value { result ≡ binary_in digits word.now }
    ensures range { IfOk result (λ n. n < 2 ^ digits) }
{
    if word.len() != digits as usize {
        return Err(NumberFault::Spelling);
    }
    let mut value: u128 = 0;
    for byte in word {
        if !is_binary_digit(*byte) {
            return Err(NumberFault::Spelling);
        }
        value = 2 * value + u128::from(*byte - b'0');
    }
    Ok(value)
}

// The binary digit of a number at a place. From place 128 on it is zero.
fn binary_digit(number: u128, place: u32) -> u8
    ensures { result ≡ 48 + bit_at number place }
{
    if place >= 128 {
        return b'0';
    }
    b'0' + (number >> place & 1) as u8
}

/// Appends the last binary digits of a number, as many as are asked for. After an AllocError some of them may stand behind what `out` had.
pub fn put_binary(out: &mut Vec<u8>, digits: u32, number: u128) -> Result<(), AllocError>
    ensures ok { OnOk result (out.new.items ≡ out.old.items ++ binary digits number) }
    ensures err { OnErr result (take (length out.old.items) out.new.items ≡ out.old.items) }
{
    for place in (0..digits).rev() {
        out.push(binary_digit(number, place))?;
    }
    Ok(())
}
