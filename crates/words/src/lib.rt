// Words of 32 bits as text, for programs that run vectors and print patterns: eight lower-case hexadecimal digits,
// and one byte after them, a space or a line end. And the floats that words stand for: the language
// has one NaN and no patterns of it, so every NaN is read as that one and written as 7fc00000.
#![tactic(auto)]

ghost use Rattle.std.specs.Prelude.{◌≡◌, ◌<◌, IfSome};
ghost use Rattle.std.specs.Float.{binary32, binary64};
ghost use Rattle.std.specs.Float.Ieee.{of_bits};
ghost use Rattle.words.specs.Patterns.{pattern_of};

use std::io;
use std::io::{ErrorKind, Read};

// The next N words of an input; none where there are not so many.
pub fn read<R: Read, const N: usize>(input: &mut R) -> io::Result<Option<[u32; N]>> {
    let mut words = [0; N];
    for word in &mut words {
        let Some(next) = read_word(input)? else {
            return Ok(None);
        };
        *word = next;
    }
    Ok(Some(words))
}

// The float of a pattern.
pub fn f32_of(word: u32) -> f32
    ensures { result ≡ of_bits binary32 word }
{
    std::num::f32_from_bits_with_nan(word)
}

pub fn f64_of(pattern: u64) -> f64
    ensures { result ≡ of_bits binary64 pattern }
{
    std::num::f64_from_bits_with_nan(pattern)
}

// The pattern of a float.
#[tactic(auto, using(crate::proofs::Nan::pattern_is))]
pub fn of_f32(x: f32) -> u32
    ensures { result ≡ pattern_of binary32 x }
{
    std::num::f32_to_bits_with_nan(x)
}

#[tactic(auto, using(crate::proofs::Nan::pattern_is))]
pub fn of_f64(x: f64) -> u64
    ensures { result ≡ pattern_of binary64 x }
{
    std::num::f64_to_bits_with_nan(x)
}

// The next word; none where fewer than nine bytes are left, or one of the first eight is no digit.
fn read_word<R: Read>(input: &mut R) -> io::Result<Option<u32>> {
    let mut text = [0; 9];
    match input.read_exact(&mut text) {
        Ok(()) => Ok(word_in(&text[..8])),
        Err(e) if e.kind() == ErrorKind::UnexpectedEof => Ok(None),
        Err(e) => Err(e),
    }
}

// The word of eight digits. (`u32::from_str_radix` takes a sign and upper-case digits too.)
fn word_in(text: &[u8]) -> Option<u32> {
    let mut word: u32 = 0;
    for byte in text {
        word = word << 4 | digit(*byte)?;
    }
    Some(word)
}

// The value of a digit.
fn digit(byte: u8) -> Option<u32>
    ensures { IfSome result (λ d. d < 16) }
{
    match byte {
        b'0'..=b'9' => Some((byte - b'0') as u32),
        b'a'..=b'f' => Some((byte - b'a' + 10) as u32),
        _ => None,
    }
}
