//! The words of a design text: numbers, ranges, constants and names.
ghost use Rattle.std.specs.Prelude.{◌≡◌, ◌≤◌, ◌==◌, ◌++◌, ◌∷◌, [], min, nat_le, if◌then◌else◌, IfOk, OnOk, drop, get_or, length};
ghost use Rattle.std.specs.List.{prefix_len, take_while, position_or_len};
ghost use Rattle.std.specs.Str.{IsAscii};
ghost use Rattle.xt_base.specs.declared.TheConstants.{MAX_WIDTH};
ghost use Rattle.xt_base.specs.Identifiers.{is_in_word};
ghost use Rattle.nt_read.specs.Words.{is_digit, is_hex, hex_value, with_digit, greatest, number_of, number, after_number, word_of, after_word, hex_of, range, after_range, constant, widths, after_widths};
ghost use Rattle.nt_read.specs.Sketch.{line_of, after_line};

use crate::memory::put;
use std::alloc::Global;
use std::str;
use xt_base::{Item, MAX_WIDTH, Name, NoMemory, is_in_word};
use xt_bits::Bits;

/// What follows the first bytes; nothing where there are no more.
pub fn skip(text: &[u8], count: usize) -> &[u8]
    ensures { result.now ≡ drop count text.now }
{
    text.get(count..).unwrap_or(&[])
}

/// The byte at a place, 0 behind the end.
pub fn byte_at(text: &[u8], place: usize) -> u8
    ensures { result ≡ get_or text.now place 0 }
{
    match text.get(place) {
        Some(byte) => *byte,
        None => 0,
    }
}

/// Whether a byte is a decimal digit.
pub fn is_digit(byte: u8) -> bool
    ensures { result ≡ is_digit byte }
{
    matches!(byte, b'0'..=b'9')
}

/// Whether a byte is a hexadecimal digit in lower case.
fn is_hex(byte: u8) -> bool
    ensures { result ≡ is_hex byte }
{
    matches!(byte, b'0'..=b'9' | b'a'..=b'f')
}

/// How many decimal digits stand at the front.
fn digits(text: &[u8]) -> usize
    ensures end { result ≡ prefix_len is_digit text.now }
    ensures within { result ≤ length text.now }
{
    let mut end = 0;
    while end < text.len() && is_digit(text[end]) {
        end += 1;
    }
    end
}

/// How many hexadecimal digits stand at the front.
fn hex_digits(text: &[u8]) -> usize
    ensures end { result ≡ prefix_len is_hex text.now }
    ensures within { result ≤ length text.now }
{
    let mut end = 0;
    while end < text.len() && is_hex(text[end]) {
        end += 1;
    }
    end
}

/// How many bytes of a word stand at the front.
fn word_bytes(text: &[u8]) -> usize
    ensures end { result ≡ prefix_len is_in_word text.now }
    ensures within { result ≤ length text.now }
{
    let mut end = 0;
    while end < text.len() && is_in_word(text[end]) {
        end += 1;
    }
    end
}

/// How many bytes stand before the first line feed, or at all where there is none.
fn line_bytes(text: &[u8]) -> usize
    ensures end { result ≡ position_or_len (λ c. c == 10) text.now }
    ensures within { result ≤ length text.now }
{
    let mut end = 0;
    while end < text.len() && text[end] != b'\n' {
        end += 1;
    }
    end
}

/// The line at the front, without its line feed, and what follows it.
pub fn line(text: &[u8]) -> (&[u8], &[u8])
    ensures line { result.0.now ≡ line_of text.now }
    ensures rest { result.1.now ≡ after_line text.now }
{
    let end = line_bytes(text);
    let (line, _) = text.split_at(end);
    (line, skip(text, end + 1))
}

/// The number of decimal digits, at most `u32::MAX`.
fn number_of(digits: &[u8]) -> u32
    ensures { result ≡ number_of greatest digits.now }
{
    digits.iter().fold(0u32, |number, byte| {
        number
            .saturating_mul(10)
            .saturating_add(byte.saturating_sub(b'0') as u32)
    })
}

/// The value of a hexadecimal digit.
fn hex_value(byte: u8) -> u8
    ensures { result ≡ hex_value byte }
{
    if byte <= b'9' {
        byte.saturating_sub(b'0')
    } else {
        byte.saturating_sub(b'a' - 10)
    }
}

/// The number of hexadecimal digits, at most the greatest of 64 bits.
fn hex_of(digits: &[u8]) -> Item
    ensures { result ≡ hex_of digits.now }
{
    digits.iter().fold(0u64, |number, byte| {
        number
            .saturating_mul(16)
            .saturating_add(hex_value(*byte) as u64)
    })
}

/// The number at the front, and what follows it.
pub fn number(text: &[u8]) -> (u32, &[u8])
    ensures value { result.0 ≡ number greatest text.now }
    ensures rest { result.1.now ≡ after_number text.now }
{
    let (digits, rest) = text.split_at(digits(text));
    (number_of(digits), rest)
}

/// The word at the front, and what follows it.
pub fn word(text: &[u8]) -> (&[u8], &[u8])
    ensures value { result.0.now ≡ word_of text.now }
    ensures rest { result.1.now ≡ after_word text.now }
{
    text.split_at(word_bytes(text))
}

/// The name at the front, and what follows it.
#[tactic(auto, using(crate::proofs::Ascii::word_ascii))]
pub fn name(alloc: Global, text: &[u8]) -> Result<(Name, &[u8]), NoMemory>
    ensures { IfOk result (λ r. (r.0 ≡ word_of text.now) × (r.1.now ≡ after_word text.now)) }
{
    let (word, rest) = word(text);
    let name = name_of(alloc, word)?;
    Ok((name, rest))
}

/// The width that a range at the front gives, in bits, and what follows it. Where there is no range it is one bit.
pub fn range(text: &[u8]) -> (u32, &[u8])
    ensures value { result.0 ≡ range greatest text.now }
    ensures rest { result.1.now ≡ after_range text.now }
{
    if byte_at(text, 0) != b'[' {
        return (1, text);
    }
    let (high, rest) = number(skip(text, 1));
    (high.saturating_add(1), skip(rest, 4))
}

/// The constant at the front: its width, so many further bytes, and its digits.
pub fn constant(text: &[u8], skipped: usize) -> Bits
    ensures { result ≡ constant greatest skipped text.now }
{
    let (width, rest) = number(text);
    let rest = skip(rest, skipped);
    let (digits, _) = rest.split_at(hex_digits(rest));
    Bits::new(in_range(width), hex_of(digits))
}

/// A word as a name.
fn name_of(alloc: Global, word: &[u8]) -> Result<Name, NoMemory>
    requires { IsAscii word.now }
    ensures { IfOk result (λ name. name ≡ word.now) }
{
    let text = str::from_utf8(word).unwrap();
    Name::new(alloc, text)
}

/// The nearest width that is in range.
fn in_range(width: u32) -> u32
    ensures value { result ≡ min (if nat_le width 1 then 1 else width) MAX_WIDTH }
    ensures least { 1 ≤ result }
    ensures most { result ≤ MAX_WIDTH }
{
    if width <= 1 { 1 } else { width.min(MAX_WIDTH) }
}

/// Puts up to so many widths at the end, each of which stands after a blank, and gives what follows them.
#[tactic(auto, using(crate::proofs::Widths::widths_put, crate::proofs::Widths::after_step, crate::proofs::Widths::widths_none, crate::proofs::Widths::after_none))]
pub fn widths<'a>(into: &mut Vec<u32>, count: u32, text: &'a [u8]) -> Result<&'a [u8], NoMemory>
    ensures widths { OnOk result (into.new.items ≡ into.old.items ++ widths greatest count text.now) }
    ensures rest { IfOk result (λ r. r.now ≡ after_widths count text.now) }
{
    if count == 0 || !is_digit(byte_at(text, 1)) {
        return Ok(text);
    }
    let (width, rest) = number(skip(text, 1));
    put(into, width)?;
    widths(into, count - 1, rest)
}
