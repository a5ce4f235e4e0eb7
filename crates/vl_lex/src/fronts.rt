//! The longest token of one kind at the front of a text.
ghost use Rattle.std.specs.Prelude.{◌≡◌, ◌≤◌, length, take};
ghost use Rattle.std.specs.List.{prefix_len};
ghost use Rattle.xt_base.specs.Identifiers.{is_in_word};
ghost use Rattle.vl_lex.specs.Bytes.{is_blank, is_in_number, is_in_string, is_sign};
ghost use Rattle.vl_lex.specs.Fronts.{LongestFront};
ghost use Rattle.vl_lex.specs.Operators.{is_operator};
ghost use Rattle.vl_lex.specs.Spelling.{IsWord, AreDigits, IsBaseWithDigits, IsBased, IsQuoted, IsSystem};

use crate::bytes::{is_blank, is_digit, is_in_number, is_in_string, is_sign, radix_of};
use xt_base::{begins_word, is_in_word};

/// How many blanks the text begins with.
pub fn blanks_len(rest: &[u8]) -> usize
    ensures count { result ≡ prefix_len is_blank rest.now }
    ensures within { result ≤ length rest.now }
{
    rest.iter().take_while(|byte| is_blank(**byte)).count()
}

/// How many bytes from the front on may stand in an identifier.
fn in_word_len(rest: &[u8]) -> usize
    ensures count { result ≡ prefix_len is_in_word rest.now }
    ensures within { result ≤ length rest.now }
{
    rest.iter().take_while(|byte| is_in_word(**byte)).count()
}

/// How many bytes from the front on may stand in a number to the radix.
fn in_number_len(radix: u32, rest: &[u8]) -> usize
    requires least { 2 ≤ radix }
    requires greatest { radix ≤ 36 }
    ensures count { result ≡ prefix_len (is_in_number radix) rest.now }
    ensures within { result ≤ length rest.now }
{
    rest.iter()
        .take_while(|byte| is_in_number(**byte, radix))
        .count()
}

/// The length of the identifier that the text begins with.
pub fn word_len(rest: &[u8]) -> Option<usize>
    ensures { LongestFront IsWord rest.now result }
{
    let (first, others) = rest.split_first()?;
    if begins_word(*first) {
        Some(1 + in_word_len(others))
    } else {
        None
    }
}

/// The length of the digits to the radix that the text begins with.
pub fn digits_len(radix: u32, rest: &[u8]) -> Option<usize>
    requires least { 2 ≤ radix }
    requires greatest { radix ≤ 36 }
    ensures { LongestFront (AreDigits radix) rest.now result }
{
    let (first, others) = rest.split_first()?;
    if is_digit(*first, radix) {
        Some(1 + in_number_len(radix, others))
    } else {
        None
    }
}

/// How many bytes from the front on may stand in a string.
fn in_string_len(rest: &[u8]) -> usize
    ensures count { result ≡ prefix_len is_in_string rest.now }
    ensures within { result ≤ length rest.now }
{
    rest.iter().take_while(|byte| is_in_string(**byte)).count()
}

/// The length of the name of a system function that the text begins with.
pub fn system_len(rest: &[u8]) -> Option<usize>
    ensures { LongestFront IsSystem rest.now result }
{
    let (dollar, others) = rest.split_first()?;
    if *dollar != b'$' {
        return None;
    }
    let len = in_word_len(others);
    if len == 0 { None } else { Some(1 + len) }
}

/// The length of the string that the text begins with.
pub fn quoted_len(rest: &[u8]) -> Option<usize>
    ensures { LongestFront IsQuoted rest.now result }
{
    let (open, others) = rest.split_first()?;
    if *open != b'"' {
        return None;
    }
    let inner = in_string_len(others);
    if inner < others.len() && others[inner] == b'"' {
        Some(inner + 2)
    } else {
        None
    }
}

/// The length of the base, the blanks and the digits that the text begins with.
pub fn number_len(rest: &[u8]) -> Option<usize>
    ensures { LongestFront IsBaseWithDigits rest.now result }
{
    let (base, others) = rest.split_first()?;
    let radix = radix_of(*base)?;
    let blanks = blanks_len(others);
    let (_, behind) = others.split_at(blanks);
    let digits = digits_len(radix, behind)?;
    Some(1 + blanks + digits)
}

/// The length of the sign that a number may begin with.
fn sign_len(rest: &[u8]) -> usize
    ensures sign { result ≡ prefix_len is_sign (take 1 rest.now) }
    ensures within { result ≤ length rest.now }
{
    match rest.first() {
        Some(byte) if is_sign(*byte) => 1,
        _ => 0,
    }
}

/// The length of the based number that the text begins with.
pub fn based_len(rest: &[u8]) -> Option<usize>
    ensures { LongestFront IsBased rest.now result }
{
    let (quote, others) = rest.split_first()?;
    if *quote != b'\'' {
        return None;
    }
    let sign = sign_len(others);
    let (_, unsigned) = others.split_at(sign);
    let number = number_len(unsigned)?;
    Some(1 + sign + number)
}
