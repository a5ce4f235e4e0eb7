//! Identifiers (IEEE 1364-2005, 3.7).
ghost use Rattle.std.specs.Prelude.{◌≡◌};
ghost use Rattle.std.specs.List.{list_all};
ghost use Rattle.xt_base.specs.Identifiers.{begins_word, is_in_word, is_word, is_identifier};

use crate::reserved::is_reserved;

/// Whether a byte begins a word: a letter or an underscore.
pub fn begins_word(byte: u8) -> bool
    ensures { result ≡ begins_word byte }
{
    matches!(byte, b'a'..=b'z' | b'A'..=b'Z' | b'_')
}

/// Whether a byte goes on with a word: a letter, a digit, an underscore or a dollar sign.
pub fn is_in_word(byte: u8) -> bool
    ensures { result ≡ is_in_word byte }
{
    begins_word(byte) || matches!(byte, b'0'..=b'9' | b'$')
}

/// Whether a name is a word, reserved or not.
pub fn is_word(name: &[u8]) -> bool
    ensures { result ≡ is_word name.now }
{
    match name.split_first() {
        None => false,
        Some((first, rest)) => begins_word(*first) && are_in_word(rest),
    }
}

fn are_in_word(bytes: &[u8]) -> bool
    ensures { result ≡ list_all is_in_word bytes.now }
{
    bytes.iter().all(|byte| is_in_word(*byte))
}

/// Whether a name is an identifier: a word that isn't reserved.
pub fn is_identifier(name: &[u8]) -> bool
    ensures { result ≡ is_identifier name.now }
{
    is_word(name) && !is_reserved(name)
}
