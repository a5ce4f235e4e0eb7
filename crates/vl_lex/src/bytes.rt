//! What single bytes are in a token.
ghost use Rattle.std.specs.Prelude.{◌≡◌, ◌≢◌, ◌≤◌, IfSome};
ghost use Rattle.vl_lex.specs.Fronts.{begun_by};
ghost use Rattle.std.specs.Char.{is_digit};
ghost use Rattle.vl_lex.specs.Bytes.{is_blank, is_in_number, is_in_string, is_sign, radix_of};

use crate::kinds::Kind;
use xt_base::begins_word;

/// Whether the byte may stand between tokens.
pub fn is_blank(byte: u8) -> bool
    ensures { result ≡ is_blank byte }
{
    byte == b'\t' || byte == b'\n' || byte == b'\x0c' || byte == b'\r' || byte == b' '
}

/// Whether the byte is a digit to the radix, in either case.
pub fn is_digit(byte: u8, radix: u32) -> bool
    requires least { 2 ≤ radix }
    requires greatest { radix ≤ 36 }
    ensures { result ≡ is_digit byte radix }
{
    char::from(byte).is_digit(radix)
}

/// Whether the byte goes on with a number to the radix.
pub fn is_in_number(byte: u8, radix: u32) -> bool
    requires least { 2 ≤ radix }
    requires greatest { radix ≤ 36 }
    ensures { result ≡ is_in_number radix byte }
{
    is_digit(byte, radix) || byte == b'_'
}

/// Whether the byte stands in a string.
pub fn is_in_string(byte: u8) -> bool
    ensures { result ≡ is_in_string byte }
{
    !(byte == b'"' || byte == b'\n')
}

/// Whether the byte is the sign of a based number.
pub fn is_sign(byte: u8) -> bool
    ensures { result ≡ is_sign byte }
{
    byte == b's' || byte == b'S'
}

/// The radix of a base.
pub fn radix_of(byte: u8) -> Option<u32>
    ensures radix { result ≡ radix_of byte }
    ensures least { IfSome result (λ radix. 2 ≤ radix) }
    ensures greatest { IfSome result (λ radix. radix ≤ 36) }
{
    match byte {
        b'b' | b'B' => Some(2),
        b'o' | b'O' => Some(8),
        b'd' | b'D' => Some(10),
        b'h' | b'H' => Some(16),
        _ => None,
    }
}

/// The kind of token that the byte can begin.
pub fn begun_by(byte: u8) -> Kind
    ensures kind { result ≡ begun_by byte }
    ensures plain { result ≢ Kind.Reserved }
{
    if begins_word(byte) {
        Kind::Word
    } else if is_digit(byte, 10) {
        Kind::Decimal
    } else if byte == b'\'' {
        Kind::Based
    } else if byte == b'"' {
        Kind::Quoted
    } else if byte == b'$' {
        Kind::System
    } else {
        Kind::Operator
    }
}
