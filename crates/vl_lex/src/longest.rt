//! The longest token at a place.
ghost use Rattle.std.specs.Prelude.{◌^◌, false, slice_index, ◌≡◌, ◌≢◌, ◌<◌, ◌≤◌, IfSome, IfNone, take, length};
ghost use Rattle.std.specs.Option.{option_map};
ghost use Rattle.vl_lex.specs.Bytes.{is_blank};
ghost use Rattle.vl_lex.specs.Fronts.{LongestFront, HasForm, IsToken};
ghost use Rattle.vl_lex.specs.Spelling.{Spells};
ghost use Rattle.vl_lex.specs.Tokens.{IsTokenOf, BeginsNoToken};

use crate::bytes::begun_by;
use crate::fronts::{based_len, digits_len, quoted_len, system_len, word_len};
use crate::kinds::{Kind, Token};
use crate::operators::operator_len;
use xt_base::is_reserved;

/// The length of the longest front of the kind's form.
fn form_len(kind: Kind, rest: &[u8]) -> Option<usize>
    ensures { LongestFront (HasForm kind) rest.now result }
{
    match kind {
        Kind::Word | Kind::Reserved => word_len(rest),
        Kind::Decimal => digits_len(10, rest),
        Kind::Based => based_len(rest),
        Kind::Quoted => quoted_len(rest),
        Kind::Operator => operator_len(rest),
        Kind::System => system_len(rest),
    }
}

/// The kind of bytes that have a form: a word may be reserved.
fn kind_of(form: Kind, bytes: &[u8]) -> Kind
    requires has { HasForm form bytes.now }
    requires plain { form ≢ Kind.Reserved }
    ensures { Spells result bytes.now }
{
    if form == Kind::Word && is_reserved(bytes) {
        Kind::Reserved
    } else {
        form
    }
}

/// The longest token that the text begins with: its kind, and how many bytes it has.
fn first_token(rest: &[u8]) -> Option<(Kind, usize)>
    ensures longest { LongestFront IsToken rest.now (option_map (λ token. token.1) result) }
    ensures within { IfSome result (λ token. token.1 ≤ length rest.now) }
    ensures kind { IfSome result (λ token. Spells token.0 (take token.1 rest.now)) }
{
    let (byte, _) = rest.split_first()?;
    let form = begun_by(*byte);
    let len = form_len(form, rest)?;
    let (bytes, _) = rest.split_at(len);
    Some((kind_of(form, bytes), len))
}

/// The token that begins at a byte which is no blank.
pub fn token_at(bytes: &[u8], at: usize) -> Option<Token>
    requires within { at < length bytes.now }
    requires size { length bytes.now < 2 ^ 32 }
    requires no_blank { is_blank (slice_index bytes.now at) ≡ false }
    ensures start { IfSome result (λ token. token.start ≡ at) }
    ensures token { IfSome result (λ token. IsTokenOf bytes.now token) }
    ensures none { IfNone result (BeginsNoToken bytes.now at) }
{
    let (_, rest) = bytes.split_at(at);
    let (kind, len) = first_token(rest)?;
    Some(Token {
        kind,
        start: at as u32,
        end: (at + len) as u32,
    })
}
