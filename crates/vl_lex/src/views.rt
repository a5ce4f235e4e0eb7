//! What tokens spell, and where they stand.
ghost use Rattle.std.specs.Prelude.{◌≡◌, ◌≤◌, ◌<◌, Some, length, slice_get};
ghost use Rattle.vl_lex.specs.Tokens.{AreSpans};
ghost use Rattle.vl_lex.specs.Views.{spelling, spellings_of, places_of};

use crate::kinds::Token;
use vl_pre::Text;
use xt_base::Place;

/// The bytes of a token.
pub fn spelling<'a>(text: &'a [u8], token: &Token) -> &'a [u8]
    requires order { token.now.start ≤ token.now.end }
    requires within { token.now.end ≤ length text.now }
    ensures { result.now ≡ spelling text.now token.now }
{
    &text[token.start as usize..token.end as usize]
}

/// The bytes of the token with this number.
pub fn spelling_at<'a>(text: &'a [u8], tokens: &[Token], at: u32) -> &'a [u8]
    requires spans { AreSpans tokens.now (length text.now) }
    requires token { at < length tokens.now }
    ensures { slice_get (spellings_of text.now tokens.now) at ≡ Some result.now }
{
    spelling(text, &tokens[at as usize])
}

/// The file and line of the token with this number, in instance 0. A token stands where its first byte does.
pub fn place_at(text: &Text, tokens: &[Token], at: u32) -> Place
    requires spans { AreSpans tokens.now (length text.now.bytes) }
    requires token { at < length tokens.now }
    ensures place { slice_get (places_of text.now tokens.now) at ≡ Some result }
    ensures named { result.file < length text.now.names }
{
    let token = tokens[at as usize];
    text.place(token.start)
}
