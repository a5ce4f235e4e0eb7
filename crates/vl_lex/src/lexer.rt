//! The tokens of a text, from the first byte to the last.
ghost use Rattle.std.specs.Prelude.{◌^◌, ◌++◌, ◌∷◌, [], ◌≡◌, ◌≢◌, ◌<◌, ◌≤◌, ◌⊎◌, ℕ, List, false, length, slice_index, IfOk, IfErr, OnOk, MatchResult, IsErrAnd};
ghost use Rattle.xt_base.specs.declared.refusals.Refusal.{Refusal};
ghost use Rattle.vl_lex.specs.Bytes.{is_blank};
ghost use Rattle.vl_lex.specs.Refusals.{IsRefused, no_token};
ghost use Rattle.vl_lex.specs.Tokens.{AreBlanks, AreTokens, AreSpans, FailsAt};
ghost use Rattle.vl_lex.specs.declared.kinds.Token.{Token};

use crate::fronts::blanks_len;
use crate::kinds::{Token, Tokens};
use crate::longest::token_at;
use std::alloc::Global;
use vl_pre::Text;
use xt_base::{Fail, Refusal, Rule};

/// The rule that a text breaks where no token begins.
const NO_TOKEN: Rule = Rule(14);

/// The place of the first byte from here on that is no blank.
fn skip_blanks(bytes: &[u8], from: usize) -> usize
    requires { from ≤ length bytes.now }
    ensures within { result ≤ length bytes.now }
    ensures blanks { AreBlanks bytes.now from result }
    ensures stops { result < length bytes.now → is_blank (slice_index bytes.now result) ≡ false }
{
    let (_, rest) = bytes.split_at(from);
    from + blanks_len(rest)
}

/// Why bytes have no tokens, or none are answered.
#[derive(Debug, Drop)]
enum LexError {
    /// No token begins at this byte.
    NoToken { at: u32 },
    Memory,
}

/// Adds a token at the end.
fn put(tokens: &mut Vec<Token>, token: Token) -> Result<(), LexError>
    ensures ok { OnOk result (tokens.new.items ≡ tokens.old.items ++ token ∷ []) }
    ensures err { IfErr result (λ e. e ≡ LexError.Memory) }
{
    match tokens.push(token) {
        Ok(()) => Ok(()),
        Err(_) => Err(LexError::Memory),
    }
}

/// The tokens of the bytes, or the first byte at which none begins.
fn tokens_of(alloc: Global, bytes: &[u8]) -> Result<Vec<Token>, LexError>
    requires { length bytes.now < 2 ^ 32 }
    ensures ok { IfOk result (λ tokens. AreTokens bytes.now tokens.items) }
    ensures no_token { (at : ℕ) → result ≡ Err (LexError.NoToken at) → FailsAt bytes.now at }
{
    let mut tokens = Vec::new(alloc);
    let mut at = skip_blanks(bytes, 0);
    while at < bytes.len() {
        match token_at(bytes, at) {
            Some(token) => {
                put(&mut tokens, token)?;
                at = skip_blanks(bytes, token.end as usize);
            }
            None => return Err(LexError::NoToken { at: at as u32 }),
        }
    }
    Ok(tokens)
}

/// The tokens, or the refusal of the first byte at which none begins.
fn lexed(alloc: Global, text: &Text) -> Result<Tokens, Fail>
    ensures ok { IfOk result (λ tokens. AreTokens text.now.bytes tokens) }
    ensures refused { (refusal : Refusal) → result ≡ Err (Fail.Refused refusal) → IsRefused text.now refusal }
{
    match tokens_of(alloc, text.bytes()) {
        Ok(items) => Ok(Tokens::new(items)),
        Err(LexError::NoToken { at }) => Err(Fail::Refused(Refusal {
            rule: NO_TOKEN,
            place: text.place(at),
        })),
        Err(LexError::Memory) => Err(Fail::Memory),
    }
}

/// The tokens of an expanded text: the longest at each place, with blanks and line feeds between them.
///
/// Refused by rule 14 exactly where a byte that is no blank begins no token; the place is that of the first such byte. It
/// reads each byte a bounded number of times.
pub fn lex(alloc: Global, text: &Text) -> Result<Tokens, Fail>
    ensures ok { IfOk result (λ tokens. AreTokens text.now.bytes tokens) }
    ensures refused { (refusal : Refusal) → result ≡ Err (Fail.Refused refusal) → IsRefused text.now refusal }

    // What has tokens isn't refused, and what fails is, unless memory runs out.
    ensures only { (ts : List Token) → AreTokens text.now.bytes ts → MatchResult result (λ tokens. tokens ≡ ts) (λ fail. fail ≡ Fail.Memory) }
    ensures fails { (at : ℕ) → FailsAt text.now.bytes at → IsErrAnd result (λ fail. fail ≢ Fail.Memory → fail ≡ Fail.Refused (no_token text.now at)) }

    ensures spans { IfOk result (λ tokens. AreSpans tokens (length text.now.bytes)) }
{
    lexed(alloc, text)
}

/// A text has one list of tokens, or one first byte at which none begins, and never both.
pub fn one_reading()
    ensures some { (text : List ℕ) → ((ts : List Token) × AreTokens text ts) ⊎ ((at : ℕ) × FailsAt text at) }
    ensures tokens { (text : List ℕ) (ts us : List Token) → AreTokens text ts → AreTokens text us → ts ≡ us }
    ensures either { (text : List ℕ) (ts : List Token) (at : ℕ) → AreTokens text ts → FailsAt text at → ⊥ }
    ensures place { (text : List ℕ) (a b : ℕ) → FailsAt text a → FailsAt text b → a ≡ b }
{}
