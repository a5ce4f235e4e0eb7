//! Expanded texts with their places, and tokens.
use crate::fields::Case;
use crate::sources::{expansion, files, text};
use crate::stop::Stop;
use std::alloc::Global;
use vl_lex::{Kind, Token, lex};
use vl_pre::{PreFault, Text};
use xt_base::{Fail, Refusal};

/// Adds bytes, each as one character.
pub fn add_bytes(out: &mut String, bytes: &[u8]) -> Result<(), Stop> {
    for byte in bytes {
        out.push(char::from(*byte))?;
    }
    Ok(())
}

/// A refusal by its rule, and its place as `stretch:line`.
pub fn refused(alloc: Global, refusal: Refusal) -> Result<String, Stop> {
    Ok(format!(in alloc;
        "refused {} {}:{}",
        refusal.rule.number(),
        refusal.place.file,
        refusal.place.line
    )?)
}

/// The same of a layer's answer that isn't Ok.
pub fn failed(alloc: Global, fail: Fail) -> Result<String, Stop> {
    match fail {
        Fail::Refused(refusal) => refused(alloc, refusal),
        Fail::Memory => Err(Stop::Memory),
    }
}

/// The bytes of a text; `<stretch:line>` stands before each byte whose place isn't that of the byte before it.
fn with_places(alloc: Global, text: &Text) -> Result<String, Stop> {
    let mut out = String::new(alloc);
    let mut last = None;
    for (at, byte) in text.bytes().iter().enumerate() {
        let place = text.place(at as u32);
        if last != Some(place) {
            write!(out, "<{}:{}>", place.file, place.line)?;
        }
        last = Some(place);
        out.push(char::from(*byte))?;
    }
    Ok(out)
}

/// What expanding `top.v` gives, and how many faults of files were counted where some were.
pub fn expanded(alloc: Global, case: &Case) -> Result<String, Stop> {
    let mut files = files(alloc, case)?;
    let mut out = match expansion(alloc, case, &mut files)? {
        Ok(text) => with_places(alloc, &text)?,
        Err(PreFault::Refused(refusal, name)) => {
            let mut out = refused(alloc, refusal)?;
            out.push(' ')?;
            out.push_str(name.as_str())?;
            out
        }
        Err(PreFault::ReadFault) => String::from_str(alloc, "read fault")?,
        Err(PreFault::Memory) => return Err(Stop::Memory),
    };
    if files.faults() > 0 {
        write!(out, ", {} counted", files.faults())?;
    }
    Ok(out)
}

fn letter(kind: Kind) -> char {
    match kind {
        Kind::Word => 'W',
        Kind::Reserved => 'R',
        Kind::Decimal => 'D',
        Kind::Based => 'B',
        Kind::Quoted => 'Q',
        Kind::Operator => 'O',
        Kind::System => 'S',
    }
}

/// Adds the bytes of a token.
pub fn add_token(out: &mut String, text: &[u8], token: &Token) -> Result<(), Stop> {
    let spelling = text.get(token.start as usize..token.end as usize);
    add_bytes(out, spelling.unwrap_or(b"?"))
}

/// The tokens of a text: for each a letter for its kind, and its bytes in brackets.
pub fn tokens(alloc: Global, case: &Case) -> Result<String, Stop> {
    let text = text(alloc, case)?;
    let tokens = match lex(alloc, &text) {
        Ok(tokens) => tokens,
        Err(fail) => return failed(alloc, fail),
    };
    let mut out = String::new(alloc);
    for token in tokens.list() {
        out.push(letter(token.kind))?;
        out.push('[')?;
        add_token(&mut out, text.bytes(), token)?;
        out.push(']')?;
    }
    Ok(out)
}
