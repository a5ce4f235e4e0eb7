//! What the names of an expression mean, from the fields of a case.
ghost use Rattle.std.specs.Prelude.{◌≤◌, IfSome};

use case_file::{Case, Stop, as_text};
use el_width::{Meaning, Object, Routine};
use sqlite_items::Items;
use std::alloc::Global;
use xt_base::{Item, MAX_WIDTH};
use xt_bits::Bits;

/// A width and a sign, as `8` or `8 signed`.
pub fn type_of(words: &str) -> Option<(u32, bool)>
    ensures { IfSome result (λ p. (1 ≤ p.0) × (p.0 ≤ 64)) }
{
    let (width, sign) = words.split_once(' ').unwrap_or((words, ""));
    let width = width.parse::<u32>().ok()?;
    if width == 0 || width > MAX_WIDTH {
        return None;
    }
    Some((width, sign == "signed"))
}

/// A parameter's value, as `200 8` or `200 8 signed`.
fn parameter(words: &str) -> Option<Meaning> {
    let (number, words) = words.split_once(' ')?;
    let (width, signed) = type_of(words)?;
    let value = Bits::new(width, number.parse::<Item>().ok()?);
    Some(Meaning::Parameter { value, signed })
}

/// A net, a variable or a memory, as its number and `8` or `8 signed`; its lowest bit is 0.
fn object(words: &str) -> Option<Object> {
    let (number, words) = words.split_once(' ')?;
    let (width, signed) = type_of(words)?;
    Some(Object {
        number: number.parse::<u32>().ok()?,
        width,
        signed,
        lsb: 0,
    })
}

/// A routine of one formal, as its number, the formal's width, and the result's width and sign.
fn routine(alloc: Global, words: &str) -> Result<Meaning, Stop> {
    let (formal, rest) = words.split_once(' ').unwrap_or((words, ""));
    let Some(
        Object {
            number,
            width,
            signed,
            ..
        },
    ) = object(rest)
    else {
        return Err(Stop::Malformed);
    };
    let mut formals = Items::new(alloc);
    formals.push(formal.parse::<u32>().unwrap_or(1))?;
    Ok(Meaning::Routine(Routine {
        number,
        formals,
        width,
        signed,
        result: None,
    }))
}

/// What a name is by a field of a case: `value`, `net`, `reg`, `memory` or `routine`.
pub fn meaning(alloc: Global, word: &str, words: &str) -> Result<Meaning, Stop> {
    let found = match word {
        "value" => parameter(words),
        "net" => object(words).map(Meaning::Net),
        "reg" => object(words).map(Meaning::Variable),
        "memory" => object(words).map(Meaning::Memory),
        _ => return routine(alloc, words),
    };
    match found {
        Some(meaning) => Ok(meaning),
        None => Err(Stop::Malformed),
    }
}

/// Whether a field says what a name means.
pub fn is_meaning(word: &str) -> bool {
    matches!(word, "value" | "net" | "reg" | "memory" | "routine")
}

/// The context of a case, if it has one.
pub fn context(case: &Case) -> Result<Option<(u32, bool)>, Stop> {
    match case.get("context") {
        None => Ok(None),
        Some(words) => match type_of(as_text(words)?) {
            Some(context) => Ok(Some(context)),
            None => Err(Stop::Malformed),
        },
    }
}
