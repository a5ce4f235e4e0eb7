//! The operators on values, from rows such as `add 8'd200 8'd100 => 8'd44`.
ghost use Rattle.std.specs.Prelude.{◌≡◌, ◌≤◌, IfSome};

use case_file::{Case, Stop, as_text};
use std::alloc::Global;
use xt_base::{Item, MAX_WIDTH};
use xt_bits::Bits;

/// What an operator gives: the wanted value as it is written where it is that one, and else the value in digits.
pub fn operator(alloc: Global, case: &Case) -> Result<String, Stop> {
    let Some(field) = case.fields.first() else {
        return Err(Stop::Malformed);
    };
    let wanted = as_text(case.text("want")?)?;
    let operands = as_text(field.text.as_slice())?;
    let Some(value) = value_of(field.word.as_str(), operands) else {
        return Err(Stop::Malformed);
    };
    if bits(wanted) == Some(value) {
        return Ok(String::from_str(alloc, wanted)?);
    }
    Ok(format!(in alloc; "{}'d{}", value.width(), value.value())?)
}

/// A value as Verilog writes it, in decimal, hexadecimal or binary digits.
fn bits(text: &str) -> Option<Bits> {
    let (width, digits) = text.split_once('\'')?;
    let width = width.parse::<u32>().ok()?;
    if width == 0 || width > MAX_WIDTH {
        return None;
    }
    Some(Bits::new(width, number(digits)?))
}

/// The number behind a quote.
fn number(digits: &str) -> Option<Item> {
    if let Some(decimal) = digits.strip_prefix('d') {
        return Item::from_str_radix(decimal, 10).ok();
    }
    if let Some(binary) = digits.strip_prefix('b') {
        return Item::from_str_radix(binary, 2).ok();
    }
    Item::from_str_radix(digits.strip_prefix('h')?, 16).ok()
}

/// What an operator gives for its operands; None where there is no such operator.
fn value_of(operator: &str, operands: &str) -> Option<Bits> {
    let (first, rest) = operands.split_once(' ').unwrap_or((operands, ""));
    let a = bits(first)?;
    if let Some(value) = of_one(operator, a) {
        return Some(value);
    }
    if let Some(b) = bits(rest) {
        return if operator == "concat" {
            joined(a, b)
        } else {
            of_two(operator, a, b)
        };
    }
    of_amount(operator, a, rest)
}

/// The one bit of a test.
fn truth(holds: bool) -> Bits {
    Bits::new(1, Item::from(holds))
}

fn of_one(operator: &str, a: Bits) -> Option<Bits> {
    Some(match operator {
        "neg" => a.neg(),
        "not" => a.not(),
        "all_ones" => truth(a.all_ones()),
        "any" => truth(a.any()),
        "odd" => truth(a.odd()),
        _ => return None,
    })
}

fn joined(a: Bits, low: Bits) -> Option<Bits> {
    if a.width() + low.width() > MAX_WIDTH {
        return None;
    }
    Some(a.concat(low))
}

/// The operators on two values of one width.
fn of_two(operator: &str, a: Bits, b: Bits) -> Option<Bits> {
    if a.width() != b.width() {
        return None;
    }
    Some(match operator {
        "add" => a.add(b),
        "sub" => a.sub(b),
        "mul" => a.mul(b),
        "and" => a.and(b),
        "or" => a.or(b),
        "xor" => a.xor(b),
        "eq" => truth(a.eq(b)),
        "lt" => truth(a.lt(b, false)),
        "signed_lt" => truth(a.lt(b, true)),
        _ => return quotient(operator, a, b),
    })
}

fn quotient(operator: &str, a: Bits, b: Bits) -> Option<Bits>
    requires { a.width ≡ b.width }
{
    if !b.any() {
        return None;
    }
    Some(match operator {
        "div" => a.div_const(b, false),
        "rem" => a.rem_const(b, false),
        "signed_div" => a.div_const(b, true),
        "signed_rem" => a.rem_const(b, true),
        _ => return None,
    })
}

/// The operators with an amount, a width, or a place and a part.
fn of_amount(operator: &str, a: Bits, rest: &str) -> Option<Bits> {
    if let Some((place, part)) = rest.split_once(' ') {
        return of_part(operator, a, place.parse::<i128>().ok()?, part);
    }
    let amount = rest.parse::<Item>().ok()?;
    Some(match operator {
        "shl" => a.shl(amount),
        "shr" => a.shr(amount),
        "sar" => a.sar(amount),
        "extend" => a.extend(width(amount)?, false),
        "signed_extend" => a.extend(width(amount)?, true),
        _ => return None,
    })
}

/// The operators on the part from a place on.
fn of_part(operator: &str, a: Bits, place: i128, part: &str) -> Option<Bits> {
    match operator {
        "select" => Some(a.select(place, width(part.parse::<Item>().ok()?)?)),
        "replace" => Some(a.replace(place, bits(part)?)),
        _ => None,
    }
}

/// A width that a value may have.
fn width(number: Item) -> Option<u32>
    ensures { IfSome result (λ width. (1 ≤ width) × (width ≤ 64)) }
{
    if number == 0 || number > Item::from(MAX_WIDTH) {
        return None;
    }
    Some(number as u32)
}
