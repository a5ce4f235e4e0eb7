//! The values of numbers as they are written.
use case_file::{Case, Stop};
use std::alloc::Global;
use vl_lex::{based_value, capped_value, wrapped_value};

/// The lowest 64 bits of a number in hexadecimal, and whether the number is greater than they can be.
fn with_value(alloc: Global, head: &str, low: u64, capped: u64) -> Result<String, Stop> {
    let more = if low == capped { "" } else { ", more" };
    Ok(format!(in alloc; "{head}{low:x}{more}")?)
}

/// The value of a field `decimal`, the digits of a decimal number, or of a field `based`, a number from its quote on.
pub fn value(alloc: Global, case: &Case) -> Result<String, Stop> {
    if let Some(digits) = case.get("decimal") {
        return with_value(
            alloc,
            "",
            wrapped_value(10, digits),
            capped_value(10, digits),
        );
    }
    let value = based_value(case.text("based")?);
    let sign = if value.signed { "signed, " } else { "" };
    let head = format!(in alloc; "{sign}radix {}, ", value.radix)?;
    with_value(alloc, head.as_str(), value.low, value.capped)
}
