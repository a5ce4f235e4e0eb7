//! The lines that are done with a design, one after another: `set a=f0 b=1` puts values on input pins, and others say what is
//! seen. Values are hexadecimal.
ghost use Rattle.std.specs.Prelude.{◌<◌, length, IfOk};

use case_file::Stop;
use nt_core::{Netlist, Wire};
use std::alloc::Global;
use xt_base::{Item, MAX_WIDTH};
use xt_bits::Bits;

/// A value of a width that there may be.
fn value(width: u32, value: Item) -> Result<Bits, Stop> {
    if width == 0 || width > MAX_WIDTH {
        return Err(Stop::Malformed);
    }
    Ok(Bits::new(width, value))
}

/// A value in hexadecimal digits.
fn hexadecimal(digits: &str) -> Result<Item, Stop> {
    match Item::from_str_radix(digits, 16) {
        Ok(item) => Ok(item),
        Err(_) => Err(Stop::Malformed),
    }
}

/// The values in hexadecimal digits, with blanks between them.
pub fn hexadecimals(alloc: Global, text: &str) -> Result<Vec<Item>, Stop> {
    let mut items = Vec::new(alloc);
    for digits in text.split_whitespace() {
        items.push(hexadecimal(digits)?)?;
    }
    Ok(items)
}

/// A row of 0.
pub fn zero_row(alloc: Global, netlist: &Netlist) -> Result<Vec<Bits>, Stop> {
    let mut row = Vec::new(alloc);
    for pin in netlist.inputs.as_slice() {
        row.push(value(pin.width, 0)?)?;
    }
    Ok(row)
}

/// The place of a pin.
pub fn pin(pins: &[Wire], name: &str) -> Result<u32, Stop>
    ensures { IfOk result (λ place. place < length pins.now) }
{
    for (i, pin) in pins.iter().enumerate() {
        if pin.name.as_str() == name
            && let Ok(place) = u32::try_from(i)
        {
            return Ok(place);
        }
    }
    Err(Stop::Malformed)
}

/// Puts values such as `a=f0 b=1` into a row.
pub fn put(netlist: &Netlist, row: &mut Vec<Bits>, values: &str) -> Result<(), Stop> {
    for pair in values.split_whitespace() {
        let (name, digits) = pair.split_once('=').ok_or(Stop::Malformed)?;
        let place = pin(netlist.inputs.as_slice(), name)? as usize;
        if place >= row.len() {
            return Err(Stop::Malformed);
        }
        row[place] = value(row[place].width(), hexadecimal(digits)?)?;
    }
    Ok(())
}
