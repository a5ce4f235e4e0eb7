//! Numbers of things in lists.
ghost use Rattle.std.specs.Prelude.{◌≡◌, ◌≤◌, IfOk, OnOk};

use xt_base::NoMemory;

/// The number of the thing at a place of a list. There is none where a list has more than a `u32` counts.
pub fn number(place: usize) -> Result<u32, NoMemory>
    ensures { IfOk result (λ number. number ≡ place) }
{
    match u32::try_from(place) {
        Ok(number) => Ok(number),
        Err(_) => Err(NoMemory),
    }
}

/// Takes a list of so many. A netlist's lists are numbered by a `u32`, and hold at most 4,294,967,295 entries.
pub fn numbered(count: usize) -> Result<(), NoMemory>
    ensures { OnOk result (count ≤ 4294967295) }
{
    match u32::try_from(count) {
        Ok(_) => Ok(()),
        Err(_) => Err(NoMemory),
    }
}
