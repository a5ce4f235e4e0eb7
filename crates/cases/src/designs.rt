//! Written designs: read, and written again.
use case_file::{Case, Stop, as_text, numbers};
use nt_core::Netlist;
use nt_read::{DesignFault, read};
use nt_write::{WriteEnd, write};
use std::alloc::Global;
use xt_base::MemSink;

/// The design of a case, with the line of a field `line`, a number and a text, in the place of its own.
pub fn design(alloc: Global, case: &Case) -> Result<Vec<u8>, Stop> {
    let design = case.text("design")?;
    let Some(field) = case.get("line") else {
        return Ok(Vec::from_slice(alloc, design)?);
    };
    let (number, line) = as_text(field)?.split_once(' ').ok_or(Stop::Malformed)?;
    with_line(alloc, as_text(design)?, number, line.as_bytes())
}

fn with_line(alloc: Global, design: &str, number: &str, line: &[u8]) -> Result<Vec<u8>, Stop> {
    let mut bytes = Vec::new(alloc);
    let Ok(number) = number.parse::<usize>() else {
        return Err(Stop::Malformed);
    };
    for (i, own) in design.lines().enumerate() {
        let is_it = number > 0 && i == number - 1;
        bytes.extend_from_slice(if is_it { line } else { own.as_bytes() })?;
        bytes.push(b'\n')?;
    }
    Ok(bytes)
}

/// The netlist of bytes, or None where they are no design.
pub fn netlist(alloc: Global, bytes: &[u8]) -> Result<Option<Netlist>, Stop> {
    match read(alloc, bytes) {
        Ok(netlist) => Ok(Some(netlist)),
        Err(DesignFault::BadDesign) => Ok(None),
        Err(DesignFault::Memory) => Err(Stop::Memory),
    }
}

/// Reads a design and writes it again, to a stream that takes as many bytes as the field `capacity` says and fails the
/// writes that `writes` lists. Says `bad design`, or how the write ended, what stands on the stream and the faults.
pub fn rewritten(alloc: Global, case: &Case) -> Result<String, Stop> {
    let bytes = design(alloc, case)?;
    let Some(netlist) = netlist(alloc, bytes.as_slice())? else {
        return Ok(String::from_str(alloc, "bad design")?);
    };
    let writes = numbers(alloc, case, "writes")?;
    let capacity = match numbers(alloc, case, "capacity")?.first() {
        Some(capacity) => *capacity as usize,
        None => bytes.len(),
    };
    let mut sink = MemSink::new(alloc, capacity, writes.as_slice())?;
    let end = match write(alloc, &netlist, &mut sink) {
        WriteEnd::Written => "written",
        WriteEnd::WriteFault => "write fault",
        WriteEnd::Memory => return Err(Stop::Memory),
    };
    let left = if sink.bytes() == bytes.as_slice() {
        "the same"
    } else if bytes.as_slice().starts_with(sink.bytes()) {
        "a prefix"
    } else {
        "another text"
    };
    Ok(format!(in alloc; "{end}, {left}, {} counted", sink.faults())?)
}

/// How many proper prefixes of a design are designs.
pub fn prefixes(alloc: Global, case: &Case) -> Result<String, Stop> {
    let bytes = design(alloc, case)?;
    let mut count = 0u64;
    for end in 0..bytes.len() {
        if netlist(alloc, &bytes[..end])?.is_some() {
            count = count.saturating_add(1);
        }
    }
    Ok(format!(in alloc; "{count}")?)
}

/// The netlist of a case's design.
pub fn sound(alloc: Global, case: &Case) -> Result<Netlist, Stop> {
    let bytes = design(alloc, case)?;
    match netlist(alloc, bytes.as_slice())? {
        Some(netlist) => Ok(netlist),
        None => Err(Stop::Malformed),
    }
}
