//! The ports of a source.
ghost use Rattle.std.specs.Prelude.{◌≡◌, MatchResult};
ghost use Rattle.xt_compile.specs.declared.first.tokens.FormError.TheVariants as errors;
ghost use Rattle.xt_compile.specs.first.Tree.{Gives, is_declared, no_ports, added, decimal_of, bounds_width, range_width, lead_of, next_port, ports_from};

use crate::first::names::copy_of;
use crate::first::numbers;
use crate::first::source::{Port, find};
use crate::first::tokens::{FormError, Lexed};
use nt_core::is_pin_name;
use sqlite_items::Items;
use std::alloc::Global;
use vl_tree::{Dir, Direction, Expr, Range};

/// The ports behind the clock's.
#[derive(Debug, Drop)]
pub struct Ports {
    pub inputs: Items<Port>,
    pub outputs: Items<Port>,
}

impl Ports {
    fn new(alloc: Global) -> Ports
        ensures { result ≡ no_ports }
    {
        Ports {
            inputs: Items::new(alloc),
            outputs: Items::new(alloc),
        }
    }

    /// Adds a port.
    fn add(&mut self, direction: Direction, port: Port) -> Result<(), FormError>
        ensures { MatchResult result (λ _. self.new ≡ added self.old (direction, port)) (λ error. error ≡ errors.Memory) }
    {
        match direction {
            Direction::Input => self.inputs.push(port)?,
            Direction::Output => self.outputs.push(port)?,
        }
        Ok(())
    }

    /// Whether the clock or another port has the name.
    fn are_named(&self, clock: &[u8], name: &[u8]) -> bool
        ensures { result ≡ is_declared clock.now self.now name.now }
    {
        clock == name
            || find(self.inputs.as_slice(), name).is_some()
            || find(self.outputs.as_slice(), name).is_some()
    }
}

/// The ports of the form that these are.
pub fn read_ports(
    alloc: Global,
    lexed: &Lexed<'_>,
    clock: &[u8],
    ports: &[vl_tree::Port],
) -> Result<Ports, FormError>
    ensures { Gives result (ports_from lexed.now.names lexed.now.places clock.now no_ports ports.now) }
{
    let mut found = Ports::new(alloc);
    for port in ports {
        let (direction, port) = read_port(alloc, lexed, clock, &found, port)?;
        found.add(direction, port)?;
    }
    Ok(found)
}

/// The port behind those that were found.
fn read_port(
    alloc: Global,
    lexed: &Lexed<'_>,
    clock: &[u8],
    found: &Ports,
    port: &vl_tree::Port,
) -> Result<(Direction, Port), FormError>
    ensures { Gives result (next_port lexed.now.names lexed.now.places clock.now found.now port.now) }
{
    if port.value.is_some() {
        return Err(FormError::OutOfForm);
    }
    let (direction, width) = lead(lexed, &port.dir)?;
    let place = lexed.place(port.name);
    let name = lexed.at(port.name)?;
    if !is_pin_name(name) || found.are_named(clock, name) {
        return Err(FormError::OutOfForm);
    }
    let name = copy_of(alloc, name)?;
    Ok((direction, Port { name, width, place }))
}

/// The direction and the width in bits that leading words say.
fn lead(lexed: &Lexed<'_>, dir: &Option<Dir>) -> Result<(Direction, u32), FormError>
    ensures { Gives result (lead_of lexed.now.names dir.now) }
{
    match dir {
        Some(
            Dir::Net {
                direction: Direction::Input,
                wire: false,
                signed: false,
                range,
                ..
            },
        ) => Ok((Direction::Input, width(lexed, range)?)),
        Some(
            Dir::Reg {
                signed: false,
                range,
                ..
            },
        ) => Ok((Direction::Output, width(lexed, range)?)),
        _ => Err(FormError::OutOfForm),
    }
}

/// The width in bits of a range, which is 1 without one.
fn width(lexed: &Lexed<'_>, range: &Option<Range>) -> Result<u32, FormError>
    ensures { Gives result (range_width lexed.now.names range.now) }
{
    let Some(range) = range else {
        return Ok(1);
    };
    let msb = decimal(&range.msb)?;
    let lsb = decimal(&range.lsb)?;
    bounds_width(lexed, msb, lsb)
}

/// The width in bits of a range between these numbers, the second of which is 0.
fn bounds_width(lexed: &Lexed<'_>, msb: u32, lsb: u32) -> Result<u32, FormError>
    ensures { Gives result (bounds_width lexed.now.names msb lsb) }
{
    if !lexed.spells(lsb, b"0") {
        return Err(FormError::OutOfForm);
    }
    numbers::range_width(lexed.at(msb)?)
}

/// The token of a plain number.
fn decimal(expr: &Expr) -> Result<u32, FormError>
    ensures { Gives result (decimal_of expr.now) }
{
    match expr {
        Expr::Decimal { number, .. } => Ok(*number),
        _ => Err(FormError::OutOfForm),
    }
}
