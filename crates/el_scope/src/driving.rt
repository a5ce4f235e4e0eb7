//! What drives the nets of a source, and the rule that each has one driver at most.
ghost use Rattle.std.specs.Prelude.{◌≡◌, ◌++◌, ◌∷◌, ◌==◌, [], ℕ, Some, None, OnOk, IfOk, flat_map, fold, cond, not, false};
ghost use Rattle.std.specs.Option.{option_map_or, option_or};
ghost use Rattle.xt_base.specs.First.{sooner};
ghost use Rattle.el_scope.specs.Driving.{drives, is_input, port_drives, wire_drives, assign_drives, connection_drives, item_drives, module_drives, tree_drives, first_driver, is_second_driver, driver_breaks, drivers_break};
ghost use Rattle.el_scope.specs.inner.Maps.{at_token};

use crate::connecting::{Connection, is_output, net_named, put_item};
use crate::findings::Findings;
use crate::table::Table;
use indexmap::IndexMap;
use std::alloc::Global;
use vl_names::{Declaration, Interface, Side, interface};
use vl_tree::{Binding, Declared, Item, Module, Tree};
use xt_base::NoMemory;

/// Something that drives a net.
#[derive(Clone, Copy)]
pub(crate) struct Driver {
    /// The token of the net's declaration.
    pub(crate) net: u32,
    /// The token at which it drives the net.
    pub(crate) at: u32,
}

fn is_input(side: Side) -> bool
    ensures { result ≡ is_input side }
{
    matches!(side, Side::Input)
}

/// Adds a driver of a net, if there is one.
fn put(into: &mut Vec<Driver>, at: u32, net: Option<u32>) -> Result<(), NoMemory>
    ensures { OnOk result (into.new.items ≡ into.old.items ++ drives at net) }
{
    match net {
        Some(net) => {
            into.push(Driver { net, at })?;
            Ok(())
        }
        None => Ok(()),
    }
}

/// Adds a port, if it is an input.
fn put_port(into: &mut Vec<Driver>, port: &Declaration) -> Result<(), NoMemory>
    ensures { OnOk result (into.new.items ≡ into.old.items ++ port_drives port.now) }
{
    let at = port.entity.at;
    if is_input(port.side) {
        into.push(Driver { net: at, at })?;
    }
    Ok(())
}

fn put_ports(into: &mut Vec<Driver>, ports: &[Declaration]) -> Result<(), NoMemory>
    ensures { OnOk result (into.new.items ≡ into.old.items ++ flat_map port_drives ports.now) }
{
    for port in ports {
        put_port(into, port)?;
    }
    Ok(())
}

/// Adds a wire, if it has a value.
fn put_wire(into: &mut Vec<Driver>, wire: &Declared) -> Result<(), NoMemory>
    ensures { OnOk result (into.new.items ≡ into.old.items ++ wire_drives wire.now) }
{
    match &wire.value {
        Some(_) => {
            into.push(Driver {
                net: wire.name,
                at: wire.name,
            })?;
            Ok(())
        }
        None => Ok(()),
    }
}

fn put_wires(into: &mut Vec<Driver>, wires: &[Declared]) -> Result<(), NoMemory>
    ensures { OnOk result (into.new.items ≡ into.old.items ++ flat_map wire_drives wires.now) }
{
    for wire in wires {
        put_wire(into, wire)?;
    }
    Ok(())
}

fn put_assigns(
    into: &mut Vec<Driver>,
    table: &Table,
    scope: u32,
    assigns: &[Binding],
) -> Result<(), NoMemory>
    ensures { OnOk result (into.new.items ≡ into.old.items ++ flat_map (assign_drives table.now scope) assigns.now) }
{
    for assign in assigns {
        put(into, assign.name, net_named(table, scope, assign.name))?;
    }
    Ok(())
}

/// Adds a connection, if it is one of an output.
fn put_connection(into: &mut Vec<Driver>, connection: &Connection) -> Result<(), NoMemory>
    ensures { OnOk result (into.new.items ≡ into.old.items ++ connection_drives connection.now) }
{
    match &connection.reached {
        Some(place) => {
            if is_output(place.side) {
                put(into, connection.at, connection.net)
            } else {
                Ok(())
            }
        }
        None => Ok(()),
    }
}

fn put_connections(into: &mut Vec<Driver>, all: &[Connection]) -> Result<(), NoMemory>
    ensures { OnOk result (into.new.items ≡ into.old.items ++ flat_map connection_drives all.now) }
{
    for connection in all {
        put_connection(into, connection)?;
    }
    Ok(())
}

/// Adds the drivers of an item of a module.
fn put_item_drivers(
    alloc: Global,
    into: &mut Vec<Driver>,
    table: &Table,
    known: &IndexMap<u32, Interface>,
    scope: u32,
    item: &Item,
) -> Result<(), NoMemory>
    ensures { OnOk result (into.new.items ≡ into.old.items ++ item_drives table.now (at_token known.now.entries) scope item.now) }
{
    match item {
        Item::Wires { names, .. } => put_wires(into, names.as_slice()),
        Item::Assigns { values, .. } => put_assigns(into, table, scope, values.as_slice()),
        Item::Instances { .. } => {
            let mut all = Vec::new(alloc);
            put_item(alloc, &mut all, table, known, scope, item)?;
            put_connections(into, &all)
        }
        Item::Params { .. }
        | Item::Regs { .. }
        | Item::Integers { .. }
        | Item::Always { .. }
        | Item::Initial { .. }
        | Item::Task { .. }
        | Item::Function { .. }
        | Item::Import { .. } => Ok(()),
    }
}

fn put_items(
    alloc: Global,
    into: &mut Vec<Driver>,
    table: &Table,
    known: &IndexMap<u32, Interface>,
    scope: u32,
    items: &[Item],
) -> Result<(), NoMemory>
    ensures { OnOk result (into.new.items ≡ into.old.items ++ flat_map (item_drives table.now (at_token known.now.entries) scope) items.now) }
{
    for item in items {
        put_item_drivers(alloc, into, table, known, scope, item)?;
    }
    Ok(())
}

/// Adds the drivers of a module.
fn put_module(
    alloc: Global,
    into: &mut Vec<Driver>,
    table: &Table,
    known: &IndexMap<u32, Interface>,
    module: &Module,
) -> Result<(), NoMemory>
    ensures { OnOk result (into.new.items ≡ into.old.items ++ module_drives table.now (at_token known.now.entries) «module».now) }
{
    let header = interface(alloc, module)?;
    put_ports(into, header.ports.as_slice())?;
    put_items(
        alloc,
        into,
        table,
        known,
        module.name,
        module.items.as_slice(),
    )
}

/// All drivers of a source, in the order of the text.
fn drivers(
    alloc: Global,
    table: &Table,
    known: &IndexMap<u32, Interface>,
    tree: &Tree,
) -> Result<Vec<Driver>, NoMemory>
    ensures { IfOk result (λ all. all.items ≡ tree_drives table.now (at_token known.now.entries) tree.now) }
{
    let mut all = Vec::new(alloc);
    for module in tree.modules.as_slice() {
        put_module(alloc, &mut all, table, known, module)?;
    }
    Ok(all)
}

// ---- what they break

/// Notes a driver by its net, unless one is known.
fn note(known: &mut IndexMap<u32, Driver>, found: Driver) -> Result<(), NoMemory>
    ensures { OnOk result ((net : ℕ) → at_token known.new.entries net ≡ option_or (at_token known.old.entries net) (cond (net == found.net) (Some found) None)) }
{
    if known.get(&found.net).is_some() {
        return Ok(());
    }
    known.insert(found.net, found)?;
    Ok(())
}

/// The first driver of each net.
fn firsts(alloc: Global, all: &[Driver]) -> Result<IndexMap<u32, Driver>, NoMemory>
    ensures { IfOk result (λ known. (net : ℕ) → at_token known.entries net ≡ first_driver all.now net) }
{
    let mut known = IndexMap::new(alloc);
    for found in all {
        note(&mut known, *found)?;
    }
    Ok(known)
}

/// Whether another driver of the net of this one stands before it, where this is the first one.
fn is_second(first: Option<Driver>, driver: &Driver) -> bool
    ensures { result ≡ option_map_or (λ first. not (driver.now.at == first.at)) first false }
{
    match first {
        Some(first) => driver.at != first.at,
        None => false,
    }
}

/// Asks drivers.
fn ask_all(alloc: Global, findings: &mut Findings, all: &[Driver]) -> Result<(), NoMemory>
    ensures { OnOk result (findings.new ≡ record findings.old { first = fold sooner findings.old.first (drivers_break findings.old.table all.now) }) }
{
    let known = firsts(alloc, all)?;
    for driver in all {
        let second = is_second(known.get(&driver.net).copied(), driver);
        findings.report_if(driver.at, 38, second);
    }
    Ok(())
}

/// Asks all drivers of a source.
pub(crate) fn ask_drivers(
    alloc: Global,
    findings: &mut Findings,
    known: &IndexMap<u32, Interface>,
    tree: &Tree,
) -> Result<(), NoMemory>
    ensures { OnOk result (findings.new ≡ record findings.old { first = fold sooner findings.old.first (drivers_break findings.old.table (tree_drives findings.old.table (at_token known.now.entries) tree.now)) }) }
{
    let all = drivers(alloc, findings.table(), known, tree)?;
    ask_all(alloc, findings, &all)
}
