//! The connections and overrides of instances, and the rule on them.
ghost use Rattle.std.specs.Prelude.{◌≡◌, ◌++◌, ◌∷◌, [], ℕ, List, OnOk, IfOk, None, Some, map, flat_map, fold, not, false, option_copied, cond, bytes_eq, ◌==◌, ◌&&◌};
ghost use Rattle.std.specs.Option.{option_map_or, option_or};
ghost use Rattle.xt_base.specs.First.{sooner};
ghost use Rattle.vl_tree.specs.declared.exprs.Expr.{out-Expr};
ghost use Rattle.vl_tree.specs.Begins.{expr_at};
ghost use Rattle.vl_names.specs.Interfaces.{is_output};
ghost use Rattle.el_scope.specs.declared.connecting.Slot.TheVariants as slot_is;
ghost use Rattle.el_scope.specs.Connecting.{is_in, all_in, whole_name, net_of, net_named, whole_net, connection_at, ordered_connections, only_in, place_named, first_named, is_again, named_connection, named_connections, conns_connections, instances_connections, item_connections, module_connections, tree_connections, is_misplaced, connection_breaks, connections_break, interface_at};
ghost use Rattle.el_scope.specs.inner.Maps.{at_token, named};

use crate::findings::Findings;
use crate::naming::is_net;
use crate::reached::interface_at;
use crate::table::{Key, Table};
use indexmap::IndexMap;
use sqlite_items::at;
use std::alloc::Global;
use vl_names::{Declaration, Interface, Side};
use vl_tree::{Conns, Expr, Instance, Item, Module, Named, Tree};
use xt_base::NoMemory;

/// What a list at an instance may reach.
#[derive(Clone, Copy)]
pub(crate) enum Slot {
    /// Ports, by connections.
    Port,
    /// Parameters, by overrides.
    Parameter,
}

/// A connection or an override.
#[derive(Clone, Copy)]
pub(crate) struct Connection {
    /// Its first token.
    pub(crate) at: u32,
    /// The port or parameter that it is for, if there is one.
    pub(crate) reached: Option<Declaration>,
    /// One with its name stands before it in its list.
    pub(crate) again: bool,
    /// It has an expression.
    pub(crate) given: bool,
    /// The net that its expression is the whole of.
    pub(crate) net: Option<u32>,
}

fn is_in(slot: Slot, side: Side) -> bool
    ensures { result ≡ is_in slot side }
{
    match slot {
        Slot::Port => matches!(side, Side::Input | Side::Output),
        Slot::Parameter => matches!(side, Side::Parameter),
    }
}

pub(crate) fn is_output(side: Side) -> bool
    ensures { result ≡ is_output side }
{
    matches!(side, Side::Output)
}

fn all_in(slot: Slot, interface: &Interface) -> &[Declaration]
    ensures { result.now ≡ all_in slot interface.now }
{
    match slot {
        Slot::Port => interface.ports.as_slice(),
        Slot::Parameter => interface.parameters.as_slice(),
    }
}

// ---- whole nets

/// The name that an expression is, without a select.
fn whole_name(expr: &Expr) -> Option<u32>
    ensures { result ≡ whole_name (out-Expr expr.now) }
{
    match expr {
        Expr::Name { name, selects, .. } => {
            if selects.as_slice().is_empty() {
                Some(*name)
            } else {
                None
            }
        }
        Expr::Choice { .. }
        | Expr::Binary { .. }
        | Expr::Unary { .. }
        | Expr::Based { .. }
        | Expr::Decimal { .. }
        | Expr::Call { .. }
        | Expr::Sign { .. }
        | Expr::Concat { .. }
        | Expr::Replicate { .. } => None,
    }
}

fn net_of(found: &Declaration) -> Option<u32>
    ensures { result ≡ net_of found.now }
{
    if is_net(found.entity.kind) {
        Some(found.entity.at)
    } else {
        None
    }
}

/// The net that the name at a token stands for, by the token of its declaration.
pub(crate) fn net_named(table: &Table, scope: u32, name: u32) -> Option<u32>
    ensures { result ≡ net_named table.now scope name }
{
    match table.resolve(scope, table.spelled(name)) {
        Some(found) => net_of(&found),
        None => None,
    }
}

/// The net that an expression is the whole of.
fn whole_net(table: &Table, scope: u32, expr: &Expr) -> Option<u32>
    ensures { result ≡ whole_net table.now scope expr.now }
{
    match whole_name(expr) {
        Some(name) => net_named(table, scope, name),
        None => None,
    }
}

// ---- connections and overrides

/// A connection that begins at a token.
fn connection_at(
    table: &Table,
    scope: u32,
    at: u32,
    reached: Option<Declaration>,
    again: bool,
    value: Option<&Expr>,
) -> Connection
    ensures { result ≡ connection_at table.now scope at reached again (option_copied value.entry) }
{
    let net = match value {
        Some(value) => whole_net(table, scope, value),
        None => None,
    };
    Connection {
        at,
        reached,
        again,
        given: value.is_some(),
        net,
    }
}

/// Adds a connection that begins at a token.
fn put(
    into: &mut Vec<Connection>,
    table: &Table,
    scope: u32,
    at: u32,
    reached: Option<Declaration>,
    again: bool,
    value: Option<&Expr>,
) -> Result<(), NoMemory>
    ensures { OnOk result (into.new.items ≡ into.old.items ++ connection_at table.now scope at reached again (option_copied value.entry) ∷ []) }
{
    into.push(connection_at(table, scope, at, reached, again, value))?;
    Ok(())
}

/// Adds a connection in order.
fn put_expr(
    into: &mut Vec<Connection>,
    table: &Table,
    scope: u32,
    place: Option<Declaration>,
    expr: &Expr,
) -> Result<(), NoMemory>
    ensures { OnOk result (into.new.items ≡ into.old.items ++ connection_at table.now scope (expr_at expr.now) place false (Some expr.now) ∷ []) }
{
    put(into, table, scope, expr.at(), place, false, Some(expr))
}

/// Adds connections in order.
fn put_ordered(
    into: &mut Vec<Connection>,
    table: &Table,
    scope: u32,
    places: &[Declaration],
    exprs: &[Expr],
) -> Result<(), NoMemory>
    ensures { OnOk result (into.new.items ≡ into.old.items ++ ordered_connections table.now scope places.now 0 exprs.now) }
{
    let mut before = 0;
    for expr in exprs {
        let place = at(places, before).copied();
        put_expr(into, table, scope, place, expr)?;
        before += 1;
    }
    Ok(())
}

/// The port or parameter of the name at a token in a module.
fn place_named(table: &Table, slot: Slot, owner: u32, name: u32) -> Option<Declaration>
    ensures { result ≡ place_named table.now slot owner name }
{
    match table.declared_in(owner, table.spelled(name)) {
        Some(found) => only_in(slot, found),
        None => None,
    }
}

fn only_in(slot: Slot, found: Declaration) -> Option<Declaration>
    ensures { result ≡ only_in slot found }
{
    if is_in(slot, found.side) {
        Some(found)
    } else {
        None
    }
}

/// Notes the first connection of a name, unless one is known.
fn note_first<'a>(
    known: &mut IndexMap<Key<'a>, u32>,
    key: Key<'a>,
    found: u32,
) -> Result<(), NoMemory>
    ensures { OnOk result ((scope : ℕ) (word : List ℕ) → named known.new.entries scope word ≡ option_or (named known.old.entries scope word) (cond (scope == key.entry.scope && bytes_eq word key.entry.name.now) (Some found) None)) }
{
    if known.get(&key).is_some() {
        return Ok(());
    }
    known.insert(key, found)?;
    Ok(())
}

/// The first connection of each name, by the token of the name; each stands in the scope of the module that it reaches into.
fn firsts<'a>(
    alloc: Global,
    table: &Table<'a>,
    owner: u32,
    all: &[Named],
) -> Result<IndexMap<Key<'a>, u32>, NoMemory>
    ensures { IfOk result (λ known. (word : List ℕ) → named known.entries owner word ≡ first_named table.now all.now word) }
{
    let mut known = IndexMap::new(alloc);
    for one in all {
        let key = Key {
            scope: owner,
            name: table.spelled(one.name),
        };
        note_first(&mut known, key, one.name)?;
    }
    Ok(known)
}

/// Whether the first connection of a name is another one.
fn is_other(first: Option<u32>, name: u32) -> bool
    ensures { result ≡ option_map_or (λ first. not (name == first)) first false }
{
    match first {
        Some(first) => name != first,
        None => false,
    }
}

/// The first connection of a name in the scope of a module.
fn first_of<'a>(known: &IndexMap<Key<'a>, u32>, owner: u32, name: &'a [u8]) -> Option<u32>
    ensures { result ≡ named known.now.entries owner name.now }
{
    known.get(&Key { scope: owner, name }).copied()
}

/// Adds a connection by name, where `first` is the first of its name.
fn put_one(
    into: &mut Vec<Connection>,
    table: &Table,
    scope: u32,
    slot: Slot,
    owner: u32,
    first: Option<u32>,
    one: &Named,
) -> Result<(), NoMemory>
    ensures { OnOk result (into.new.items ≡ into.old.items ++ connection_at table.now scope one.now.at (place_named table.now slot owner one.now.name) (option_map_or (λ f. not (one.now.name == f)) first false) one.now.value ∷ []) }
{
    let place = place_named(table, slot, owner, one.name);
    let again = is_other(first, one.name);
    put(into, table, scope, one.at, place, again, one.value.as_ref())
}

/// Adds connections by name.
fn put_named(
    alloc: Global,
    into: &mut Vec<Connection>,
    table: &Table,
    scope: u32,
    slot: Slot,
    owner: u32,
    all: &[Named],
) -> Result<(), NoMemory>
    ensures { OnOk result (into.new.items ≡ into.old.items ++ named_connections table.now scope slot owner all.now) }
{
    let known = firsts(alloc, table, owner, all)?;
    for one in all {
        let first = first_of(&known, owner, table.spelled(one.name));
        put_one(into, table, scope, slot, owner, first, one)?;
    }
    Ok(())
}

/// Adds the connections or overrides of a list at an instance.
fn put_conns(
    alloc: Global,
    into: &mut Vec<Connection>,
    table: &Table,
    scope: u32,
    slot: Slot,
    interface: &Interface,
    conns: &Option<Conns>,
) -> Result<(), NoMemory>
    ensures { OnOk result (into.new.items ≡ into.old.items ++ conns_connections table.now scope slot interface.now conns.now) }
{
    match conns {
        None => Ok(()),
        Some(Conns::Ordered { exprs, .. }) => put_ordered(
            into,
            table,
            scope,
            all_in(slot, interface),
            exprs.as_slice(),
        ),
        Some(Conns::Named { named, .. }) => put_named(
            alloc,
            into,
            table,
            scope,
            slot,
            interface.name,
            named.as_slice(),
        ),
    }
}

/// Adds the connections of instances.
fn put_instances(
    alloc: Global,
    into: &mut Vec<Connection>,
    table: &Table,
    scope: u32,
    interface: &Interface,
    instances: &[Instance],
) -> Result<(), NoMemory>
    ensures { OnOk result (into.new.items ≡ into.old.items ++ flat_map (λ i. conns_connections table.now scope slot_is.Port interface.now i.conns) instances.now) }
{
    for instance in instances {
        put_conns(
            alloc,
            into,
            table,
            scope,
            Slot::Port,
            interface,
            &instance.conns,
        )?;
    }
    Ok(())
}

/// Adds the overrides and connections of an item of a module.
pub(crate) fn put_item(
    alloc: Global,
    into: &mut Vec<Connection>,
    table: &Table,
    known: &IndexMap<u32, Interface>,
    scope: u32,
    item: &Item,
) -> Result<(), NoMemory>
    ensures { OnOk result (into.new.items ≡ into.old.items ++ item_connections table.now (at_token known.now.entries) scope item.now) }
{
    match item {
        Item::Instances {
            module,
            params,
            instances,
            ..
        } => match interface_at(table, known, *module) {
            Some(interface) => {
                put_conns(
                    alloc,
                    into,
                    table,
                    scope,
                    Slot::Parameter,
                    interface,
                    params,
                )?;
                put_instances(alloc, into, table, scope, interface, instances.as_slice())
            }
            None => Ok(()),
        },
        Item::Params { .. }
        | Item::Wires { .. }
        | Item::Regs { .. }
        | Item::Integers { .. }
        | Item::Assigns { .. }
        | Item::Always { .. }
        | Item::Initial { .. }
        | Item::Task { .. }
        | Item::Function { .. }
        | Item::Import { .. } => Ok(()),
    }
}

/// Adds those of a module.
fn put_module(
    alloc: Global,
    into: &mut Vec<Connection>,
    table: &Table,
    known: &IndexMap<u32, Interface>,
    module: &Module,
) -> Result<(), NoMemory>
    ensures { OnOk result (into.new.items ≡ into.old.items ++ module_connections table.now (at_token known.now.entries) «module».now) }
{
    for item in module.items.as_slice() {
        put_item(alloc, into, table, known, module.name, item)?;
    }
    Ok(())
}

/// All connections and overrides of a source, in the order of the text.
fn connections(
    alloc: Global,
    table: &Table,
    known: &IndexMap<u32, Interface>,
    tree: &Tree,
) -> Result<Vec<Connection>, NoMemory>
    ensures { IfOk result (λ all. all.items ≡ tree_connections table.now (at_token known.now.entries) tree.now) }
{
    let mut all = Vec::new(alloc);
    for module in tree.modules.as_slice() {
        put_module(alloc, &mut all, table, known, module)?;
    }
    Ok(all)
}

// ---- what they break

/// Whether there is nothing that a connection reaches, or it is an output and the connection no whole net.
fn is_misplaced(connection: &Connection) -> bool
    ensures { result ≡ is_misplaced connection.now connection.now.reached }
{
    match &connection.reached {
        Some(place) => is_output(place.side) && connection.given && connection.net.is_none(),
        None => true,
    }
}

/// Asks connections.
fn ask_all(findings: &mut Findings, all: &[Connection])
    ensures { findings.new ≡ record findings.old { first = fold sooner findings.old.first (connections_break findings.old.table all.now) } }
{
    for one in all {
        findings.report_if(one.at, 34, is_misplaced(one) || one.again);
    }
}

/// Asks all connections and overrides of a source.
pub(crate) fn ask_connections(
    alloc: Global,
    findings: &mut Findings,
    known: &IndexMap<u32, Interface>,
    tree: &Tree,
) -> Result<(), NoMemory>
    ensures { OnOk result (findings.new ≡ record findings.old { first = fold sooner findings.old.first (connections_break findings.old.table (tree_connections findings.old.table (at_token known.now.entries) tree.now)) }) }
{
    let all = connections(alloc, findings.table(), known, tree)?;
    ask_all(findings, &all);
    Ok(())
}
