//! Which variables of a function are surely assigned, and whether one is read before (IEEE 1364-2005, 10.4.4; the rest is this
//! project's own).
ghost use Rattle.std.specs.Prelude.{◌≡◌, ◌++◌, ◌∷◌, ◌||◌, [], OnOk, IfOk, List, map, flat_map};
ghost use Rattle.el_design.specs.Purity.{both_of, assigned_after};
ghost use Rattle.el_design.specs.View.{expr_of, statement_of, seq_of, arm_of, func_of, lvalue_of};
ghost use Rattle.el_design.specs.Names.{whole_variables};
ghost use Rattle.ck_call.specs.inner.Nodes.{named, own_named};
ghost use Rattle.ck_call.specs.inner.Breaks.{fails};
ghost use Rattle.ck_call.specs.inner.Assigned.{is_unassigned, node_early, any_early, early_by, arms_after, arms_early};

use crate::lines::put_own;
use crate::nodes::{Node, put_nodes};
use crate::targets::put_number;
use el_design::{Arm, Func, Stmt, TExpr, Target};
use sqlite_items::Items;
use std::alloc::Global;
use xt_base::NoMemory;

// ---- whole variables

/// Adds the variables of which targets store the whole.
#[cycle(whole)]
fn put_all_whole(into: &mut Items<u32>, targets: &[Target]) -> Result<(), NoMemory>
    ensures { OnOk result (into.new ≡ into.old ++ flat_map whole_variables (map lvalue_of targets.now)) }
{
    for target in targets {
        put_whole(into, target)?;
    }
    Ok(())
}

/// Adds the variables of which a target stores the whole.
#[cycle(whole)]
fn put_whole(into: &mut Items<u32>, target: &Target) -> Result<(), NoMemory>
    ensures { OnOk result (into.new ≡ into.old ++ whole_variables (lvalue_of target.now)) }
{
    match target {
        Target::Var(number) => put_number(into, *number),
        Target::Part(_, _) => Ok(()),
        Target::Word(_, _) => Ok(()),
        Target::WordPart(_, _, _) => Ok(()),
        Target::Concat(parts) => put_all_whole(into, parts.as_slice()),
    }
}

// ---- reads

/// Whether a variable is watched and not assigned.
fn is_unassigned(watched: &[u32], before: &[u32], variable: u32) -> bool
    ensures { result ≡ is_unassigned watched.now before.now variable }
{
    watched.contains(&variable) && !before.contains(&variable)
}

/// Whether a node reads a variable too early.
fn node_early(watched: &[u32], before: &[u32], node: Node) -> bool
    ensures { result ≡ node_early watched.now before.now node }
{
    match node {
        Node::Var(number) => is_unassigned(watched, before, number),
        Node::Word(number) => is_unassigned(watched, before, number),
        Node::Net(_) => false,
        Node::Call(_, _) => false,
        Node::Resize => false,
        Node::Other => false,
    }
}

/// Whether one of the nodes reads a variable too early.
fn any_early(watched: &[u32], before: &[u32], nodes: &[Node]) -> bool
    ensures { result ≡ any_early watched.now before.now nodes.now }
{
    for node in nodes {
        if node_early(watched, before, *node) {
            return true;
        }
    }
    false
}

/// Whether an expression reads a variable too early.
fn expr_early(
    alloc: Global,
    watched: &[u32],
    before: &[u32],
    expr: &TExpr,
) -> Result<bool, NoMemory>
    ensures { IfOk result (λ early. early ≡ any_early watched.now before.now (named (expr_of expr.now))) }
{
    let mut nodes = Items::new(alloc);
    put_nodes(&mut nodes, expr)?;
    Ok(any_early(watched, before, nodes.as_slice()))
}

/// Whether a statement itself reads a variable too early.
fn own_early(alloc: Global, watched: &[u32], before: &[u32], stmt: &Stmt) -> Result<bool, NoMemory>
    ensures { IfOk result (λ early. early ≡ any_early watched.now before.now (own_named (statement_of stmt.now))) }
{
    let mut nodes = Items::new(alloc);
    put_own(&mut nodes, stmt)?;
    Ok(any_early(watched, before, nodes.as_slice()))
}

/// The header of a `for` up to its test: assigns its variable, and answers whether it reads one too early.
fn begin_loop(
    alloc: Global,
    watched: &[u32],
    before: &mut Items<u32>,
    var: u32,
    first: &TExpr,
    test: &TExpr,
) -> Result<bool, NoMemory>
    ensures early { IfOk result (λ early. early ≡ (any_early watched.now before.old (named (expr_of first.now)) || any_early watched.now (before.old ++ var ∷ []) (named (expr_of test.now)))) }
    ensures after { OnOk result (before.new ≡ before.old ++ var ∷ []) }
{
    let first_early = expr_early(alloc, watched, before.as_slice(), first)?;
    put_number(before, var)?;
    let test_early = expr_early(alloc, watched, before.as_slice(), test)?;
    Ok(either(first_early, test_early))
}

/// Whether one of two holds.
fn either(one: bool, other: bool) -> bool
    ensures { result ≡ (one || other) }
{
    one || other
}

// ---- statements

/// Adds the variables of which output arguments and the target of a result store the whole.
fn put_call(into: &mut Items<u32>, outs: &[Target], target: &Target) -> Result<(), NoMemory>
    ensures { OnOk result (into.new ≡ into.old ++ flat_map whole_variables (map lvalue_of outs.now ++ lvalue_of target.now ∷ [])) }
{
    put_all_whole(into, outs)?;
    put_whole(into, target)
}

/// The numbers of one list that another has too.
fn both_of(alloc: Global, ones: &[u32], others: &[u32]) -> Result<Items<u32>, NoMemory>
    ensures { IfOk result (λ both. both ≡ both_of ones.now others.now) }
{
    let mut both = Items::new(alloc);
    for one in ones {
        if others.contains(one) {
            both.push(*one)?;
        }
    }
    Ok(both)
}

fn copy(alloc: Global, numbers: &[u32]) -> Result<Items<u32>, NoMemory>
    ensures { IfOk result (λ copy. copy ≡ numbers.now) }
{
    let copy = Items::from_slice(alloc, numbers)?;
    Ok(copy)
}

/// Scans statements, one after the other.
#[cycle(scan)]
fn scan_block(
    alloc: Global,
    watched: &[u32],
    before: &mut Items<u32>,
    stmts: &[Stmt],
) -> Result<bool, NoMemory>
    ensures early { IfOk result (λ early. early ≡ early_by watched.now before.old (seq_of (map statement_of stmts.now))) }
    ensures after { OnOk result (before.new ≡ assigned_after before.old (seq_of (map statement_of stmts.now))) }
{
    let mut early = false;
    for stmt in stmts {
        let more = scan(alloc, watched, before, stmt)?;
        early = either(early, more);
    }
    Ok(early)
}

/// Scans the arms of a `case`, the last first; `rest` is what its default leaves, and then what the `case` leaves.
#[cycle(scan)]
fn scan_arms(
    alloc: Global,
    watched: &[u32],
    before: &[u32],
    rest: &mut Items<u32>,
    arms: &[Arm],
) -> Result<bool, NoMemory>
    ensures early { IfOk result (λ early. early ≡ arms_early watched.now before.now (map arm_of arms.now)) }
    ensures after { OnOk result (rest.new ≡ arms_after before.now (map arm_of arms.now) rest.old) }
{
    let mut early = false;
    let mut left = arms.len();
    while left > 0 {
        left -= 1;
        let mut inside = copy(alloc, before)?;
        let more = scan(alloc, watched, &mut inside, &arms[left].body)?;
        *rest = both_of(alloc, inside.as_slice(), rest.as_slice())?;
        early = either(more, early);
    }
    Ok(early)
}

/// Whether a statement reads one of the watched variables before it is surely assigned; `before` is what is surely assigned
/// before the statement, and then after it.
#[cycle(scan)]
fn scan(
    alloc: Global,
    watched: &[u32],
    before: &mut Items<u32>,
    stmt: &Stmt,
) -> Result<bool, NoMemory>
    ensures early { IfOk result (λ early. early ≡ early_by watched.now before.old (statement_of stmt.now)) }
    ensures after { OnOk result (before.new ≡ assigned_after before.old (statement_of stmt.now)) }
{
    match stmt {
        Stmt::Block { body, .. } => scan_block(alloc, watched, before, body.as_slice()),
        Stmt::Assign {
            to,
            held: false,
            ..
        } => {
            let early = own_early(alloc, watched, before.as_slice(), stmt)?;
            put_whole(before, to)?;
            Ok(early)
        }
        Stmt::Assign { held: true, .. } => own_early(alloc, watched, before.as_slice(), stmt),
        Stmt::If { test, yes, no, .. } => {
            let own = expr_early(alloc, watched, before.as_slice(), test)?;
            let mut other = copy(alloc, before.as_slice())?;
            let first = scan(alloc, watched, before, yes.get())?;
            let second = scan(alloc, watched, &mut other, no.get())?;
            *before = both_of(alloc, before.as_slice(), other.as_slice())?;
            Ok(either(either(own, first), second))
        }
        Stmt::Case { arms, other, .. } => {
            let own = own_early(alloc, watched, before.as_slice(), stmt)?;
            let mut rest = copy(alloc, before.as_slice())?;
            let default = scan(alloc, watched, &mut rest, other.get())?;
            let chosen = scan_arms(
                alloc,
                watched,
                before.as_slice(),
                &mut rest,
                arms.as_slice(),
            )?;
            *before = rest;
            Ok(either(own, either(chosen, default)))
        }
        Stmt::For {
            var,
            first,
            test,
            next,
            body,
            ..
        } => {
            let header = begin_loop(alloc, watched, before, *var, first, test)?;
            let mut inside = copy(alloc, before.as_slice())?;
            let body = scan(alloc, watched, &mut inside, body.get())?;
            let step = expr_early(alloc, watched, inside.as_slice(), next)?;
            Ok(either(either(header, body), step))
        }
        Stmt::While { test, body, .. } => {
            let own = expr_early(alloc, watched, before.as_slice(), test)?;
            let mut inside = copy(alloc, before.as_slice())?;
            let body = scan(alloc, watched, &mut inside, body.get())?;
            Ok(either(own, body))
        }
        Stmt::Repeat { count, body, .. } => {
            let own = expr_early(alloc, watched, before.as_slice(), count)?;
            let mut inside = copy(alloc, before.as_slice())?;
            let body = scan(alloc, watched, &mut inside, body.get())?;
            Ok(either(own, body))
        }
        Stmt::Forever { body, .. } => {
            let mut inside = copy(alloc, before.as_slice())?;
            scan(alloc, watched, &mut inside, body.get())
        }
        Stmt::Enable { outs, .. } => {
            let early = own_early(alloc, watched, before.as_slice(), stmt)?;
            put_all_whole(before, outs.as_slice())?;
            Ok(early)
        }
        Stmt::Host {
            result: None,
            outs,
            ..
        } => {
            let early = own_early(alloc, watched, before.as_slice(), stmt)?;
            put_all_whole(before, outs.as_slice())?;
            Ok(early)
        }
        Stmt::Host {
            result: Some(target),
            outs,
            ..
        } => {
            let early = own_early(alloc, watched, before.as_slice(), stmt)?;
            put_call(before, outs.as_slice(), target)?;
            Ok(early)
        }
        Stmt::Null => Ok(false),
        Stmt::Wait { .. } => Ok(false),
        Stmt::Disable { .. } => Ok(false),
    }
}

/// The locals and the result of a function, which no call assigns.
fn watched(alloc: Global, func: &Func) -> Result<Items<u32>, NoMemory>
    ensures { IfOk result (λ watched. watched ≡ (func_of func.now).locals ++ (func_of func.now).result ∷ []) }
{
    let mut watched = copy(alloc, func.locals.as_slice())?;
    put_number(&mut watched, func.result)?;
    Ok(watched)
}

/// Whether a function reads a local or its result before it is surely assigned, or leaves its result.
pub(crate) fn is_misread(alloc: Global, func: &Func) -> Result<bool, NoMemory>
    ensures { IfOk result (λ broken. broken ≡ fails (func_of func.now)) }
{
    let watched = watched(alloc, func)?;
    let mut assigned = copy(alloc, func.ins.as_slice())?;
    let early = scan(alloc, watched.as_slice(), &mut assigned, &func.body)?;
    Ok(either(early, !assigned.as_slice().contains(&func.result)))
}
