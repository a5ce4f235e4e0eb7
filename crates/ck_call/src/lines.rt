//! A text as a list: a line for each statement, with all that the statement itself is, names, stores to and weighs.
ghost use Rattle.std.specs.Prelude.{◌≡◌, ◌++◌, ◌∷◌, [], OnOk, IfOk, List, map, flat_map};
ghost use Rattle.el_design.specs.Names.{place_of_statement};
ghost use Rattle.el_design.specs.View.{statement_of, seq_of, arm_of, expr_of, exprs_of, lvalue_of, parts_of};
ghost use Rattle.ck_call.specs.inner.Nodes.{named, named_all, indexes_named, own_named, arms_named};
ghost use Rattle.ck_call.specs.inner.Weights.{capped, base_weight, own_targets_weight, own_weight};
ghost use Rattle.ck_call.specs.inner.Lines.{form_of, own_stored, line_of, lines, arms_lines};

use crate::nodes::{Node, put_all, put_nodes};
use crate::targets::{
    any_nowhere, parts_weight, put_all_indexes, put_all_stored, put_indexes, put_number,
    put_stored, target_weight,
};
use crate::weights::{add, nodes_weight};
use el_design::{Arm, Stmt, TExpr, Target};
use sqlite_items::Items;
use std::alloc::Global;
use xt_base::{NoMemory, Place};

/// What a statement is, as far as the rules ask.
#[derive(Clone, Copy, Debug, PartialEq, Eq)]
pub(crate) enum Form {
    /// A named block, by its mark.
    Named(u32),
    /// A nonblocking assignment.
    Held,
    Wait,
    Enable(Call),
    Disable(u32),
    /// A call of an import; it gives its result to a target or has none.
    Host(Call, bool),
    Other,
}

/// An enable or call by a statement: its number, how many inputs and outputs it hands over, and whether one of the
/// outputs can't be stored to.
#[derive(Clone, Copy, Debug, PartialEq, Eq)]
pub(crate) struct Call {
    pub number: u32,
    pub ins: usize,
    pub outs: usize,
    pub nowhere: bool,
}

/// A statement by itself, without those that stand in it; or the expression of a net.
#[derive(Debug, Drop)]
pub(crate) struct Line {
    pub at: Place,
    pub form: Form,
    /// The nodes of its expressions.
    pub nodes: Items<Node>,
    /// The variables that it stores to.
    pub stored: Items<u32>,
    /// Its size without the bodies of what it enables and calls.
    pub weight: u32,
}

/// The place of a statement.
fn place_of(stmt: &Stmt) -> Place
    ensures { result ≡ place_of_statement (statement_of stmt.now) }
{
    match stmt {
        Stmt::Null => Place {
            file: 0,
            line: 0,
            instance: 0,
        },
        Stmt::Block { at, .. } => *at,
        Stmt::Assign { at, .. } => *at,
        Stmt::If { at, .. } => *at,
        Stmt::Case { at, .. } => *at,
        Stmt::For { at, .. } => *at,
        Stmt::While { at, .. } => *at,
        Stmt::Repeat { at, .. } => *at,
        Stmt::Forever { at, .. } => *at,
        Stmt::Wait { at, .. } => *at,
        Stmt::Enable { at, .. } => *at,
        Stmt::Disable { at, .. } => *at,
        Stmt::Host { at, .. } => *at,
    }
}

/// What a statement is.
fn form_of(stmt: &Stmt) -> Form
    ensures { result ≡ form_of (statement_of stmt.now) }
{
    match stmt {
        Stmt::Block {
            mark: Some(mark),
            ..
        } => Form::Named(*mark),
        Stmt::Block { mark: None, .. } => Form::Other,
        Stmt::Assign { held: true, .. } => Form::Held,
        Stmt::Assign { held: false, .. } => Form::Other,
        Stmt::Wait { .. } => Form::Wait,
        Stmt::Enable {
            task,
            ins,
            outs,
            ..
        } => Form::Enable(Call {
            number: *task,
            ins: ins.len(),
            outs: outs.len(),
            nowhere: any_nowhere(outs.as_slice()),
        }),
        Stmt::Disable { mark, .. } => Form::Disable(*mark),
        Stmt::Host {
            import,
            ins,
            result,
            outs,
            ..
        } => Form::Host(
            Call {
                number: *import,
                ins: ins.len(),
                outs: outs.len(),
                nowhere: any_nowhere(outs.as_slice()),
            },
            result.is_some(),
        ),
        Stmt::Null => Form::Other,
        Stmt::If { .. } => Form::Other,
        Stmt::Case { .. } => Form::Other,
        Stmt::For { .. } => Form::Other,
        Stmt::While { .. } => Form::Other,
        Stmt::Repeat { .. } => Form::Other,
        Stmt::Forever { .. } => Form::Other,
    }
}

/// Adds the nodes of the labels of the arms of a `case`.
fn put_labels(into: &mut Items<Node>, arms: &[Arm]) -> Result<(), NoMemory>
    ensures { OnOk result (into.new ≡ into.old ++ arms_named (map arm_of arms.now)) }
{
    for arm in arms {
        put_all(into, arm.labels.as_slice())?;
    }
    Ok(())
}

/// Adds the nodes of the expressions of a `case`.
fn put_choice(into: &mut Items<Node>, on: &TExpr, arms: &[Arm]) -> Result<(), NoMemory>
    ensures { OnOk result (into.new ≡ into.old ++ (named (expr_of on.now) ++ arms_named (map arm_of arms.now))) }
{
    put_nodes(into, on)?;
    put_labels(into, arms)
}

/// Adds the nodes of the header of a `for`.
fn put_header(
    into: &mut Items<Node>,
    first: &TExpr,
    test: &TExpr,
    next: &TExpr,
) -> Result<(), NoMemory>
    ensures { OnOk result (into.new ≡ into.old ++ (named (expr_of first.now) ++ named (expr_of test.now) ++ named (expr_of next.now))) }
{
    put_nodes(into, first)?;
    put_nodes(into, test)?;
    put_nodes(into, next)
}

/// Adds the nodes of arguments: of inputs, and of the indexes in outputs.
fn put_arguments(into: &mut Items<Node>, ins: &[TExpr], outs: &[Target]) -> Result<(), NoMemory>
    ensures { OnOk result (into.new ≡ into.old ++ (named_all (exprs_of (map expr_of ins.now)) ++ indexes_named (parts_of (map lvalue_of outs.now)))) }
{
    put_all(into, ins)?;
    put_all_indexes(into, outs)
}

/// Adds the nodes of arguments, and between them those of the indexes in the target of the result.
fn put_call(
    into: &mut Items<Node>,
    ins: &[TExpr],
    target: &Target,
    outs: &[Target],
) -> Result<(), NoMemory>
    ensures { OnOk result (into.new ≡ into.old ++ (named_all (exprs_of (map expr_of ins.now)) ++ indexes_named (lvalue_of target.now) ++ indexes_named (parts_of (map lvalue_of outs.now)))) }
{
    put_all(into, ins)?;
    put_indexes(into, target)?;
    put_all_indexes(into, outs)
}

/// Adds the nodes of a statement's own expressions.
pub(crate) fn put_own(into: &mut Items<Node>, stmt: &Stmt) -> Result<(), NoMemory>
    ensures { OnOk result (into.new ≡ into.old ++ own_named (statement_of stmt.now)) }
{
    match stmt {
        Stmt::Assign { to, value, .. } => {
            put_indexes(into, to)?;
            put_nodes(into, value)
        }
        Stmt::If { test, .. } => put_nodes(into, test),
        Stmt::Case { on, arms, .. } => put_choice(into, on, arms.as_slice()),
        Stmt::For {
            first,
            test,
            next,
            ..
        } => put_header(into, first, test, next),
        Stmt::While { test, .. } => put_nodes(into, test),
        Stmt::Repeat { count, .. } => put_nodes(into, count),
        Stmt::Enable { ins, outs, .. } => put_arguments(into, ins.as_slice(), outs.as_slice()),
        Stmt::Host {
            ins,
            result: None,
            outs,
            ..
        } => put_arguments(into, ins.as_slice(), outs.as_slice()),
        Stmt::Host {
            ins,
            result: Some(target),
            outs,
            ..
        } => put_call(into, ins.as_slice(), target, outs.as_slice()),
        Stmt::Null => Ok(()),
        Stmt::Block { .. } => Ok(()),
        Stmt::Forever { .. } => Ok(()),
        Stmt::Wait { .. } => Ok(()),
        Stmt::Disable { .. } => Ok(()),
    }
}

/// Adds the variables that a statement itself stores to.
fn put_own_stored(into: &mut Items<u32>, stmt: &Stmt) -> Result<(), NoMemory>
    ensures { OnOk result (into.new ≡ into.old ++ own_stored (statement_of stmt.now)) }
{
    match stmt {
        Stmt::Assign { to, .. } => put_stored(into, to),
        Stmt::For { var, .. } => put_number(into, *var),
        Stmt::Enable { outs, .. } => put_all_stored(into, outs.as_slice()),
        Stmt::Host {
            result: None,
            outs,
            ..
        } => put_all_stored(into, outs.as_slice()),
        Stmt::Host {
            result: Some(target),
            outs,
            ..
        } => {
            put_stored(into, target)?;
            put_all_stored(into, outs.as_slice())
        }
        Stmt::Null => Ok(()),
        Stmt::Block { .. } => Ok(()),
        Stmt::If { .. } => Ok(()),
        Stmt::Case { .. } => Ok(()),
        Stmt::While { .. } => Ok(()),
        Stmt::Repeat { .. } => Ok(()),
        Stmt::Forever { .. } => Ok(()),
        Stmt::Wait { .. } => Ok(()),
        Stmt::Disable { .. } => Ok(()),
    }
}

/// The size of a statement beside its expressions, its targets and the statements in it.
fn base_weight(stmt: &Stmt) -> u32
    ensures { result ≡ base_weight (statement_of stmt.now) }
{
    match stmt {
        Stmt::For { .. } => 3,
        Stmt::Repeat { .. } => 2,
        Stmt::Enable { .. } => 2,
        Stmt::Host { .. } => 2,
        Stmt::Null => 1,
        Stmt::Block { .. } => 1,
        Stmt::Assign { .. } => 1,
        Stmt::If { .. } => 1,
        Stmt::Case { .. } => 1,
        Stmt::While { .. } => 1,
        Stmt::Forever { .. } => 1,
        Stmt::Wait { .. } => 1,
        Stmt::Disable { .. } => 1,
    }
}

/// The size of a statement's targets beside their indexes.
fn targets_weight(stmt: &Stmt) -> u32
    ensures { result ≡ capped (own_targets_weight (statement_of stmt.now)) }
{
    match stmt {
        Stmt::Assign { to, .. } => target_weight(to),
        Stmt::Enable { outs, .. } => parts_weight(outs.as_slice()),
        Stmt::Host {
            result: None,
            outs,
            ..
        } => parts_weight(outs.as_slice()),
        Stmt::Host {
            result: Some(target),
            outs,
            ..
        } => add(target_weight(target), parts_weight(outs.as_slice())),
        Stmt::Null => 0,
        Stmt::Block { .. } => 0,
        Stmt::If { .. } => 0,
        Stmt::Case { .. } => 0,
        Stmt::For { .. } => 0,
        Stmt::While { .. } => 0,
        Stmt::Repeat { .. } => 0,
        Stmt::Forever { .. } => 0,
        Stmt::Wait { .. } => 0,
        Stmt::Disable { .. } => 0,
    }
}

/// The line of a statement.
fn line_of(alloc: Global, stmt: &Stmt) -> Result<Line, NoMemory>
    ensures { IfOk result (λ line. line ≡ line_of (statement_of stmt.now)) }
{
    let mut nodes = Items::new(alloc);
    put_own(&mut nodes, stmt)?;
    let mut stored = Items::new(alloc);
    put_own_stored(&mut stored, stmt)?;
    let beside = add(base_weight(stmt), targets_weight(stmt));
    let weight = add(beside, nodes_weight(nodes.as_slice()));
    Ok(Line {
        at: place_of(stmt),
        form: form_of(stmt),
        nodes,
        stored,
        weight,
    })
}

/// Adds the line of a statement.
fn put_line(alloc: Global, into: &mut Items<Line>, stmt: &Stmt) -> Result<(), NoMemory>
    ensures { OnOk result (into.new ≡ into.old ++ line_of (statement_of stmt.now) ∷ []) }
{
    let line = line_of(alloc, stmt)?;
    into.push(line)?;
    Ok(())
}

/// Adds the lines of statements, one after the other.
#[cycle(lines)]
fn put_block(alloc: Global, into: &mut Items<Line>, stmts: &[Stmt]) -> Result<(), NoMemory>
    ensures { OnOk result (into.new ≡ into.old ++ lines (seq_of (map statement_of stmts.now))) }
{
    for stmt in stmts {
        put_lines(alloc, into, stmt)?;
    }
    Ok(())
}

/// Adds the lines of the arms of a `case`.
#[cycle(lines)]
fn put_arms(alloc: Global, into: &mut Items<Line>, arms: &[Arm]) -> Result<(), NoMemory>
    ensures { OnOk result (into.new ≡ into.old ++ arms_lines (map arm_of arms.now)) }
{
    for arm in arms {
        put_lines(alloc, into, &arm.body)?;
    }
    Ok(())
}

/// Adds the lines of the statements of a text: of a statement, and of all that stand in it.
#[cycle(lines)]
pub(crate) fn put_lines(alloc: Global, into: &mut Items<Line>, stmt: &Stmt) -> Result<(), NoMemory>
    ensures { OnOk result (into.new ≡ into.old ++ lines (statement_of stmt.now)) }
{
    put_line(alloc, into, stmt)?;
    match stmt {
        Stmt::Block { body, .. } => put_block(alloc, into, body.as_slice()),
        Stmt::If { yes, no, .. } => {
            put_lines(alloc, into, yes.get())?;
            put_lines(alloc, into, no.get())
        }
        Stmt::Case { arms, other, .. } => {
            put_arms(alloc, into, arms.as_slice())?;
            put_lines(alloc, into, other.get())
        }
        Stmt::For { body, .. } => put_lines(alloc, into, body.get()),
        Stmt::While { body, .. } => put_lines(alloc, into, body.get()),
        Stmt::Repeat { body, .. } => put_lines(alloc, into, body.get()),
        Stmt::Forever { body, .. } => put_lines(alloc, into, body.get()),
        Stmt::Null => Ok(()),
        Stmt::Assign { .. } => Ok(()),
        Stmt::Wait { .. } => Ok(()),
        Stmt::Enable { .. } => Ok(()),
        Stmt::Disable { .. } => Ok(()),
        Stmt::Host { .. } => Ok(()),
    }
}
