//! One tick of a process of waits and nonblocking assignments.
ghost use Rattle.std.specs.Prelude.{◌≡◌, ◌≤◌, ◌<◌, ◌==◌, ◌^◌, ◌∷◌, [], ℕ, suc, true, if◌then◌else◌, IfOk, OnOk, IsSomeAnd, length, slice_get, All};
ghost use Rattle.xt_bits.specs.Word.{word, truth};
ghost use Rattle.xt_bits.specs.Operators.{add_of, or_of, any_of};
ghost use Rattle.el_design.specs.Plain.{Assign, ToVariable};
ghost use Rattle.el_design.specs.View.{expr_of, statement_of};
ghost use Rattle.nt_core.specs.Conditions.{Drive};
ghost use Rattle.nt_core.specs.NodeValue.{node_value};
ghost use Rattle.el_design.specs.Names.{no_place};
ghost use Rattle.xt_compile.specs.first.Form.{IsSumOf, IsStatement, var_widths, net_widths};
ghost use Rattle.xt_compile.specs.first.Machine.{is_wait, before, statements_of};
ghost use Rattle.xt_compile.specs.first.Nodes.{Means, Assigns, Steps, HasWidth, IsMap, run_from, waits, state_width};

use crate::first::compile::expression::{ValueMap, lower};
use el_design::{Design, Stmt, TExpr, Target};
use nt_core::{Builder, Op};
use std::alloc::Global;
use xt_base::{Item, NoMemory};
use xt_bits::Bits;

/// The width of a control point, in bits.
pub const STATE_WIDTH: u32 = 16;

/// The nodes of the next values: of each variable, and then of the control point, which `state` reads.
///
/// From a control point the process runs to the next wait. All right sides read the registers, and of several
/// assignments to one variable the last counts. What stands before the first wait runs from the last wait and, in the
/// first tick, from the start.
pub fn step(
    alloc: Global,
    design: &Design,
    body: &[Stmt],
    map: &ValueMap,
    state: u32,
    builder: &mut Builder,
) -> Result<Vec<u32>, NoMemory>
    requires map { IsMap design.now builder.old map.now }
    requires state { HasWidth builder.old state state_width }
    requires body { All (λ s. IsStatement (var_widths design.now) (net_widths design.now) (statement_of s)) body.now }
    ensures { IfOk result (λ nexts. Steps design.now builder.old builder.new map.now state (statements_of body.now) nexts.items) }
{
    let mut nexts = Vec::from_slice(alloc, map.vars.as_slice())?;
    let start = is_at(design, state, 0, builder)?;
    let first = first_wait(body);
    let last = after_waits(design, &body[first..], map, state, &mut nexts, builder)?;
    let next_state = next_point(design, state, last, builder)?;
    let here = either(design, last, start, builder)?;
    assign_all(design, &body[..first], map, here, &mut nexts, builder)?;
    nexts.push(next_state)?;
    Ok(nexts)
}

/// Runs the statements from the first wait on, each from the wait before it, and answers whether the process is at the
/// last wait.
fn after_waits(
    design: &Design,
    statements: &[Stmt],
    map: &ValueMap,
    state: u32,
    nexts: &mut Vec<u32>,
    builder: &mut Builder,
) -> Result<u32, NoMemory>
    requires map { IsMap design.now builder.old map.now }
    requires state { HasWidth builder.old state state_width }
    requires nexts { Drive builder.old nexts.old.items (var_widths design.now) }
    requires statements { All (λ s. IsStatement (var_widths design.now) (net_widths design.now) (statement_of s)) statements.now }
    ensures points { OnOk result (waits (statements_of statements.now) < 2 ^ state_width) }
    ensures last { IfOk result (λ last. Means design.now builder.old builder.new last 1 (λ s. truth ((node_value builder.old s state).value == waits (statements_of statements.now)))) }
    ensures nexts { OnOk result (Assigns design.now builder.old builder.new map.now nexts.old.items nexts.new.items (λ s. run_from (node_value builder.old s state).value 0 (statements_of statements.now))) }
{
    let mut point = 0;
    let mut here = is_at(design, state, point, builder)?;
    for statement in statements {
        if is_wait(statement) {
            point = point_behind(point)?;
            here = is_at(design, state, point, builder)?;
        } else {
            assign(design, statement, map, here, nexts, builder)?;
        }
    }
    Ok(here)
}

/// Runs assignments, where the process comes to them in this tick.
fn assign_all(
    design: &Design,
    statements: &[Stmt],
    map: &ValueMap,
    here: u32,
    nexts: &mut Vec<u32>,
    builder: &mut Builder,
) -> Result<(), NoMemory>
    requires map { IsMap design.now builder.old map.now }
    requires here { HasWidth builder.old here 1 }
    requires nexts { Drive builder.old nexts.old.items (var_widths design.now) }
    requires statements { All (λ s. IsStatement (var_widths design.now) (net_widths design.now) (statement_of s)) statements.now }
    ensures { OnOk result (Assigns design.now builder.old builder.new map.now nexts.old.items nexts.new.items (λ s. if any_of (node_value builder.old s here) then statements_of statements.now else [])) }
{
    for statement in statements {
        assign(design, statement, map, here, nexts, builder)?;
    }
    Ok(())
}

/// Runs an assignment, where the process comes to it in this tick. Another statement does nothing.
fn assign(
    design: &Design,
    statement: &Stmt,
    map: &ValueMap,
    here: u32,
    nexts: &mut Vec<u32>,
    builder: &mut Builder,
) -> Result<(), NoMemory>
    requires map { IsMap design.now builder.old map.now }
    requires here { HasWidth builder.old here 1 }
    requires nexts { Drive builder.old nexts.old.items (var_widths design.now) }
    requires statement { IsStatement (var_widths design.now) (net_widths design.now) (statement_of statement.now) }
    ensures { OnOk result (Assigns design.now builder.old builder.new map.now nexts.old.items nexts.new.items (λ s. if any_of (node_value builder.old s here) then statement_of statement.now ∷ [] else [])) }
{
    match statement {
        Stmt::Assign { to, value, .. } => match to {
            Target::Var(var) => set_next(design, *var, value, map, here, nexts, builder),
            _ => Ok(()),
        },
        _ => Ok(()),
    }
}

/// Gives a variable the expression as its next value, where a condition is up.
fn set_next(
    design: &Design,
    var: u32,
    value: &TExpr,
    map: &ValueMap,
    here: u32,
    nexts: &mut Vec<u32>,
    builder: &mut Builder,
) -> Result<(), NoMemory>
    requires map { IsMap design.now builder.old map.now }
    requires here { HasWidth builder.old here 1 }
    requires nexts { Drive builder.old nexts.old.items (var_widths design.now) }
    requires value { IsSomeAnd (slice_get (var_widths design.now) var) (λ w. IsSumOf (var_widths design.now) (net_widths design.now) w (expr_of value.now)) }
    ensures { OnOk result (Assigns design.now builder.old builder.new map.now nexts.old.items nexts.new.items (λ s. if any_of (node_value builder.old s here) then Assign no_place (ToVariable var) (expr_of value.now) true ∷ [] else [])) }
{
    let value = lower(design, value, map, builder)?;
    let place = var as usize;
    let next = choice(design, here, value, nexts[place], builder)?;
    nexts[place] = next;
    Ok(())
}

/// The place of the first wait, or the length where there is none.
fn first_wait(body: &[Stmt]) -> usize
    ensures place { result ≡ length (before (statements_of body.now)) }
    ensures within { result ≤ length body.now }
{
    body.iter()
        .position(|statement| is_wait(statement))
        .unwrap_or(body.len())
}

fn is_wait(statement: &Stmt) -> bool
    ensures { result ≡ is_wait (statement_of statement.now) }
{
    matches!(statement, Stmt::Wait { .. })
}

/// The control point of the wait behind this one. There is none where a process has more waits than a register counts.
fn point_behind(point: u16) -> Result<u16, NoMemory>
    ensures { IfOk result (λ next. (next ≡ suc point) × (next < 2 ^ state_width)) }
{
    match point.checked_add(1) {
        Some(next) => Ok(next),
        None => Err(NoMemory),
    }
}

/// Whether the process is at a control point.
fn is_at(design: &Design, state: u32, point: u16, builder: &mut Builder) -> Result<u32, NoMemory>
    requires { HasWidth builder.old state state_width }
    ensures { IfOk result (λ node. Means design.now builder.old builder.new node 1 (λ s. truth ((node_value builder.old s state).value == point))) }
{
    let point = constant(design, point, builder)?;
    builder.node(Op::Eq(state, point))
}

/// The control point behind the one that `state` reads: the first wait behind the last.
fn next_point(
    design: &Design,
    state: u32,
    last: u32,
    builder: &mut Builder,
) -> Result<u32, NoMemory>
    requires state { HasWidth builder.old state state_width }
    requires last { HasWidth builder.old last 1 }
    ensures { IfOk result (λ node. Means design.now builder.old builder.new node state_width (λ s. if any_of (node_value builder.old s last) then word state_width 1 else add_of (node_value builder.old s state) (word state_width 1))) }
{
    let one = constant(design, 1, builder)?;
    let further = plus(design, state, one, builder)?;
    choice(design, last, one, further, builder)
}

/// A control point.
fn constant(design: &Design, point: u16, builder: &mut Builder) -> Result<u32, NoMemory>
    ensures { IfOk result (λ node. Means design.now builder.old builder.new node state_width (λ s. word state_width point)) }
{
    builder.node(Op::Const(Bits::new(STATE_WIDTH, Item::from(point))))
}

fn plus(design: &Design, left: u32, right: u32, builder: &mut Builder) -> Result<u32, NoMemory>
    requires left { HasWidth builder.old left state_width }
    requires right { HasWidth builder.old right state_width }
    ensures { IfOk result (λ node. Means design.now builder.old builder.new node state_width (λ s. add_of (node_value builder.old s left) (node_value builder.old s right))) }
{
    builder.node(Op::Add(left, right))
}

fn either(design: &Design, left: u32, right: u32, builder: &mut Builder) -> Result<u32, NoMemory>
    requires left { HasWidth builder.old left 1 }
    requires right { HasWidth builder.old right 1 }
    ensures { IfOk result (λ node. Means design.now builder.old builder.new node 1 (λ s. or_of (node_value builder.old s left) (node_value builder.old s right))) }
{
    builder.node(Op::Or(left, right))
}

fn choice(
    design: &Design,
    test: u32,
    yes: u32,
    other: u32,
    builder: &mut Builder,
) -> Result<u32, NoMemory>
    requires test { HasWidth builder.old test 1 }
    requires alike { (w : ℕ) × HasWidth builder.old yes w × HasWidth builder.old other w }
    ensures { (w : ℕ) → HasWidth builder.old yes w → IfOk result (λ node. Means design.now builder.old builder.new node w (λ s. if any_of (node_value builder.old s test) then node_value builder.old s yes else node_value builder.old s other)) }
{
    builder.node(Op::Choice(test, yes, other))
}
