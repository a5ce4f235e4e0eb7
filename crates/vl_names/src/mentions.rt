//! All names of a source where they stand, in the order of the text.
ghost use Rattle.std.specs.Prelude.{◌≡◌, ◌++◌, ◌∷◌, [], Some, None, OnOk, IfOk, map, flat_map, option_copied};
ghost use Rattle.vl_names.specs.declared.kinds.Role.TheVariants as role_is;
ghost use Rattle.vl_names.specs.declared.kinds.Mention.TheVariants.{Stands, Ends, Instantiates};
ghost use Rattle.vl_names.specs.Mentions.{all, both, named, selects_of, expr_names, select_names, lvalue_names, value_names, start_names, range_names, ranges_names};
ghost use Rattle.vl_names.specs.Mentions.{ptype_names, fdir_names, dir_names, local_names, arg_names, formals_names, args_names, iarg_names, plainly, plainly_all, stored, alone, each, or_no_values};
ghost use Rattle.vl_names.specs.Mentions.{assignment_names, counted_names, enable_names, locals_names, stmt_names, arm_names, plainly_maybe, named_names, conns_names, rname_names};
ghost use Rattle.vl_names.specs.Mentions.{values_names, wires_names, regs_names, integers_names, assign_names, assigns_names, task_names, function_names, iargs_names};
ghost use Rattle.vl_names.specs.Mentions.{instances_names, item_names, param_names, port_names, params_names, ports_names, module_names, tree_names};

use crate::kinds::{Mention, Role, Selects, Stand};
use sqlite_items::Items;
use std::alloc::Global;
use vl_tree::{
    Arg, Args, Binding, Citem, Conns, Declared, Dir, Expr, Fdir, Formal, Function, Iarg, Instance,
    Item, Local, Lvalue, Module, Named, Pdecl, Port, Ptype, Range, Rname, Select, Stmt, Task, Tree,
};
use xt_base::NoMemory;

/// A name in a role.
fn put(into: &mut Vec<Mention>, at: u32, role: Role, stand: Stand) -> Result<(), NoMemory>
    ensures { OnOk result (into.new.items ≡ into.old.items ++ Stands at role stand ∷ []) }
{
    into.push(Mention::Stands { at, role, stand })?;
    Ok(())
}

/// A name in a role, where no declaration rests on it.
fn put_alone(into: &mut Vec<Mention>, at: u32, role: Role, scope: u32) -> Result<(), NoMemory>
    ensures { OnOk result (into.new.items ≡ into.old.items ++ alone at role scope) }
{
    put(into, at, role, plain(scope))
}

/// Where no declaration rests on a name.
fn plain(scope: u32) -> Stand
    ensures { result ≡ record { scope = scope; before = None } }
{
    Stand {
        scope,
        before: None,
    }
}

/// How selects stand behind a name.
fn selects_of(selects: &[Select]) -> Selects
    ensures { result ≡ selects_of (map select_names selects.now) }
{
    match selects {
        [] => Selects::Alone,
        [Select::Index { .. }] => Selects::Index,
        [Select::Part { .. } | Select::Up { .. } | Select::Down { .. }] => Selects::Part,
        _ => Selects::Two,
    }
}

// ---- expressions and the left sides of assignments

/// The names of expressions, one after the other.
#[cycle(names)]
fn put_exprs(into: &mut Vec<Mention>, exprs: &[Expr], stand: Stand) -> Result<(), NoMemory>
    ensures { OnOk result (into.new.items ≡ into.old.items ++ all (map expr_names exprs.now) stand) }
{
    for expr in exprs {
        put_expr(into, expr, stand)?;
    }
    Ok(())
}

/// Those of selects.
#[cycle(names)]
fn put_selects(into: &mut Vec<Mention>, selects: &[Select], stand: Stand) -> Result<(), NoMemory>
    ensures { OnOk result (into.new.items ≡ into.old.items ++ all (map (λ s. s.names) (map select_names selects.now)) stand) }
{
    for select in selects {
        put_select(into, select, stand)?;
    }
    Ok(())
}

/// Those of a select.
#[cycle(names)]
fn put_select(into: &mut Vec<Mention>, select: &Select, stand: Stand) -> Result<(), NoMemory>
    ensures { OnOk result (into.new.items ≡ into.old.items ++ (select_names select.now).names stand) }
{
    match select {
        Select::Index { index, .. } => put_expr(into, index, stand),
        Select::Part { msb, lsb, .. } => {
            put_expr(into, msb, stand)?;
            put_expr(into, lsb, stand)
        }
        Select::Up { base, width, .. } | Select::Down { base, width, .. } => {
            put_expr(into, base, stand)?;
            put_expr(into, width, stand)
        }
    }
}

/// A name with its selects.
#[cycle(names)]
#[tactic(auto, using(crate::proofs::Lists::two, crate::proofs::Lists::one_more))]
fn put_name(
    into: &mut Vec<Mention>,
    name: u32,
    role: Role,
    selects: &[Select],
    stand: Stand,
) -> Result<(), NoMemory>
    ensures { OnOk result (into.new.items ≡ into.old.items ++ named name role (map select_names selects.now) stand) }
{
    put(into, name, role, stand)?;
    put_selects(into, selects, stand)
}

/// A call's name and arguments.
#[cycle(names)]
#[tactic(auto, using(crate::proofs::Lists::two, crate::proofs::Lists::one_more))]
fn put_call(into: &mut Vec<Mention>, name: u32, args: &[Expr], stand: Stand) -> Result<(), NoMemory>
    ensures { OnOk result (into.new.items ≡ into.old.items ++ both (named name role_is.Called []) (all (map expr_names args.now)) stand) }
{
    put(into, name, Role::Called, stand)?;
    put_exprs(into, args, stand)
}

/// The names of an expression.
#[cycle(names)]
#[tactic(auto, using(crate::proofs::Lists::two, crate::proofs::Lists::three, crate::proofs::Lists::chain))]
fn put_expr(into: &mut Vec<Mention>, expr: &Expr, stand: Stand) -> Result<(), NoMemory>
    ensures { OnOk result (into.new.items ≡ into.old.items ++ expr_names expr.now stand) }
{
    match expr {
        Expr::Choice {
            test,
            first,
            second,
            ..
        } => {
            put_expr(into, test.get(), stand)?;
            put_expr(into, first.get(), stand)?;
            put_expr(into, second.get(), stand)
        }
        Expr::Binary { left, right, .. } => {
            put_expr(into, left.get(), stand)?;
            put_expr(into, right.get(), stand)
        }
        Expr::Unary { operand, .. } => put_expr(into, operand.get(), stand),
        Expr::Based { .. } | Expr::Decimal { .. } => Ok(()),
        Expr::Name { name, selects, .. } => {
            let role = Role::Read(selects_of(selects.as_slice()));
            put_name(into, *name, role, selects.as_slice(), stand)
        }
        Expr::Call { name, args, .. } => put_call(into, *name, args.as_slice(), stand),
        Expr::Sign { value, .. } => put_expr(into, value.get(), stand),
        Expr::Concat { parts, .. } => put_exprs(into, parts.as_slice(), stand),
        Expr::Replicate { count, parts, .. } => {
            put_expr(into, count.get(), stand)?;
            put_exprs(into, parts.as_slice(), stand)
        }
    }
}

/// The names of left sides, one after the other.
#[cycle(target)]
fn put_targets(into: &mut Vec<Mention>, targets: &[Lvalue], stand: Stand) -> Result<(), NoMemory>
    ensures { OnOk result (into.new.items ≡ into.old.items ++ all (map lvalue_names targets.now) stand) }
{
    for target in targets {
        put_target(into, target, stand)?;
    }
    Ok(())
}

/// The names of the left side of an assignment.
#[cycle(target)]
fn put_target(into: &mut Vec<Mention>, target: &Lvalue, stand: Stand) -> Result<(), NoMemory>
    ensures { OnOk result (into.new.items ≡ into.old.items ++ lvalue_names target.now stand) }
{
    match target {
        Lvalue::Name { name, selects, .. } => {
            let role = Role::Stored(selects_of(selects.as_slice()));
            put_name(into, *name, role, selects.as_slice(), stand)
        }
        Lvalue::Concat { parts, .. } => put_targets(into, parts.as_slice(), stand),
    }
}

// ---- constant expressions of declarations

/// The names of the value of a name.
fn put_value(into: &mut Vec<Mention>, scope: u32, name: u32, value: &Expr) -> Result<(), NoMemory>
    ensures { OnOk result (into.new.items ≡ into.old.items ++ value_names scope name value.now) }
{
    let stand = Stand {
        scope,
        before: Some(name),
    };
    put_expr(into, value, stand)
}

/// The names of the value of a name, if it has one.
fn put_start(
    into: &mut Vec<Mention>,
    scope: u32,
    name: u32,
    value: &Option<Expr>,
) -> Result<(), NoMemory>
    ensures { OnOk result (into.new.items ≡ into.old.items ++ start_names scope name value.now) }
{
    match value {
        Some(value) => put_value(into, scope, name, value),
        None => Ok(()),
    }
}

/// The names of a range.
fn put_range(into: &mut Vec<Mention>, scope: u32, range: &Range) -> Result<(), NoMemory>
    ensures { OnOk result (into.new.items ≡ into.old.items ++ range_names scope range.now) }
{
    let stand = Stand {
        scope,
        before: Some(range.at),
    };
    put_expr(into, &range.msb, stand)?;
    put_expr(into, &range.lsb, stand)
}

/// The names of a range, if there is one.
fn put_ranges(into: &mut Vec<Mention>, scope: u32, range: Option<&Range>) -> Result<(), NoMemory>
    ensures { OnOk result (into.new.items ≡ into.old.items ++ ranges_names scope (option_copied range.entry)) }
{
    match range {
        Some(range) => put_range(into, scope, range),
        None => Ok(()),
    }
}

fn put_ptype(into: &mut Vec<Mention>, scope: u32, words: &Option<Ptype>) -> Result<(), NoMemory>
    ensures { OnOk result (into.new.items ≡ into.old.items ++ ptype_names scope words.now) }
{
    match words {
        Some(words) => put_ranges(into, scope, words.range()),
        None => Ok(()),
    }
}

fn put_fdir(into: &mut Vec<Mention>, scope: u32, words: &Option<Fdir>) -> Result<(), NoMemory>
    ensures { OnOk result (into.new.items ≡ into.old.items ++ fdir_names scope words.now) }
{
    match words {
        Some(words) => put_ranges(into, scope, words.range()),
        None => Ok(()),
    }
}

fn put_dir(into: &mut Vec<Mention>, scope: u32, words: &Option<Dir>) -> Result<(), NoMemory>
    ensures { OnOk result (into.new.items ≡ into.old.items ++ dir_names scope words.now) }
{
    match words {
        Some(words) => put_ranges(into, scope, words.range()),
        None => Ok(()),
    }
}

fn put_local(into: &mut Vec<Mention>, scope: u32, local: &Local) -> Result<(), NoMemory>
    ensures { OnOk result (into.new.items ≡ into.old.items ++ local_names scope local.now) }
{
    match local {
        Local::Reg { range, .. } => put_ranges(into, scope, range.as_ref()),
        Local::Integer { .. } => Ok(()),
    }
}

fn put_locals(into: &mut Vec<Mention>, scope: u32, locals: &[Local]) -> Result<(), NoMemory>
    ensures { OnOk result (into.new.items ≡ into.old.items ++ locals_names locals.now scope) }
{
    for local in locals {
        put_local(into, scope, local)?;
    }
    Ok(())
}

fn put_arg(into: &mut Vec<Mention>, scope: u32, arg: &Arg) -> Result<(), NoMemory>
    ensures { OnOk result (into.new.items ≡ into.old.items ++ arg_names scope arg.now) }
{
    match arg {
        Arg::Formals { fdir, .. } => put_ranges(into, scope, fdir.range()),
        Arg::Local { local, .. } => put_local(into, scope, local),
    }
}

fn put_declared_args(into: &mut Vec<Mention>, scope: u32, args: &[Arg]) -> Result<(), NoMemory>
    ensures { OnOk result (into.new.items ≡ into.old.items ++ flat_map (arg_names scope) args.now) }
{
    for arg in args {
        put_arg(into, scope, arg)?;
    }
    Ok(())
}

fn put_formals(into: &mut Vec<Mention>, scope: u32, formals: &[Formal]) -> Result<(), NoMemory>
    ensures { OnOk result (into.new.items ≡ into.old.items ++ formals_names scope formals.now) }
{
    for formal in formals {
        put_fdir(into, scope, &formal.fdir)?;
    }
    Ok(())
}

/// The names of the formals and locals of a task or function.
fn put_args(into: &mut Vec<Mention>, scope: u32, args: &Args) -> Result<(), NoMemory>
    ensures { OnOk result (into.new.items ≡ into.old.items ++ args_names scope args.now) }
{
    match args {
        Args::Listed {
            formals,
            locals,
            ..
        } => {
            put_formals(into, scope, formals.as_slice())?;
            put_locals(into, scope, locals.as_slice())
        }
        Args::Declared { args, .. } => put_declared_args(into, scope, args.as_slice()),
    }
}

fn put_iarg(into: &mut Vec<Mention>, scope: u32, arg: &Iarg) -> Result<(), NoMemory>
    ensures { OnOk result (into.new.items ≡ into.old.items ++ iarg_names scope arg.now) }
{
    match arg {
        Iarg::Bits { range, .. } => put_ranges(into, scope, range.as_ref()),
        Iarg::Number { .. } => Ok(()),
    }
}

fn put_iargs(into: &mut Vec<Mention>, scope: u32, args: &[Iarg]) -> Result<(), NoMemory>
    ensures { OnOk result (into.new.items ≡ into.old.items ++ iargs_names scope args.now) }
{
    for arg in args {
        put_iarg(into, scope, arg)?;
    }
    Ok(())
}

// ---- statements

/// An expression that no declaration rests on.
fn put_plain(into: &mut Vec<Mention>, expr: &Expr, scope: u32) -> Result<(), NoMemory>
    ensures { OnOk result (into.new.items ≡ into.old.items ++ plainly expr.now scope) }
{
    put_expr(into, expr, plain(scope))
}

fn put_plains(into: &mut Vec<Mention>, exprs: &[Expr], scope: u32) -> Result<(), NoMemory>
    ensures { OnOk result (into.new.items ≡ into.old.items ++ plainly_all exprs.now scope) }
{
    for expr in exprs {
        put_plain(into, expr, scope)?;
    }
    Ok(())
}

fn put_assignment(
    into: &mut Vec<Mention>,
    target: &Lvalue,
    value: &Expr,
    scope: u32,
) -> Result<(), NoMemory>
    ensures { OnOk result (into.new.items ≡ into.old.items ++ assignment_names target.now value.now scope) }
{
    put_target(into, target, plain(scope))?;
    put_plain(into, value, scope)
}

/// The variable of a `for` and its first value.
fn put_counted(into: &mut Vec<Mention>, name: u32, value: &Expr, scope: u32) -> Result<(), NoMemory>
    ensures { OnOk result (into.new.items ≡ into.old.items ++ counted_names name value.now scope) }
{
    put_alone(into, name, Role::Counted, scope)?;
    put_plain(into, value, scope)
}

fn put_enable(
    into: &mut Vec<Mention>,
    name: u32,
    args: &Option<Items<Expr>>,
    scope: u32,
) -> Result<(), NoMemory>
    ensures { OnOk result (into.new.items ≡ into.old.items ++ enable_names name args.now scope) }
{
    put_alone(into, name, Role::Enabled, scope)?;
    match args {
        Some(args) => put_plains(into, args.as_slice(), scope),
        None => Ok(()),
    }
}

fn put_disable(
    alloc: Global,
    into: &mut Vec<Mention>,
    names: &[u32],
    scope: u32,
) -> Result<(), NoMemory>
    ensures { OnOk result (into.new.items ≡ into.old.items ++ Ends names.now scope ∷ []) }
{
    let path = Items::from_slice(alloc, names)?;
    into.push(Mention::Ends { path, scope })?;
    Ok(())
}

/// The names of statements, one after the other.
#[cycle(stmts)]
fn put_stmts(
    alloc: Global,
    into: &mut Vec<Mention>,
    stmts: &[Stmt],
    scope: u32,
) -> Result<(), NoMemory>
    ensures { OnOk result (into.new.items ≡ into.old.items ++ each (map stmt_names stmts.now) scope) }
{
    for stmt in stmts {
        put_stmt(alloc, into, stmt, scope)?;
    }
    Ok(())
}

/// Those of an arm of a `case`.
#[cycle(stmts)]
fn put_arm(alloc: Global, into: &mut Vec<Mention>, arm: &Citem, scope: u32) -> Result<(), NoMemory>
    ensures { OnOk result (into.new.items ≡ into.old.items ++ arm_names arm.now scope) }
{
    match arm {
        Citem::Labels { labels, body, .. } => {
            put_plains(into, labels.as_slice(), scope)?;
            put_stmt(alloc, into, body, scope)
        }
        Citem::Default { body, .. } => put_stmt(alloc, into, body, scope),
    }
}

/// Those of the arms of a `case`.
#[cycle(stmts)]
fn put_arms(
    alloc: Global,
    into: &mut Vec<Mention>,
    arms: &[Citem],
    scope: u32,
) -> Result<(), NoMemory>
    ensures { OnOk result (into.new.items ≡ into.old.items ++ each (map arm_names arms.now) scope) }
{
    for arm in arms {
        put_arm(alloc, into, arm, scope)?;
    }
    Ok(())
}

/// The names of a statement.
#[cycle(stmts)]
fn put_stmt(alloc: Global, into: &mut Vec<Mention>, stmt: &Stmt, scope: u32) -> Result<(), NoMemory>
    ensures { OnOk result (into.new.items ≡ into.old.items ++ stmt_names stmt.now scope) }
{
    match stmt {
        Stmt::Null { .. } => Ok(()),
        Stmt::Blocking { target, value, .. } | Stmt::Nonblocking { target, value, .. } => {
            put_assignment(into, target.get(), value.get(), scope)
        }
        Stmt::If {
            test,
            first,
            second: None,
            ..
        } => {
            put_plain(into, test.get(), scope)?;
            put_stmt(alloc, into, first.get(), scope)
        }
        Stmt::If {
            test,
            first,
            second: Some(second),
            ..
        } => {
            put_plain(into, test.get(), scope)?;
            put_stmt(alloc, into, first.get(), scope)?;
            put_stmt(alloc, into, second.get(), scope)
        }
        Stmt::Case { on, items, .. } => {
            put_plain(into, on.get(), scope)?;
            put_arms(alloc, into, items.as_slice(), scope)
        }
        Stmt::For {
            name,
            first,
            test,
            again,
            next,
            body,
            ..
        } => {
            put_counted(into, *name, first.get(), scope)?;
            put_plain(into, test.get(), scope)?;
            put_counted(into, *again, next.get(), scope)?;
            put_stmt(alloc, into, body.get(), scope)
        }
        Stmt::While { test, body, .. }
        | Stmt::Repeat {
            count: test,
            body,
            ..
        } => {
            put_plain(into, test.get(), scope)?;
            put_stmt(alloc, into, body.get(), scope)
        }
        Stmt::Forever { body, .. } => put_stmt(alloc, into, body.get(), scope),
        Stmt::Block {
            scope: None,
            body,
            ..
        } => put_stmts(alloc, into, body.as_slice(), scope),
        Stmt::Block {
            scope: Some(block),
            body,
            ..
        } => {
            put_locals(into, block.get().name, block.get().locals.as_slice())?;
            put_stmts(alloc, into, body.as_slice(), block.get().name)
        }
        Stmt::Wait { clock, body, .. } => {
            put_alone(into, *clock, Role::Waited, scope)?;
            put_stmt(alloc, into, body.get(), scope)
        }
        Stmt::Enable { name, args, .. } => put_enable(into, *name, args, scope),
        Stmt::Disable { names, .. } => put_disable(alloc, into, names.as_slice(), scope),
    }
}

// ---- modules

/// An expression that may be left out, on which no declaration rests.
fn put_maybe(into: &mut Vec<Mention>, expr: &Option<Expr>, scope: u32) -> Result<(), NoMemory>
    ensures { OnOk result (into.new.items ≡ into.old.items ++ plainly_maybe expr.now scope) }
{
    match expr {
        Some(expr) => put_plain(into, expr, scope),
        None => Ok(()),
    }
}

fn put_named(into: &mut Vec<Mention>, scope: u32, named: &[Named]) -> Result<(), NoMemory>
    ensures { OnOk result (into.new.items ≡ into.old.items ++ named_names scope named.now) }
{
    for one in named {
        put_maybe(into, &one.value, scope)?;
    }
    Ok(())
}

/// The values of connections or overrides.
fn put_conns(into: &mut Vec<Mention>, scope: u32, conns: &Option<Conns>) -> Result<(), NoMemory>
    ensures { OnOk result (into.new.items ≡ into.old.items ++ conns_names scope conns.now) }
{
    match conns {
        None => Ok(()),
        Some(Conns::Ordered { exprs, .. }) => put_plains(into, exprs.as_slice(), scope),
        Some(Conns::Named { named, .. }) => put_named(into, scope, named.as_slice()),
    }
}

fn put_rname(into: &mut Vec<Mention>, scope: u32, name: &Rname) -> Result<(), NoMemory>
    ensures { OnOk result (into.new.items ≡ into.old.items ++ rname_names scope name.now) }
{
    match name {
        Rname::Variable { name, value, .. } => put_start(into, scope, *name, value),
        Rname::Memory { range, .. } => put_range(into, scope, range),
    }
}

fn put_values(into: &mut Vec<Mention>, scope: u32, values: &[Binding]) -> Result<(), NoMemory>
    ensures { OnOk result (into.new.items ≡ into.old.items ++ values_names scope values.now) }
{
    for value in values {
        put_value(into, scope, value.name, &value.value)?;
    }
    Ok(())
}

fn put_wires(into: &mut Vec<Mention>, scope: u32, names: &[Declared]) -> Result<(), NoMemory>
    ensures { OnOk result (into.new.items ≡ into.old.items ++ wires_names scope names.now) }
{
    for name in names {
        put_maybe(into, &name.value, scope)?;
    }
    Ok(())
}

fn put_regs(into: &mut Vec<Mention>, scope: u32, names: &[Rname]) -> Result<(), NoMemory>
    ensures { OnOk result (into.new.items ≡ into.old.items ++ regs_names scope names.now) }
{
    for name in names {
        put_rname(into, scope, name)?;
    }
    Ok(())
}

fn put_integers(into: &mut Vec<Mention>, scope: u32, names: &[Declared]) -> Result<(), NoMemory>
    ensures { OnOk result (into.new.items ≡ into.old.items ++ integers_names scope names.now) }
{
    for name in names {
        put_start(into, scope, name.name, &name.value)?;
    }
    Ok(())
}

fn put_assign(into: &mut Vec<Mention>, scope: u32, value: &Binding) -> Result<(), NoMemory>
    ensures { OnOk result (into.new.items ≡ into.old.items ++ assign_names scope value.now) }
{
    put_alone(into, value.name, Role::Driven, scope)?;
    put_plain(into, &value.value, scope)
}

fn put_assigns(into: &mut Vec<Mention>, scope: u32, values: &[Binding]) -> Result<(), NoMemory>
    ensures { OnOk result (into.new.items ≡ into.old.items ++ assigns_names scope values.now) }
{
    for value in values {
        put_assign(into, scope, value)?;
    }
    Ok(())
}

fn put_task(alloc: Global, into: &mut Vec<Mention>, task: &Task) -> Result<(), NoMemory>
    ensures { OnOk result (into.new.items ≡ into.old.items ++ task_names task.now) }
{
    put_args(into, task.name, &task.args)?;
    put_stmt(alloc, into, &task.body, task.name)
}

fn put_function(
    alloc: Global,
    into: &mut Vec<Mention>,
    scope: u32,
    function: &Function,
) -> Result<(), NoMemory>
    ensures { OnOk result (into.new.items ≡ into.old.items ++ function_names scope function.now) }
{
    put_ranges(into, scope, function.ptype.range())?;
    put_args(into, function.name, &function.args)?;
    put_stmt(alloc, into, &function.body, function.name)
}

fn put_module_name(into: &mut Vec<Mention>, at: u32, scope: u32) -> Result<(), NoMemory>
    ensures { OnOk result (into.new.items ≡ into.old.items ++ Instantiates at scope ∷ []) }
{
    into.push(Mention::Instantiates { at, scope })?;
    Ok(())
}

fn put_connections(
    into: &mut Vec<Mention>,
    scope: u32,
    instances: &[Instance],
) -> Result<(), NoMemory>
    ensures { OnOk result (into.new.items ≡ into.old.items ++ flat_map (λ i. conns_names scope i.conns) instances.now) }
{
    for instance in instances {
        put_conns(into, scope, &instance.conns)?;
    }
    Ok(())
}

fn put_instances(
    into: &mut Vec<Mention>,
    scope: u32,
    name: u32,
    params: &Option<Conns>,
    instances: &[Instance],
) -> Result<(), NoMemory>
    ensures { OnOk result (into.new.items ≡ into.old.items ++ instances_names scope name params.now instances.now) }
{
    put_module_name(into, name, scope)?;
    put_conns(into, scope, params)?;
    put_connections(into, scope, instances)
}

/// The names of an item of a module.
fn put_item(alloc: Global, into: &mut Vec<Mention>, scope: u32, item: &Item) -> Result<(), NoMemory>
    ensures { OnOk result (into.new.items ≡ into.old.items ++ item_names scope item.now) }
{
    match item {
        Item::Params { ptype, values, .. } => {
            put_ranges(into, scope, ptype.range())?;
            put_values(into, scope, values.as_slice())
        }
        Item::Wires { range, names, .. } => {
            put_ranges(into, scope, range.as_ref())?;
            put_wires(into, scope, names.as_slice())
        }
        Item::Regs { range, names, .. } => {
            put_ranges(into, scope, range.as_ref())?;
            put_regs(into, scope, names.as_slice())
        }
        Item::Integers { names, .. } => put_integers(into, scope, names.as_slice()),
        Item::Assigns { values, .. } => put_assigns(into, scope, values.as_slice()),
        Item::Always { body, .. } | Item::Initial { body, .. } => put_stmt(
            alloc, into, body, scope,
        ),
        Item::Task { task, .. } => put_task(alloc, into, task),
        Item::Function { function, .. } => put_function(alloc, into, scope, function),
        Item::Import { import, .. } => put_iargs(into, scope, import.args.as_slice()),
        Item::Instances {
            module,
            params,
            instances,
            ..
        } => { put_instances(into, scope, *module, params, instances.as_slice()) }
    }
}

fn put_items(
    alloc: Global,
    into: &mut Vec<Mention>,
    scope: u32,
    items: &[Item],
) -> Result<(), NoMemory>
    ensures { OnOk result (into.new.items ≡ into.old.items ++ flat_map (item_names scope) items.now) }
{
    for item in items {
        put_item(alloc, into, scope, item)?;
    }
    Ok(())
}

fn put_param(into: &mut Vec<Mention>, scope: u32, param: &Pdecl) -> Result<(), NoMemory>
    ensures { OnOk result (into.new.items ≡ into.old.items ++ param_names scope param.now) }
{
    put_ptype(into, scope, &param.ptype)?;
    put_value(into, scope, param.name, &param.value)
}

fn put_params(into: &mut Vec<Mention>, scope: u32, params: &[Pdecl]) -> Result<(), NoMemory>
    ensures { OnOk result (into.new.items ≡ into.old.items ++ flat_map (param_names scope) params.now) }
{
    for param in params {
        put_param(into, scope, param)?;
    }
    Ok(())
}

fn put_port(into: &mut Vec<Mention>, scope: u32, port: &Port) -> Result<(), NoMemory>
    ensures { OnOk result (into.new.items ≡ into.old.items ++ port_names scope port.now) }
{
    put_dir(into, scope, &port.dir)?;
    put_start(into, scope, port.name, &port.value)
}

fn put_ports(into: &mut Vec<Mention>, scope: u32, ports: &[Port]) -> Result<(), NoMemory>
    ensures { OnOk result (into.new.items ≡ into.old.items ++ flat_map (port_names scope) ports.now) }
{
    for port in ports {
        put_port(into, scope, port)?;
    }
    Ok(())
}

/// The names of a module's header.
fn put_head(into: &mut Vec<Mention>, module: &Module) -> Result<(), NoMemory>
    ensures { OnOk result (into.new.items ≡ into.old.items ++ (params_names «module».now.name «module».now.params ++ ports_names «module».now.name «module».now.ports)) }
{
    match &module.params {
        Some(params) => put_params(into, module.name, params.as_slice())?,
        None => {}
    }
    match &module.ports {
        Some(ports) => put_ports(into, module.name, ports.as_slice()),
        None => Ok(()),
    }
}

/// The names of a module.
fn put_module(alloc: Global, into: &mut Vec<Mention>, module: &Module) -> Result<(), NoMemory>
    ensures { OnOk result (into.new.items ≡ into.old.items ++ module_names «module».now) }
{
    put_head(into, module)?;
    put_items(alloc, into, module.name, module.items.as_slice())
}

fn put_modules(alloc: Global, into: &mut Vec<Mention>, modules: &[Module]) -> Result<(), NoMemory>
    ensures { OnOk result (into.new.items ≡ into.old.items ++ flat_map module_names modules.now) }
{
    for module in modules {
        put_module(alloc, into, module)?;
    }
    Ok(())
}

/// All names of a source where they stand, in the order of the text.
pub fn tree_mentions(alloc: Global, tree: &Tree) -> Result<Vec<Mention>, NoMemory>
    ensures { IfOk result (λ all. all.items ≡ tree_names tree.now) }
{
    let mut all = Vec::new(alloc);
    put_modules(alloc, &mut all, tree.modules.as_slice())?;
    Ok(all)
}
