//! All that a source declares, in the order of the text.
ghost use Rattle.std.specs.Prelude.{◌≡◌, ◌++◌, ◌∷◌, [], None, OnOk, IfOk, map, flat_map, option_copied};
ghost use Rattle.vl_tree.specs.Arguments.{argument_of};
ghost use Rattle.vl_names.specs.declared.kinds.EntityKind.TheVariants as kind;
ghost use Rattle.vl_names.specs.Declarations.{declared, inner, local_declares, argument_declares, formal_ranged, args_declare, each, block_declares, stmt_declares, arm_declares, header_declares, params_declare, param_side, params_item_declares, port_kind, port_declares, ports_behind, ports_declare, rname_declares, wires_declare, regs_declare, integers_declare, instances_declare, task_declares, function_declares, item_declares, module_declares, tree_declares, side_of};

use crate::kinds::{Declaration, Entity, EntityKind, Side};
use std::alloc::Global;
use vl_tree::{
    Args, Argument, Binding, Citem, Declared, Dir, Direction, Fdir, Function, Instance, Item,
    Local, Module, ParamWord, Pdecl, Port, Rname, Scope, Stmt, Task, Tree, arguments,
};
use xt_base::NoMemory;

/// The name space of modules: a number that no token has.
pub const DEFINITIONS: u32 = u32::MAX;

/// Adds a declaration that no instance reaches.
fn put(
    into: &mut Vec<Declaration>,
    kind: EntityKind,
    at: u32,
    scope: u32,
    ranged: bool,
) -> Result<(), NoMemory>
    ensures { OnOk result (into.new.items ≡ into.old.items ++ inner kind at scope ranged ∷ []) }
{
    put_reached(into, kind, at, scope, ranged, Side::Inner)
}

/// Adds a declaration.
fn put_reached(
    into: &mut Vec<Declaration>,
    kind: EntityKind,
    at: u32,
    scope: u32,
    ranged: bool,
    side: Side,
) -> Result<(), NoMemory>
    ensures { OnOk result (into.new.items ≡ into.old.items ++ declared kind at scope ranged side ∷ []) }
{
    into.push(Declaration {
        entity: Entity { kind, at, scope },
        ranged,
        side,
    })?;
    Ok(())
}

/// Adds local variables.
fn put_names(
    into: &mut Vec<Declaration>,
    names: &[u32],
    scope: u32,
    ranged: bool,
) -> Result<(), NoMemory>
    ensures { OnOk result (into.new.items ≡ into.old.items ++ map (λ n. inner kind.Var n scope ranged) names.now) }
{
    for name in names {
        put(into, EntityKind::Var, *name, scope, ranged)?;
    }
    Ok(())
}

/// Adds what one declaration of local variables declares.
fn put_local(into: &mut Vec<Declaration>, local: &Local, scope: u32) -> Result<(), NoMemory>
    ensures { OnOk result (into.new.items ≡ into.old.items ++ local_declares scope local.now) }
{
    match local {
        Local::Reg { range, names, .. } => {
            put_names(into, names.as_slice(), scope, range.is_some())
        }
        Local::Integer { names, .. } => put_names(into, names.as_slice(), scope, true),
    }
}

/// Adds the local variables of a named block.
fn put_locals(into: &mut Vec<Declaration>, locals: &[Local], scope: u32) -> Result<(), NoMemory>
    ensures { OnOk result (into.new.items ≡ into.old.items ++ flat_map (local_declares scope) locals.now) }
{
    for local in locals {
        put_local(into, local, scope)?;
    }
    Ok(())
}

/// Adds a formal or local variables of a task or function.
fn put_argument(
    into: &mut Vec<Declaration>,
    argument: &Argument,
    scope: u32,
) -> Result<(), NoMemory>
    ensures { OnOk result (into.new.items ≡ into.old.items ++ argument_declares scope (argument_of argument.now)) }
{
    match argument {
        Argument::Formal { words, name } => {
            put(into, EntityKind::Var, *name, scope, is_ranged(*words))
        }
        Argument::Locals { local } => put_local(into, local, scope),
    }
}

/// Whether a formal has bits to select.
fn is_ranged(words: Option<&Fdir>) -> bool
    ensures { result ≡ formal_ranged (option_copied words.entry) }
{
    match words {
        Some(words) => words.range().is_some() || words.is_integer(),
        None => false,
    }
}

/// Adds the formals and local variables of a task or function.
fn put_args(
    alloc: Global,
    into: &mut Vec<Declaration>,
    args: &Args,
    scope: u32,
) -> Result<(), NoMemory>
    ensures { OnOk result (into.new.items ≡ into.old.items ++ args_declare scope args.now) }
{
    let all = arguments(alloc, args)?;
    put_arguments(into, &all, scope)
}

fn put_arguments(into: &mut Vec<Declaration>, all: &[Argument], scope: u32) -> Result<(), NoMemory>
    ensures { OnOk result (into.new.items ≡ into.old.items ++ flat_map (argument_declares scope) (map argument_of all.now)) }
{
    for argument in all {
        put_argument(into, argument, scope)?;
    }
    Ok(())
}

// ---- statements

/// Adds what statements declare, one after the other.
#[cycle(declare)]
fn put_stmts(into: &mut Vec<Declaration>, stmts: &[Stmt], scope: u32) -> Result<(), NoMemory>
    ensures { OnOk result (into.new.items ≡ into.old.items ++ each (map stmt_declares stmts.now) scope) }
{
    for stmt in stmts {
        put_stmt(into, stmt, scope)?;
    }
    Ok(())
}

/// Adds what an arm of a `case` declares.
#[cycle(declare)]
fn put_arm(into: &mut Vec<Declaration>, arm: &Citem, scope: u32) -> Result<(), NoMemory>
    ensures { OnOk result (into.new.items ≡ into.old.items ++ arm_declares arm.now scope) }
{
    match arm {
        Citem::Labels { body, .. } | Citem::Default { body, .. } => put_stmt(into, body, scope),
    }
}

/// Adds what the arms of a `case` declare.
#[cycle(declare)]
fn put_arms(into: &mut Vec<Declaration>, arms: &[Citem], scope: u32) -> Result<(), NoMemory>
    ensures { OnOk result (into.new.items ≡ into.old.items ++ each (map arm_declares arms.now) scope) }
{
    for arm in arms {
        put_arm(into, arm, scope)?;
    }
    Ok(())
}

/// Adds a named block's name and locals.
fn put_block(into: &mut Vec<Declaration>, block: &Scope, scope: u32) -> Result<(), NoMemory>
    ensures { OnOk result (into.new.items ≡ into.old.items ++ block_declares scope block.now) }
{
    put(into, EntityKind::Block, block.name, scope, false)?;
    put_locals(into, block.locals.as_slice(), block.name)
}

/// Adds what a statement declares.
#[cycle(declare)]
fn put_stmt(into: &mut Vec<Declaration>, stmt: &Stmt, scope: u32) -> Result<(), NoMemory>
    ensures { OnOk result (into.new.items ≡ into.old.items ++ stmt_declares stmt.now scope) }
{
    match stmt {
        Stmt::If {
            first,
            second: None,
            ..
        } => put_stmt(into, first.get(), scope),
        Stmt::If {
            first,
            second: Some(second),
            ..
        } => {
            put_stmt(into, first.get(), scope)?;
            put_stmt(into, second.get(), scope)
        }
        Stmt::Case { items, .. } => put_arms(into, items.as_slice(), scope),
        Stmt::For { body, .. }
        | Stmt::While { body, .. }
        | Stmt::Repeat { body, .. }
        | Stmt::Forever { body, .. }
        | Stmt::Wait { body, .. } => put_stmt(into, body.get(), scope),
        Stmt::Block {
            scope: None,
            body,
            ..
        } => put_stmts(into, body.as_slice(), scope),
        Stmt::Block {
            scope: Some(block),
            body,
            ..
        } => {
            put_block(into, block.get(), scope)?;
            put_stmts(into, body.as_slice(), block.get().name)
        }
        Stmt::Null { .. }
        | Stmt::Blocking { .. }
        | Stmt::Nonblocking { .. }
        | Stmt::Enable { .. }
        | Stmt::Disable { .. } => Ok(()),
    }
}

// ---- modules

/// Adds the parameters of a module's header.
fn put_header(into: &mut Vec<Declaration>, params: &[Pdecl], scope: u32) -> Result<(), NoMemory>
    ensures { OnOk result (into.new.items ≡ into.old.items ++ header_declares scope params.now) }
{
    for param in params {
        put_reached(
            into,
            EntityKind::Param,
            param.name,
            scope,
            false,
            Side::Parameter,
        )?;
    }
    Ok(())
}

/// Adds the parameters of an item.
fn put_params(
    into: &mut Vec<Declaration>,
    word: ParamWord,
    values: &[Binding],
    scope: u32,
) -> Result<(), NoMemory>
    ensures { OnOk result (into.new.items ≡ into.old.items ++ params_item_declares scope word values.now) }
{
    for value in values {
        put_reached(
            into,
            EntityKind::Param,
            value.name,
            scope,
            false,
            param_side(word),
        )?;
    }
    Ok(())
}

/// How instances reach a parameter.
fn param_side(word: ParamWord) -> Side
    ensures { result ≡ param_side word }
{
    match word {
        ParamWord::Parameter => Side::Parameter,
        ParamWord::Localparam => Side::Inner,
    }
}

/// How instances reach a port.
fn side_of(direction: Direction) -> Side
    ensures { result ≡ side_of direction }
{
    match direction {
        Direction::Input => Side::Input,
        Direction::Output => Side::Output,
    }
}

/// Adds a port with the words that hold at it. `output reg` declares a variable, every other port a net.
fn put_port(
    into: &mut Vec<Declaration>,
    words: Option<&Dir>,
    name: u32,
    scope: u32,
) -> Result<(), NoMemory>
    ensures { OnOk result (into.new.items ≡ into.old.items ++ port_declares scope (option_copied words.entry) name ∷ []) }
{
    match words {
        None => put(into, EntityKind::Net, name, scope, false),
        Some(words) => put_reached(
            into,
            port_kind(words.is_reg()),
            name,
            scope,
            words.range().is_some(),
            side_of(words.direction()),
        ),
    }
}

/// What a port is declared as.
fn port_kind(is_reg: bool) -> EntityKind
    ensures { result ≡ port_kind is_reg }
{
    if is_reg {
        EntityKind::Var
    } else {
        EntityKind::Net
    }
}

/// Adds the ports of a module. A port without leading words has those of the port before it.
fn put_ports(into: &mut Vec<Declaration>, ports: &[Port], scope: u32) -> Result<(), NoMemory>
    ensures { OnOk result (into.new.items ≡ into.old.items ++ ports_behind scope None ports.now) }
{
    let mut words = None;
    for port in ports {
        words = port.words_or(words);
        put_port(into, words, port.name, scope)?;
    }
    Ok(())
}

/// Adds nets.
fn put_wires(
    into: &mut Vec<Declaration>,
    names: &[Declared],
    scope: u32,
    ranged: bool,
) -> Result<(), NoMemory>
    ensures { OnOk result (into.new.items ≡ into.old.items ++ wires_declare scope ranged names.now) }
{
    for name in names {
        put(into, EntityKind::Net, name.name, scope, ranged)?;
    }
    Ok(())
}

/// Adds variables of type `integer`.
fn put_integers(into: &mut Vec<Declaration>, names: &[Declared], scope: u32) -> Result<(), NoMemory>
    ensures { OnOk result (into.new.items ≡ into.old.items ++ integers_declare scope names.now) }
{
    for name in names {
        put(into, EntityKind::Var, name.name, scope, true)?;
    }
    Ok(())
}

/// Adds a variable or memory of a `reg` declaration.
fn put_rname(
    into: &mut Vec<Declaration>,
    name: &Rname,
    scope: u32,
    ranged: bool,
) -> Result<(), NoMemory>
    ensures { OnOk result (into.new.items ≡ into.old.items ++ rname_declares scope ranged name.now ∷ []) }
{
    match name {
        Rname::Variable { name, .. } => put(into, EntityKind::Var, *name, scope, ranged),
        Rname::Memory { name, .. } => put(into, EntityKind::Memory, *name, scope, ranged),
    }
}

/// Adds the variables and memories of a `reg` declaration.
fn put_regs(
    into: &mut Vec<Declaration>,
    names: &[Rname],
    scope: u32,
    ranged: bool,
) -> Result<(), NoMemory>
    ensures { OnOk result (into.new.items ≡ into.old.items ++ regs_declare scope ranged names.now) }
{
    for name in names {
        put_rname(into, name, scope, ranged)?;
    }
    Ok(())
}

/// Adds instances of a module.
fn put_instances(
    into: &mut Vec<Declaration>,
    instances: &[Instance],
    scope: u32,
) -> Result<(), NoMemory>
    ensures { OnOk result (into.new.items ≡ into.old.items ++ instances_declare scope instances.now) }
{
    for instance in instances {
        put(into, EntityKind::Instance, instance.name, scope, false)?;
    }
    Ok(())
}

/// Adds a task and what it declares.
#[tactic(auto, using(crate::proofs::Lists::three))]
fn put_task(
    alloc: Global,
    into: &mut Vec<Declaration>,
    task: &Task,
    scope: u32,
) -> Result<(), NoMemory>
    ensures { OnOk result (into.new.items ≡ into.old.items ++ task_declares scope task.now) }
{
    put(into, EntityKind::Task, task.name, scope, false)?;
    put_args(alloc, into, &task.args, task.name)?;
    put_stmt(into, &task.body, task.name)
}

/// Adds a function and what it declares.
#[tactic(auto, using(crate::proofs::Lists::three))]
fn put_function(
    alloc: Global,
    into: &mut Vec<Declaration>,
    function: &Function,
    scope: u32,
) -> Result<(), NoMemory>
    ensures { OnOk result (into.new.items ≡ into.old.items ++ function_declares scope function.now) }
{
    let ranged = function.ptype.range().is_some() || function.ptype.is_integer();
    put(into, EntityKind::Function, function.name, scope, ranged)?;
    put_args(alloc, into, &function.args, function.name)?;
    put_stmt(into, &function.body, function.name)
}

/// Adds what an item of a module declares.
fn put_item(
    alloc: Global,
    into: &mut Vec<Declaration>,
    item: &Item,
    scope: u32,
) -> Result<(), NoMemory>
    ensures { OnOk result (into.new.items ≡ into.old.items ++ item_declares scope item.now) }
{
    match item {
        Item::Params { word, values, .. } => put_params(into, *word, values.as_slice(), scope),
        Item::Wires { range, names, .. } => put_wires(
            into,
            names.as_slice(),
            scope,
            range.is_some(),
        ),
        Item::Regs { range, names, .. } => put_regs(into, names.as_slice(), scope, range.is_some()),
        Item::Integers { names, .. } => put_integers(into, names.as_slice(), scope),
        Item::Assigns { .. } => Ok(()),
        Item::Always { body, .. } | Item::Initial { body, .. } => put_stmt(into, body, scope),
        Item::Task { task, .. } => put_task(alloc, into, task, scope),
        Item::Function { function, .. } => put_function(alloc, into, function, scope),
        Item::Import { import, .. } => put(into, EntityKind::Import, import.name, scope, false),
        Item::Instances { instances, .. } => put_instances(into, instances.as_slice(), scope),
    }
}

/// Adds what the items of a module declare.
fn put_items(
    alloc: Global,
    into: &mut Vec<Declaration>,
    items: &[Item],
    scope: u32,
) -> Result<(), NoMemory>
    ensures { OnOk result (into.new.items ≡ into.old.items ++ flat_map (item_declares scope) items.now) }
{
    for item in items {
        put_item(alloc, into, item, scope)?;
    }
    Ok(())
}

/// Adds the parameters and ports of a module's header.
fn put_head(into: &mut Vec<Declaration>, module: &Module) -> Result<(), NoMemory>
    ensures { OnOk result (into.new.items ≡ into.old.items ++ (params_declare «module».now.name «module».now.params ++ ports_declare «module».now.name «module».now.ports)) }
{
    match &module.params {
        Some(params) => put_header(into, params.as_slice(), module.name)?,
        None => {}
    }
    match &module.ports {
        Some(ports) => put_ports(into, ports.as_slice(), module.name),
        None => Ok(()),
    }
}

/// Adds a module and what it declares.
#[tactic(auto, using(crate::proofs::Lists::whole_module))]
fn put_module(alloc: Global, into: &mut Vec<Declaration>, module: &Module) -> Result<(), NoMemory>
    ensures { OnOk result (into.new.items ≡ into.old.items ++ module_declares «module».now) }
{
    put(into, EntityKind::Module, module.name, DEFINITIONS, false)?;
    put_head(into, module)?;
    put_items(alloc, into, module.items.as_slice(), module.name)
}

/// Adds modules and what they declare.
fn put_modules(
    alloc: Global,
    into: &mut Vec<Declaration>,
    modules: &[Module],
) -> Result<(), NoMemory>
    ensures { OnOk result (into.new.items ≡ into.old.items ++ flat_map module_declares modules.now) }
{
    for module in modules {
        put_module(alloc, into, module)?;
    }
    Ok(())
}

/// What a module declares, its own name first, in the order of the text.
pub(crate) fn module_declarations(
    alloc: Global,
    module: &Module,
) -> Result<Vec<Declaration>, NoMemory>
    ensures { IfOk result (λ all. all.items ≡ module_declares «module».now) }
{
    let mut all = Vec::new(alloc);
    put_module(alloc, &mut all, module)?;
    Ok(all)
}

/// All that a source declares, in the order of the text.
pub fn declarations(alloc: Global, tree: &Tree) -> Result<Vec<Declaration>, NoMemory>
    ensures { IfOk result (λ all. all.items ≡ tree_declares tree.now) }
{
    let mut all = Vec::new(alloc);
    put_modules(alloc, &mut all, tree.modules.as_slice())?;
    Ok(all)
}
