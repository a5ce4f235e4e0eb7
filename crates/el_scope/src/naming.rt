//! The rules on names where they stand.
ghost use Rattle.std.specs.Prelude.{◌≡◌, [], ◌∷◌, OnOk, map, flat_map, fold};
ghost use Rattle.vl_names.specs.declared.kinds.Role.TheVariants as role_is;
ghost use Rattle.el_scope.specs.Kinds.{is_param, is_net, is_memory, is_variable, may_select, may_read, may_store, may_call, may_enable, may_end, may_stand};
ghost use Rattle.xt_base.specs.First.{sooner};
ghost use Rattle.vl_names.specs.declared.kinds.Mention.TheVariants.{Stands, Ends, Instantiates};
ghost use Rattle.el_scope.specs.Naming.{is_function, is_inside, is_late, breaks_at, stand_rules, mention_breaks, module_rules, inner_breaks, path_breaks, mentions_break, naming_breaks};
ghost use Rattle.el_scope.specs.inner.Steps.{step_of};

use crate::findings::Findings;
use crate::table::Table;
use std::alloc::Global;
use vl_names::{
    DEFINITIONS, Declaration, EntityKind, Mention, Role, Selects, Stand, tree_mentions,
};
use vl_tree::Tree;
use xt_base::NoMemory;

// ---- what may stand where

fn is_param(kind: EntityKind) -> bool
    ensures { result ≡ is_param kind }
{
    matches!(kind, EntityKind::Param)
}

pub(crate) fn is_net(kind: EntityKind) -> bool
    ensures { result ≡ is_net kind }
{
    matches!(kind, EntityKind::Net)
}

fn is_memory(kind: EntityKind) -> bool
    ensures { result ≡ is_memory kind }
{
    matches!(kind, EntityKind::Memory)
}

/// A variable that is no memory; in a function its own name is one.
fn is_variable(inside: bool, kind: EntityKind) -> bool
    ensures { result ≡ is_variable inside kind }
{
    match kind {
        EntityKind::Var => true,
        EntityKind::Function => inside,
        EntityKind::Module
        | EntityKind::Param
        | EntityKind::Net
        | EntityKind::Memory
        | EntityKind::Task
        | EntityKind::Import
        | EntityKind::Block
        | EntityKind::Instance => false,
    }
}

fn is_called(kind: EntityKind) -> bool
    ensures { result ≡ may_call kind }
{
    matches!(kind, EntityKind::Function | EntityKind::Import)
}

fn is_enabled(kind: EntityKind) -> bool
    ensures { result ≡ may_enable kind }
{
    matches!(kind, EntityKind::Task | EntityKind::Import)
}

fn is_ended(kind: EntityKind) -> bool
    ensures { result ≡ may_end kind }
{
    matches!(kind, EntityKind::Block | EntityKind::Task)
}

/// Whether there is a value to select from: `alone` without a select, `one` of a kind without words.
fn may_select(selects: Selects, alone: bool, one: bool, declaration: &Declaration) -> bool
    ensures { result ≡ may_select selects alone one declaration.now }
{
    let memory = is_memory(declaration.entity.kind);
    match selects {
        Selects::Alone => alone,
        Selects::Index => memory || one && declaration.ranged,
        Selects::Part => one && declaration.ranged,
        Selects::Two => memory && declaration.ranged,
    }
}

fn may_read(selects: Selects, inside: bool, declaration: &Declaration) -> bool
    ensures { result ≡ may_read selects inside declaration.now }
{
    let kind = declaration.entity.kind;
    let one = is_net(kind) || is_variable(inside, kind);
    may_select(
        selects,
        is_param(kind) || is_net(kind) || is_variable(inside, kind),
        one,
        declaration,
    )
}

fn may_store(selects: Selects, inside: bool, declaration: &Declaration) -> bool
    ensures { result ≡ may_store selects inside declaration.now }
{
    let one = is_variable(inside, declaration.entity.kind);
    may_select(selects, one, one, declaration)
}

/// Whether a name may stand in a role; `inside` says whether it is the own name of a function in which it stands.
fn may_stand(role: Role, inside: bool, declaration: &Declaration) -> bool
    ensures { result ≡ may_stand role inside declaration.now }
{
    let kind = declaration.entity.kind;
    match role {
        Role::Read(selects) => may_read(selects, inside, declaration),
        Role::Stored(selects) => may_store(selects, inside, declaration),
        Role::Counted => is_variable(inside, kind),
        Role::Driven | Role::Waited => is_net(kind),
        Role::Called => is_called(kind),
        Role::Enabled => is_enabled(kind),
    }
}

// ---- a name where it stands

/// Whether this is the own name of a function in which it stands: its result.
fn is_inside(table: &Table, scope: u32, declaration: &Declaration) -> bool
    ensures { result ≡ is_inside table.now scope declaration.now }
{
    match declaration.entity.kind {
        EntityKind::Function => table.is_round(declaration.entity.at, scope),
        EntityKind::Module
        | EntityKind::Param
        | EntityKind::Net
        | EntityKind::Var
        | EntityKind::Memory
        | EntityKind::Task
        | EntityKind::Import
        | EntityKind::Block
        | EntityKind::Instance => false,
    }
}

/// Whether this is a parameter that isn't declared before a token, where it has to be.
fn is_late(before: Option<u32>, declaration: &Declaration) -> bool
    ensures { result ≡ is_late before declaration.now }
{
    match before {
        Some(limit) => is_param(declaration.entity.kind) && limit <= declaration.entity.at,
        None => false,
    }
}

/// Asks a name in its role.
fn ask(findings: &mut Findings, at: u32, role: Role, stand: Stand)
    ensures { findings.new ≡ record findings.old { first = fold sooner findings.old.first (mention_breaks findings.old.table (Stands at role stand)) } }
{
    let table = findings.table();
    match table.resolve(stand.scope, table.spelled(at)) {
        None => findings.report_if(at, 30, true),
        Some(found) => {
            let inside = is_inside(table, stand.scope, &found);
            findings.report_if(at, 30, is_late(stand.before, &found));
            findings.report_if(at, 33, !may_stand(role, inside, &found));
        }
    }
}

/// Asks the name of an instance's module.
fn ask_module(findings: &mut Findings, at: u32, scope: u32)
    ensures { findings.new ≡ record findings.old { first = fold sooner findings.old.first (mention_breaks findings.old.table (Instantiates at scope)) } }
{
    let table = findings.table();
    let name = table.spelled(at);
    if table.declared_in(DEFINITIONS, name).is_some() {
        return;
    }
    let known = table.resolve(scope, name).is_some();
    findings.report_if(at, if known { 33 } else { 30 }, true);
}

// ---- the path of a `disable`

/// Where a name of a path leads: into the scope of a block or task, or to the rule that it breaks.
fn step(found: Option<Declaration>) -> Result<u32, u16>
    ensures { result ≡ step_of found }
{
    match found {
        None => Err(30),
        Some(found) => {
            if is_ended(found.entity.kind) {
                Ok(found.entity.at)
            } else {
                Err(33)
            }
        }
    }
}

/// Asks further names of a path, each in the block or task before it.
fn ask_inner(findings: &mut Findings, path: &[u32], scope: u32)
    ensures { findings.new ≡ record findings.old { first = fold sooner findings.old.first (inner_breaks findings.old.table path.now scope) } }
{
    let table = findings.table();
    let mut here = scope;
    for at in path {
        match step(table.declared_in(here, table.spelled(*at))) {
            Ok(inner) => here = inner,
            Err(rule) => {
                findings.report_if(*at, rule, true);
                return;
            }
        }
    }
}

/// Asks the names of a path.
fn ask_path(findings: &mut Findings, path: &[u32], scope: u32)
    ensures { findings.new ≡ record findings.old { first = fold sooner findings.old.first (path_breaks findings.old.table path.now scope) } }
{
    match path {
        [] => {}
        [first, rest @ ..] => {
            let table = findings.table();
            match step(table.resolve(scope, table.spelled(*first))) {
                Ok(inner) => ask_inner(findings, rest, inner),
                Err(rule) => findings.report_if(*first, rule, true),
            }
        }
    }
}

/// Asks a name where it stands.
fn ask_mention(findings: &mut Findings, mention: &Mention)
    ensures { findings.new ≡ record findings.old { first = fold sooner findings.old.first (mention_breaks findings.old.table mention.now) } }
{
    match mention {
        Mention::Stands { at, role, stand } => ask(findings, *at, *role, *stand),
        Mention::Ends { path, scope } => ask_path(findings, path.as_slice(), *scope),
        Mention::Instantiates { at, scope } => ask_module(findings, *at, *scope),
    }
}

/// Asks names where they stand.
fn ask_all(findings: &mut Findings, mentions: &[Mention])
    ensures { findings.new ≡ record findings.old { first = fold sooner findings.old.first (mentions_break findings.old.table mentions.now) } }
{
    for mention in mentions {
        ask_mention(findings, mention);
    }
}

/// Asks all names of a source.
pub(crate) fn ask_names(alloc: Global, findings: &mut Findings, tree: &Tree) -> Result<(), NoMemory>
    ensures { OnOk result (findings.new ≡ record findings.old { first = fold sooner findings.old.first (naming_breaks findings.old.table tree.now) }) }
{
    let mentions = tree_mentions(alloc, tree)?;
    ask_all(findings, &mentions);
    Ok(())
}
