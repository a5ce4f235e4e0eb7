//! The scope in which each token stands.
ghost use Rattle.std.specs.Prelude.{◌≡◌, ◌+◌, ◌≤◌, ◌<◌, ℕ, OnOk, IfOk, length, slice_index_or, None};
ghost use Rattle.el_scope.specs.Nesting.{has_scope, names_scope, begins_unnamed, is_end, without_last, with_last_again, last_of, open_behind, open_at, scope_at};
ghost use Rattle.el_scope.specs.inner.Maps.{AreScopes};

use crate::table::Table;
use std::alloc::Global;
use vl_names::EntityKind;
use xt_base::NoMemory;

/// Whether what is declared so has a scope.
fn has_scope(kind: EntityKind) -> bool
    ensures { result ≡ has_scope kind }
{
    match kind {
        EntityKind::Module | EntityKind::Task | EntityKind::Function | EntityKind::Block => true,
        EntityKind::Param
        | EntityKind::Net
        | EntityKind::Var
        | EntityKind::Memory
        | EntityKind::Import
        | EntityKind::Instance => false,
    }
}

/// Whether a token is the name of a scope.
fn names_scope(table: &Table, at: u32) -> bool
    ensures { result ≡ names_scope table.now at }
{
    match table.declared_at(at) {
        Some(found) => has_scope(found.entity.kind),
        None => false,
    }
}

/// Whether a token begins a block without a name.
fn begins_unnamed(table: &Table, at: u32) -> bool
    requires { at + 1 < 4294967296 }
    ensures { result ≡ begins_unnamed table.now at }
{
    table.spells(at, b"begin") && !table.spells(at + 1, b":")
}

/// Whether a token ends a module, task, function or block.
fn is_end(table: &Table, at: u32) -> bool
    ensures { result ≡ is_end table.now at }
{
    table.spells(at, b"end")
        || table.spells(at, b"endtask")
        || table.spells(at, b"endfunction")
        || table.spells(at, b"endmodule")
}

/// What is open behind a token.
fn pass(scopes: &mut Vec<u32>, table: &Table, at: u32) -> Result<(), NoMemory>
    requires { at + 1 < 4294967296 }
    ensures { OnOk result (scopes.new.items ≡ open_behind table.now at scopes.old.items) }
{
    if is_end(table, at) {
        scopes.pop();
    } else if begins_unnamed(table, at) {
        if let Some(last) = scopes.last().copied() {
            scopes.push(last)?;
        }
    } else if names_scope(table, at) {
        scopes.push(at)?;
    }
    Ok(())
}

/// Fails where a list has as many entries as a `u32` can number.
fn check_room(count: usize) -> Result<(), NoMemory>
    ensures { IfOk result (λ _. count < 4294967295) }
{
    if count < u32::MAX as usize {
        Ok(())
    } else {
        Err(NoMemory)
    }
}

/// The scope at each token.
pub(crate) fn scopes(alloc: Global, table: &Table) -> Result<Vec<Option<u32>>, NoMemory>
    ensures { IfOk result (λ all. AreScopes table.now all.items) }
{
    check_room(table.len())?;
    let mut all = Vec::new(alloc);
    let mut open = Vec::new(alloc);
    for at in 0..table.len() as u32 {
        all.push(open.last().copied())?;
        pass(&mut open, table, at)?;
    }
    Ok(all)
}
