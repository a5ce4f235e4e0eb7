//! What instances of each module of a source reach, found by the module.
ghost use Rattle.std.specs.Prelude.{◌≡◌, ℕ, ◌==◌, Some, None, OnOk, IfOk, cond, map, option_copied};
ghost use Rattle.std.specs.Option.{option_or};
ghost use Rattle.el_scope.specs.Connecting.{interfaces_of, interface_at};
ghost use Rattle.el_scope.specs.inner.Maps.{at_token};

use crate::table::Table;
use indexmap::IndexMap;
use std::alloc::Global;
use vl_names::{DEFINITIONS, Interface, interface};
use vl_tree::Tree;
use xt_base::NoMemory;

/// Notes what instances of a module reach by the token of its name, unless it is known.
fn note(known: &mut IndexMap<u32, Interface>, found: Interface) -> Result<(), NoMemory>
    ensures { OnOk result ((at : ℕ) → at_token known.new.entries at ≡ option_or (at_token known.old.entries at) (cond (at == found.name) (Some found) None)) }
{
    if known.get(&found.name).is_some() {
        return Ok(());
    }
    known.insert(found.name, found)?;
    Ok(())
}

/// What instances of each module of a source reach, by the token of the module's name.
pub(crate) fn interfaces(alloc: Global, tree: &Tree) -> Result<IndexMap<u32, Interface>, NoMemory>
    ensures { IfOk result (λ known. (at : ℕ) → at_token known.entries at ≡ interfaces_of tree.now at) }
{
    let mut known = IndexMap::new(alloc);
    for module in tree.modules.as_slice() {
        let found = interface(alloc, module)?;
        note(&mut known, found)?;
    }
    Ok(known)
}

/// What instances of the module that has the name at a token reach.
pub(crate) fn interface_at<'i>(
    table: &Table,
    known: &'i IndexMap<u32, Interface>,
    name: u32,
) -> Option<&'i Interface>
    ensures { option_copied result ≡ interface_at table.now (at_token known.now.entries) name }
{
    match table.declared_in(DEFINITIONS, table.spelled(name)) {
        Some(module) => known.get(&module.entity.at),
        None => None,
    }
}
