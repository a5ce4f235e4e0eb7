//! What targets name, store to and weigh.
ghost use Rattle.std.specs.Prelude.{◌≡◌, ◌++◌, ◌∷◌, [], ◌+◌, OnOk, IfOk, List, map};
ghost use Rattle.std.specs.List.{list_any};
ghost use Rattle.el_design.specs.Names.{target_variables, is_nowhere};
ghost use Rattle.el_design.specs.View.{lvalue_of, parts_of};
ghost use Rattle.ck_call.specs.inner.Nodes.{indexes_named};
ghost use Rattle.ck_call.specs.inner.Weights.{capped, target_weight, parts_weight};

use crate::nodes::{Node, put_nodes, put_pick};
use crate::weights::add;
use el_design::Target;
use sqlite_items::Items;
use xt_base::NoMemory;

/// Adds the nodes of the indexes in targets.
#[cycle(indexes)]
pub(crate) fn put_all_indexes(into: &mut Items<Node>, targets: &[Target]) -> Result<(), NoMemory>
    ensures { OnOk result (into.new ≡ into.old ++ indexes_named (parts_of (map lvalue_of targets.now))) }
{
    for target in targets {
        put_indexes(into, target)?;
    }
    Ok(())
}

/// Adds the nodes of the indexes in a target.
#[cycle(indexes)]
pub(crate) fn put_indexes(into: &mut Items<Node>, target: &Target) -> Result<(), NoMemory>
    ensures { OnOk result (into.new ≡ into.old ++ indexes_named (lvalue_of target.now)) }
{
    match target {
        Target::Var(_) => Ok(()),
        Target::Part(_, pick) => put_pick(into, pick),
        Target::Word(_, index) => put_nodes(into, index.get()),
        Target::WordPart(_, index, pick) => {
            put_nodes(into, index.get())?;
            put_pick(into, pick)
        }
        Target::Concat(parts) => put_all_indexes(into, parts.as_slice()),
    }
}

/// Adds a number.
pub(crate) fn put_number(into: &mut Items<u32>, number: u32) -> Result<(), NoMemory>
    ensures { OnOk result (into.new ≡ into.old ++ number ∷ []) }
{
    into.push(number)?;
    Ok(())
}

/// Adds the variables that targets store to.
#[cycle(stored)]
pub(crate) fn put_all_stored(into: &mut Items<u32>, targets: &[Target]) -> Result<(), NoMemory>
    ensures { OnOk result (into.new ≡ into.old ++ target_variables (parts_of (map lvalue_of targets.now))) }
{
    for target in targets {
        put_stored(into, target)?;
    }
    Ok(())
}

/// Adds the variables that a target stores to.
#[cycle(stored)]
pub(crate) fn put_stored(into: &mut Items<u32>, target: &Target) -> Result<(), NoMemory>
    ensures { OnOk result (into.new ≡ into.old ++ target_variables (lvalue_of target.now)) }
{
    match target {
        Target::Var(number) => put_number(into, *number),
        Target::Part(number, _) => put_number(into, *number),
        Target::Word(number, _) => put_number(into, *number),
        Target::WordPart(number, _, _) => put_number(into, *number),
        Target::Concat(parts) => put_all_stored(into, parts.as_slice()),
    }
}

/// The size of the parts of a concatenation beside their indexes.
#[cycle(weight)]
pub(crate) fn parts_weight(targets: &[Target]) -> u32
    ensures { result ≡ capped (parts_weight (parts_of (map lvalue_of targets.now))) }
{
    let mut weight = 0;
    for target in targets {
        weight = add(weight, target_weight(target));
    }
    weight
}

/// The size of a target beside its indexes.
#[cycle(weight)]
pub(crate) fn target_weight(target: &Target) -> u32
    ensures { result ≡ capped (target_weight (lvalue_of target.now)) }
{
    match target {
        Target::Var(_) => 1,
        Target::Part(_, _) => 2,
        Target::Word(_, _) => 2,
        Target::WordPart(_, _, _) => 3,
        Target::Concat(parts) => add(1, parts_weight(parts.as_slice())),
    }
}

/// Whether a target can't be stored to.
fn is_nowhere(target: &Target) -> bool
    ensures { result ≡ is_nowhere (lvalue_of target.now) }
{
    match target {
        Target::Var(_) => false,
        Target::Part(_, _) => false,
        Target::Word(_, _) => false,
        Target::WordPart(_, _, _) => false,
        Target::Concat(parts) => parts.is_empty(),
    }
}

/// Whether one of the targets can't be stored to.
pub(crate) fn any_nowhere(targets: &[Target]) -> bool
    ensures { result ≡ list_any is_nowhere (map lvalue_of targets.now) }
{
    for target in targets {
        if is_nowhere(target) {
            return true;
        }
    }
    false
}
