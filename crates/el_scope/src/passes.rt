//! The pass on what names stand for.
ghost use Rattle.std.specs.Prelude.{◌≡◌, [], MatchResult};
ghost use Rattle.el_scope.specs.Passes.{name_breaks};
ghost use Rattle.el_scope.specs.Refusals.{Refuses};

use crate::connecting::ask_connections;
use crate::driving::ask_drivers;
use crate::findings::Findings;
use crate::naming::ask_names;
use crate::reached::interfaces;
use crate::table::Table;
use std::alloc::Global;
use vl_tree::Tree;
use xt_base::Fail;

/// The rules on names, connections and drivers.
pub(crate) fn check_names(alloc: Global, table: &Table, tree: &Tree) -> Result<(), Fail>
    ensures { MatchResult result (λ _. name_breaks table.now tree.now ≡ []) (Refuses table.now (name_breaks table.now tree.now)) }
{
    let known = interfaces(alloc, tree)?;
    let mut findings = Findings::new(table);
    ask_names(alloc, &mut findings, tree)?;
    ask_connections(alloc, &mut findings, &known, tree)?;
    ask_drivers(alloc, &mut findings, &known, tree)?;
    findings.answer()
}
