//! The rules on declarations.
ghost use Rattle.std.specs.Prelude.{◌≡◌, [], map, flat_map, fold, MatchResult};
ghost use Rattle.xt_base.specs.First.{sooner};
ghost use Rattle.el_scope.specs.Table.{break_at};
ghost use Rattle.el_scope.specs.Declaring.{is_second, is_kept, declaring_rules, declaration_breaks};
ghost use Rattle.el_scope.specs.Refusals.{Refuses};

use crate::findings::Findings;
use crate::table::Table;
use vl_names::Declaration;
use xt_base::Fail;

/// Whether the name of a declaration is declared before in its scope.
fn is_second(table: &Table, declaration: &Declaration) -> bool
    ensures { result ≡ is_second table.now declaration.now }
{
    let entity = declaration.entity;
    match table.declared_in(entity.scope, table.spelled(entity.at)) {
        Some(first) => entity.at != first.entity.at,
        None => false,
    }
}

/// Whether a name begins with `xtc_`.
fn is_kept(name: &[u8]) -> bool
    ensures { result ≡ is_kept name.now }
{
    name.starts_with(b"xtc_")
}

/// Reports what a declaration breaks.
fn report(findings: &mut Findings, declaration: &Declaration)
    ensures { findings.new ≡ record findings.old { first = fold sooner findings.old.first (map (break_at findings.old.table declaration.now.entity.at) (declaring_rules findings.old.table declaration.now)) } }
{
    let at = declaration.entity.at;
    let table = findings.table();
    findings.report_if(at, 31, is_second(table, declaration));
    findings.report_if(at, 37, is_kept(table.spelled(at)));
}

/// The pass on declarations.
pub(crate) fn check_declarations(table: &Table) -> Result<(), Fail>
    ensures { MatchResult result (λ _. declaration_breaks table.now ≡ []) (Refuses table.now (declaration_breaks table.now)) }
{
    let mut findings = Findings::new(table);
    report_all(&mut findings, table.declarations());
    findings.answer()
}

/// Reports what declarations break.
fn report_all(findings: &mut Findings, declarations: &[Declaration])
    ensures { findings.new ≡ record findings.old { first = fold sooner findings.old.first (flat_map (λ d. map (break_at findings.old.table d.entity.at) (declaring_rules findings.old.table d)) declarations.now) } }
{
    for declaration in declarations {
        report(findings, declaration);
    }
}
