//! The breaks that a pass on names finds.
ghost use Rattle.std.specs.Prelude.{◌≡◌, ◌<◌, None, OnOk, IfErr, map, fold, length};
ghost use Rattle.xt_base.specs.First.{sooner};
ghost use Rattle.el_scope.specs.Table.{break_at, only_if};
ghost use Rattle.el_scope.specs.inner.Findings.{Findings, IsAnswer, IsNamed};

use crate::table::Table;
use std::marker::Model;
use xt_base::{Fail, Finder, Refusal, Rule};

/// The first of the breaks that were found so far, over a symbol table.
#[derive(Drop)]
pub(crate) struct Findings<'t, 'a> {
    table: &'t Table<'a>,
    finder: Finder,
}

impl<'t, 'a> Model for Findings<'t, 'a> {
    ghost use Rattle.el_scope.specs.inner.Findings.{Findings, IsNamed};

    ghost Value = { Findings };

    ghost view = { λ f. record { table = f.table.now; first = f.finder.first } };

    ghost invariant = { λ f. IsNamed f.table.now f.finder.first };
}

impl<'t, 'a> Findings<'t, 'a> {
    /// Nothing found so far.
    pub(crate) fn new(table: &'t Table<'a>) -> Findings<'t, 'a>
        ensures { result ≡ record { table = table.now; first = None } }
    {
        Findings {
            table,
            finder: Finder::new(),
        }
    }

    pub(crate) fn table(&self) -> &'t Table<'a>
        ensures { result.now ≡ self.now.table }
    {
        self.table
    }

    /// Takes the break of a rule at a token, if there is one.
    pub(crate) fn report_if(&mut self, at: u32, rule: u16, broken: bool)
        ensures { self.new ≡ record self.old { first = fold sooner self.old.first (map (break_at self.old.table at) (only_if broken rule)) } }
    {
        if broken {
            self.finder.report(Refusal {
                rule: Rule(rule),
                place: self.table.place(at),
            });
        }
    }

    /// A refusal at the first break, if one was found.
    pub(crate) fn answer(&self) -> Result<(), Fail>
        ensures answer { IsAnswer self.now result }
        ensures named { IsNamed self.now.table self.now.first }
    {
        match self.finder.first {
            None => Ok(()),
            Some(broken) => Err(Fail::Refused(broken)),
        }
    }
}
