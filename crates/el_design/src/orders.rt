//! The order in which nets are evaluated, and checked designs.
ghost use Rattle.std.specs.Prelude.{◌≡◌};
ghost use Rattle.el_design.specs.View.{flat_of};
ghost use Rattle.el_design.specs.Checked.{IsChecked};
ghost use Rattle.el_design.specs.Laws.{EveryOrder};

use crate::designs::Design;
use sqlite_items::Items;
use std::marker::Model;

/// A list of nets by number, which contracts see as the list.
#[derive(Debug, Drop)]
pub struct NetOrder {
    list: Items<u32>,
}

impl Model for NetOrder {
    ghost use Rattle.std.specs.Prelude.{List, ℕ};

    ghost Value = { List ℕ };

    ghost view = { λ o. o.list };
}

impl NetOrder {
    /// Keeps the list.
    pub fn of(list: Vec<u32>) -> NetOrder
        ensures { result ≡ list.items }
    {
        NetOrder {
            list: Items::from_vec(list),
        }
    }

    /// The list.
    pub fn list(&self) -> &[u32]
        ensures { result.now ≡ self.now }
    {
        self.list.as_slice()
    }
}

/// A checked design: a sound one that breaks no rule, with an order of its nets in which each stands after the nets that it reads.
#[derive(Debug, Drop)]
pub struct Checked {
    design: Design,
    order: NetOrder,
}

impl Model for Checked {
    ghost use Rattle.std.specs.Prelude.{List, ℕ};
    ghost use Rattle.std.specs.Coded.{codes};
    ghost use Rattle.el_design.specs.declared.designs.Design.{Design};
    ghost use Rattle.el_design.specs.contracts.expressions.Kind as kind;
    ghost use Rattle.el_design.specs.contracts.expressions.TExpr as expr;
    ghost use Rattle.el_design.specs.contracts.expressions.Pick as pick;
    ghost use Rattle.el_design.specs.contracts.expressions.Target as target;
    ghost use Rattle.el_design.specs.contracts.statements.Stmt as stmt;
    ghost use Rattle.el_design.specs.contracts.statements.Arm as arm;

    ghost Value = { Design × List ℕ };

    ghost coded = { Prim.hlevel (codes, kind.the_row.coded, expr.the_row.coded, pick.the_row.coded, target.the_row.coded, stmt.the_row.coded, arm.the_row.coded) };

    ghost use Rattle.el_design.specs.View.{flat_of};
    ghost use Rattle.el_design.specs.Checked.{IsChecked};

    ghost view = { λ c. (c.design, c.order) };

    ghost invariant = { λ c. IsChecked (flat_of c.design) c.order };
}

impl Checked {
    /// Keeps the design and the order.
    pub fn of(design: Design, order: NetOrder) -> Checked
        requires { IsChecked (flat_of design) order }
        ensures { result ≡ (design, order) }
    {
        Checked { design, order }
    }

    /// The design.
    pub fn design(&self) -> &Design
        ensures value { result.now ≡ self.now.0 }
        ensures checked { IsChecked (flat_of self.now.0) self.now.1 }
    {
        &self.design
    }

    /// The order of its nets.
    pub fn order(&self) -> &NetOrder
        ensures value { result.now ≡ self.now.1 }
        ensures checked { IsChecked (flat_of self.now.0) self.now.1 }
    {
        &self.order
    }

    /// All runs under one stimulus have one trace, whatever events are taken: a law, for which nothing is done.
    pub fn every_order(&self)
        ensures { EveryOrder (flat_of self.now.0) }
    {
        let _ = &self.design;
    }
}
