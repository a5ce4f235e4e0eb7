//! The nets that an expression names.
ghost use Rattle.std.specs.Prelude.{◌≡◌, ◌++◌, OnOk, map};
ghost use Rattle.ck_nets.specs.inner.Naming.{joined, named, named_by_kind, named_by_pick};

use el_design::{Kind, Pick, TExpr};
use xt_base::NoMemory;

/// Appends the nets that expressions name, one after the other.
#[cycle(naming)]
#[tactic(auto, using(crate::proofs::Appends::two))]
fn add_all(nets: &mut Vec<u32>, exprs: &[TExpr]) -> Result<(), NoMemory>
    ensures { OnOk result (nets.new.items ≡ nets.old.items ++ joined (map named exprs.now)) }
{
    for expr in exprs {
        add_nets(nets, expr)?;
    }
    Ok(())
}

/// Those of the index of a select.
#[cycle(naming)]
fn add_of_pick(nets: &mut Vec<u32>, pick: &Pick) -> Result<(), NoMemory>
    ensures { OnOk result (nets.new.items ≡ nets.old.items ++ named_by_pick pick.now) }
{
    match pick {
        Pick::Bit(index) | Pick::Up(index, _) | Pick::Down(index, _) => add_nets(nets, index.get()),
        Pick::Part(_, _) => Ok(()),
    }
}

/// Those of what an expression is.
#[cycle(naming)]
#[tactic(auto, using(crate::proofs::Appends::two, crate::proofs::Appends::three))]
fn add_of_kind(nets: &mut Vec<u32>, kind: &Kind) -> Result<(), NoMemory>
    ensures { OnOk result (nets.new.items ≡ nets.old.items ++ named_by_kind kind.now) }
{
    match kind {
        Kind::Num(_) | Kind::Var(_) => Ok(()),
        Kind::Net(net) => Ok(nets.push(*net)?),
        Kind::Word(_, part)
        | Kind::Unary(_, part)
        | Kind::Repeat(_, part)
        | Kind::Sign(part)
        | Kind::Resize(part) => add_nets(nets, part.get()),
        Kind::Select(of, pick, _) => {
            add_nets(nets, of.get())?;
            add_of_pick(nets, pick)
        }
        Kind::Binary(_, left, right) => {
            add_nets(nets, left.get())?;
            add_nets(nets, right.get())
        }
        Kind::Choice(test, first, second) => {
            add_nets(nets, test.get())?;
            add_nets(nets, first.get())?;
            add_nets(nets, second.get())
        }
        Kind::Concat(parts) | Kind::Call(_, parts) => add_all(nets, parts.as_slice()),
    }
}

/// Appends the nets that an expression names, from left to right, each as often as it stands there.
#[cycle(naming)]
pub(crate) fn add_nets(nets: &mut Vec<u32>, expr: &TExpr) -> Result<(), NoMemory>
    ensures { OnOk result (nets.new.items ≡ nets.old.items ++ named expr.now) }
{
    add_of_kind(nets, &expr.kind)
}
