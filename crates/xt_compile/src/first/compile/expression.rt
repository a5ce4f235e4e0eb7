//! The nodes of expressions.
ghost use Rattle.std.specs.Prelude.{◌≡◌, ◌<◌, ℕ, IfOk, length, slice_index};
ghost use Rattle.xt_bits.specs.Operators.{add_of};
ghost use Rattle.nt_core.specs.NodeValue.{node_value};
ghost use Rattle.el_design.specs.Value.{value};
ghost use Rattle.el_design.specs.View.{flat_of, expr_of};
ghost use Rattle.xt_compile.specs.first.Form.{IsSumOf, var_widths, net_widths};
ghost use Rattle.xt_compile.specs.first.Nodes.{Means, HasWidth, IsMap, scene_at};

use el_design::{BinOp, Design, Kind, TExpr};
use nt_core::{Builder, Op};
use xt_base::NoMemory;

/// The node of each variable and of each net.
#[derive(Debug, Drop)]
pub struct ValueMap {
    pub vars: Vec<u32>,
    pub nets: Vec<u32>,
}

impl ValueMap {
    /// The node of a variable.
    pub fn var(&self, var: u32) -> u32
        requires { var < length self.now.vars.items }
        ensures { result ≡ slice_index self.now.vars.items var }
    {
        self.vars[var as usize]
    }

    /// The node of a net.
    pub fn net(&self, net: u32) -> u32
        requires { net < length self.now.nets.items }
        ensures { result ≡ slice_index self.now.nets.items net }
    {
        self.nets[net as usize]
    }
}

/// The node of an expression. In each tick its value is the expression's, where variables and nets have the values of
/// their nodes.
pub fn lower(
    design: &Design,
    expr: &TExpr,
    map: &ValueMap,
    builder: &mut Builder,
) -> Result<u32, NoMemory>
    requires map { IsMap design.now builder.old map.now }
    requires sum { (w : ℕ) × IsSumOf (var_widths design.now) (net_widths design.now) w (expr_of expr.now) }
    ensures { (w : ℕ) → IsSumOf (var_widths design.now) (net_widths design.now) w (expr_of expr.now) → IfOk result (λ node. Means design.now builder.old builder.new node w (λ s. value (flat_of design.now) (scene_at design.now builder.old map.now s) (expr_of expr.now))) }
{
    match &expr.kind {
        Kind::Num(number) => builder.node(Op::Const(*number)),
        Kind::Net(net) => Ok(map.net(*net)),
        Kind::Var(var) => Ok(map.var(*var)),
        Kind::Binary(op, left, right) => {
            let left = lower(design, left.get(), map, builder)?;
            let right = lower(design, right.get(), map, builder)?;
            combine(design, *op, left, right, builder)
        }
        _ => unreachable!(),
    }
}

/// The node of an operator over two nodes of one width.
fn combine(
    design: &Design,
    op: BinOp,
    left: u32,
    right: u32,
    builder: &mut Builder,
) -> Result<u32, NoMemory>
    requires op { op ≡ BinOp.Add }
    requires alike { (w : ℕ) × HasWidth builder.old left w × HasWidth builder.old right w }
    ensures { (w : ℕ) → HasWidth builder.old left w → IfOk result (λ node. Means design.now builder.old builder.new node w (λ s. add_of (node_value builder.old s left) (node_value builder.old s right))) }
{
    match op {
        BinOp::Add => builder.node(Op::Add(left, right)),
        _ => unreachable!(),
    }
}
