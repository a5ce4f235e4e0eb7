//! What the nodes of an expression name and call.
ghost use Rattle.std.specs.Prelude.{◌≡◌, ◌++◌, ◌∷◌, [], OnOk, IfOk, List, map};
ghost use Rattle.el_design.specs.Calls.{count_of_exprs};
ghost use Rattle.el_design.specs.Plain.{Shape};
ghost use Rattle.el_design.specs.View.{expr_of, kind_of, range_of, exprs_of};
ghost use Rattle.ck_call.specs.declared.nodes.Node.TheVariants as node;
ghost use Rattle.ck_call.specs.inner.Nodes.{named, named_all, named_range};

use el_design::{Kind, Pick, TExpr};
use sqlite_items::Items;
use xt_base::NoMemory;

/// What one node of an expression is.
#[derive(Clone, Copy, Debug, PartialEq, Eq)]
pub(crate) enum Node {
    Net(u32),
    Var(u32),
    /// A word of a memory, by the memory's number.
    Word(u32),
    /// A call of a function or, after the functions, of an import, with so many arguments.
    Call(u32, usize),
    /// An operand brought to a width.
    Resize,
    Other,
}

/// Adds a node.
fn put(into: &mut Items<Node>, node: Node) -> Result<(), NoMemory>
    ensures { OnOk result (into.new ≡ into.old ++ node ∷ []) }
{
    into.push(node)?;
    Ok(())
}

/// Adds the node of a call.
#[tactic(auto, using(crate::proofs::Counts::calls_named))]
fn put_call(into: &mut Items<Node>, number: u32, arguments: &[TExpr]) -> Result<(), NoMemory>
    ensures { OnOk result (into.new ≡ into.old ++ node.Call number (count_of_exprs (exprs_of (map expr_of arguments.now))) ∷ []) }
{
    put(into, Node::Call(number, arguments.len()))
}

/// Adds the nodes of expressions, one after the other.
#[cycle(nodes)]
pub(crate) fn put_all(into: &mut Items<Node>, exprs: &[TExpr]) -> Result<(), NoMemory>
    ensures { OnOk result (into.new ≡ into.old ++ named_all (exprs_of (map expr_of exprs.now))) }
{
    for expr in exprs {
        put_nodes(into, expr)?;
    }
    Ok(())
}

/// Adds the nodes of the index of a select.
#[cycle(nodes)]
pub(crate) fn put_pick(into: &mut Items<Node>, pick: &Pick) -> Result<(), NoMemory>
    ensures { OnOk result (into.new ≡ into.old ++ named_range (range_of pick.now)) }
{
    match pick {
        Pick::Bit(index) | Pick::Up(index, _) | Pick::Down(index, _) => {
            put_nodes(into, index.get())
        }
        Pick::Part(_, _) => Ok(()),
    }
}

/// Adds the nodes of an expression, itself first.
#[cycle(nodes)]
pub(crate) fn put_nodes(into: &mut Items<Node>, expr: &TExpr) -> Result<(), NoMemory>
    ensures { OnOk result (into.new ≡ into.old ++ named (expr_of expr.now)) }
{
    put_kind(into, &expr.kind)
}

/// Adds the nodes of an expression of this kind.
#[cycle(nodes)]
fn put_kind(into: &mut Items<Node>, kind: &Kind) -> Result<(), NoMemory>
    ensures { (s : Shape) → OnOk result (into.new ≡ into.old ++ named (kind_of kind.now s)) }
{
    match kind {
        Kind::Num(_) => put(into, Node::Other),
        Kind::Net(number) => put(into, Node::Net(*number)),
        Kind::Var(number) => put(into, Node::Var(*number)),
        Kind::Word(number, index) => {
            put(into, Node::Word(*number))?;
            put_nodes(into, index.get())
        }
        Kind::Select(operand, pick, _) => {
            put(into, Node::Other)?;
            put_nodes(into, operand.get())?;
            put_pick(into, pick)
        }
        Kind::Unary(_, operand) => {
            put(into, Node::Other)?;
            put_nodes(into, operand.get())
        }
        Kind::Repeat(_, operand) => {
            put(into, Node::Other)?;
            put_nodes(into, operand.get())
        }
        Kind::Sign(operand) => {
            put(into, Node::Other)?;
            put_nodes(into, operand.get())
        }
        Kind::Resize(operand) => {
            put(into, Node::Resize)?;
            put_nodes(into, operand.get())
        }
        Kind::Binary(_, left, right) => {
            put(into, Node::Other)?;
            put_nodes(into, left.get())?;
            put_nodes(into, right.get())
        }
        Kind::Choice(test, yes, no) => {
            put(into, Node::Other)?;
            put_nodes(into, test.get())?;
            put_nodes(into, yes.get())?;
            put_nodes(into, no.get())
        }
        Kind::Concat(parts) => {
            put(into, Node::Other)?;
            put_all(into, parts.as_slice())
        }
        Kind::Call(number, arguments) => {
            put_call(into, *number, arguments.as_slice())?;
            put_all(into, arguments.as_slice())
        }
    }
}
