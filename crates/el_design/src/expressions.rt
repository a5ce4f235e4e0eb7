//! Typed expressions and targets. Each node has its width in bits and its sign, and its operands have the widths
//! that its operator needs.
use sqlite_items::{Boxed, Items};
use xt_bits::Bits;

/// A unary operator: `+ - ! ~ & ~& | ~| ^ ~^`, in this order; those from `&` on reduce their operand to one bit.
#[derive(Clone, Copy, Debug, PartialEq, Eq)]
pub enum UnOp {
    Plus,
    Minus,
    Not,
    Inv,
    And,
    Nand,
    Or,
    Nor,
    Xor,
    Xnor,
}

/// A binary operator: `* / % + - << >> <<< >>> < <= > >= == != === !== & ^ ~^ | && ||`, in this order.
#[derive(Clone, Copy, Debug, PartialEq, Eq)]
pub enum BinOp {
    Mul,
    Div,
    Rem,
    Add,
    Sub,
    Shl,
    Shr,
    Ashl,
    Ashr,
    Lt,
    Le,
    Gt,
    Ge,
    Eq,
    Ne,
    CaseEq,
    CaseNe,
    And,
    Xor,
    Xnor,
    Or,
    LogAnd,
    LogOr,
}

/// An expression with its width in bits and its sign.
#[cycle(expression)]
#[derive(Debug, Drop)]
pub struct TExpr {
    pub width: u32,
    pub signed: bool,
    pub kind: Kind,
}

/// What an expression is.
#[cycle(expression)]
#[derive(Debug, Drop)]
pub enum Kind {
    Num(Bits),
    /// A net, by its number.
    Net(u32),
    /// A variable that is no memory, by its number.
    Var(u32),
    /// The word of a memory at an index, which counts as declared in the source.
    Word(u32, Boxed<TExpr>),
    /// Some bits of an expression. The number is that of its lowest bit, as declared: with `reg [11:4] y`, bit 0 of
    /// `y` is `y[4]`, and the number is 4.
    Select(Boxed<TExpr>, Pick, u32),
    Unary(UnOp, Boxed<TExpr>),
    /// Division, remainder and comparison are signed where both operands are, and `>>>` where the node is.
    Binary(BinOp, Boxed<TExpr>, Boxed<TExpr>),
    /// The condition, the value where it isn't 0, and the value where it is.
    Choice(Boxed<TExpr>, Boxed<TExpr>, Boxed<TExpr>),
    /// The parts, the one with the high bits first.
    Concat(Items<TExpr>),
    /// So many copies of an expression.
    Repeat(u32, Boxed<TExpr>),
    /// The same bits with the node's sign.
    Sign(Boxed<TExpr>),
    /// The operand brought to the node's width: cut, or extended by its highest bit where the node is signed and by
    /// zeros otherwise.
    Resize(Boxed<TExpr>),
    /// A call by number: of a function or, after the functions, of an import.
    Call(u32, Items<TExpr>),
}

/// Which bits a select takes. Indexes and bounds count as declared in the source, and widths are in bits.
#[cycle(expression)]
#[derive(Debug, Drop)]
pub enum Pick {
    Bit(Boxed<TExpr>),
    /// The bounds: the highest bit, then the lowest.
    Part(u32, u32),
    /// `[e +: w]`: the lowest bit and the width.
    Up(Boxed<TExpr>, u32),
    /// `[e -: w]`: the highest bit and the width.
    Down(Boxed<TExpr>, u32),
}

/// Where a value is stored.
#[derive(Debug, Drop)]
pub enum Target {
    Var(u32),
    Part(u32, Pick),
    /// A word of a memory, by the index as declared.
    Word(u32, Boxed<TExpr>),
    WordPart(u32, Boxed<TExpr>, Pick),
    /// The parts, the one with the high bits first. An empty one stands for an output argument that can't be stored to.
    Concat(Items<Target>),
}
