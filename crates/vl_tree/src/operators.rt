//! Operators (IEEE 1364-2005, 5.1).

/// `+ - ! ~ & ~& | ~| ^ ~^` before an operand; `^~` is the same operator as `~^`.
#[derive(Clone, Copy, Debug, PartialEq, Eq)]
pub enum UnOp {
    Plus,
    Minus,
    Not,
    Inv,
    And,
    Nand,
    Or,
    Nor,
    Xor,
    Xnor,
}

/// `* / % + - << >> <<< >>> < <= > >= == != === !== & ^ ~^ | && ||` between operands; `^~` is the same as `~^`.
#[derive(Clone, Copy, Debug, PartialEq, Eq)]
pub enum BinOp {
    Mul,
    Div,
    Rem,
    Add,
    Sub,
    Shl,
    Shr,
    Ashl,
    Ashr,
    Lt,
    Le,
    Gt,
    Ge,
    Eq,
    Ne,
    CaseEq,
    CaseNe,
    And,
    Xor,
    Xnor,
    Or,
    LogAnd,
    LogOr,
}

/// `$signed` or `$unsigned` in an expression, `signed` or `unsigned` behind an integer type.
#[derive(Clone, Copy, Debug, PartialEq, Eq)]
pub enum Sign {
    Signed,
    Unsigned,
}
