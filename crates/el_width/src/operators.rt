//! How operators treat their operands (IEEE 1364-2005, 5.4.1 and table 5-22).
ghost use Rattle.std.specs.Prelude.{◌≡◌};
ghost use Rattle.el_width.specs.Operators.{manner_of, keeps_length, is_signed_word, unary_of, binary_of, divides};

use vl_tree::Sign;

/// How a binary operator treats its operands.
#[derive(Clone, Copy, Debug, PartialEq, Eq)]
pub enum Manner {
    /// Both operands have the length and the sign of the context.
    Together,
    /// The left operand does; the right one stands by itself.
    Shifts,
    /// Both have the larger length of the two, apart from the context.
    Compares,
    /// Each stands by itself.
    Judges,
}

pub(crate) fn manner_of(op: vl_tree::BinOp) -> Manner
    ensures { result ≡ manner_of op }
{
    use vl_tree::BinOp::*;
    match op {
        Shl | Shr | Ashl | Ashr => Manner::Shifts,
        Lt | Le | Gt | Ge | Eq | Ne | CaseEq | CaseNe => Manner::Compares,
        LogAnd | LogOr => Manner::Judges,
        Mul | Div | Rem | Add | Sub | And | Xor | Xnor | Or => Manner::Together,
    }
}

/// Whether a unary operator has its operand's length; the others give one bit.
pub(crate) fn keeps_length(op: vl_tree::UnOp) -> bool
    ensures { result ≡ keeps_length op }
{
    use vl_tree::UnOp::*;
    match op {
        Plus | Minus | Inv => true,
        Not | And | Nand | Or | Nor | Xor | Xnor => false,
    }
}

pub(crate) fn is_signed_word(sign: Sign) -> bool
    ensures { result ≡ is_signed_word sign }
{
    match sign {
        Sign::Signed => true,
        Sign::Unsigned => false,
    }
}

/// The same operator in the flat design.
pub(crate) fn unary_of(op: vl_tree::UnOp) -> el_design::UnOp
    ensures { result ≡ unary_of op }
{
    match op {
        vl_tree::UnOp::Plus => el_design::UnOp::Plus,
        vl_tree::UnOp::Minus => el_design::UnOp::Minus,
        vl_tree::UnOp::Not => el_design::UnOp::Not,
        vl_tree::UnOp::Inv => el_design::UnOp::Inv,
        vl_tree::UnOp::And => el_design::UnOp::And,
        vl_tree::UnOp::Nand => el_design::UnOp::Nand,
        vl_tree::UnOp::Or => el_design::UnOp::Or,
        vl_tree::UnOp::Nor => el_design::UnOp::Nor,
        vl_tree::UnOp::Xor => el_design::UnOp::Xor,
        vl_tree::UnOp::Xnor => el_design::UnOp::Xnor,
    }
}

/// The same operator in the flat design.
pub(crate) fn binary_of(op: vl_tree::BinOp) -> el_design::BinOp
    ensures { result ≡ binary_of op }
{
    match op {
        vl_tree::BinOp::Mul => el_design::BinOp::Mul,
        vl_tree::BinOp::Div => el_design::BinOp::Div,
        vl_tree::BinOp::Rem => el_design::BinOp::Rem,
        vl_tree::BinOp::Add => el_design::BinOp::Add,
        vl_tree::BinOp::Sub => el_design::BinOp::Sub,
        vl_tree::BinOp::Shl => el_design::BinOp::Shl,
        vl_tree::BinOp::Shr => el_design::BinOp::Shr,
        vl_tree::BinOp::Ashl => el_design::BinOp::Ashl,
        vl_tree::BinOp::Ashr => el_design::BinOp::Ashr,
        vl_tree::BinOp::Lt => el_design::BinOp::Lt,
        vl_tree::BinOp::Le => el_design::BinOp::Le,
        vl_tree::BinOp::Gt => el_design::BinOp::Gt,
        vl_tree::BinOp::Ge => el_design::BinOp::Ge,
        vl_tree::BinOp::Eq => el_design::BinOp::Eq,
        vl_tree::BinOp::Ne => el_design::BinOp::Ne,
        vl_tree::BinOp::CaseEq => el_design::BinOp::CaseEq,
        vl_tree::BinOp::CaseNe => el_design::BinOp::CaseNe,
        vl_tree::BinOp::And => el_design::BinOp::And,
        vl_tree::BinOp::Xor => el_design::BinOp::Xor,
        vl_tree::BinOp::Xnor => el_design::BinOp::Xnor,
        vl_tree::BinOp::Or => el_design::BinOp::Or,
        vl_tree::BinOp::LogAnd => el_design::BinOp::LogAnd,
        vl_tree::BinOp::LogOr => el_design::BinOp::LogOr,
    }
}

/// Whether an operator has a divisor.
pub(crate) fn divides(op: el_design::BinOp) -> bool
    ensures { result ≡ divides op }
{
    matches!(op, el_design::BinOp::Div | el_design::BinOp::Rem)
}
