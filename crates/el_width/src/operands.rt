//! Operands: expressions with the length and the sign that they have by themselves (IEEE 1364-2005, 5.4 and 5.5).
ghost use Rattle.std.specs.Prelude.{◌≡◌, ◌&&◌, ◌++◌, ◌∷◌, ◌+◌, ◌≤◌, [], not, Option, Some, None, IfSome, IfOk, OnOk, fold, true, false, option_map, unwrap_or};
ghost use Rattle.xt_base.specs.First.{sooner};
ghost use Rattle.el_design.specs.declared.expressions.Kind.TheVariants as kind_is;
ghost use Rattle.xt_base.specs.declared.TheConstants.{MAX_WIDTH};
ghost use Rattle.el_width.specs.declared.operators.Manner.TheVariants as manner_is;
ghost use Rattle.el_width.specs.Environment.{break_at};
ghost use Rattle.el_width.specs.Lengths.{width_of, times};
ghost use Rattle.el_width.specs.Operators.{manner_of, keeps_length, unary_of, binary_of};
ghost use Rattle.el_width.specs.Operands.{own, unary, binary, together, shifts, compares, judges, only_if, choice, with_sign, literal, by_itself, whole, count_known, known_copies, known_parts, repeated, passed};
ghost use Rattle.el_width.specs.Breaks.{inner_breaks, reduction_breaks, length_breaks, copies_breaks, is_none_of};
ghost use Rattle.el_width.specs.inner.Operands.{operand_of, alone_view, alone_operand, no_parts, parts_next};

use crate::environment::Env;
use crate::lengths::{count_of, is_wrong_length, larger, plus, times, width_of};
use crate::made::{Divisor, Made, Open, binary_made, bring, unary_made};
use crate::numbers::Literal;
use crate::operators::{Manner, binary_of, keeps_length, manner_of, unary_of};
use crate::values::{in_range, integer, known_copies, known_next};
use el_design::{Kind, TExpr};
use sqlite_items::{Boxed, Items};
use std::alloc::Global;
use xt_base::{Finder, NoMemory};
use xt_bits::Bits;

/// An expression with the length and the sign that it has by itself.
#[derive(Drop)]
pub(crate) struct Operand {
    /// Its first token.
    pub token: u32,
    /// In bits; None where a break leaves it open.
    pub length: Option<u32>,
    pub signed: bool,
    /// Whether it names parameters alone, and calls nothing.
    pub constant: bool,
    pub expr: Open,
}

/// An expression that stands by itself.
#[derive(Drop)]
pub(crate) struct Alone {
    pub length: Option<u32>,
    pub signed: bool,
    pub constant: bool,
    pub made: Made,
}

/// The parts of a concatenation, from the left on.
#[derive(Drop)]
pub(crate) struct Parts {
    /// Of all together.
    pub length: Option<u32>,
    pub constant: bool,
    pub forms: Items<TExpr>,
    /// None for no part, else their value, if it is known.
    pub joined: Option<Option<Bits>>,
}

/// An operand that has its length and sign whatever stands round it.
#[tactic(auto, using(crate::proofs::Opens::own_is))]
pub(crate) fn own(
    token: u32,
    length: Option<u32>,
    signed: bool,
    constant: bool,
    kind: Kind,
    known: Option<Bits>,
) -> Operand
    ensures { operand_of result ≡ own token length signed constant kind known }
{
    let form = TExpr {
        width: width_of(length),
        signed,
        kind,
    };
    Operand {
        token,
        length,
        signed,
        constant,
        expr: Open::Own(Made { form, known }),
    }
}

/// Lets an operand stand by itself.
pub(crate) fn settle(alloc: Global, a: Operand, finder: &mut Finder) -> Result<Alone, NoMemory>
    ensures alone { IfOk result (λ x. x ≡ alone_view (operand_of a)) }
    ensures breaks { OnOk result (finder.new.first ≡ fold sooner finder.old.first (by_itself (operand_of a)).broken) }
{
    let made = bring(alloc, a.expr, width_of(a.length), a.signed, finder)?;
    Ok(Alone {
        length: a.length,
        signed: a.signed,
        constant: a.constant,
        made,
    })
}

/// `+ - ~` of an operand.
#[tactic(auto, using(crate::proofs::Opens::unary_is))]
fn kept_unary(
    alloc: Global,
    token: u32,
    op: el_design::UnOp,
    a: Operand,
) -> Result<Operand, NoMemory>
    ensures { IfOk result (λ o. operand_of o ≡ unary token op true (operand_of a)) }
{
    let operand = Boxed::new(alloc, a.expr)?;
    Ok(Operand {
        token,
        length: a.length,
        signed: a.signed,
        constant: a.constant,
        expr: Open::Unary { op, operand },
    })
}

/// One bit of an operand.
fn reduced(
    alloc: Global,
    token: u32,
    op: el_design::UnOp,
    a: Operand,
    finder: &mut Finder,
) -> Result<Operand, NoMemory>
    ensures operand { IfOk result (λ o. operand_of o ≡ unary token op false (operand_of a)) }
    ensures breaks { OnOk result (finder.new.first ≡ fold sooner finder.old.first (reduction_breaks false (operand_of a))) }
{
    let a = settle(alloc, a, finder)?;
    let one = unary_made(alloc, op, 1, false, a.made)?;
    Ok(own(token, Some(1), false, a.constant, one.form.kind, one.known))
}

/// A unary operator.
pub(crate) fn unary(
    alloc: Global,
    token: u32,
    op: vl_tree::UnOp,
    a: Operand,
    finder: &mut Finder,
) -> Result<Operand, NoMemory>
    ensures operand { IfOk result (λ o. operand_of o ≡ unary token (unary_of op) (keeps_length op) (operand_of a)) }
    ensures breaks { OnOk result (finder.new.first ≡ fold sooner finder.old.first (reduction_breaks (keeps_length op) (operand_of a))) }
{
    if keeps_length(op) {
        kept_unary(alloc, token, unary_of(op), a)
    } else {
        reduced(alloc, token, unary_of(op), a, finder)
    }
}

/// An operator whose operands both have the context's length and sign.
#[tactic(auto, using(crate::proofs::Opens::together_is))]
fn together(
    alloc: Global,
    env: &Env<'_>,
    token: u32,
    op: el_design::BinOp,
    a: Operand,
    b: Operand,
) -> Result<Operand, NoMemory>
    ensures { IfOk result (λ o. operand_of o ≡ together env.now token op (operand_of a) (operand_of b)) }
{
    let divisor = Divisor {
        constant: b.constant,
        refusal: env.break_at(b.token, 42),
    };
    let left = Boxed::new(alloc, a.expr)?;
    let right = Boxed::new(alloc, b.expr)?;
    Ok(Operand {
        token,
        length: larger(a.length, b.length),
        signed: a.signed && b.signed,
        constant: a.constant && b.constant,
        expr: Open::Together {
            op,
            left,
            right,
            divisor,
        },
    })
}

/// A shift.
#[tactic(auto, using(crate::proofs::Opens::shifts_is))]
fn shifts(
    alloc: Global,
    token: u32,
    op: el_design::BinOp,
    a: Operand,
    b: Operand,
    finder: &mut Finder,
) -> Result<Operand, NoMemory>
    ensures operand { IfOk result (λ o. operand_of o ≡ shifts token op (operand_of a) (operand_of b)) }
    ensures breaks { OnOk result (finder.new.first ≡ fold sooner finder.old.first (by_itself (operand_of b)).broken) }
{
    let amount = settle(alloc, b, finder)?;
    let left = Boxed::new(alloc, a.expr)?;
    Ok(Operand {
        token,
        length: a.length,
        signed: a.signed,
        constant: a.constant && amount.constant,
        expr: Open::Shifts {
            op,
            left,
            amount: amount.made,
        },
    })
}

/// A comparison.
fn compares(
    alloc: Global,
    token: u32,
    op: el_design::BinOp,
    a: Operand,
    b: Operand,
    finder: &mut Finder,
) -> Result<Operand, NoMemory>
    ensures operand { IfOk result (λ o. operand_of o ≡ compares token op (operand_of a) (operand_of b)) }
    ensures breaks { OnOk result (finder.new.first ≡ fold sooner finder.old.first (inner_breaks manner_is.Compares (operand_of a) (operand_of b))) }
{
    let width = width_of(larger(a.length, b.length));
    let signed = a.signed && b.signed;
    let constant = a.constant && b.constant;
    let left = bring(alloc, a.expr, width, signed, finder)?;
    let right = bring(alloc, b.expr, width, signed, finder)?;
    let one = binary_made(alloc, op, 1, false, left, right, signed)?;
    Ok(own(token, Some(1), false, constant, one.form.kind, one.known))
}

/// `&&` or `||`.
fn judges(
    alloc: Global,
    token: u32,
    op: el_design::BinOp,
    a: Operand,
    b: Operand,
    finder: &mut Finder,
) -> Result<Operand, NoMemory>
    ensures operand { IfOk result (λ o. operand_of o ≡ judges token op (operand_of a) (operand_of b)) }
    ensures breaks { OnOk result (finder.new.first ≡ fold sooner finder.old.first (inner_breaks manner_is.Judges (operand_of a) (operand_of b))) }
{
    let left = settle(alloc, a, finder)?;
    let right = settle(alloc, b, finder)?;
    let constant = left.constant && right.constant;
    let one = binary_made(alloc, op, 1, false, left.made, right.made, false)?;
    Ok(own(token, Some(1), false, constant, one.form.kind, one.known))
}

/// A binary operator.
pub(crate) fn binary(
    alloc: Global,
    env: &Env<'_>,
    token: u32,
    op: vl_tree::BinOp,
    a: Operand,
    b: Operand,
    finder: &mut Finder,
) -> Result<Operand, NoMemory>
    ensures operand { IfOk result (λ o. operand_of o ≡ binary env.now token (binary_of op) (manner_of op) (operand_of a) (operand_of b)) }
    ensures breaks { OnOk result (finder.new.first ≡ fold sooner finder.old.first (inner_breaks (manner_of op) (operand_of a) (operand_of b))) }
{
    let flat = binary_of(op);
    match manner_of(op) {
        Manner::Together => together(alloc, env, token, flat, a, b),
        Manner::Shifts => shifts(alloc, token, flat, a, b, finder),
        Manner::Compares => compares(alloc, token, flat, a, b, finder),
        Manner::Judges => judges(alloc, token, flat, a, b, finder),
    }
}

/// `test ? a : b`
#[tactic(auto, using(crate::proofs::Opens::choice_is))]
pub(crate) fn choice(
    alloc: Global,
    token: u32,
    test: Alone,
    a: Operand,
    b: Operand,
) -> Result<Operand, NoMemory>
    ensures { IfOk result (λ o. operand_of o ≡ choice token (alone_operand test) (operand_of a) (operand_of b)) }
{
    let first = Boxed::new(alloc, a.expr)?;
    let second = Boxed::new(alloc, b.expr)?;
    Ok(Operand {
        token,
        length: larger(a.length, b.length),
        signed: a.signed && b.signed,
        constant: test.constant && (a.constant && b.constant),
        expr: Open::Choice {
            test: test.made,
            first,
            second,
        },
    })
}

/// `$signed(a)` or `$unsigned(a)`
pub(crate) fn with_sign(
    alloc: Global,
    token: u32,
    signed: bool,
    a: Alone,
) -> Result<Operand, NoMemory>
    ensures { IfOk result (λ o. operand_of o ≡ with_sign token signed (alone_operand a)) }
{
    let made = a.made;
    let known = made.known;
    let form = Boxed::new(alloc, made.form)?;
    Ok(own(token, a.length, signed, a.constant, Kind::Sign(form), known))
}

/// A number, which is reported where it may not stand.
pub(crate) fn literal(env: &Env<'_>, token: u32, number: Literal, finder: &mut Finder) -> Operand
    ensures operand { operand_of result ≡ literal token number }
    ensures breaks { finder.new.first ≡ fold sooner finder.old.first (only_if (not number.fits) (break_at env.now token 40)) }
{
    if !number.fits {
        finder.report(env.break_at(token, 40));
    }
    let known = if in_range(number.width) {
        Some(number.bits)
    } else {
        None
    };
    own(
        token,
        Some(number.width),
        number.signed,
        true,
        Kind::Num(number.bits),
        known,
    )
}

impl Parts {
    pub(crate) fn new(alloc: Global) -> Parts
        ensures { result ≡ no_parts }
    {
        Parts {
            length: Some(0),
            constant: true,
            forms: Items::new(alloc),
            joined: None,
        }
    }

    /// One part more.
    pub(crate) fn push(&mut self, part: Alone) -> Result<(), NoMemory>
        ensures { OnOk result (self.new ≡ parts_next self.old (alone_operand part)) }
    {
        self.length = plus(self.length, part.length);
        self.constant = self.constant && part.constant;
        self.joined = known_next(self.joined, part.made.known);
        self.forms.push(part.made.form)?;
        Ok(())
    }

    /// Their value, if it is known.
    fn known(&self) -> Option<Bits>
        ensures { result ≡ unwrap_or self.now.joined None }
    {
        self.joined.unwrap_or(None)
    }
}

/// `{a, b}`
pub(crate) fn concat(env: &Env<'_>, token: u32, parts: Parts, finder: &mut Finder) -> Operand
    ensures operand { operand_of result ≡ own token parts.length false parts.constant (kind_is.Concat parts.forms) (unwrap_or parts.joined None) }
    ensures breaks { finder.new.first ≡ fold sooner finder.old.first (length_breaks env.now token parts.length) }
{
    if is_wrong_length(parts.length) {
        finder.report(env.break_at(token, 40));
    }
    let known = parts.known();
    own(
        token,
        parts.length,
        false,
        parts.constant,
        Kind::Concat(parts.forms),
        known,
    )
}

/// What is repeated: the only part, or the concatenation of the parts.
fn repeated(length: Option<u32>, forms: Items<TExpr>) -> TExpr
    ensures { result ≡ repeated length forms }
{
    let mut forms = forms;
    if forms.len() == 1 {
        return forms.remove(0);
    }
    TExpr {
        width: width_of(length),
        signed: false,
        kind: Kind::Concat(forms),
    }
}

impl Alone {
    /// The value of a constant as a whole number.
    pub(crate) fn whole(self) -> Option<i128>
        ensures { result ≡ whole (alone_operand self) }
    {
        match self.made.known {
            Some(value) => Some(integer(value, self.signed)),
            None => None,
        }
    }

    /// The value of a constant as a count or a width.
    pub(crate) fn count(self) -> Option<u32>
        ensures value { result ≡ count_known (alone_operand self) }
        ensures small { IfSome result (λ count. count ≤ MAX_WIDTH + 1) }
    {
        match self.whole() {
            Some(number) => Some(count_of(number)),
            None => None,
        }
    }
}

/// Whether a count is known, and is 0.
fn is_none_of(count: Option<u32>) -> bool
    ensures { result ≡ is_none_of count }
{
    match count {
        Some(count) => count == 0,
        None => false,
    }
}

/// Reports a count below 1, and copies whose length is out of range.
fn report_copies(
    env: &Env<'_>,
    token: u32,
    count: Option<u32>,
    length: Option<u32>,
    finder: &mut Finder,
)
    ensures { finder.new.first ≡ fold sooner finder.old.first (copies_breaks env.now token count length) }
{
    if is_none_of(count) || is_wrong_length(length) {
        finder.report(env.break_at(token, 40));
    }
}

/// `{n{a, b}}`
pub(crate) fn replicate(
    alloc: Global,
    env: &Env<'_>,
    token: u32,
    count: Alone,
    parts: Parts,
    finder: &mut Finder,
) -> Result<Operand, NoMemory>
    ensures operand { IfOk result (λ o. operand_of o ≡ own token (times (count_known (alone_operand count)) parts.length) false (count.constant && parts.constant)
        (kind_is.Repeat (unwrap_or (count_known (alone_operand count)) 0) (repeated parts.length parts.forms))
        (known_copies (unwrap_or (count_known (alone_operand count)) 0) (unwrap_or parts.joined None))) }
    ensures breaks { OnOk result (finder.new.first ≡ fold sooner finder.old.first
        (copies_breaks env.now token (count_known (alone_operand count)) (times (count_known (alone_operand count)) parts.length))) }
{
    let constant = count.constant && parts.constant;
    let times_known = count.count();
    let length = times(times_known, parts.length);
    report_copies(env, token, times_known, length, finder);
    let copies = times_known.unwrap_or(0);
    let known = known_copies(copies, parts.known());
    let one = Boxed::new(alloc, repeated(parts.length, parts.forms))?;
    Ok(own(
        token,
        length,
        false,
        constant,
        Kind::Repeat(copies, one),
        known,
    ))
}

/// An argument, brought to its formal's length if it has a formal.
pub(crate) fn passed(
    alloc: Global,
    formal: Option<u32>,
    a: Operand,
    finder: &mut Finder,
) -> Result<TExpr, NoMemory>
    ensures form { IfOk result (λ e. e ≡ (passed formal (operand_of a)).form) }
    ensures breaks { OnOk result (finder.new.first ≡ fold sooner finder.old.first (passed formal (operand_of a)).broken) }
{
    let length = match formal {
        Some(width) => larger(Some(width), a.length),
        None => a.length,
    };
    let made = bring(alloc, a.expr, width_of(length), a.signed, finder)?;
    Ok(made.form)
}
