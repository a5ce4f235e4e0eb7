//! Names with their selects.
ghost use Rattle.std.specs.Prelude.{◌≡◌, ◌∷◌, ◌≤◌, [], IfSome, Option, Some, None, IfOk, OnOk, fold, true, false, not, option_map, unwrap_or, MatchOption};
ghost use Rattle.xt_base.specs.First.{sooner};
ghost use Rattle.el_design.specs.declared.expressions.Kind.TheVariants as kind_is;
ghost use Rattle.el_width.specs.Environment.{means, break_at};
ghost use Rattle.el_width.specs.Operands.{variable, object, memory, named, name, called, index, part_of, up, down, whole, count_known, open_kind, zero_kind, index_of, formals_of, only_if};
ghost use Rattle.el_width.specs.Breaks.{part_breaks, bounds_breaks, length_breaks, name_breaks, call_breaks, is_parameter};
ghost use Rattle.el_width.specs.Expressions.{part_taken};
ghost use Rattle.el_width.specs.inner.Operands.{operand_of, alone_operand};

use crate::environment::{Env, Meaning, Object, Routine};
use crate::lengths::{bounds, is_wrong_length, width_of};
use crate::operands::{Alone, Operand, own};
use crate::values::in_range;
use el_design::{Kind, Pick, TExpr};
use sqlite_items::{Boxed, Items};
use std::alloc::Global;
use xt_base::{Finder, NoMemory};
use xt_bits::Bits;

/// The bits that a select takes.
#[derive(Debug, Drop)]
pub struct Taken {
    /// How many; None where a break leaves it open.
    pub length: Option<u32>,
    pub pick: Pick,
}

/// `[i]`
pub(crate) fn index(alloc: Global, i: Alone) -> Result<Taken, NoMemory>
    ensures { IfOk result (λ t. t ≡ index (alone_operand i)) }
{
    let index = Boxed::new(alloc, i.made.form)?;
    Ok(Taken {
        length: Some(1),
        pick: Pick::Bit(index),
    })
}

/// The bits between two bounds, which are reported where they are no range.
fn part_of(env: &Env<'_>, at: u32, found: Option<(u32, u32)>, finder: &mut Finder) -> Taken
    requires { IfSome found (λ b. (b.1 ≤ b.0) × (b.0 ≤ 65535)) }
    ensures taken { result ≡ part_of found }
    ensures breaks { finder.new.first ≡ fold sooner finder.old.first (bounds_breaks env.now at found) }
{
    match found {
        None => {
            finder.report(env.break_at(at, 41));
            Taken {
                length: None,
                pick: Pick::Part(0, 0),
            }
        }
        Some((msb, lsb)) => {
            let length = msb - lsb + 1;
            if !in_range(length) {
                finder.report(env.break_at(at, 40));
            }
            Taken {
                length: Some(length),
                pick: Pick::Part(msb, lsb),
            }
        }
    }
}

/// `[msb:lsb]`
pub(crate) fn part(
    env: &Env<'_>,
    at: u32,
    msb: Option<i128>,
    lsb: Option<i128>,
    finder: &mut Finder,
) -> Taken
    ensures taken { result ≡ part_taken msb lsb }
    ensures breaks { finder.new.first ≡ fold sooner finder.old.first (part_breaks env.now at msb lsb) }
{
    match (msb, lsb) {
        (Some(msb), Some(lsb)) => part_of(env, at, bounds(msb, lsb), finder),
        (Some(_), None) => Taken {
            length: None,
            pick: Pick::Part(0, 0),
        },
        (None, _) => Taken {
            length: None,
            pick: Pick::Part(0, 0),
        },
    }
}

/// Reports a length that is out of range.
fn report_length(env: &Env<'_>, at: u32, length: Option<u32>, finder: &mut Finder)
    ensures { finder.new.first ≡ fold sooner finder.old.first (length_breaks env.now at length) }
{
    if is_wrong_length(length) {
        finder.report(env.break_at(at, 40));
    }
}

/// `[base +: width]`
pub(crate) fn up(
    alloc: Global,
    env: &Env<'_>,
    at: u32,
    base: Alone,
    length: Option<u32>,
    finder: &mut Finder,
) -> Result<Taken, NoMemory>
    ensures taken { IfOk result (λ t. t ≡ up (alone_operand base) length) }
    ensures breaks { OnOk result (finder.new.first ≡ fold sooner finder.old.first (length_breaks env.now at length)) }
{
    report_length(env, at, length, finder);
    let base = Boxed::new(alloc, base.made.form)?;
    Ok(Taken {
        length,
        pick: Pick::Up(base, width_of(length)),
    })
}

/// `[base -: width]`
pub(crate) fn down(
    alloc: Global,
    env: &Env<'_>,
    at: u32,
    base: Alone,
    length: Option<u32>,
    finder: &mut Finder,
) -> Result<Taken, NoMemory>
    ensures taken { IfOk result (λ t. t ≡ down (alone_operand base) length) }
    ensures breaks { OnOk result (finder.new.first ≡ fold sooner finder.old.first (length_breaks env.now at length)) }
{
    report_length(env, at, length, finder);
    let base = Boxed::new(alloc, base.made.form)?;
    Ok(Taken {
        length,
        pick: Pick::Down(base, width_of(length)),
    })
}

/// A number that stands where nothing is known.
fn zero_kind() -> Kind
    ensures { result ≡ zero_kind }
{
    Kind::Num(Bits::new(1, 0))
}

/// Something of which nothing is known.
fn unknown(token: u32) -> Operand
    ensures { operand_of result ≡ variable token open_kind }
{
    own(token, None, false, false, zero_kind(), None)
}

/// The first of the selects, if there is one.
fn take_first(selects: &mut Items<Taken>) -> Option<Taken>
    ensures { MatchOption result ((selects.old ≡ []) × (selects.new ≡ [])) (λ t. selects.old ≡ t ∷ selects.new) }
{
    if selects.is_empty() {
        None
    } else {
        Some(selects.remove(0))
    }
}

/// A thing, or the bits of it that a select takes.
fn object(
    alloc: Global,
    token: u32,
    o: Object,
    kind: Kind,
    selects: Items<Taken>,
) -> Result<Operand, NoMemory>
    ensures { IfOk result (λ r. operand_of r ≡ variable token (object o kind selects)) }
{
    let mut selects = selects;
    match take_first(&mut selects) {
        None => Ok(own(token, Some(o.width), o.signed, false, kind, None)),
        Some(taken) => {
            let whole = Boxed::new(
                alloc,
                TExpr {
                    width: o.width,
                    signed: o.signed,
                    kind,
                },
            )?;
            Ok(own(
                token,
                taken.length,
                false,
                false,
                Kind::Select(whole, taken.pick, o.lsb),
                None,
            ))
        }
    }
}

/// The index of a word.
fn index_of(pick: Pick) -> TExpr
    ensures { result ≡ index_of pick }
{
    match pick {
        Pick::Bit(index) => index.into_inner(),
        Pick::Part(_, _) | Pick::Up(_, _) | Pick::Down(_, _) => TExpr {
            width: 1,
            signed: false,
            kind: zero_kind(),
        },
    }
}

/// A word of a memory, or bits of it.
fn memory(alloc: Global, token: u32, o: Object, selects: Items<Taken>) -> Result<Operand, NoMemory>
    ensures { IfOk result (λ r. operand_of r ≡ variable token (memory o selects)) }
{
    let mut selects = selects;
    match take_first(&mut selects) {
        None => Ok(unknown(token)),
        Some(taken) => {
            let index = Boxed::new(alloc, index_of(taken.pick))?;
            object(alloc, token, o, Kind::Word(o.number, index), selects)
        }
    }
}

/// A routine's name alone: the variable that is its result.
fn result_of(
    alloc: Global,
    token: u32,
    routine: &Routine,
    selects: Items<Taken>,
) -> Result<Operand, NoMemory>
    ensures { IfOk result (λ r. operand_of r ≡ variable token (unwrap_or (option_map (λ o. object o (kind_is.Var o.number) selects) routine.now.result) open_kind)) }
{
    match routine.result {
        Some(o) => object(alloc, token, o, Kind::Var(o.number), selects),
        None => Ok(unknown(token)),
    }
}

/// A name with its selects.
pub(crate) fn name(
    alloc: Global,
    env: &Env<'_>,
    token: u32,
    at: u32,
    selects: Items<Taken>,
) -> Result<Operand, NoMemory>
    ensures { IfOk result (λ r. operand_of r ≡ name token (means env.now at) selects) }
{
    match env.meaning(at) {
        Some(Meaning::Parameter { value, signed }) => Ok(own(
            token,
            Some(value.width()),
            *signed,
            true,
            Kind::Num(*value),
            Some(*value),
        )),
        Some(Meaning::Unvalued) => Ok(own(token, None, false, true, zero_kind(), None)),
        Some(Meaning::Net(o)) => object(alloc, token, *o, Kind::Net(o.number), selects),
        Some(Meaning::Variable(o)) => object(alloc, token, *o, Kind::Var(o.number), selects),
        Some(Meaning::Memory(o)) => memory(alloc, token, *o, selects),
        Some(Meaning::Routine(routine)) => result_of(alloc, token, routine, selects),
        Some(Meaning::Unknown) => Ok(unknown(token)),
        None => Ok(unknown(token)),
    }
}

/// A call with its arguments, as they are passed.
pub(crate) fn call(env: &Env<'_>, token: u32, at: u32, args: Items<TExpr>) -> Operand
    ensures { operand_of result ≡ variable token (called (means env.now at) args) }
{
    match env.meaning(at) {
        Some(Meaning::Routine(routine)) => own(
            token,
            Some(routine.width),
            routine.signed,
            false,
            Kind::Call(routine.number, args),
            None,
        ),
        Some(Meaning::Parameter { .. }) => unknown(token),
        Some(Meaning::Unvalued) => unknown(token),
        Some(Meaning::Net(_)) => unknown(token),
        Some(Meaning::Variable(_)) => unknown(token),
        Some(Meaning::Memory(_)) => unknown(token),
        Some(Meaning::Unknown) => unknown(token),
        None => unknown(token),
    }
}

/// The widths of the formals of what a name means, in bits.
pub(crate) fn formals<'a>(env: &'a Env<'_>, at: u32) -> &'a [u32]
    ensures { result.now ≡ formals_of (means env.now at) }
{
    match env.meaning(at) {
        Some(Meaning::Routine(routine)) => routine.formals.as_slice(),
        Some(Meaning::Parameter { .. }) => &[],
        Some(Meaning::Unvalued) => &[],
        Some(Meaning::Net(_)) => &[],
        Some(Meaning::Variable(_)) => &[],
        Some(Meaning::Memory(_)) => &[],
        Some(Meaning::Unknown) => &[],
        None => &[],
    }
}

/// Whether a name means a parameter.
fn is_parameter(env: &Env<'_>, at: u32) -> bool
    ensures { result ≡ is_parameter (means env.now at) }
{
    match env.meaning(at) {
        Some(Meaning::Parameter { .. }) => true,
        Some(Meaning::Unvalued) => true,
        Some(Meaning::Routine(_)) => false,
        Some(Meaning::Net(_)) => false,
        Some(Meaning::Variable(_)) => false,
        Some(Meaning::Memory(_)) => false,
        Some(Meaning::Unknown) => false,
        None => false,
    }
}

/// Reports a name that is no parameter, where a constant must stand.
pub(crate) fn report_name(env: &Env<'_>, must: bool, at: u32, finder: &mut Finder)
    ensures { finder.new.first ≡ fold sooner finder.old.first (name_breaks env.now must at) }
{
    if must && !is_parameter(env, at) {
        finder.report(env.break_at(at, 32));
    }
}

/// Reports a call, where a constant must stand.
pub(crate) fn report_call(env: &Env<'_>, must: bool, at: u32, finder: &mut Finder)
    ensures { finder.new.first ≡ fold sooner finder.old.first (call_breaks env.now must at) }
{
    if must {
        finder.report(env.break_at(at, 32));
    }
}
