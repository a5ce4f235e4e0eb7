//! Typed expressions, shown in one line: each with its width, and `s` where it is signed.
use case_file::Stop;
use el_design::{Kind, Pick, TExpr};
use xt_bits::Bits;

#[cycle(show)]
fn show_all(levels: u32, all: &[TExpr], out: &mut String) -> Result<(), Stop> {
    let mut is_first = true;
    for one in all {
        if !is_first {
            out.push(',')?;
        }
        is_first = false;
        show(levels, one, out)?;
    }
    Ok(())
}

#[cycle(show)]
fn show_pick(levels: u32, pick: &Pick, out: &mut String) -> Result<(), Stop> {
    out.push('[')?;
    match pick {
        Pick::Bit(index) => show(levels, index.get(), out)?,
        Pick::Part(msb, lsb) => write!(out, "{msb}:{lsb}")?,
        Pick::Up(base, width) => {
            show(levels, base.get(), out)?;
            write!(out, "+:{width}")?;
        }
        Pick::Down(base, width) => {
            show(levels, base.get(), out)?;
            write!(out, "-:{width}")?;
        }
    }
    Ok(out.push(']')?)
}

/// Shows a node of one operand behind its name.
#[cycle(show)]
fn show_one(levels: u32, name: &str, of: &TExpr, out: &mut String) -> Result<(), Stop> {
    write!(out, "{name}(")?;
    show(levels, of, out)?;
    Ok(out.push(')')?)
}

fn show_number(value: Bits, signed: bool, out: &mut String) -> Result<(), Stop> {
    let base = if signed { "sd" } else { "d" };
    Ok(write!(out, "{}'{base}{}", value.width(), value.value())?)
}

/// Shows an expression, down to a number of levels: an operator before its operands.
#[cycle(show)]
pub fn show(levels: u32, of: &TExpr, out: &mut String) -> Result<(), Stop> {
    if levels == 0 {
        return Ok(out.push('_')?);
    }
    let TExpr {
        width,
        signed,
        kind,
    } = of;
    if let Kind::Num(value) = kind {
        return show_number(*value, *signed, out);
    }
    show_kind(levels - 1, kind, out)?;
    write!(out, ":{width}")?;
    if *signed {
        out.push('s')?;
    }
    Ok(())
}

#[cycle(show)]
fn show_kind(levels: u32, kind: &Kind, out: &mut String) -> Result<(), Stop> {
    match kind {
        Kind::Num(_) => {}
        Kind::Net(number) => write!(out, "n{number}")?,
        Kind::Var(number) => write!(out, "v{number}")?,
        Kind::Word(number, index) => {
            write!(out, "m{number}[")?;
            show(levels, index.get(), out)?;
            out.push(']')?;
        }
        Kind::Select(of, pick, _) => {
            show(levels, of.get(), out)?;
            show_pick(levels, pick, out)?;
        }
        Kind::Sign(of) => show_one(levels, "Sign", of.get(), out)?,
        Kind::Resize(of) => show_one(levels, "Resize", of.get(), out)?,
        _ => return show_operator(levels, kind, out),
    }
    Ok(())
}

#[cycle(show)]
fn show_operator(levels: u32, kind: &Kind, out: &mut String) -> Result<(), Stop> {
    match kind {
        Kind::Unary(op, of) => {
            write!(out, "{op:?}(")?;
            show(levels, of.get(), out)?;
        }
        Kind::Binary(op, left, right) => {
            write!(out, "{op:?}(")?;
            show(levels, left.get(), out)?;
            out.push(',')?;
            show(levels, right.get(), out)?;
        }
        Kind::Choice(test, first, second) => {
            out.push_str("?(")?;
            show(levels, test.get(), out)?;
            out.push(',')?;
            show(levels, first.get(), out)?;
            out.push(',')?;
            show(levels, second.get(), out)?;
        }
        Kind::Concat(parts) => {
            out.push_str("{(")?;
            show_all(levels, parts.as_slice(), out)?;
        }
        Kind::Repeat(count, of) => {
            write!(out, "{count}{{(")?;
            show(levels, of.get(), out)?;
        }
        Kind::Call(number, args) => {
            write!(out, "f{number}(")?;
            show_all(levels, args.as_slice(), out)?;
        }
        _ => out.push('?')?,
    }
    Ok(out.push(')')?)
}
