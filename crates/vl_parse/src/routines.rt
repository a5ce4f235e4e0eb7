//! Tasks, functions and imports.
ghost use Rattle.std.specs.Prelude.{◌≡◌, ◌<◌, ◌^◌, ◌-◌, ◌+◌, length, slice_get, MatchOption, OnSome, None, Some, OnOk};
ghost use Rattle.std.specs.List.{list_all, list_any};
ghost use Rattle.vl_tree.specs.Lists.{first_led};
ghost use Rattle.vl_tree.specs.Routines.{is_input, is_input_formal, is_formals, is_input_arg, is_function_args};
ghost use Rattle.vl_expr.specs.Reading.{Gives};
ghost use Rattle.vl_parse.specs.inner.Parts.{formals_by, arg_by, formal_list, locals_by, listed_by, args_by, task_by, body_by, function_by};
ghost use Rattle.vl_parse.specs.Routines.{direction_of, opens_dir, fdir_by, fdir_of, formal_of, arg_of, opens_arg, declared_args, args_of, task_of, inputs_of, function_of, itype_of, rtype_of, bits_of, number_of, iarg_of, iargs_of, import_head, import_of};

use crate::classes::{direction, direction_at, int_word_at, sign_at};
use crate::declarations::Size;
use crate::input::Input;
use crate::lists::{Begin, Parse, ended, listed, many, optional};
use crate::part::Part;
use sqlite_items::Items;
use vl_expr::ParseError;
use vl_tree::{
    Arg, Args, Direction, Fdir, Formal, Function, Iarg, Import, Itype, Local, Ptype, Rtype, Stmt,
    Task, Terminal,
};

/// The leading words of a formal, behind `input` or `output`.
fn fdir(
    input: &Input<'_>,
    depth: u32,
    at: u32,
    direction: Direction,
) -> Result<Part<Fdir>, ParseError>
    requires { at < 2 ^ 32 - 2 }
    ensures { Gives result (fdir_by input.now.terminals depth at (Some direction)) }
{
    if input.is_at(at + 1, Terminal::Integer) {
        return Ok(Part {
            tree: Fdir::Integer { at, direction },
            end: at + 2,
        });
    }
    let reg = input.is_at(at + 1, Terminal::Reg);
    let size = Size::parse(input, depth, input.behind(Terminal::Reg, at + 1))?;
    let Size { signed, range } = size.tree;
    Ok(Part {
        tree: Fdir::Vector {
            at,
            direction,
            reg,
            signed,
            range,
        },
        end: size.end,
    })
}

impl Parse for Fdir {
    ghost reading = { λ i n at. fdir_of i.terminals n at };

    fn parse(input: &Input<'_>, depth: u32, at: u32) -> Result<Part<Fdir>, ParseError> {
        match direction_at(input, at) {
            Some(direction) => fdir(input, depth, at, direction),
            None => Err(ParseError::NoTree { at }),
        }
    }
}

/// Whether a token begins the leading words of a formal or a port.
pub fn opens_dir(first: Option<Terminal>) -> bool
    ensures { result ≡ opens_dir first }
{
    direction(first).is_some()
}

impl Begin for Fdir {
    ghost opens = { opens_dir };

    fn begins(first: Option<Terminal>) -> bool {
        opens_dir(first)
    }
}

impl Parse for Formal {
    ghost reading = { λ i n at. formal_of i.terminals n at };

    fn parse(input: &Input<'_>, depth: u32, at: u32) -> Result<Part<Formal>, ParseError> {
        let fdir = optional(input, depth, at)?;
        input.name(fdir.end)?;
        Ok(Part {
            tree: Formal {
                at,
                fdir: fdir.tree,
                name: fdir.end,
            },
            end: fdir.end + 1,
        })
    }
}

/// Formals of one kind.
fn formals(input: &Input<'_>, depth: u32, at: u32) -> Result<Part<Arg>, ParseError>
    ensures { Gives result (formals_by input.now.terminals depth at) }
{
    let part: Part<(Fdir, Items<u32>)> = ended(input, Terminal::Semicolon, depth, at)?;
    let (fdir, names) = part.tree;
    Ok(Part {
        tree: Arg::Formals { at, fdir, names },
        end: part.end,
    })
}

fn arg(input: &Input<'_>, depth: u32, at: u32) -> Result<Part<Arg>, ParseError>
    ensures { Gives result (arg_by input.now.terminals depth at) }
{
    if opens_dir(input.get(at)) {
        return formals(input, depth, at);
    }
    let local = Local::parse(input, depth, at)?;
    Ok(Part {
        tree: Arg::Local {
            at,
            local: local.tree,
        },
        end: local.end,
    })
}

impl Parse for Arg {
    ghost reading = { λ i n at. arg_of i.terminals n at };

    #[tactic(auto, using(crate::proofs::Bridges::arg_gives))]
    fn parse(input: &Input<'_>, depth: u32, at: u32) -> Result<Part<Arg>, ParseError> {
        arg(input, depth, at)
    }
}

impl Begin for Arg {
    ghost opens = { opens_arg };

    fn begins(first: Option<Terminal>) -> bool {
        opens_dir(first) || Local::begins(first)
    }
}

/// Whether the first of a list of formals has its leading words.
fn led(formals: &[Formal]) -> bool
    ensures { result ≡ first_led (λ f. f.fdir) formals.now }
{
    match formals.first() {
        Some(formal) => formal.fdir.is_some(),
        None => true,
    }
}

/// The formals before a closing parenthesis, and this.
fn formal_list(input: &Input<'_>, depth: u32, at: u32) -> Result<Part<Items<Formal>>, ParseError>
    ensures { Gives result (formal_list input.now.terminals depth at) }
{
    let formals = listed(input, depth, at)?;
    input.expect(formals.end, Terminal::CloseParen)?;
    if !led(formals.tree.as_slice()) {
        return Err(ParseError::NoTree { at });
    }
    Ok(Part {
        tree: formals.tree,
        end: formals.end + 1,
    })
}

/// A semicolon and local variables.
fn locals(input: &Input<'_>, depth: u32, at: u32) -> Result<Part<Items<Local>>, ParseError>
    ensures { Gives result (locals_by input.now.terminals depth at) }
{
    input.expect(at, Terminal::Semicolon)?;
    many(input, depth, at + 1)
}

/// Formals in parentheses, and local variables.
fn listed_args(input: &Input<'_>, depth: u32, at: u32) -> Result<Part<Args>, ParseError>
    requires { at < 2 ^ 32 - 2 }
    ensures { Gives result (listed_by input.now.terminals depth at) }
{
    let formals = formal_list(input, depth, at + 1)?;
    let locals = locals(input, depth, formals.end)?;
    Ok(Part {
        tree: Args::Listed {
            at,
            formals: formals.tree,
            locals: locals.tree,
        },
        end: locals.end,
    })
}

/// Declarations of formals and local variables.
fn declared_args(input: &Input<'_>, depth: u32, at: u32) -> Result<Part<Args>, ParseError>
    ensures { Gives result (declared_args input.now.terminals depth at) }
{
    input.expect(at, Terminal::Semicolon)?;
    let args = many(input, depth, at + 1)?;
    Ok(Part {
        tree: Args::Declared {
            at,
            args: args.tree,
        },
        end: args.end,
    })
}

fn args(input: &Input<'_>, depth: u32, at: u32) -> Result<Part<Args>, ParseError>
    ensures { Gives result (args_by input.now.terminals depth at) }
{
    if input.is_at(at, Terminal::OpenParen) {
        listed_args(input, depth, at)
    } else {
        declared_args(input, depth, at)
    }
}

impl Parse for Args {
    ghost reading = { λ i n at. args_of i.terminals n at };

    #[tactic(auto, using(crate::proofs::Bridges::args_gives))]
    fn parse(input: &Input<'_>, depth: u32, at: u32) -> Result<Part<Args>, ParseError> {
        args(input, depth, at)
    }
}

fn task(input: &Input<'_>, depth: u32, at: u32) -> Result<Part<Task>, ParseError>
    ensures { Gives result (task_by input.now.terminals input.now.names depth at) }
{
    input.expect(at, Terminal::Task)?;
    input.name(at + 1)?;
    let part: Part<(Args, Stmt)> = ended(input, Terminal::Endtask, depth, at + 2)?;
    let (args, body) = part.tree;
    Ok(Part {
        tree: Task {
            at,
            name: at + 1,
            args,
            body,
        },
        end: part.end,
    })
}

impl Parse for Task {
    ghost reading = { λ i n at. task_of i.terminals i.names n at };

    #[tactic(auto, using(crate::proofs::Bridges::task_gives))]
    fn parse(input: &Input<'_>, depth: u32, at: u32) -> Result<Part<Task>, ParseError> {
        task(input, depth, at)
    }
}

/// Whether leading words begin with `input`.
fn is_input(fdir: &Fdir) -> bool
    ensures { result ≡ is_input fdir.now }
{
    let (Fdir::Vector { direction, .. } | Fdir::Integer { direction, .. }) = fdir;
    *direction == Direction::Input
}

/// A function has inputs only, and at least one.
fn is_function_args(args: &Args) -> bool
    ensures { result ≡ is_function_args args.now }
{
    match args {
        Args::Listed { formals, .. } => {
            !formals.is_empty() && all_input_formals(formals.as_slice())
        }
        Args::Declared { args, .. } => {
            all_input_args(args.as_slice()) && any_formals(args.as_slice())
        }
    }
}

fn all_input_formals(formals: &[Formal]) -> bool
    ensures { result ≡ list_all is_input_formal formals.now }
{
    formals.iter().all(is_input_formal)
}

fn all_input_args(args: &[Arg]) -> bool
    ensures { result ≡ list_all is_input_arg args.now }
{
    args.iter().all(is_input_arg)
}

fn any_formals(args: &[Arg]) -> bool
    ensures { result ≡ list_any is_formals args.now }
{
    args.iter().any(is_formals)
}

fn is_input_formal(formal: &Formal) -> bool
    ensures { result ≡ is_input_formal formal.now }
{
    match &formal.fdir {
        Some(fdir) => is_input(fdir),
        None => true,
    }
}

fn is_input_arg(arg: &Arg) -> bool
    ensures { result ≡ is_input_arg arg.now }
{
    match arg {
        Arg::Formals { fdir, .. } => is_input(fdir),
        Arg::Local { .. } => true,
    }
}

fn is_formals(arg: &Arg) -> bool
    ensures { result ≡ is_formals arg.now }
{
    matches!(arg, Arg::Formals { .. })
}

/// The name and the arguments of a function.
fn inputs(input: &Input<'_>, depth: u32, at: u32) -> Result<Part<Args>, ParseError>
    ensures { Gives result (inputs_of input.now.terminals depth at) }
{
    input.name(at)?;
    let args = Args::parse(input, depth, at + 1)?;
    if is_function_args(&args.tree) {
        Ok(args)
    } else {
        Err(ParseError::NoTree { at: args.end })
    }
}

/// The name, the arguments and the statement of a function.
fn body(input: &Input<'_>, depth: u32, at: u32) -> Result<Part<(Args, Stmt)>, ParseError>
    ensures { Gives result (body_by input.now.terminals input.now.names depth at) }
{
    let args = inputs(input, depth, at)?;
    let body = ended(input, Terminal::Endfunction, depth, args.end)?;
    Ok(Part {
        tree: (args.tree, body.tree),
        end: body.end,
    })
}

fn function(input: &Input<'_>, depth: u32, at: u32) -> Result<Part<Function>, ParseError>
    ensures { Gives result (function_by input.now.terminals input.now.names depth at) }
{
    input.expect(at, Terminal::Function)?;
    let ptype = Ptype::parse(input, depth, at + 1)?;
    let part = body(input, depth, ptype.end)?;
    let (args, body) = part.tree;
    Ok(Part {
        tree: Function {
            at,
            ptype: ptype.tree,
            name: ptype.end,
            args,
            body,
        },
        end: part.end,
    })
}

impl Parse for Function {
    ghost reading = { λ i n at. function_of i.terminals i.names n at };

    #[tactic(auto, using(crate::proofs::Bridges::function_gives))]
    fn parse(input: &Input<'_>, depth: u32, at: u32) -> Result<Part<Function>, ParseError> {
        function(input, depth, at)
    }
}

/// An integer type of an import.
fn itype(input: &Input<'_>, at: u32) -> Result<Part<Itype>, ParseError>
    ensures { Gives result (itype_of input.now.terminals at) }
{
    let Some(word) = int_word_at(input, at) else {
        return Err(ParseError::NoTree { at });
    };
    let sign = sign_at(input, at + 1);
    let end = if sign.is_some() { at + 2 } else { at + 1 };
    Ok(Part {
        tree: Itype { at, word, sign },
        end,
    })
}

/// The type of what an import returns.
fn rtype(input: &Input<'_>, at: u32) -> Result<Part<Rtype>, ParseError>
    ensures { Gives result (rtype_of input.now.terminals at) }
{
    if input.is_at(at, Terminal::Void) {
        return Ok(Part {
            tree: Rtype::Void { at },
            end: at + 1,
        });
    }
    if input.is_at(at, Terminal::Bit) {
        return Ok(Part {
            tree: Rtype::Bit { at },
            end: at + 1,
        });
    }
    let itype = itype(input, at)?;
    Ok(Part {
        tree: Rtype::Number {
            at,
            itype: itype.tree,
        },
        end: itype.end,
    })
}

/// An argument of the type `bit`, with a range or none.
fn bits(
    input: &Input<'_>,
    depth: u32,
    at: u32,
    direction: Direction,
) -> Result<Part<Iarg>, ParseError>
    requires { at + 1 < 2 ^ 32 - 2 }
    ensures { Gives result (bits_of input.now.terminals depth at direction) }
{
    let range = optional(input, depth, at + 2)?;
    input.name(range.end)?;
    Ok(Part {
        tree: Iarg::Bits {
            at,
            direction,
            range: range.tree,
            name: range.end,
        },
        end: range.end + 1,
    })
}

/// An argument of an integer type.
fn number(input: &Input<'_>, at: u32, direction: Direction) -> Result<Part<Iarg>, ParseError>
    requires { at < 2 ^ 32 - 2 }
    ensures { Gives result (number_of input.now.terminals at direction) }
{
    let itype = itype(input, at + 1)?;
    input.name(itype.end)?;
    Ok(Part {
        tree: Iarg::Number {
            at,
            direction,
            itype: itype.tree,
            name: itype.end,
        },
        end: itype.end + 1,
    })
}

impl Parse for Iarg {
    ghost reading = { λ i n at. iarg_of i.terminals n at };

    fn parse(input: &Input<'_>, depth: u32, at: u32) -> Result<Part<Iarg>, ParseError> {
        let Some(direction) = direction_at(input, at) else {
            return Err(ParseError::NoTree { at });
        };
        if input.is_at(at + 1, Terminal::Bit) {
            bits(input, depth, at, direction)
        } else {
            number(input, at, direction)
        }
    }
}

/// The arguments of the import whose name stands at a place, and the tokens behind them.
fn iargs(input: &Input<'_>, depth: u32, at: u32) -> Result<Part<Items<Iarg>>, ParseError>
    requires { at < 2 ^ 32 - 2 }
    ensures { Gives result (iargs_of input.now.terminals depth at) }
{
    input.expect(at + 1, Terminal::OpenParen)?;
    let args = listed(input, depth, at + 2)?;
    input.expect(args.end, Terminal::CloseParen)?;
    input.expect(args.end + 1, Terminal::Semicolon)?;
    Ok(Part {
        tree: args.tree,
        end: args.end + 2,
    })
}

/// What stands before the type of an import, and the number of the token behind it.
fn import_head(input: &Input<'_>, at: u32) -> Result<u32, ParseError>
    ensures exact { Gives result (import_head input.now.terminals at) }
    ensures within { OnOk result (at + 1 < 2 ^ 32 - 2) }
{
    input.expect(at, Terminal::Import)?;
    input.expect(at + 1, Terminal::Dpi)?;
    let function = input.behind(Terminal::Context, at + 2);
    input.expect(function, Terminal::Function)?;
    Ok(function + 1)
}

impl Parse for Import {
    ghost reading = { λ i n at. import_of i.terminals n at };

    fn parse(input: &Input<'_>, depth: u32, at: u32) -> Result<Part<Import>, ParseError> {
        let from = import_head(input, at)?;
        let rtype = rtype(input, from)?;
        input.name(rtype.end)?;
        let args = iargs(input, depth, rtype.end)?;
        Ok(Part {
            tree: Import {
                at,
                spec: at + 1,
                context: input.is_at(at + 2, Terminal::Context),
                rtype: rtype.tree,
                name: rtype.end,
                args: args.tree,
            },
            end: args.end,
        })
    }
}
