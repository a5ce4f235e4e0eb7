//! The items of modules.
ghost use Rattle.std.specs.Prelude.{◌≡◌, ◌≢◌, ◌<◌, ◌^◌, ◌-◌, ◌+◌};
ghost use Rattle.vl_expr.specs.Reading.{Gives};
ghost use Rattle.vl_parse.specs.declared.classes.ItemStart.TheVariants as start;
ghost use Rattle.vl_parse.specs.Parts.{maybe_of};
ghost use Rattle.vl_parse.specs.Declarations.{expr_at};
ghost use Rattle.vl_parse.specs.Modules.{declared_of, memory_of, variable_of, rname_of, opens_any, named_of, conns_of, override_of, opens_params, instance_of, item_by, item_of, opens_item};
ghost use Rattle.vl_parse.specs.inner.Parts.{item_read};

use crate::classes::{ItemStart, item_start_at};
use crate::declarations::{Size, expr, exprs};
use crate::input::Input;
use crate::lists::{Begin, Parse, ended, separated};
use crate::modules::default;
use crate::part::{Part, absent, present};
use crate::statements::stmt;
use sqlite_items::Items;
use vl_expr::ParseError;
use vl_tree::{
    Binding, Conns, Declared, Expr, Function, Import, Instance, Item, Named, ParamWord, Ptype,
    Range, Rname, Task, Terminal,
};

impl Parse for Declared {
    ghost reading = { λ i n at. declared_of i.terminals n at };

    fn parse(input: &Input<'_>, depth: u32, at: u32) -> Result<Part<Declared>, ParseError> {
        input.name(at)?;
        let value = default(input, depth, at + 1)?;
        Ok(Part {
            tree: Declared {
                at,
                name: at,
                value: value.tree,
            },
            end: value.end,
        })
    }
}

fn memory(input: &Input<'_>, depth: u32, at: u32) -> Result<Part<Rname>, ParseError>
    requires { at < 2 ^ 32 - 2 }
    ensures { Gives result (memory_of input.now.terminals depth at) }
{
    let range = Range::parse(input, depth, at + 1)?;
    Ok(Part {
        tree: Rname::Memory {
            at,
            name: at,
            range: range.tree,
        },
        end: range.end,
    })
}

fn variable(input: &Input<'_>, depth: u32, at: u32) -> Result<Part<Rname>, ParseError>
    requires { at < 2 ^ 32 - 2 }
    ensures { Gives result (variable_of input.now.terminals depth at) }
{
    let value = default(input, depth, at + 1)?;
    Ok(Part {
        tree: Rname::Variable {
            at,
            name: at,
            value: value.tree,
        },
        end: value.end,
    })
}

impl Parse for Rname {
    ghost reading = { λ i n at. rname_of i.terminals n at };

    fn parse(input: &Input<'_>, depth: u32, at: u32) -> Result<Part<Rname>, ParseError> {
        input.name(at)?;
        if input.is_at(at + 1, Terminal::OpenBracket) {
            memory(input, depth, at)
        } else {
            variable(input, depth, at)
        }
    }
}

/// The expression before a closing parenthesis, if there is one.
fn optional_expr(input: &Input<'_>, depth: u32, at: u32) -> Result<Part<Option<Expr>>, ParseError>
    ensures { Gives result
        (maybe_of input.now.terminals opens_any (expr_at input.now.terminals depth) at) }
{
    if input.is_at(at, Terminal::CloseParen) {
        return Ok(absent(at));
    }
    let expr = expr(input, depth, at)?;
    Ok(present(expr))
}

impl Parse for Named {
    ghost reading = { λ i n at. named_of i.terminals n at };

    fn parse(input: &Input<'_>, depth: u32, at: u32) -> Result<Part<Named>, ParseError> {
        input.expect(at, Terminal::Dot)?;
        input.name(at + 1)?;
        input.expect(at + 2, Terminal::OpenParen)?;
        let value = optional_expr(input, depth, at + 3)?;
        input.expect(value.end, Terminal::CloseParen)?;
        Ok(Part {
            tree: Named {
                at,
                name: at + 1,
                value: value.tree,
            },
            end: value.end + 1,
        })
    }
}

impl Parse for Conns {
    ghost reading = { λ i n at. conns_of i.terminals n at };

    fn parse(input: &Input<'_>, depth: u32, at: u32) -> Result<Part<Conns>, ParseError> {
        if input.is_at(at, Terminal::Dot) {
            let named = separated(input, Terminal::Comma, depth, at)?;
            return Ok(Part {
                tree: Conns::Named {
                    at,
                    named: named.tree,
                },
                end: named.end,
            });
        }
        let exprs = exprs(input, depth, at)?;
        Ok(Part {
            tree: Conns::Ordered {
                at,
                exprs: exprs.tree,
            },
            end: exprs.end,
        })
    }
}

/// The connections before a closing parenthesis, if there are any.
fn optional_conns(input: &Input<'_>, depth: u32, at: u32) -> Result<Part<Option<Conns>>, ParseError>
    ensures { Gives result
        (maybe_of input.now.terminals opens_any (conns_of input.now.terminals depth) at) }
{
    if input.is_at(at, Terminal::CloseParen) {
        return Ok(absent(at));
    }
    let conns = Conns::parse(input, depth, at)?;
    Ok(present(conns))
}

/// The parameters that instances override.
fn overrides(input: &Input<'_>, depth: u32, at: u32) -> Result<Part<Conns>, ParseError>
    ensures { Gives result (override_of input.now.terminals depth at) }
{
    input.expect(at, Terminal::Hash)?;
    input.expect(at + 1, Terminal::OpenParen)?;
    let conns = Conns::parse(input, depth, at + 2)?;
    input.expect(conns.end, Terminal::CloseParen)?;
    Ok(Part {
        tree: conns.tree,
        end: conns.end + 1,
    })
}

fn optional_overrides(
    input: &Input<'_>,
    depth: u32,
    at: u32,
) -> Result<Part<Option<Conns>>, ParseError>
    ensures { Gives result
        (maybe_of input.now.terminals opens_params (override_of input.now.terminals depth) at) }
{
    if input.is_at(at, Terminal::Hash) {
        let conns = overrides(input, depth, at)?;
        Ok(present(conns))
    } else {
        Ok(absent(at))
    }
}

impl Parse for Instance {
    ghost reading = { λ i n at. instance_of i.terminals n at };

    fn parse(input: &Input<'_>, depth: u32, at: u32) -> Result<Part<Instance>, ParseError> {
        input.name(at)?;
        input.expect(at + 1, Terminal::OpenParen)?;
        let conns = optional_conns(input, depth, at + 2)?;
        input.expect(conns.end, Terminal::CloseParen)?;
        Ok(Part {
            tree: Instance {
                at,
                name: at,
                conns: conns.tree,
            },
            end: conns.end + 1,
        })
    }
}

fn params_item(
    input: &Input<'_>,
    depth: u32,
    at: u32,
    word: ParamWord,
) -> Result<Part<Item>, ParseError>
    requires { at < 2 ^ 32 - 2 }
    ensures { Gives result (item_read input.now.terminals input.now.names depth at (start.Params word)) }
{
    let part: Part<(Ptype, Items<Binding>)> = ended(input, Terminal::Semicolon, depth, at + 1)?;
    let (ptype, values) = part.tree;
    Ok(Part {
        tree: Item::Params {
            at,
            word,
            ptype,
            values,
        },
        end: part.end,
    })
}

fn wires_item(input: &Input<'_>, depth: u32, at: u32) -> Result<Part<Item>, ParseError>
    requires { at < 2 ^ 32 - 2 }
    ensures { Gives result (item_read input.now.terminals input.now.names depth at start.Wires) }
{
    let part: Part<(Size, Items<Declared>)> = ended(input, Terminal::Semicolon, depth, at + 1)?;
    let (Size { signed, range }, names) = part.tree;
    Ok(Part {
        tree: Item::Wires {
            at,
            signed,
            range,
            names,
        },
        end: part.end,
    })
}

fn regs_item(input: &Input<'_>, depth: u32, at: u32) -> Result<Part<Item>, ParseError>
    requires { at < 2 ^ 32 - 2 }
    ensures { Gives result (item_read input.now.terminals input.now.names depth at start.Regs) }
{
    let part: Part<(Size, Items<Rname>)> = ended(input, Terminal::Semicolon, depth, at + 1)?;
    let (Size { signed, range }, names) = part.tree;
    Ok(Part {
        tree: Item::Regs {
            at,
            signed,
            range,
            names,
        },
        end: part.end,
    })
}

fn integers_item(input: &Input<'_>, depth: u32, at: u32) -> Result<Part<Item>, ParseError>
    requires { at < 2 ^ 32 - 2 }
    ensures { Gives result (item_read input.now.terminals input.now.names depth at start.Integers) }
{
    let names: Part<Items<Declared>> = ended(input, Terminal::Semicolon, depth, at + 1)?;
    Ok(Part {
        tree: Item::Integers {
            at,
            names: names.tree,
        },
        end: names.end,
    })
}

fn assigns_item(input: &Input<'_>, depth: u32, at: u32) -> Result<Part<Item>, ParseError>
    requires { at < 2 ^ 32 - 2 }
    ensures { Gives result (item_read input.now.terminals input.now.names depth at start.Assigns) }
{
    let values: Part<Items<Binding>> = ended(input, Terminal::Semicolon, depth, at + 1)?;
    Ok(Part {
        tree: Item::Assigns {
            at,
            values: values.tree,
        },
        end: values.end,
    })
}

fn instances_item(input: &Input<'_>, depth: u32, at: u32) -> Result<Part<Item>, ParseError>
    requires { at < 2 ^ 32 - 2 }
    ensures { Gives result (item_read input.now.terminals input.now.names depth at start.Instances) }
{
    let params = optional_overrides(input, depth, at + 1)?;
    let instances: Part<Items<Instance>> = ended(input, Terminal::Semicolon, depth, params.end)?;
    Ok(Part {
        tree: Item::Instances {
            at,
            module: at,
            params: params.tree,
            instances: instances.tree,
        },
        end: instances.end,
    })
}

fn always_item(input: &Input<'_>, depth: u32, at: u32) -> Result<Part<Item>, ParseError>
    requires { at < 2 ^ 32 - 2 }
    ensures { Gives result (item_by input.now.terminals input.now.names depth at start.Always) }
{
    let body = stmt(input, depth, at + 1)?;
    Ok(Part {
        tree: Item::Always {
            at,
            body: body.tree,
        },
        end: body.end,
    })
}

fn initial_item(input: &Input<'_>, depth: u32, at: u32) -> Result<Part<Item>, ParseError>
    requires { at < 2 ^ 32 - 2 }
    ensures { Gives result (item_by input.now.terminals input.now.names depth at start.Initial) }
{
    let body = stmt(input, depth, at + 1)?;
    Ok(Part {
        tree: Item::Initial {
            at,
            body: body.tree,
        },
        end: body.end,
    })
}

fn task_item(input: &Input<'_>, depth: u32, at: u32) -> Result<Part<Item>, ParseError>
    ensures { Gives result (item_by input.now.terminals input.now.names depth at start.Task) }
{
    let task = Task::parse(input, depth, at)?;
    Ok(Part {
        tree: Item::Task {
            at,
            task: task.tree,
        },
        end: task.end,
    })
}

fn function_item(input: &Input<'_>, depth: u32, at: u32) -> Result<Part<Item>, ParseError>
    ensures { Gives result (item_by input.now.terminals input.now.names depth at start.Function) }
{
    let function = Function::parse(input, depth, at)?;
    Ok(Part {
        tree: Item::Function {
            at,
            function: function.tree,
        },
        end: function.end,
    })
}

fn import_item(input: &Input<'_>, depth: u32, at: u32) -> Result<Part<Item>, ParseError>
    ensures { Gives result (item_by input.now.terminals input.now.names depth at start.Import) }
{
    let import = Import::parse(input, depth, at)?;
    Ok(Part {
        tree: Item::Import {
            at,
            import: import.tree,
        },
        end: import.end,
    })
}

/// The item that begins in this way.
fn item(input: &Input<'_>, depth: u32, at: u32, start: ItemStart) -> Result<Part<Item>, ParseError>
    requires { start ≢ ItemStart.Nothing → at < 2 ^ 32 - 2 }
    ensures { Gives result (item_read input.now.terminals input.now.names depth at start) }
{
    match start {
        ItemStart::Params(word) => params_item(input, depth, at, word),
        ItemStart::Wires => wires_item(input, depth, at),
        ItemStart::Regs => regs_item(input, depth, at),
        ItemStart::Integers => integers_item(input, depth, at),
        ItemStart::Assigns => assigns_item(input, depth, at),
        ItemStart::Always => always_item(input, depth, at),
        ItemStart::Initial => initial_item(input, depth, at),
        ItemStart::Task => task_item(input, depth, at),
        ItemStart::Function => function_item(input, depth, at),
        ItemStart::Import => import_item(input, depth, at),
        ItemStart::Instances => instances_item(input, depth, at),
        ItemStart::Nothing => Err(ParseError::NoTree { at }),
    }
}

impl Parse for Item {
    ghost reading = { λ i n at. item_of i.terminals i.names n at };

    #[tactic(auto, using(crate::proofs::Bridges::item_gives))]
    fn parse(input: &Input<'_>, depth: u32, at: u32) -> Result<Part<Item>, ParseError> {
        item(input, depth, at, item_start_at(input, at))
    }
}

impl Begin for Item {
    ghost opens = { opens_item };

    fn begins(first: Option<Terminal>) -> bool {
        match first {
            Some(terminal) => terminal != Terminal::Endmodule,
            None => false,
        }
    }
}
