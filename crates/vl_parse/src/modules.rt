//! Modules and their headers.
ghost use Rattle.std.specs.Prelude.{◌≡◌, ◌<◌, ◌^◌, ◌-◌, ◌+◌, Some, true, false, IsTrue, MatchOption};
ghost use Rattle.vl_tree.specs.Lists.{first_led};
ghost use Rattle.vl_tree.specs.Modules.{is_output_reg, values_fit};
ghost use Rattle.vl_expr.specs.Reading.{Gives};
ghost use Rattle.vl_parse.specs.Parts.{maybe_of};
ghost use Rattle.vl_parse.specs.Routines.{opens_dir};
ghost use Rattle.vl_parse.specs.inner.Parts.{pdecl_by, port_by, port_list, header_by, module_by};
ghost use Rattle.vl_parse.specs.Modules.{default_of, lead_of, opens_lead, pdecl_of, net_of, reg_of, dir_by, dir_of, port_of, params_of, opens_params, misfit, ports_of, opens_ports, items_of, module_of, opens_module};

use crate::classes::direction_at;
use crate::declarations::{Size, value};
use crate::input::Input;
use crate::lists::{Begin, Parse, listed, many, optional, separated};
use crate::part::{Part, absent, present};
use crate::routines::opens_dir;
use sqlite_items::Items;
use vl_expr::ParseError;
use vl_tree::{
    Binding, Declared, Dir, Direction, Expr, Item, Module, Pdecl, Port, Ptype, Terminal,
};

/// The value of what is declared, if there is one.
pub fn default(input: &Input<'_>, depth: u32, at: u32) -> Result<Part<Option<Expr>>, ParseError>
    ensures { Gives result (default_of input.now.terminals depth at) }
{
    if input.is_at(at, Terminal::Equals) {
        let value = value(input, depth, at)?;
        Ok(present(value))
    } else {
        Ok(absent(at))
    }
}

/// The leading words of a parameter, if there are any.
fn lead(input: &Input<'_>, depth: u32, at: u32) -> Result<Part<Option<Ptype>>, ParseError>
    ensures { Gives result
        (maybe_of input.now.terminals opens_lead (lead_of input.now.terminals depth) at) }
{
    if input.is_at(at, Terminal::Parameter) {
        let ptype = Ptype::parse(input, depth, at + 1)?;
        Ok(present(ptype))
    } else {
        Ok(absent(at))
    }
}

fn pdecl(input: &Input<'_>, depth: u32, at: u32) -> Result<Part<Pdecl>, ParseError>
    ensures { Gives result (pdecl_by input.now.terminals depth at) }
{
    let ptype = lead(input, depth, at)?;
    let binding = Binding::parse(input, depth, ptype.end)?;
    let Binding { name, value, .. } = binding.tree;
    let ptype = ptype.tree;
    Ok(Part {
        tree: Pdecl {
            at,
            ptype,
            name,
            value,
        },
        end: binding.end,
    })
}

impl Parse for Pdecl {
    ghost reading = { λ i n at. pdecl_of i.terminals n at };

    #[tactic(auto, using(crate::proofs::Bridges::pdecl_gives))]
    fn parse(input: &Input<'_>, depth: u32, at: u32) -> Result<Part<Pdecl>, ParseError> {
        pdecl(input, depth, at)
    }
}

/// The leading words of a net's port, behind `input` or `output`.
fn net(
    input: &Input<'_>,
    depth: u32,
    at: u32,
    direction: Direction,
) -> Result<Part<Dir>, ParseError>
    requires { at < 2 ^ 32 - 2 }
    ensures { Gives result (net_of input.now.terminals depth at direction) }
{
    let wire = input.is_at(at + 1, Terminal::Wire);
    let size = Size::parse(input, depth, input.behind(Terminal::Wire, at + 1))?;
    let Size { signed, range } = size.tree;
    Ok(Part {
        tree: Dir::Net {
            at,
            direction,
            wire,
            signed,
            range,
        },
        end: size.end,
    })
}

/// The leading words of a variable's port, behind `output reg`.
fn reg(input: &Input<'_>, depth: u32, at: u32) -> Result<Part<Dir>, ParseError>
    requires { at + 1 < 2 ^ 32 - 2 }
    ensures { Gives result (reg_of input.now.terminals depth at) }
{
    let size = Size::parse(input, depth, at + 2)?;
    let Size { signed, range } = size.tree;
    Ok(Part {
        tree: Dir::Reg { at, signed, range },
        end: size.end,
    })
}

/// The leading words of a port, whose first is this one.
fn dir(
    input: &Input<'_>,
    depth: u32,
    at: u32,
    direction: Direction,
) -> Result<Part<Dir>, ParseError>
    requires { at < 2 ^ 32 - 2 }
    ensures { Gives result (dir_by input.now.terminals depth at (Some direction)) }
{
    if input.is_at(at, Terminal::Output) && input.is_at(at + 1, Terminal::Reg) {
        reg(input, depth, at)
    } else {
        net(input, depth, at, direction)
    }
}

impl Parse for Dir {
    ghost reading = { λ i n at. dir_of i.terminals n at };

    fn parse(input: &Input<'_>, depth: u32, at: u32) -> Result<Part<Dir>, ParseError> {
        match direction_at(input, at) {
            Some(direction) => dir(input, depth, at, direction),
            None => Err(ParseError::NoTree { at }),
        }
    }
}

impl Begin for Dir {
    ghost opens = { opens_dir };

    fn begins(first: Option<Terminal>) -> bool {
        opens_dir(first)
    }
}

fn port(input: &Input<'_>, depth: u32, at: u32) -> Result<Part<Port>, ParseError>
    ensures { Gives result (port_by input.now.terminals depth at) }
{
    let dir = optional(input, depth, at)?;
    let declared = Declared::parse(input, depth, dir.end)?;
    let Declared { name, value, .. } = declared.tree;
    let dir = dir.tree;
    Ok(Part {
        tree: Port {
            at,
            dir,
            name,
            value,
        },
        end: declared.end,
    })
}

impl Parse for Port {
    ghost reading = { λ i n at. port_of i.terminals n at };

    #[tactic(auto, using(crate::proofs::Bridges::port_gives))]
    fn parse(input: &Input<'_>, depth: u32, at: u32) -> Result<Part<Port>, ParseError> {
        port(input, depth, at)
    }
}

/// Whether the first of a list of parameters has its leading words.
fn params_led(params: &[Pdecl]) -> bool
    ensures { result ≡ first_led (λ p. p.ptype) params.now }
{
    match params.first() {
        Some(param) => param.ptype.is_some(),
        None => true,
    }
}

/// The parameters of a module.
fn params(input: &Input<'_>, depth: u32, at: u32) -> Result<Part<Items<Pdecl>>, ParseError>
    ensures { Gives result (params_of input.now.terminals depth at) }
{
    input.expect(at, Terminal::Hash)?;
    input.expect(at + 1, Terminal::OpenParen)?;
    let params = separated(input, Terminal::Comma, depth, at + 2)?;
    input.expect(params.end, Terminal::CloseParen)?;
    if !params_led(params.tree.as_slice()) {
        return Err(ParseError::NoTree { at: at + 2 });
    }
    Ok(Part {
        tree: params.tree,
        end: params.end + 1,
    })
}

/// Whether the first of a list of ports has its leading words.
fn ports_led(ports: &[Port]) -> bool
    ensures { result ≡ first_led (λ p. p.dir) ports.now }
{
    match ports.first() {
        Some(port) => port.dir.is_some(),
        None => true,
    }
}

/// Whether a port's words are `output reg`, its own or else those before it.
fn is_output_reg(before: bool, dir: &Option<Dir>) -> bool
    ensures { result ≡ is_output_reg before dir.now }
{
    match dir {
        Some(Dir::Reg { .. }) => true,
        Some(Dir::Net { .. }) => false,
        None => before,
    }
}

/// The name of the first port that has a value and may not have one.
fn misfit(ports: &[Port]) -> Option<u32>
    ensures { MatchOption result (values_fit false ports.now ≡ true)
        (λ name. (values_fit false ports.now ≡ false) × (name ≡ misfit false ports.now)) }
{
    let mut reg = false;
    for port in ports {
        reg = is_output_reg(reg, &port.dir);
        if port.value.is_some() && !reg {
            return Some(port.name);
        }
    }
    None
}

/// The ports of a module.
fn ports(input: &Input<'_>, depth: u32, at: u32) -> Result<Part<Items<Port>>, ParseError>
    ensures { Gives result (ports_of input.now.terminals depth at) }
{
    input.expect(at, Terminal::OpenParen)?;
    let ports = listed(input, depth, at + 1)?;
    input.expect(ports.end, Terminal::CloseParen)?;
    if !ports_led(ports.tree.as_slice()) {
        return Err(ParseError::NoTree { at: at + 1 });
    }
    if let Some(name) = misfit(ports.tree.as_slice()) {
        return Err(ParseError::NoTree { at: name });
    }
    Ok(Part {
        tree: ports.tree,
        end: ports.end + 1,
    })
}

fn optional_params(
    input: &Input<'_>,
    depth: u32,
    at: u32,
) -> Result<Part<Option<Items<Pdecl>>>, ParseError>
    ensures { Gives result
        (maybe_of input.now.terminals opens_params (params_of input.now.terminals depth) at) }
{
    if input.is_at(at, Terminal::Hash) {
        let params = params(input, depth, at)?;
        Ok(present(params))
    } else {
        Ok(absent(at))
    }
}

fn optional_ports(
    input: &Input<'_>,
    depth: u32,
    at: u32,
) -> Result<Part<Option<Items<Port>>>, ParseError>
    ensures { Gives result
        (maybe_of input.now.terminals opens_ports (ports_of input.now.terminals depth) at) }
{
    if input.is_at(at, Terminal::OpenParen) {
        let ports = ports(input, depth, at)?;
        Ok(present(ports))
    } else {
        Ok(absent(at))
    }
}

/// The items of a module up to `endmodule`, and this word.
fn items(input: &Input<'_>, depth: u32, at: u32) -> Result<Part<Items<Item>>, ParseError>
    ensures { Gives result (items_of input.now.terminals input.now.names depth at) }
{
    let items = many(input, depth, at)?;
    input.expect(items.end, Terminal::Endmodule)?;
    Ok(Part {
        tree: items.tree,
        end: items.end + 1,
    })
}

/// The ports of a module, if it has any, and a semicolon.
fn port_list(
    input: &Input<'_>,
    depth: u32,
    at: u32,
) -> Result<Part<Option<Items<Port>>>, ParseError>
    ensures { Gives result (port_list input.now.terminals depth at) }
{
    let ports = optional_ports(input, depth, at)?;
    input.expect(ports.end, Terminal::Semicolon)?;
    Ok(Part {
        tree: ports.tree,
        end: ports.end + 1,
    })
}

/// The parameters and the ports of a module.
type ParamsAndPorts = (Option<Items<Pdecl>>, Option<Items<Port>>);

/// What stands between the name of a module and its items.
fn header(input: &Input<'_>, depth: u32, at: u32) -> Result<Part<ParamsAndPorts>, ParseError>
    ensures { Gives result (header_by input.now.terminals depth at) }
{
    let params = optional_params(input, depth, at)?;
    let ports = port_list(input, depth, params.end)?;
    Ok(Part {
        tree: (params.tree, ports.tree),
        end: ports.end,
    })
}

fn module(input: &Input<'_>, depth: u32, at: u32) -> Result<Part<Module>, ParseError>
    ensures { Gives result (module_by input.now.terminals input.now.names depth at) }
{
    input.expect(at, Terminal::Module)?;
    input.name(at + 1)?;
    let header = header(input, depth, at + 2)?;
    let items = items(input, depth, header.end)?;
    let (params, ports) = header.tree;
    Ok(Part {
        tree: Module {
            at,
            name: at + 1,
            params,
            ports,
            items: items.tree,
        },
        end: items.end,
    })
}

impl Parse for Module {
    ghost reading = { λ i n at. module_of i.terminals i.names n at };

    #[tactic(auto, using(crate::proofs::Bridges::module_gives))]
    fn parse(input: &Input<'_>, depth: u32, at: u32) -> Result<Part<Module>, ParseError> {
        module(input, depth, at)
    }
}

impl Begin for Module {
    ghost opens = { opens_module };

    fn begins(first: Option<Terminal>) -> bool {
        first.is_some()
    }
}
