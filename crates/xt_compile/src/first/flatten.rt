//! The flat design of a source of the form.
ghost use Rattle.std.specs.Prelude.{◌≡◌, ◌∷◌, [], suc, map, IfOk, All};
ghost use Rattle.std.specs.List.{enumerate_from};
ghost use Rattle.el_design.specs.Queue.{numbers_from};
ghost use Rattle.xt_compile.specs.first.Source.{IsPort, IsSource};
ghost use Rattle.xt_compile.specs.first.Flatten.{var_of, net_of, input_of, pin_of, kind_of, typed, added, sum_of, statement_of, process_of, design_of};

use crate::first::counts::number;
use crate::first::source::{Port, Source, Step, Sum, Term};
use el_design::{
    BinOp, Design, Kind, Net, Pin, Proc, Source as PinSource, Stmt, TExpr, Target, Var,
};
use sqlite_items::{Boxed, Items};
use std::alloc::Global;
use xt_base::{Name, NoMemory, Place};
use xt_bits::Bits;

/// The flat design of the source: net 0 is the clock, the other inputs are the nets behind it, and the outputs are the
/// variables, which start at 0.
pub fn flatten(alloc: Global, source: &Source) -> Result<Design, NoMemory>
    requires { IsSource source.now }
    ensures { IfOk result (λ design. design ≡ design_of source.now) }
{
    let outputs = source.outputs.as_slice();
    let vars = vars(alloc, outputs)?;
    let nets = nets(alloc, source)?;
    let procs = process(alloc, source)?;
    let inputs = input_nets(alloc, source.inputs.len())?;
    let outputs = pins(alloc, outputs)?;
    Ok(Design {
        vars,
        nets,
        tasks: Items::new(alloc),
        funcs: Items::new(alloc),
        imports: Items::new(alloc),
        procs,
        marks: 0,
        inputs,
        outputs,
        head: source.head,
    })
}

fn vars(alloc: Global, outputs: &[Port]) -> Result<Items<Var>, NoMemory>
    requires { All IsPort outputs.now }
    ensures { IfOk result (λ vars. vars ≡ map var_of outputs.now) }
{
    let mut vars = Items::new(alloc);
    for port in outputs {
        vars.push(var(alloc, port)?)?;
    }
    Ok(vars)
}

fn var(alloc: Global, port: &Port) -> Result<Var, NoMemory>
    requires { IsPort port.now }
    ensures { IfOk result (λ var. var ≡ var_of port.now) }
{
    Ok(Var {
        name: Name::new(alloc, port.name.as_str())?,
        width: port.width,
        signed: false,
        lsb: 0,
        words: 0,
        low: 0,
        start: Bits::new(port.width, 0),
        place: port.place,
    })
}

fn nets(alloc: Global, source: &Source) -> Result<Items<Net>, NoMemory>
    ensures { IfOk result (λ nets. nets ≡ net_of source.now.clock 1 source.now.clock_place ∷ map input_of source.now.inputs) }
{
    let mut nets = Items::new(alloc);
    nets.push(net(alloc, &source.clock, 1, source.clock_place)?)?;
    for port in source.inputs.as_slice() {
        nets.push(net(alloc, &port.name, port.width, port.place)?)?;
    }
    Ok(nets)
}

fn net(alloc: Global, name: &Name, width: u32, place: Place) -> Result<Net, NoMemory>
    ensures { IfOk result (λ net. net ≡ net_of name.now width place) }
{
    Ok(Net {
        name: Name::new(alloc, name.as_str())?,
        width,
        signed: false,
        lsb: 0,
        value: None,
        place,
    })
}

/// So many nets behind the clock's.
#[tactic(auto, using(crate::proofs::first_form::Lists::numbers_more))]
fn input_nets(alloc: Global, count: usize) -> Result<Items<u32>, NoMemory>
    ensures { IfOk result (λ nets. nets ≡ numbers_from 1 count) }
{
    let mut nets = Items::new(alloc);
    for place in 0..count {
        nets.push(behind_clock(place)?)?;
    }
    Ok(nets)
}

#[tactic(auto, using(crate::proofs::first_form::Lists::pins_more))]
fn pins(alloc: Global, outputs: &[Port]) -> Result<Items<Pin>, NoMemory>
    ensures { IfOk result (λ pins. pins ≡ map pin_of (enumerate_from 0 outputs.now)) }
{
    let mut pins = Items::new(alloc);
    for (place, port) in outputs.iter().enumerate() {
        pins.push(pin(alloc, place, port)?)?;
    }
    Ok(pins)
}

fn pin(alloc: Global, place: usize, port: &Port) -> Result<Pin, NoMemory>
    ensures { IfOk result (λ pin. pin ≡ pin_of (place, port.now)) }
{
    Ok(Pin {
        name: Name::new(alloc, port.name.as_str())?,
        from: PinSource::Var(number(place)?),
    })
}

fn process(alloc: Global, source: &Source) -> Result<Items<Proc>, NoMemory>
    ensures { IfOk result (λ procs. procs ≡ process_of source.now ∷ []) }
{
    let body = statements(alloc, source.steps.as_slice())?;
    let mut procs = Items::new(alloc);
    procs.push(Proc {
        always: true,
        body: Stmt::Block {
            at: source.block,
            mark: None,
            body,
        },
        place: source.process,
    })?;
    Ok(procs)
}

fn statements(alloc: Global, steps: &[Step]) -> Result<Items<Stmt>, NoMemory>
    ensures { IfOk result (λ body. body ≡ map statement_of steps.now) }
{
    let mut body = Items::new(alloc);
    for step in steps {
        body.push(statement(alloc, step)?)?;
    }
    Ok(body)
}

fn statement(alloc: Global, step: &Step) -> Result<Stmt, NoMemory>
    ensures { IfOk result (λ statement. statement ≡ statement_of step.now) }
{
    match step {
        Step::Wait { at } => Ok(Stmt::Wait {
            at: *at,
            falling: false,
        }),
        Step::Assign { at, output, value } => Ok(Stmt::Assign {
            at: *at,
            to: Target::Var(number(*output)?),
            value: sum(alloc, value)?,
            held: true,
        }),
    }
}

fn sum(alloc: Global, value: &Sum) -> Result<TExpr, NoMemory>
    ensures { IfOk result (λ expr. expr ≡ sum_of value.now) }
{
    let mut left = term(value.width, value.first)?;
    for right in value.more.as_slice() {
        left = add(alloc, value.width, left, *right)?;
    }
    Ok(left)
}

fn add(alloc: Global, width: u32, left: TExpr, right: Term) -> Result<TExpr, NoMemory>
    ensures { IfOk result (λ expr. expr ≡ added width left right) }
{
    let right = Boxed::new(alloc, term(width, right)?)?;
    let left = Boxed::new(alloc, left)?;
    Ok(TExpr {
        width,
        signed: false,
        kind: Kind::Binary(BinOp::Add, left, right),
    })
}

fn term(width: u32, term: Term) -> Result<TExpr, NoMemory>
    ensures { IfOk result (λ expr. expr ≡ typed width (kind_of term)) }
{
    let kind = match term {
        Term::Input(place) => Kind::Net(behind_clock(place)?),
        Term::Output(place) => Kind::Var(number(place)?),
        Term::Number(number) => Kind::Num(number),
    };
    Ok(TExpr {
        width,
        signed: false,
        kind,
    })
}

/// The net of an input at this place among those behind the clock.
fn behind_clock(place: usize) -> Result<u32, NoMemory>
    ensures { IfOk result (λ net. net ≡ suc place) }
{
    match number(place)?.checked_add(1) {
        Some(net) => Ok(net),
        None => Err(NoMemory),
    }
}
