//! Rule 50: a function holds no nonblocking assignment, wait, enable or call of the host, names nothing but its own variables and
//! functions, reads no local and not its result before it is surely assigned, and leaves no result unassigned.
ghost use Rattle.std.specs.Prelude.{◌≡◌, ◌++◌, ◌∷◌, ◌||◌, not, [], OnOk, IfOk, fold, flat_map, map, length, slice_get};
ghost use Rattle.std.specs.List.{list_any, list_all};
ghost use Rattle.xt_base.specs.First.{sooner};
ghost use Rattle.el_design.specs.Purity.{contains_number, variables_of};
ghost use Rattle.el_design.specs.View.{flat_of, func_of};
ghost use Rattle.ck_call.specs.inner.Breaks.{is_foreign_form, is_outside, is_impure, breaks_by, result_breaks, fails, function_breaks, purity_breaks};

use crate::assigned::is_misread;
use crate::findings::report_if;
use crate::lines::{Form, Line};
use crate::nodes::Node;
use crate::texts::{Text, text};
use el_design::{Design, Func};
use sqlite_items::Items;
use std::alloc::Global;
use xt_base::{Finder, NoMemory};

/// The variables of a function: its formals, its locals and its result.
fn variables_of(alloc: Global, func: &Func) -> Result<Items<u32>, NoMemory>
    ensures { IfOk result (λ own. own ≡ variables_of (func_of func.now)) }
{
    let mut own = Items::from_slice(alloc, func.ins.as_slice())?;
    let locals = Items::from_slice(alloc, func.locals.as_slice())?;
    own.append(locals)?;
    own.push(func.result)?;
    Ok(own)
}

/// Whether a statement is of a kind that a function may not have.
fn is_foreign(form: Form) -> bool
    ensures { result ≡ is_foreign_form form }
{
    match form {
        Form::Held => true,
        Form::Wait => true,
        Form::Enable(_) => true,
        Form::Host(_, _) => true,
        Form::Named(_) => false,
        Form::Disable(_) => false,
        Form::Other => false,
    }
}

/// Whether a node names what isn't the function's own; `functions` is how many functions there are.
fn is_outside(own: &[u32], functions: usize, node: Node) -> bool
    ensures { result ≡ is_outside own.now functions node }
{
    match node {
        Node::Net(_) => true,
        Node::Var(number) => !own.contains(&number),
        Node::Word(number) => !own.contains(&number),
        Node::Call(number, _) => functions <= number as usize,
        Node::Resize => false,
        Node::Other => false,
    }
}

fn any_outside(own: &[u32], functions: usize, nodes: &[Node]) -> bool
    ensures { result ≡ list_any (is_outside own.now functions) nodes.now }
{
    for node in nodes {
        if is_outside(own, functions, *node) {
            return true;
        }
    }
    false
}

/// Whether all variables are a function's own.
fn are_own(own: &[u32], stored: &[u32]) -> bool
    ensures { result ≡ list_all (contains_number own.now) stored.now }
{
    for number in stored {
        if !own.contains(number) {
            return false;
        }
    }
    true
}

/// Whether a statement of a function breaks the rule.
fn is_impure(own: &[u32], functions: usize, line: &Line) -> bool
    ensures { result ≡ is_impure own.now functions line.now }
{
    is_foreign(line.form)
        || !are_own(own, line.stored.as_slice())
        || any_outside(own, functions, line.nodes.as_slice())
}

fn report_text(finder: &mut Finder, own: &[u32], functions: usize, text: &Text)
    ensures { finder.new.first ≡ fold sooner finder.old.first (breaks_by (is_impure own.now functions) 50 text.now) }
{
    for line in text.as_slice() {
        report_if(finder, is_impure(own, functions, line), 50, line.at);
    }
}

/// Reports a break at a function's name, with which its result is declared.
fn report_result(finder: &mut Finder, design: &Design, func: &Func, broken: bool)
    ensures { finder.new.first ≡ fold sooner finder.old.first (result_breaks broken (slice_get (flat_of design.now).vars func.now.result)) }
{
    if let Some(result) = design.vars.get(func.result as usize) {
        report_if(finder, broken, 50, result.place);
    }
}

/// Reports what a function breaks.
fn report_function(
    alloc: Global,
    finder: &mut Finder,
    design: &Design,
    func: &Func,
) -> Result<(), NoMemory>
    ensures { OnOk result (finder.new.first ≡ fold sooner finder.old.first (function_breaks (flat_of design.now) (func_of func.now))) }
{
    let own = variables_of(alloc, func)?;
    let text = text(alloc, &func.body)?;
    report_text(finder, own.as_slice(), design.funcs.len(), &text);
    let broken = is_misread(alloc, func)?;
    report_result(finder, design, func, broken);
    Ok(())
}

/// Reports what functions break.
pub(crate) fn report_impure(
    alloc: Global,
    finder: &mut Finder,
    design: &Design,
) -> Result<(), NoMemory>
    ensures { OnOk result (finder.new.first ≡ fold sooner finder.old.first (purity_breaks (flat_of design.now))) }
{
    for func in design.funcs.as_slice() {
        report_function(alloc, finder, design, func)?;
    }
    Ok(())
}
