//! Rule 52: enables and calls have as many arguments as formals, output arguments can be stored to, and a result is taken
//! exactly where there is one.
ghost use Rattle.std.specs.Prelude.{◌≡◌, ◌+◌, ◌==◌, fold, flat_map, slice_get};
ghost use Rattle.std.specs.List.{list_any};
ghost use Rattle.xt_base.specs.First.{sooner};
ghost use Rattle.el_design.specs.View.{flat_of};
ghost use Rattle.ck_call.specs.inner.Breaks.{differs, task_differs, host_differs, form_misfits, function_differs, import_differs, call_misfits, node_misfits, misfits, breaks_by, misfit_breaks};

use crate::findings::report_if;
use crate::lines::{Call, Form, Line};
use crate::nodes::Node;
use crate::texts::{Text, Texts};
use el_design::Design;
use xt_base::Finder;

/// Whether a call differs from so many formals, or hands over an output that can't be stored to.
fn differs(call: Call, ins: usize, outs: usize) -> bool
    ensures { result ≡ differs call ins outs }
{
    ins != call.ins || outs != call.outs || call.nowhere
}

/// Whether an enable's arguments differ from the task's formals.
fn task_differs(design: &Design, call: Call) -> bool
    ensures { result ≡ task_differs call (slice_get (flat_of design.now).tasks call.number) }
{
    match design.tasks.get(call.number as usize) {
        Some(task) => differs(call, task.ins.len(), task.outs.len()),
        None => false,
    }
}

/// Whether the arguments of a call of the host, or that its result is taken, differ from the import.
fn host_differs(design: &Design, call: Call, gives: bool) -> bool
    ensures { result ≡ host_differs call gives (slice_get (flat_of design.now).imports call.number) }
{
    match design.imports.get(call.number as usize) {
        Some(import) => {
            differs(call, import.ins.len(), import.outs.len()) || gives != import.result.is_some()
        }
        None => false,
    }
}

/// Whether a statement's own enable or call misfits.
fn form_misfits(design: &Design, form: Form) -> bool
    ensures { result ≡ form_misfits (flat_of design.now) form }
{
    match form {
        Form::Enable(call) => task_differs(design, call),
        Form::Host(call, gives) => host_differs(design, call, gives),
        Form::Named(_) => false,
        Form::Held => false,
        Form::Wait => false,
        Form::Disable(_) => false,
        Form::Other => false,
    }
}

/// Whether a function's formals aren't so many.
fn function_differs(design: &Design, number: u32, arguments: usize) -> bool
    ensures { result ≡ function_differs arguments (slice_get (flat_of design.now).funcs number) }
{
    match design.funcs.get(number as usize) {
        Some(func) => func.ins.len() != arguments,
        None => false,
    }
}

/// Whether an import in an expression has no result, or its inputs and outputs aren't so many.
fn import_differs(design: &Design, number: usize, arguments: usize) -> bool
    ensures { result ≡ import_differs arguments (slice_get (flat_of design.now).imports number) }
{
    match design.imports.get(number) {
        Some(import) => {
            import.result.is_none() || !adds_up(import.ins.len(), import.outs.len(), arguments)
        }
        None => false,
    }
}

/// Whether two numbers have this sum.
fn adds_up(one: usize, other: usize, sum: usize) -> bool
    ensures { result ≡ (one + other == sum) }
{
    one <= sum && sum - one == other
}

/// Whether a call in an expression misfits.
fn call_misfits(design: &Design, number: u32, arguments: usize) -> bool
    ensures { result ≡ call_misfits (flat_of design.now) number arguments }
{
    let functions = design.funcs.len();
    if (number as usize) < functions {
        function_differs(design, number, arguments)
    } else {
        import_differs(design, number as usize - functions, arguments)
    }
}

fn node_misfits(design: &Design, node: Node) -> bool
    ensures { result ≡ node_misfits (flat_of design.now) node }
{
    match node {
        Node::Call(number, arguments) => call_misfits(design, number, arguments),
        Node::Net(_) => false,
        Node::Var(_) => false,
        Node::Word(_) => false,
        Node::Resize => false,
        Node::Other => false,
    }
}

fn any_misfits(design: &Design, nodes: &[Node]) -> bool
    ensures { result ≡ list_any (node_misfits (flat_of design.now)) nodes.now }
{
    for node in nodes {
        if node_misfits(design, *node) {
            return true;
        }
    }
    false
}

/// Whether a line breaks the rule.
fn misfits(design: &Design, line: &Line) -> bool
    ensures { result ≡ misfits (flat_of design.now) line.now }
{
    form_misfits(design, line.form) || any_misfits(design, line.nodes.as_slice())
}

fn report_text(finder: &mut Finder, design: &Design, text: &Text)
    ensures { finder.new.first ≡ fold sooner finder.old.first (breaks_by (misfits (flat_of design.now)) 52 text.now) }
{
    for line in text.as_slice() {
        report_if(finder, misfits(design, line), 52, line.at);
    }
}

fn report_texts(finder: &mut Finder, design: &Design, texts: &[Text])
    ensures { finder.new.first ≡ fold sooner finder.old.first (flat_map (breaks_by (misfits (flat_of design.now)) 52) texts.now) }
{
    for text in texts {
        report_text(finder, design, text);
    }
}

/// Reports each line that breaks the rule.
pub(crate) fn report_misfits(finder: &mut Finder, design: &Design, texts: &Texts)
    ensures { finder.new.first ≡ fold sooner finder.old.first (misfit_breaks (flat_of design.now) texts.now) }
{
    report_texts(finder, design, texts.procs.as_slice());
    report_texts(finder, design, texts.tasks.as_slice());
    report_texts(finder, design, texts.funcs.as_slice());
    report_text(finder, design, &texts.nets);
}
