//! What the lines of a text tell, one after another.
ghost use Rattle.std.specs.Prelude.{◌≡◌, ◌++◌, ◌∷◌, [], ◌-◌, IfOk, OnOk, drop, length};
ghost use Rattle.nt_read.specs.Words.{greatest, number, after_number, after_word, range, after_range, constant, widths, after_widths};
ghost use Rattle.nt_read.specs.Forms.{own, after_own};
ghost use Rattle.nt_read.specs.Sketch.{nothing, with_ret, with_arg, changed, is_node_line, function_told, pin_told, host_input_told, host_output_told, input_told, output_told, memory_told, declaration_told, write_told, comment_told, inner_told, told, shell_told};

use crate::forms::own;
use crate::memory::put;
use crate::words::{byte_at, constant, line, name, number, range, skip, widths, word};
use nt_core::{Function, HostPins, MemWrite, Memory, Shell, Wire};
use std::alloc::Global;
use xt_base::NoMemory;

/// The parts that were told so far.
#[derive(Debug, Drop)]
pub struct Told {
    shell: Shell,
    /// Of how many processes the requests were told.
    asked: usize,
}

fn nothing(alloc: Global) -> Told
    ensures { result ≡ nothing }
{
    Told {
        shell: Shell {
            version: 0,
            processes: 0,
            functions: Vec::new(alloc),
            inputs: Vec::new(alloc),
            outputs: Vec::new(alloc),
            hosts: Vec::new(alloc),
            registers: Vec::new(alloc),
            memories: Vec::new(alloc),
            drives: Vec::new(alloc),
            nexts: Vec::new(alloc),
            writes: Vec::new(alloc),
        },
        asked: 0,
    }
}

/// Whether a line is a node's.
pub fn is_node_line(line: &[u8]) -> bool
    ensures { result ≡ is_node_line line.now }
{
    line.starts_with(b"  wire ")
}

/// Takes what a line tells. Nodes are told apart.
fn tell(state: &mut Told, alloc: Global, line: &[u8]) -> Result<(), NoMemory>
    ensures { OnOk result (state.new ≡ told greatest state.old line.now) }
{
    if is_node_line(line) {
        Ok(())
    } else if line.starts_with(b"  input wire ") {
        tell_input(&mut state.shell, alloc, skip(line, 13))
    } else if line.starts_with(b"  output wire ") {
        tell_output(state, alloc, skip(line, 14))
    } else {
        tell_inner(&mut state.shell, alloc, line)
    }
}

/// Takes an input port: a pin, or one of a process's.
fn tell_input(shell: &mut Shell, alloc: Global, text: &[u8]) -> Result<(), NoMemory>
    ensures { OnOk result (shell.new ≡ input_told greatest text.now shell.old) }
{
    let (width, name) = range(text);
    if !name.starts_with(b"xtc_") {
        return put(&mut shell.inputs, pin(alloc, text)?);
    }
    if byte_at(name, 4) == b'p' {
        return tell_host_input(&mut shell.hosts, alloc, width, name);
    }
    Ok(())
}

/// A pin: its range and its name.
fn pin(alloc: Global, text: &[u8]) -> Result<Wire, NoMemory>
    ensures { IfOk result (λ pin. pin ≡ pin_told greatest text.now) }
{
    let (width, rest) = range(text);
    let (name, _) = name(alloc, rest)?;
    Ok(Wire { name, width })
}

/// Takes an input of a process: its acknowledgement, or an item of its reply.
fn tell_host_input(
    hosts: &mut Vec<HostPins>,
    alloc: Global,
    width: u32,
    text: &[u8],
) -> Result<(), NoMemory>
    ensures { OnOk result (hosts.new.items ≡ host_input_told greatest width text.now hosts.old.items) }
{
    let (process, rest) = own(text);
    if byte_at(rest, 1) == b'a' {
        return put(
            hosts,
            HostPins {
                process,
                rets: Vec::new(alloc),
                args: Vec::new(alloc),
            },
        );
    }
    let last = hosts.len().saturating_sub(1);
    match hosts.get_mut(last) {
        Some(host) => put(&mut host.rets, width),
        None => Ok(()),
    }
}

/// Takes an output port: a pin, or one of a process's.
fn tell_output(state: &mut Told, alloc: Global, text: &[u8]) -> Result<(), NoMemory>
    ensures { OnOk result (state.new ≡ output_told greatest text.now state.old) }
{
    let (width, name) = range(text);
    if !name.starts_with(b"xtc_") {
        return put(&mut state.shell.outputs, pin(alloc, text)?);
    }
    if byte_at(name, 4) == b'p' {
        return tell_host_output(state, width, name);
    }
    Ok(())
}

/// Takes an output of a process: its request, or an argument.
fn tell_host_output(state: &mut Told, width: u32, text: &[u8]) -> Result<(), NoMemory>
    ensures { OnOk result (state.new ≡ host_output_told greatest width text.now state.old) }
{
    match byte_at(own(text).1, 1) {
        b'r' => {
            state.asked = state.asked.saturating_add(1);
            Ok(())
        }
        b'a' => add_argument(&mut state.shell.hosts, state.asked.saturating_sub(1), width),
        _ => Ok(()),
    }
}

/// Gives the host at a place an argument more, if there is one.
fn add_argument(hosts: &mut Vec<HostPins>, place: usize, width: u32) -> Result<(), NoMemory>
    ensures { OnOk result (hosts.new.items ≡ changed (with_arg width) hosts.old.items place) }
{
    match hosts.get_mut(place) {
        Some(host) => put(&mut host.args, width),
        None => Ok(()),
    }
}

/// Takes a line that isn't a port's.
fn tell_inner(shell: &mut Shell, alloc: Global, line: &[u8]) -> Result<(), NoMemory>
    ensures { OnOk result (shell.new ≡ inner_told greatest line.now shell.old) }
{
    if line.starts_with(b"  assign ") {
        let (_, rest) = word(skip(line, 9));
        put(&mut shell.drives, own(skip(rest, 3)).0)
    } else if line.starts_with(b"    xtc_r") {
        let (_, rest) = number(skip(line, 9));
        put(&mut shell.nexts, own(skip(rest, 4)).0)
    } else if line.starts_with(b"    if (") {
        put(&mut shell.writes, write(skip(line, 8)))
    } else if line.starts_with(b"  reg ") {
        tell_declaration(shell, skip(line, 6))
    } else if line.starts_with(b"// function ") {
        add_function(&mut shell.functions, alloc, skip(line, 12))
    } else {
        tell_comment(shell, line);
        Ok(())
    }
}

/// A write to a memory.
fn write(text: &[u8]) -> MemWrite
    ensures { result ≡ write_told greatest text.now }
{
    let (when, rest) = own(text);
    let (memory, rest) = own(skip(rest, 2));
    let (index, rest) = own(skip(rest, 1));
    MemWrite {
        memory,
        when,
        index,
        value: own(skip(rest, 5)).0,
    }
}

/// Takes a register or a memory.
fn tell_declaration(shell: &mut Shell, text: &[u8]) -> Result<(), NoMemory>
    ensures { OnOk result (shell.new ≡ declaration_told greatest text.now shell.old) }
{
    let (width, name) = range(text);
    let (_, rest) = own(name);
    if byte_at(name, 4) == b'm' {
        let words = number(skip(rest, 4)).0.saturating_add(1);
        put(&mut shell.memories, Memory { width, words })
    } else {
        put(&mut shell.registers, constant(skip(rest, 3), 2))
    }
}

/// Takes a line that gives the count of processes or the version.
fn tell_comment(shell: &mut Shell, line: &[u8])
    ensures { shell.new ≡ comment_told greatest line.now shell.old }
{
    if line.starts_with(b"// processes ") {
        shell.processes = number(skip(line, 13)).0;
    } else if line.starts_with(b"// xtc design ") {
        shell.version = number(skip(line, 14)).0;
    }
}

/// Puts a function of the host at the end.
fn add_function(functions: &mut Vec<Function>, alloc: Global, text: &[u8]) -> Result<(), NoMemory>
    ensures { OnOk result (functions.new.items ≡ functions.old.items ++ function_told greatest text.now ∷ []) }
{
    let function = function(alloc, text)?;
    put(functions, function)
}

/// A function of the host: its name, and the widths of its inputs and of its reply.
fn function(alloc: Global, text: &[u8]) -> Result<Function, NoMemory>
    ensures { IfOk result (λ function. function ≡ function_told greatest text.now) }
{
    let (name, rest) = name(alloc, text)?;
    let (ins, rest) = width_list(alloc, skip(rest, 3))?;
    let (rets, _) = width_list(alloc, skip(rest, 4))?;
    Ok(Function { name, ins, rets })
}

/// Up to 16 widths, each after a blank, and what follows them.
fn width_list(alloc: Global, text: &[u8]) -> Result<(Vec<u32>, &[u8]), NoMemory>
    ensures { IfOk result (λ r. (r.0.items ≡ widths greatest 16 text.now) × (r.1.now ≡ after_widths 16 text.now)) }
{
    let mut list = Vec::new(alloc);
    let rest = widths(&mut list, 16, text)?;
    Ok((list, rest))
}

/// All parts that a text tells but its nodes.
pub fn shell(alloc: Global, text: &[u8]) -> Result<Shell, NoMemory>
    ensures { IfOk result (λ shell. shell ≡ shell_told greatest text.now) }
{
    let mut state = nothing(alloc);
    let mut rest = text;
    while !rest.is_empty() {
        let (first, others) = line(rest);
        tell(&mut state, alloc, first)?;
        rest = others;
    }
    Ok(state.shell)
}
