//! The parts of a source's module.
ghost use Rattle.std.specs.Prelude.{◌≡◌, ◌<◌, IfSome, option_map, option_copied};
ghost use Rattle.xt_compile.specs.first.Tree.{only, is_plain, is_clock, header_of, block_of, process_of};

use crate::first::tokens::Lexed;
use vl_tree::{Dir, Direction, Item, Module, Port, Stmt};
use xt_base::Place;

/// The one thing in a list.
pub fn only<T>(list: &[T]) -> Option<&T>
    ensures { option_copied result ≡ only list.now }
{
    match list {
        [one] => Some(one),
        _ => None,
    }
}

/// A module's header: the places of its name and of the clock's, and the ports behind the clock's.
#[derive(Drop)]
pub struct Header<'a> {
    pub head: Place,
    pub clock: Place,
    pub behind: &'a [Port],
}

/// A process: the places of `always` and of its block, and the block's statements.
#[derive(Drop)]
pub struct Process<'a> {
    pub at: Place,
    pub block: Place,
    pub body: &'a [Stmt],
}

/// The header of a module of this name.
pub fn header_of<'a>(
    lexed: &Lexed<'_>,
    top: &[u8],
    clock: &[u8],
    parsed: &'a Module,
) -> Option<Header<'a>>
    ensures { option_map (λ header. (header.head, header.clock, header.behind.now)) result ≡ header_of lexed.now.names lexed.now.places top.now clock.now parsed.now }
{
    let is_top = parsed.params.is_none() && lexed.spells(parsed.name, top);
    match &parsed.ports {
        Some(ports) if is_top => match ports.as_slice() {
            [port, behind @ ..] if is_clock(lexed, clock, port) => Some(Header {
                head: lexed.place(parsed.name),
                clock: lexed.place(port.name),
                behind,
            }),
            _ => None,
        },
        _ => None,
    }
}

/// Whether a port is the clock's.
fn is_clock(lexed: &Lexed<'_>, clock: &[u8], port: &Port) -> bool
    ensures { result ≡ is_clock lexed.now.names clock.now port.now }
{
    is_plain(&port.dir) && port.value.is_none() && lexed.spells(port.name, clock)
}

/// Whether leading words are `input` alone.
fn is_plain(dir: &Option<Dir>) -> bool
    ensures { result ≡ is_plain dir.now }
{
    matches!(
        dir,
        Some(Dir::Net {
            direction: Direction::Input,
            wire: false,
            signed: false,
            range: None,
            ..
        })
    )
}

/// The one `always`, whose statement is an unnamed block.
pub fn process_of<'a>(lexed: &Lexed<'_>, parsed: &'a Module) -> Option<Process<'a>>
    ensures process { option_map (λ process. (process.at, process.block, process.body.now)) result ≡ process_of lexed.now.places parsed.now }
    ensures named { IfSome result (λ process. process.at.file < lexed.now.stretches) }
{
    match only(parsed.items.as_slice())? {
        Item::Always { at, body } => {
            let (block, body) = block(body)?;
            Some(Process {
                at: lexed.place(*at),
                block: lexed.place(block),
                body,
            })
        }
        _ => None,
    }
}

/// The number of the first token of an unnamed block, and its statements.
fn block(stmt: &Stmt) -> Option<(u32, &[Stmt])>
    ensures { option_map (λ block. (block.0, block.1.now)) result ≡ block_of stmt.now }
{
    match stmt {
        Stmt::Block {
            at,
            scope: None,
            body,
        } => Some((*at, body.as_slice())),
        _ => None,
    }
}
