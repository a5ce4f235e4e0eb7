//! Reading optional parts and lists of parts.
ghost use Rattle.std.specs.Prelude.{◌≡◌, ◌<◌, ◌^◌, ◌-◌, ◌+◌, ℕ, List, Option, Bool, length, slice_get};
ghost use Rattle.vl_tree.specs.declared.terminals.Terminal.{Terminal};
ghost use Rattle.vl_tree.specs.declared.terminals.Terminal.TheVariants as lex;
ghost use Rattle.vl_expr.specs.Reading.{Gives, Reading};
ghost use Rattle.vl_parse.specs.Input.{Input};
ghost use Rattle.vl_parse.specs.declared.part.Part.{Part};
ghost use Rattle.vl_parse.specs.Parts.{name_of, separated_of, separated_from, listed_of, many_of, maybe_of};
ghost use Rattle.vl_parse.specs.inner.Steps.{pair_of, ended_of};

use crate::input::Input;
use crate::part::{Part, absent, added, boxed, none, present, single};
use sqlite_items::{Boxed, Items};
use vl_expr::ParseError;
use vl_tree::Terminal;

/// A part of the grammar.
pub trait Parse: Drop + Sized {
    ghost reading: { Input → ℕ → ℕ → Reading (Part Self) };

    /// The part that begins at a place, with nothing in it deeper than `depth`.
    fn parse(input: &Input<'_>, depth: u32, at: u32) -> Result<Part<Self>, ParseError>
        ensures { Gives result (reading input.now depth at) };
}

/// A part of the grammar that is known by its first token.
pub trait Begin: Parse {
    ghost opens: { Option Terminal → Bool };

    fn begins(first: Option<Terminal>) -> bool
        ensures { result ≡ opens first };
}

/// A name is the number of its token.
impl Parse for u32 {
    ghost reading = { λ i n at. name_of i.terminals at };

    fn parse(input: &Input<'_>, depth: u32, at: u32) -> Result<Part<u32>, ParseError> {
        input.name(at)?;
        Ok(Part {
            tree: at,
            end: at + 1,
        })
    }
}

impl<T: Parse> Parse for Boxed<T> {
    ghost reading = { λ i n at. T.Parse.reading i n at };

    fn parse(input: &Input<'_>, depth: u32, at: u32) -> Result<Part<Boxed<T>>, ParseError> {
        let part = T::parse(input, depth, at)?;
        let tree = boxed(input.alloc(), part.tree)?;
        Ok(Part {
            tree,
            end: part.end,
        })
    }
}

/// One part and another behind it.
impl<T: Parse, U: Parse> Parse for (T, U) {
    ghost reading = { λ i n at. pair_of (T.Parse.reading i n) (U.Parse.reading i n) at };

    fn parse(input: &Input<'_>, depth: u32, at: u32) -> Result<Part<(T, U)>, ParseError> {
        let first = T::parse(input, depth, at)?;
        let second = U::parse(input, depth, first.end)?;
        Ok(Part {
            tree: (first.tree, second.tree),
            end: second.end,
        })
    }
}

/// One or more parts with commas between them.
impl<T: Parse> Parse for Items<T> {
    ghost reading = { λ i n at. separated_of i.terminals lex.Comma (T.Parse.reading i n) at };

    fn parse(input: &Input<'_>, depth: u32, at: u32) -> Result<Part<Items<T>>, ParseError> {
        separated(input, Terminal::Comma, depth, at)
    }
}

/// A part and a token behind it.
pub fn ended<T: Parse>(
    input: &Input<'_>,
    terminal: Terminal,
    depth: u32,
    at: u32,
) -> Result<Part<T>, ParseError>
    ensures { Gives result (ended_of input.now.terminals terminal (T.reading input.now depth) at) }
{
    let part = T::parse(input, depth, at)?;
    input.expect(part.end, terminal)?;
    Ok(Part {
        tree: part.tree,
        end: part.end + 1,
    })
}

/// The other parts of a list, each behind a separator.
fn further<T: Parse>(
    input: &Input<'_>,
    separator: Terminal,
    depth: u32,
    first: Part<Items<T>>,
) -> Result<Part<Items<T>>, ParseError>
    ensures { Gives result
        (separated_from input.now.terminals separator (T.reading input.now depth) (length input.now.terminals) first) }
{
    let mut all = first;
    'turns: for turn in 0..input.len() {
        if !input.is_at(all.end, separator) {
            break;
        }
        let next = T::parse(input, depth, all.end + 1)?;
        all = added(all, next)?;
    }
    Ok(all)
}

/// One or more parts with a separator between them.
pub fn separated<T: Parse>(
    input: &Input<'_>,
    separator: Terminal,
    depth: u32,
    at: u32,
) -> Result<Part<Items<T>>, ParseError>
    ensures { Gives result (separated_of input.now.terminals separator (T.reading input.now depth) at) }
{
    let first = T::parse(input, depth, at)?;
    let all = single(input.alloc(), first)?;
    further(input, separator, depth, all)
}

/// Parts with commas between them, or none, before a closing parenthesis.
pub fn listed<T: Parse>(
    input: &Input<'_>,
    depth: u32,
    at: u32,
) -> Result<Part<Items<T>>, ParseError>
    ensures { Gives result (listed_of input.now.terminals (T.reading input.now depth) at) }
{
    if input.is_at(at, Terminal::CloseParen) {
        Ok(none(input.alloc(), at))
    } else {
        separated(input, Terminal::Comma, depth, at)
    }
}

/// All parts that stand behind one another from a place on.
pub fn many<T: Begin>(input: &Input<'_>, depth: u32, at: u32) -> Result<Part<Items<T>>, ParseError>
    ensures { Gives result (many_of input.now.terminals T.opens (T.reading input.now depth) at) }
{
    let mut all = none(input.alloc(), at);
    'turns: for turn in 0..input.len() {
        if !T::begins(input.get(all.end)) {
            break;
        }
        let next = T::parse(input, depth, all.end)?;
        all = added(all, next)?;
    }
    Ok(all)
}

/// A part that may be left out.
pub fn optional<T: Begin>(
    input: &Input<'_>,
    depth: u32,
    at: u32,
) -> Result<Part<Option<T>>, ParseError>
    ensures { Gives result (maybe_of input.now.terminals T.opens (T.reading input.now depth) at) }
{
    if T::begins(input.get(at)) {
        let part = T::parse(input, depth, at)?;
        Ok(present(part))
    } else {
        Ok(absent(at))
    }
}
