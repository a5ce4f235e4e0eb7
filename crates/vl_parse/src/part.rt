//! What reading gives.
ghost use Rattle.std.specs.Prelude.{◌≡◌, [], ◌∷◌, ◌++◌};
ghost use Rattle.vl_expr.specs.Reading.{Makes};
ghost use Rattle.vl_parse.specs.Parts.{part, single, added, present};

use sqlite_items::{Boxed, Items};
use std::alloc::Global;
use vl_expr::ParseError;

/// A part that was read: its tree, and the number of the token behind it.
#[derive(Drop)]
pub struct Part<T> {
    pub tree: T,
    pub end: u32,
}

pub fn boxed<T: Drop>(alloc: Global, tree: T) -> Result<Boxed<T>, ParseError>
    ensures { Makes result tree }
{
    match Boxed::new(alloc, tree) {
        Ok(tree) => Ok(tree),
        Err(_) => Err(ParseError::Memory),
    }
}

/// A list of one part.
pub fn single<T: Drop>(alloc: Global, part: Part<T>) -> Result<Part<Items<T>>, ParseError>
    ensures { Makes result (single part) }
{
    let mut tree = Items::new(alloc);
    match tree.push(part.tree) {
        Ok(()) => Ok(Part {
            tree,
            end: part.end,
        }),
        Err(_) => Err(ParseError::Memory),
    }
}

/// A list with one part more.
pub fn added<T: Drop>(list: Part<Items<T>>, part: Part<T>) -> Result<Part<Items<T>>, ParseError>
    ensures { Makes result (added list part) }
{
    let mut tree = list.tree;
    match tree.push(part.tree) {
        Ok(()) => Ok(Part {
            tree,
            end: part.end,
        }),
        Err(_) => Err(ParseError::Memory),
    }
}

/// No part.
pub fn none<T: Drop>(alloc: Global, at: u32) -> Part<Items<T>>
    ensures { result ≡ part [] at }
{
    Part {
        tree: Items::new(alloc),
        end: at,
    }
}

/// An optional part that is there.
pub fn present<T: Drop>(part: Part<T>) -> Part<Option<T>>
    ensures { result ≡ present part }
{
    Part {
        tree: Some(part.tree),
        end: part.end,
    }
}

/// An optional part that isn't there.
pub fn absent<T: Drop>(at: u32) -> Part<Option<T>>
    ensures { result ≡ part None at }
{
    Part {
        tree: None,
        end: at,
    }
}
