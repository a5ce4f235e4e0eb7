//! Macros that are defined before the first file.
ghost use Rattle.std.specs.Prelude.{◌≡◌, ◌++◌, ◌∷◌, [], OnOk, OnErr, IfOk, IfErr, None, map, string_bytes};
ghost use Rattle.vl_pre.specs.Macros.{no_macros, with_defines};
ghost use Rattle.vl_pre.specs.MacroViews.{defined_seen};
ghost use Rattle.vl_pre.specs.Tables.{table_of};

use crate::macros::{Defined, Macro};
use crate::stopped::Stopped;
use crate::table::Table;
use std::alloc::Global;
use std::marker::Model;
use xt_base::NoMemory;

/// A name and the text that it stands for.
#[derive(Debug, Drop)]
struct Define {
    name: String,
    text: String,
}

/// Macros without formals that are defined before the first file. Contracts see the list of their names and texts.
///
/// A later one of the same name replaces an earlier one.
#[derive(Debug, Drop)]
pub struct Defines {
    list: Vec<Define>,
}

impl Model for Defines {
    ghost use Rattle.std.specs.Prelude.{List, ℕ, map, string_bytes};

    ghost Value = { List (List ℕ × List ℕ) };

    ghost view = { λ d. map (λ e. (string_bytes e.name, string_bytes e.text)) d.list.items };
}

impl Defines {
    /// No macros.
    pub fn new(alloc: Global) -> Defines
        ensures { result ≡ [] }
    {
        Defines {
            list: Vec::new(alloc),
        }
    }

    /// Adds a macro; without memory for it they stay as they were.
    pub fn add(&mut self, name: &str, text: &str) -> Result<(), NoMemory>
        ensures ok { OnOk result (self.new ≡ self.old ++ (name.now, text.now) ∷ []) }
        ensures err { OnErr result (self.new ≡ self.old) }
    {
        let alloc = *self.list.allocator();
        let define = Define {
            name: String::from_str(alloc, name)?,
            text: String::from_str(alloc, text)?,
        };
        self.list.push(define)?;
        Ok(())
    }

    /// The macros as a table.
    pub(crate) fn table(&self) -> Result<Table, Stopped>
        ensures ok { IfOk result (λ table. table_of table ≡ with_defines no_macros self.now) }
        ensures err { IfErr result (λ stop. stop ≡ Stopped.Memory) }
    {
        table_of(*self.list.allocator(), &self.list)
    }
}

/// The macro that a define is.
fn defined(alloc: Global, define: &Define) -> Result<Defined, Stopped>
    ensures ok { IfOk result (λ d. defined_seen d ≡ record { name = string_bytes define.now.name; meaning = record { formals = None; text = string_bytes define.now.text } }) }
    ensures err { IfErr result (λ stop. stop ≡ Stopped.Memory) }
{
    Ok(Defined {
        name: Vec::from_slice(alloc, define.name.as_str().as_bytes())?,
        meaning: Macro {
            formals: None,
            text: Vec::from_slice(alloc, define.text.as_str().as_bytes())?,
        },
    })
}

/// The macros of a list as a table.
fn table_of(alloc: Global, list: &[Define]) -> Result<Table, Stopped>
    ensures ok { IfOk result (λ table. table_of table ≡ with_defines no_macros (map (λ e. (string_bytes e.name, string_bytes e.text)) list.now)) }
    ensures err { IfErr result (λ stop. stop ≡ Stopped.Memory) }
{
    let mut table = Table::new(alloc);
    for define in list {
        table.define(defined(alloc, define)?)?;
    }
    Ok(table)
}
