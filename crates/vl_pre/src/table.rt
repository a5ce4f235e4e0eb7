//! The macros that are defined, by their names.
ghost use Rattle.std.specs.Prelude.{◌≡◌, Some, None, OnOk, IfErr, MatchOption, is_some};
ghost use Rattle.vl_pre.specs.Macros.{no_macros, with_macro};
ghost use Rattle.vl_pre.specs.MacroViews.{macro_seen};
ghost use Rattle.vl_pre.specs.Tables.{table_of};

use crate::macros::{Defined, Macro};
use crate::stopped::Stopped;
use std::alloc::Global;
use std::collections::HashMap;

/// The macros that are defined.
#[derive(Debug, Drop)]
pub(crate) struct Table {
    macros: HashMap<Vec<u8>, Macro>,
}

impl Table {
    /// No macros.
    pub(crate) fn new(alloc: Global) -> Table
        ensures { table_of result ≡ no_macros }
    {
        Table {
            macros: HashMap::new(alloc),
        }
    }

    /// What a name stands for.
    pub(crate) fn get(&self, name: &[u8]) -> Option<&Macro>
        ensures { MatchOption result (table_of self.now name.now ≡ None) (λ meaning. table_of self.now name.now ≡ Some (macro_seen meaning.now)) }
    {
        self.macros.get(name)
    }

    /// Whether a name is a macro.
    pub(crate) fn has(&self, name: &[u8]) -> bool
        ensures { result ≡ is_some (table_of self.now name.now) }
    {
        self.get(name).is_some()
    }

    /// From here on the name is a macro; a later definition replaces an earlier one.
    pub(crate) fn define(&mut self, defined: Defined) -> Result<(), Stopped>
        ensures ok { OnOk result (table_of self.new ≡ with_macro (table_of self.old) defined.name.items (Some (macro_seen defined.meaning))) }
        ensures err { IfErr result (λ stop. stop ≡ Stopped.Memory) }
    {
        let Defined { name, meaning } = defined;
        self.macros.insert(name, meaning)?;
        Ok(())
    }

    /// From here on the name is no macro.
    pub(crate) fn undef(&mut self, name: &[u8])
        ensures { table_of self.new ≡ with_macro (table_of self.old) name.now None }
    {
        let _ = self.macros.remove(name);
    }
}
