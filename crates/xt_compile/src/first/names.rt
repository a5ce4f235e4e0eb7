//! Names of ports.
ghost use Rattle.std.specs.Prelude.{◌≡◌, IfOk, IsTrue};
ghost use Rattle.nt_core.specs.Names.{is_pin_name};

use std::alloc::Global;
use xt_base::{Name, NoMemory};

/// A copy of a name that a port may have.
pub fn copy_of(alloc: Global, word: &[u8]) -> Result<Name, NoMemory>
    requires { IsTrue (is_pin_name word.now) }
    ensures { IfOk result (λ name. name ≡ word.now) }
{
    let text = std::str::from_utf8(word).unwrap();
    Name::new(alloc, text)
}
