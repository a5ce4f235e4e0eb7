//! Loads of files.
ghost use Rattle.std.specs.Prelude.{◌≡◌, ◌≤◌, ◌++◌, ◌∷◌, [], ◌⊎◌, Some, Ok, Err, IfOk, OnOk, IfErr, IsErr, IsSome, length};
ghost use Rattle.xt_base.specs.Outside.{Held, bytes_of, max_file};
ghost use Rattle.vl_pre.specs.Files.{Include, Reading, found};
ghost use Rattle.vl_pre.specs.Faults.{IsFault};
ghost use Rattle.vl_pre.specs.Inputs.{spot_seen};

use crate::faults::{PreFault, Spot};
use std::alloc::Global;
use xt_base::{Files, Load, Words};

/// The bytes of the file with a name, which comes to the names that were loaded.
pub(crate) fn load<F: Files>(
    alloc: Global,
    files: &mut F,
    loads: &mut Words,
    name: &str,
    spot: Spot,
) -> Result<Vec<u8>, PreFault>
    ensures held { F.held files.new ≡ F.held files.old }
    ensures never_falls { F.faults files.old ≤ F.faults files.new }
    ensures size { IfOk result (λ bytes. length bytes.items ≤ max_file) }
    ensures loads { OnOk result (loads.new ≡ loads.old ++ name.now ∷ []) }
    ensures counted { OnOk result (F.faults files.new ≡ F.faults files.old) }
    ensures bytes { IfOk result (λ bytes. (h : Held) → F.held files.old ≡ Some h → bytes_of h name.now ≡ Some bytes.items) }
    ensures fault { (include : Held → Include) (reading : Reading) → IfErr result (λ fault. IsFault fault (F.held files.old) (λ h. found (include h) name.now (spot_seen spot.entry) (bytes_of h name.now) reading) (F.faults files.old) (F.faults files.new)) }
    ensures asked { IsSome (F.held files.old) → (F.asked files.new ≡ F.asked files.old ++ name.now ∷ []) ⊎ (IsErr result × (F.asked files.new ≡ F.asked files.old)) }
{
    loads.push(name)?;
    let mut bytes = Vec::new(alloc);
    match files.load(alloc, name, &mut bytes) {
        Load::Loaded => Ok(bytes),
        Load::Missing | Load::Failed => Err(PreFault::ReadFault),
        Load::TooLong => Err(spot.refuse(alloc, 80)),
        Load::Memory => Err(PreFault::Memory),
    }
}
