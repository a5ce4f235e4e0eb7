//! The names of the pins.
ghost use Rattle.std.specs.Prelude.{◌≡◌, ◌≢◌, ◌++◌, ◌∷◌, [], IfOk, MatchOption, AllPairs, true, map};
ghost use Rattle.nt_read.specs.Names.{names_of, are_new};

use indexmap::IndexSet;
use nt_core::Wire;
use std::alloc::Global;
use xt_base::NoMemory;

/// Puts the names of pins behind those that are known; false where one is known by then.
fn add_names<'a>(names: &mut IndexSet<&'a [u8]>, pins: &'a [Wire]) -> Result<bool, NoMemory>
    ensures fresh { IfOk result (λ fresh. fresh ≡ are_new (map (λ k. k.now) names.old.keys) (names_of pins.now)) }
    ensures names { IfOk result (λ fresh. fresh ≡ true → map (λ k. k.now) names.new.keys ≡ map (λ k. k.now) names.old.keys ++ names_of pins.now) }
{
    for pin in pins {
        if !add_name(names, pin.name.as_str().as_bytes())? {
            return Ok(false);
        }
    }
    Ok(true)
}

/// Puts a name behind those that are known; false where it is known.
fn add_name<'a>(names: &mut IndexSet<&'a [u8]>, name: &'a [u8]) -> Result<bool, NoMemory>
    ensures fresh { IfOk result (λ fresh. fresh ≡ are_new (map (λ k. k.now) names.old.keys) (name.now ∷ [])) }
    ensures names { IfOk result (λ fresh. fresh ≡ true → map (λ k. k.now) names.new.keys ≡ map (λ k. k.now) names.old.keys ++ name.now ∷ []) }
{
    match names.insert(name) {
        Ok(fresh) => Ok(fresh),
        Err(_) => Err(NoMemory),
    }
}

/// The names of the pins, the inputs first; None where two pins have one name.
pub fn distinct_names<'a>(
    alloc: Global,
    inputs: &'a [Wire],
    outputs: &'a [Wire],
) -> Result<Option<IndexSet<&'a [u8]>>, NoMemory>
    ensures names { IfOk result (λ found. MatchOption found (AllPairs (λ a b. a.name ≢ b.name) (inputs.now ++ outputs.now) → ⊥) (λ names. map (λ k. k.now) names.keys ≡ names_of (inputs.now ++ outputs.now))) }
    ensures distinct { IfOk result (λ found. MatchOption found (Unit {0}) (λ names. AllPairs (λ a b. a.name ≢ b.name) (inputs.now ++ outputs.now))) }
{
    let mut names = IndexSet::new(alloc);
    if !add_names(&mut names, inputs)? {
        return Ok(None);
    }
    if !add_names(&mut names, outputs)? {
        return Ok(None);
    }
    Ok(Some(names))
}
