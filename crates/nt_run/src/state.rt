//! The step from one state to the next.
ghost use Rattle.std.specs.Prelude.{◌≡◌, ◌<◌, length, map, fold, slice_set, All};
ghost use Rattle.nt_core.specs.Fitting.{IsState};
ghost use Rattle.nt_core.specs.NodeValue.{value_at};
ghost use Rattle.nt_core.specs.Tick.{written, next};

use nt_core::{MemWrite, Netlist, State};
use xt_base::Item;
use xt_bits::Bits;

/// All registers and words take their next values, now that the nodes have these values.
pub(crate) fn advance(netlist: &Netlist, values: &[Bits], state: &mut State)
    requires values { length values.now ≡ length netlist.now.nodes }
    requires state { IsState netlist.now state.old }
    ensures { state.new ≡ next netlist.now values.now state.old }
{
    load(&mut state.registers, values, netlist.nexts.as_slice());
    write_all(&mut state.memories, values, netlist);
}

/// Loads each register from its node.
fn load(registers: &mut [Bits], values: &[Bits], nexts: &[u32])
    requires each { length registers.old ≡ length nexts.now }
    requires nodes { All (λ a. a < length values.now) nexts.now }
    ensures { registers.new ≡ map (value_at values.now) nexts.now }
{
    for (i, next) in nexts.iter().enumerate() {
        registers[i] = values[*next as usize];
    }
}

/// Makes the writes of the netlist, oldest first.
fn write_all(memories: &mut [Vec<Bits>], values: &[Bits], netlist: &Netlist)
    requires values { length values.now ≡ length netlist.now.nodes }
    requires memories { length memories.old ≡ length netlist.now.memories }
    ensures { map (λ v. v.items) memories.new ≡ fold (written values.now) (map (λ v. v.items) memories.old) netlist.now.writes }
{
    for entry in netlist.writes.as_slice() {
        write(memories, values, entry);
    }
}

/// Writes the word, where the condition is up and the memory has it.
fn write(memories: &mut [Vec<Bits>], values: &[Bits], entry: &MemWrite)
    requires memory { entry.now.memory < length memories.old }
    requires when { entry.now.when < length values.now }
    requires index { entry.now.index < length values.now }
    requires value { entry.now.value < length values.now }
    ensures { map (λ v. v.items) memories.new ≡ written values.now (map (λ v. v.items) memories.old) entry.now }
{
    if values[entry.when as usize].any() {
        let word = values[entry.value as usize];
        let place = values[entry.index as usize].value();
        set_word(&mut memories[entry.memory as usize], place, word);
    }
}

/// Sets the word at a place; past the end nothing is set.
fn set_word(words: &mut [Bits], place: Item, word: Bits)
    ensures { words.new ≡ slice_set words.old place word }
{
    if place < words.len() as Item {
        words[place as usize] = word;
    }
}
