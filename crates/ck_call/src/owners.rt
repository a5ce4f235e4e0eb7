//! Of which processes named blocks and tasks are part.
ghost use Rattle.std.specs.Prelude.{◌≡◌, ◌+◌, ◌<◌, ◌++◌, ◌∷◌, [], IfOk, fold, flat_map, length, replicate, slice_index_or, slice_get};
ghost use Rattle.el_design.specs.View.{flat_of};
ghost use Rattle.ck_call.specs.declared.owners.Owner.TheVariants as owner;
ghost use Rattle.ck_call.specs.inner.Placed.{joined, owner_at, noted, task_marks, form_marks, text_marks, notes, reach_at, text_at, placed, all_notes, owners_of, is_owner};

use crate::lines::{Form, Line};
use crate::texts::{Text, Texts};
use el_design::Design;
use sqlite_items::Items;
use std::alloc::Global;
use xt_base::NoMemory;

/// The processes of which a block or task is part.
#[derive(Clone, Copy, Debug, PartialEq, Eq)]
pub(crate) enum Owner {
    Nobody,
    One(usize),
    Many,
}

/// The owner, with a further process.
fn joined(process: usize, owner: Owner) -> Owner
    ensures { result ≡ joined process owner }
{
    match owner {
        Owner::Nobody => Owner::One(process),
        Owner::One(other) => {
            if other == process {
                Owner::One(other)
            } else {
                Owner::Many
            }
        }
        Owner::Many => Owner::Many,
    }
}

/// The owner of what has a mark.
pub(crate) fn owner_at(owners: &[Owner], mark: u32) -> Owner
    ensures { result ≡ owner_at owners.now mark }
{
    match owners.get(mark as usize) {
        Some(owner) => *owner,
        None => Owner::Nobody,
    }
}

/// Whether a process is the only owner.
pub(crate) fn is_owner(process: usize, owner: Owner) -> bool
    ensures { result ≡ is_owner process owner }
{
    match owner {
        Owner::One(other) => other == process,
        Owner::Nobody => false,
        Owner::Many => false,
    }
}

/// Notes that what has a mark is part of a process.
fn note(owners: &mut Items<Owner>, process: usize, mark: u32)
    ensures { owners.new ≡ noted process owners.old mark }
{
    if (mark as usize) < owners.len() {
        let owner = owner_at(owners.as_slice(), mark);
        owners.set(mark as usize, joined(process, owner));
    }
}

/// Notes what a line makes part of a process: a named block, or an enabled task.
fn note_form(owners: &mut Items<Owner>, design: &Design, process: usize, form: Form)
    ensures { owners.new ≡ fold (noted process) owners.old (form_marks (flat_of design.now) form) }
{
    match form {
        Form::Named(mark) => note(owners, process, mark),
        Form::Enable(call) => {
            if let Some(task) = design.tasks.get(call.number as usize) {
                note(owners, process, task.mark);
            }
        }
        Form::Held => {}
        Form::Wait => {}
        Form::Disable(_) => {}
        Form::Host(_, _) => {}
        Form::Other => {}
    }
}

fn note_lines(owners: &mut Items<Owner>, design: &Design, process: usize, lines: &[Line])
    ensures { owners.new ≡ notes (flat_of design.now) process owners.old lines.now }
{
    for line in lines {
        note_form(owners, design, process, line.form);
    }
}

/// The lines of a task.
pub(crate) fn text_at(tasks: &[Text], task: u32) -> &[Line]
    ensures { result.now ≡ text_at tasks.now task }
{
    match tasks.get(task as usize) {
        Some(text) => text.as_slice(),
        None => &[],
    }
}

/// The tasks that a process reaches.
pub(crate) fn reach_at(reaches: &[Items<u32>], process: usize) -> &[u32]
    ensures { result.now ≡ reach_at reaches.now process }
{
    match reaches.get(process) {
        Some(reach) => reach.as_slice(),
        None => &[],
    }
}

/// Notes what the tasks that are reached make part of a process.
fn note_tasks(
    owners: &mut Items<Owner>,
    design: &Design,
    tasks: &[Text],
    process: usize,
    reach: &[u32],
)
    ensures { owners.new ≡ notes (flat_of design.now) process owners.old (flat_map (text_at tasks.now) reach.now) }
{
    for task in reach {
        note_lines(owners, design, process, text_at(tasks, *task));
    }
}

/// Notes what is part of a process in place.
fn note_placed(
    owners: &mut Items<Owner>,
    design: &Design,
    tasks: &[Text],
    process: usize,
    reach: &[u32],
    text: &Text,
)
    ensures { owners.new ≡ notes (flat_of design.now) process owners.old (placed tasks.now reach.now text.now) }
{
    note_lines(owners, design, process, text.as_slice());
    note_tasks(owners, design, tasks, process, reach);
}

/// Owners for so many marks: nobody so far.
fn nobody(alloc: Global, marks: u32) -> Result<Items<Owner>, NoMemory>
    ensures { IfOk result (λ owners. owners ≡ replicate marks owner.Nobody) }
{
    let owners = vec![in alloc; Owner::Nobody; marks as usize]?;
    Ok(Items::from_vec(owners))
}

/// Of which processes each named block and task is part.
pub(crate) fn owners(
    alloc: Global,
    design: &Design,
    texts: &Texts,
    reaches: &[Items<u32>],
) -> Result<Items<Owner>, NoMemory>
    ensures { IfOk result (λ owners. owners ≡ owners_of (flat_of design.now) texts.now reaches.now) }
{
    let mut owners = nobody(alloc, design.marks)?;
    note_all(
        &mut owners,
        design,
        texts.tasks.as_slice(),
        reaches,
        texts.procs.as_slice(),
    );
    Ok(owners)
}

fn note_all(
    owners: &mut Items<Owner>,
    design: &Design,
    tasks: &[Text],
    reaches: &[Items<u32>],
    procs: &[Text],
)
    ensures { owners.new ≡ all_notes (flat_of design.now) tasks.now reaches.now 0 owners.old procs.now }
{
    for process in 0..procs.len() {
        note_placed(
            owners,
            design,
            tasks,
            process,
            reach_at(reaches, process),
            &procs[process],
        );
    }
}
