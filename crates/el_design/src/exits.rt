//! Laws of walks, each the contract of a function that does nothing: a statement's exits by its structure are those to which walks lead,
//! and no walk is longer than the statement's length by its structure.
ghost use Rattle.std.specs.Prelude.{◌≡◌, List, [], Option, Some, slice_get, ℕ};
ghost use Rattle.el_design.specs.Plain.{Statement, FlatProc, Flat};
ghost use Rattle.el_design.specs.Rules.{IsFinite, IsCleanBefore};
ghost use Rattle.el_design.specs.Exits.{Told, TaskExits, TellsRightly, AreOfTasks, exits_in_place, ExitsAreWalks};
ghost use Rattle.el_design.specs.Sound.{IsSound};
ghost use Rattle.el_design.specs.Fits.{IsSoundText};
ghost use Rattle.el_design.specs.Loops.{told_of};
ghost use Rattle.el_design.specs.Lengths.{NoneSpins, whole_of, StepsGoDown, LengthsUnfold, LengthsBoundWalks, LengthsAreOfExits};

/// Where no task or function leads back to itself, a walk without a clock wait leads from a statement's start past its end, or to a `disable`
/// of a mark that is open round it, exactly where the exits by its structure say so.
pub fn exits_are_walks()
    ensures { (d : Flat) → IsFinite d → (told : Statement → Told) → (tasks : TaskExits) → AreOfTasks d told tasks → (marks : List ℕ) → (s : Statement) → TellsRightly d told s → ExitsAreWalks d told tasks marks s }
{}

/// Where no task leads back to itself, the exits that enables have with the bodies of tasks in place are those of the bodies,
/// and so are the lengths.
pub fn exits_unfold()
    ensures exits { (d : Flat) → IsFinite d → (told : Statement → Told) → AreOfTasks d told (exits_in_place d told) }
    ensures lengths { (d : Flat) → IsFinite d → (told : Statement → Told) → (waits : Option ℕ) → LengthsUnfold d told waits }
{}

/// Where no task or function leads back to itself and no loop spins, a statement has a walk out by an exit exactly where it has a
/// length for that exit, in steps of walks, and no such walk is longer; nor is one to a clock wait longer than the length for waits.
/// Each step of a walk, from each stack whose work stands in the statement in place, lowers the number that the stack has by its
/// structure. And what lies ahead of an exit that a statement hasn't
/// doesn't matter for its length.
pub fn lengths_bound_walks()
    ensures bound { (d : Flat) → IsFinite d → (told : Statement → Told) → (marks : List ℕ) → (s : Statement) → TellsRightly d told s → NoneSpins d marks s → LengthsBoundWalks d told marks s }
    ensures down { (d : Flat) → IsFinite d → (told : Statement → Told) → (marks : List ℕ) → (s : Statement) → TellsRightly d told s → NoneSpins d marks s → StepsGoDown d told marks s }
    ensures exits { (d : Flat) → (told : Statement → Told) → (marks : List ℕ) → (s : Statement) → LengthsAreOfExits d told marks s }
{}

/// Where no rule of a pass before the one on sizes is broken, no loop of a process spins; so in a sound design the walks from the start of
/// each process are bounded by its lengths, and each step of a walk, also behind a clock wait, lowers the number that the walk's stack has,
/// where the next stack has one.
pub fn loops_wait()
    ensures spins { (d : Flat) → IsCleanBefore d 13 → (p : ℕ) → (process : FlatProc) → slice_get d.procs p ≡ Some process → NoneSpins d [] (whole_of process) }
    ensures bound { (d : Flat) → IsSound d → IsCleanBefore d 13 → (p : ℕ) → (process : FlatProc) → slice_get d.procs p ≡ Some process → LengthsBoundWalks d (told_of d) [] (whole_of process) }
    ensures down { (d : Flat) → IsSound d → IsCleanBefore d 13 → (p : ℕ) → (process : FlatProc) → slice_get d.procs p ≡ Some process → StepsGoDown d (told_of d) [] (whole_of process) }
{}

/// What is told of a `for` by its text, and where it is counted by running it on its variable alone, is so wherever a sound statement
/// has it in place, in a sound design in which no task or function leads back to itself.
pub fn loops_are_told()
    ensures { (d : Flat) → IsSound d → IsFinite d → (s : Statement) → IsSoundText d s → TellsRightly d (told_of d) s }
{}
