//! Laws of the definitions, each the contract of a function that does nothing.
//! A checked design is one that is sound and breaks no rule, with an order of its nets.
ghost use Rattle.xt_bits.specs.Word.{Word};
ghost use Rattle.el_design.specs.Plain.{Statement, Flat};
ghost use Rattle.el_design.specs.Store.{Store};
ghost use Rattle.std.specs.Prelude.{List, ℕ};
ghost use Rattle.el_design.specs.Checked.{IsChecked};
ghost use Rattle.el_design.specs.Rules.{IsCleanBefore};
ghost use Rattle.el_design.specs.Value.{Scene};
ghost use Rattle.el_design.specs.Stack.{Work};
ghost use Rattle.el_design.specs.Act.{Process};
ghost use Rattle.el_design.specs.Queue.{Config};
ghost use Rattle.el_design.specs.Bodies.{BodyRuns, FunctionsEnd};
ghost use Rattle.el_design.specs.Places.{WalksInPlace};
ghost use Rattle.el_design.specs.Sound.{IsSound};
ghost use Rattle.el_design.specs.Laws.{ValuesFit, BodiesFit, StartFits, NextEdgeFits, EventsFit, StacksStayLow, EveryOrder, StacksSettle, ProcessesRun, EventsAreListed, EventsTell, EveryEdgeEnds, LoopsCount, SizesAreOne, AtMostUEvents, AtMostMaxEvents, EveryStimulusRuns};

/// Steps that are no events lead from each stack to the one that `settle` gives. It is still, or has on top a `forever` of nothing.
/// No such step changes what `settle` gives.
pub fn stacks_settle()
    ensures { (k : List Work) → StacksSettle k }
{}

/// A process has an event exactly where `can_run` holds of it, which looks at its stack and replies alone. One whose stack is still, with no arm
/// of a `case` on top, has one exactly where it is neither waiting, nor ended, nor at a call for which no reply is left.
pub fn processes_run()
    ensures { (d : Flat) → (s : Scene) → (p : Process) → ProcessesRun d s p }
{}

/// The events that may be taken are, in this order, by number: one of each process that has one; one of each net whose value differs from
/// the one that it takes; and, where there is none of these and no process is at a call for which no reply is left, the oldest update
/// of each process that has one.
pub fn events_are_listed()
    ensures { (d : Flat) → (c : Config) → EventsAreListed d c }
{}

/// Each event that may be taken tells something; and one of a process tells something exactly where it may be taken.
pub fn events_tell()
    ensures { (d : Flat) → (c : Config) → EventsTell d c }
{}

/// Where the body of a function ends, the events of a stack with it come to its end, and leave the store that it leaves when it is run by its structure.
pub fn bodies_run()
    ensures { (d : Flat) → (call : ℕ → List Word → Word) → (s : Statement) → (k : List Work) → (store : Store) → BodyRuns d call s k store }
{}

/// In a checked design every function's body ends, whatever its arguments.
pub fn functions_end()
    ensures { (d : Flat) → (order : List ℕ) → IsChecked d order → FunctionsEnd d }
{}

/// Each statement on a stack that a walk from a statement comes to stands in that statement in place, with those marks open that are open round the walk
/// or in the stack below it.
pub fn walks_in_place()
    ensures { (d : Flat) → (marks : List ℕ) → (s : Statement) → (k : List Work) → WalksInPlace d marks s k }
{}

/// In a checked design every edge of every run ends, whatever events are taken: no sequence of events is longer than some number,
/// one that no event can follow came to rest or starved, and there is one that did.
pub fn every_edge_ends()
    ensures { (d : Flat) → (order : List ℕ) → IsChecked d order → EveryEdgeEnds d }
{}

/// Where no rule of a pass before the one on sizes is broken, there is a way of counting the loops' turns that counts rightly in `U`, and one in `S`.
pub fn loops_count()
    ensures { (d : Flat) → IsCleanBefore d 13 → LoopsCount d }
{}

/// Where no rule of a pass before the one on sizes is broken, any two ways of counting the loops' turns that both count rightly
/// give the same `U` of each process, the same `S`, and the same sum over nets of their expressions' sizes, functions in place.
pub fn sizes_are_one()
    ensures { (d : Flat) → IsCleanBefore d 13 → SizesAreOne d }
{}

/// In a checked design no process has more than `U` events in an edge of a run, updates not counted, whatever events are taken
/// and whichever way of counting the loops' turns is taken that counts rightly; nor more than `U` would be with each loop counted
/// as often as an unrolled one may count.
pub fn at_most_u_events()
    ensures counted { (d : Flat) → (order : List ℕ) → IsChecked d order → AtMostUEvents d }
    ensures every_loop { (d : Flat) → (order : List ℕ) → IsChecked d order → AtMostMaxEvents d }
{}

/// A checked design has a run for each stimulus that fits.
pub fn every_stimulus_runs()
    ensures { (d : Flat) → (order : List ℕ) → IsChecked d order → EveryStimulusRuns d }
{}

/// All runs of a checked design under one stimulus have one trace, whatever events are taken.
pub fn every_order()
    ensures { (d : Flat) → (order : List ℕ) → IsChecked d order → EveryOrder d }
{}

/// In a sound design each well made expression has a word of its node's width, wherever the store and the values of the nets fit the design.
pub fn values_fit()
    ensures { (d : Flat) → IsSound d → ValuesFit d }
{}

/// In a sound design a statement of a function's body leaves a store that fits the design, where it finds one.
pub fn bodies_fit()
    ensures { (d : Flat) → IsSound d → BodiesFit d }
{}

/// The states of a run of a sound design fit it: each variable has all its words, each net its value, of their widths, and each stack is of sound statements.
/// The start edge begins so, each event keeps it, and the next edge begins so again.
pub fn states_fit()
    ensures start { (d : Flat) → IsSound d → StartFits d }
    ensures event { (d : Flat) → IsSound d → EventsFit d }
    ensures next_edge { (d : Flat) → IsSound d → NextEdgeFits d }
{}

/// In a checked design no stack of a process has more pieces of work, in any run, than its statement puts on it by structure, with the bodies of
/// tasks in place.
pub fn stacks_stay_low()
    ensures { (d : Flat) → (order : List ℕ) → IsChecked d order → StacksStayLow d }
{}
