//! Laws of runs, each the contract of a function that does nothing: choosers and their runs, nets settle, and an event
//! leaves as it was what isn't its process's own.
ghost use Rattle.std.specs.Prelude.{List, ℕ};
ghost use Rattle.xt_bits.specs.Stimulus.{Stimulus};
ghost use Rattle.el_design.specs.Plain.{Flat};
ghost use Rattle.el_design.specs.Queue.{Event};
ghost use Rattle.el_design.specs.Run.{IsStimulus, First, Picked};
ghost use Rattle.el_design.specs.Rules.{IsOrder};
ghost use Rattle.el_design.specs.Checked.{IsChecked};
ghost use Rattle.el_design.specs.RunLaws.{Chooser, TakesAt, passed_by, HasOneRun, PassesOne, RunsAmongAll, HaveOneTrace, NetsSettle, SettledNetsAreOne, NetEventsSettle, FittingNetsSettle, EventsKeep};

/// A stimulus that fits a checked design has just one run, with one trace, under each chooser that passes just one event of each list
/// that has some: the one that takes the first event that may be taken, the one that takes the event at the place that a pick gives,
/// and each that takes the event at the place that a function gives.
pub fn has_one_run()
    ensures first { (d : Flat) → (order : List ℕ) → IsChecked d order → (x : Stimulus) → IsStimulus d x → HasOneRun d First x }
    ensures picked { (d : Flat) → (order : List ℕ) → IsChecked d order → (pick : ℕ) → (x : Stimulus) → IsStimulus d x → HasOneRun d (Picked pick) x }
    ensures each { (d : Flat) → (order : List ℕ) → IsChecked d order → (c : Chooser) → PassesOne c → (x : Stimulus) → IsStimulus d x → HasOneRun d (passed_by c) x }
    ensures at_a_place { (place : ℕ → List Event → ℕ) → PassesOne (TakesAt place) }
{}

/// What runs under a chooser is a run; and all runs of a checked design under one stimulus have one trace, each under a chooser of its own.
pub fn choosers_agree()
    ensures runs { (d : Flat) → (c : Chooser) → RunsAmongAll d c }
    ensures one_trace { (d : Flat) → (order : List ℕ) → IsChecked d order → (a : Chooser) → (b : Chooser) → HaveOneTrace d a b }
{}

/// Where nets have an order, each row and store has settled nets, and no others; and events of nets alone lead to them, from nets that
/// had settled before variables changed, and from each state that fits the design.
pub fn nets_settle()
    ensures settled { (d : Flat) → (order : List ℕ) → IsOrder d order → NetsSettle d }
    ensures one { (d : Flat) → (order : List ℕ) → IsOrder d order → SettledNetsAreOne d }
    ensures events { (d : Flat) → (order : List ℕ) → IsOrder d order → NetEventsSettle d }
    ensures fitting { (d : Flat) → (order : List ℕ) → IsOrder d order → FittingNetsSettle d }
{}

/// In a run of a checked design an event of a process changes no other process and no variable that this process doesn't write by blocking;
/// an update changes none that the process doesn't write by nonblocking; and an event of a net changes that net alone.
pub fn events_keep()
    ensures { (d : Flat) → (order : List ℕ) → IsChecked d order → EventsKeep d }
{}
