//! A design that is checked and runs, each the contract of a function that does nothing.
ghost use Rattle.std.specs.Prelude.{[], ◌∷◌};
ghost use Rattle.el_design.specs.Checked.{IsChecked};
ghost use Rattle.el_design.specs.Run.{IsStimulus};
ghost use Rattle.el_witness.specs.LoopRows.{takes};
ghost use Rattle.el_witness.specs.Meter.{meter};
ghost use Rattle.el_witness.specs.MeterRun.{HasTrace, HasNoOther, EdgeTells, given, seen, after_start, after_255, after_5, start_tells, edge_255_tells, edge_5_tells, last_tells};

/// A design with a task that waits, a `disable` across two enables, a counted loop, an import with an output, a memory, a function, and
/// two processes over a net is checked: it is sound, breaks no rule, and its nets are in order.
pub fn meter_is_checked()
    ensures { IsChecked meter (0 ∷ 1 ∷ 2 ∷ []) }
{}

/// Under a stimulus of four edges and one reply, which fits, that design has a run whose trace is this, and no other trace.
pub fn meter_runs()
    ensures fits { IsStimulus meter given }
    ensures trace { HasTrace meter given seen }
    ensures no_other { HasNoOther meter given seen }
{}

/// What the events of each edge of that run tell, where the first that may be taken is taken each time: of a process's event what it
/// did and at which line, of a net's the net, of an update its process.
pub fn meter_tells()
    ensures start { EdgeTells meter given after_start start_tells }
    ensures edge_255 { EdgeTells meter given after_255 edge_255_tells }
    ensures edge_5 { EdgeTells meter given after_5 edge_5_tells }
    ensures last { EdgeTells meter given [] last_tells }
{}

/// A design whose one loop takes 1,024 turns without a wait, as many as a loop may take, is checked.
pub fn longest_loop_is_checked()
    ensures { IsChecked (takes 1024) [] }
{}
