//! For each rule of refusal on loops and sizes a design that breaks it on a line, and a neighbour that doesn't, each the contract of a
//! function that does nothing.
ghost use Rattle.el_design.specs.Plain.{Null};
ghost use Rattle.el_design.specs.Rules.{IsTooLarge, NestsTooDeep, SpinsAt, TurnsTooOften};
ghost use Rattle.el_witness.specs.RuleRows.{Row, wait};
ghost use Rattle.el_witness.specs.LoopRows.{adds_twice, calls_chain, doubles_in_net, enables_chain, enables_twice, loops_while};
ghost use Rattle.el_witness.specs.LoopRows.{loops_inside, tests_inside};
ghost use Rattle.el_witness.specs.LoopRows.{never_ends, takes, waits_alone, waits_beside, waits_if};

/// An `always` with a branch that doesn't wait is refused where it stands, and a loop that doesn't wait at the loop, in a function too
/// (rule 61); their neighbours aren't.
pub fn walks_without_waits()
    ensures branch_without_wait { Row SpinsAt (waits_if Null) 4 (waits_if (wait 8)) }
    ensures function_without_wait { Row SpinsAt loops_inside 6 tests_inside }
    ensures loop_without_wait { Row SpinsAt (loops_while Null) 6 (loops_while (wait 9)) }
{}

/// A loop of 1,025 turns without a wait is refused at the loop, and so is one that never ends (rule 83); one of 1,024 turns and one
/// that waits are not.
pub fn turns_of_loops()
    ensures turns_1025 { Row TurnsTooOften (takes 1025) 5 (takes 1024) }
    ensures never_fails { Row TurnsTooOften (never_ends Null) 5 (never_ends (wait 8)) }
{}

/// A loop whose turns count more than 20,000 and 512 waits are refused at the process, two processes of 500 waits and a net over 17
/// functions that double at the module's head (rule 84); their neighbours aren't.
pub fn sizes_of_designs()
    ensures turns_count { Row IsTooLarge (adds_twice 1000) 4 (adds_twice 900) }
    ensures waits_512 { Row IsTooLarge (waits_alone 512) 3 (waits_alone 511) }
    ensures products_500 { Row IsTooLarge (waits_beside 500) 1 (waits_beside 499) }
    ensures functions_17 { Row IsTooLarge (doubles_in_net 16) 1 (doubles_in_net 15) }
{}

/// A chain of 65 tasks and 13 tasks that double are refused at the process, and a chain of 65 functions at the net (rule 82); their
/// neighbours, of one less, aren't.
pub fn nesting_of_routines()
    ensures tasks_65 { Row NestsTooDeep (enables_chain 64) 3 (enables_chain 63) }
    ensures tasks_double { Row NestsTooDeep (enables_twice 12) 3 (enables_twice 11) }
    ensures functions_65 { Row NestsTooDeep (calls_chain 64) 4 (calls_chain 63) }
{}
