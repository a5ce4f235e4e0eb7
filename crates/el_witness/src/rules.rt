//! For each rule of refusal a design that breaks it on a line, and a neighbour that doesn't, each the contract of a function that does
//! nothing.
ghost use Rattle.el_design.specs.Plain.{Disable, NetValue, Nowhere, Null, ToVariable};
ghost use Rattle.el_design.specs.Calls.{CallsHostInside, DisablesWrongly, HasMisfit, IsImpure, IsRecursive};
ghost use Rattle.el_design.specs.Rules.{NetsInCircle, ReadAcross, TwoWriters, WrittenBothWays};
ghost use Rattle.el_design.specs.Witnesses.{at};
ghost use Rattle.el_witness.specs.Bench.{u};
ghost use Rattle.el_witness.specs.RuleRows.{Row, assign, assigns, bare_call, beside_block, byte, calls_host, calls_with, copies_all, copies_to};
ghost use Rattle.el_witness.specs.RuleRows.{calls_inside, disables_in_task, enables_inside, names_import, names_net, with_variable};
ghost use Rattle.el_witness.specs.RuleRows.{enable, enables_with, full_call, gives_result, giving, holds_back, host_inside, host_of};
ghost use Rattle.el_witness.specs.RuleRows.{host_to_x, later, leaves_result, names_outside, net_of, over_net, read, reads_across};
ghost use Rattle.el_witness.specs.RuleRows.{reads_early, reads_late, reads_update, sharing, tasks_in_circle, tasks_in_line};
ghost use Rattle.el_witness.specs.RuleRows.{two_functions, two_nets, update_both, void, wait, waits_inside, with_block, write_apart, write_both};
ghost use Rattle.el_witness.specs.RuleRows.{writes_both_ways, writes_one_way};
ghost use Rattle.std.specs.Prelude.{[], ◌∷◌};

/// A function that assigns by `<=`, waits, enables a task, calls the host, names a variable or net of the module or an import, reads its
/// result early, or may leave it unassigned is refused at that statement or at its name (rule 50); its neighbour isn't.
pub fn impure_functions()
    ensures holds_back { Row IsImpure holds_back 7 assigns }
    ensures waits_inside { Row IsImpure waits_inside 7 assigns }
    ensures enables_inside { Row IsImpure enables_inside 7 assigns }
    ensures calls_inside { Row IsImpure calls_inside 7 assigns }
    ensures names_outside { Row IsImpure names_outside 7 assigns }
    ensures names_net { Row IsImpure names_net 7 assigns }
    ensures names_import { Row IsImpure names_import 7 assigns }
    ensures of_the_module { Row IsImpure (with_variable []) 6 (with_variable (3 ∷ [])) }
    ensures reads_early { Row IsImpure reads_early 3 reads_late }
    ensures leaves_result { Row IsImpure leaves_result 3 gives_result }
{}

/// Two tasks that enable each other are refused at both enables, and a function that calls itself at the call (rule 51); their
/// neighbours aren't.
pub fn recursive_routines()
    ensures first_enable { Row IsRecursive tasks_in_circle 3 tasks_in_line }
    ensures second_enable { Row IsRecursive tasks_in_circle 5 tasks_in_line }
    ensures calls_itself { Row IsRecursive (two_functions 1) 7 (two_functions 0) }
{}

/// Too few or too many arguments, an output argument that is missing or no target, a missing and a dropped result are refused at the enable or
/// call, in a statement and in a net (rule 52); their neighbours aren't.
pub fn misfitting_arguments()
    ensures too_few { Row HasMisfit (enables_with []) 7 (enables_with (byte 1 ∷ [])) }
    ensures no_output { Row HasMisfit (copies_all []) 7 (copies_to (ToVariable 0)) }
    ensures no_target { Row HasMisfit (copies_to Nowhere) 7 (copies_to (ToVariable 0)) }
    ensures too_many { Row HasMisfit (calls_host void (host_of (byte 1 ∷ []))) 5 (calls_host void (host_of [])) }
    ensures no_result { Row HasMisfit (calls_host void host_to_x) 5 (calls_host giving host_to_x) }
    ensures result_dropped { Row HasMisfit (calls_host giving (host_of [])) 5 (calls_host void (host_of [])) }
    ensures bare_in_statement { Row HasMisfit (calls_with full_call bare_call) 8 (calls_with full_call full_call) }
    ensures void_in_net { Row HasMisfit (net_of void bare_call) 4 (net_of void (read 0)) }
    ensures import_too_many { Row HasMisfit (net_of giving full_call) 4 (net_of giving bare_call) }
    ensures bare_in_net { Row HasMisfit (calls_with bare_call full_call) 6 (calls_with full_call full_call) }
{}

/// A `disable` in a function, of a block of another process, of a block of a task that nobody enables, and in a task that two
/// processes enable is refused (rule 53); its neighbour isn't.
pub fn wrong_disables()
    ensures in_a_function { Row DisablesWrongly (with_block (Disable (at 7) 0)) 7 (with_block Null) }
    ensures of_other { Row DisablesWrongly (beside_block Null (Disable (at 8) 0)) 8 (beside_block (Disable (at 6) 0) Null) }
    ensures of_none { Row DisablesWrongly (disables_in_task Null) 8 (disables_in_task (enable 7 0)) }
    ensures of_two { Row DisablesWrongly (sharing (enable 9 0)) 5 (sharing (wait 9)) }
{}

/// A call of the host inside an expression is refused at the statement or net (rule 62); its neighbour isn't.
pub fn inner_host_calls()
    ensures in_statement { Row CallsHostInside (calls_host giving host_inside) 5 (calls_host giving host_to_x) }
    ensures in_net { Row CallsHostInside (net_of giving bare_call) 4 (net_of giving (read 0)) }
{}

/// A variable that two processes write is refused at its declaration (rule 70); its neighbour isn't.
pub fn two_writers()
    ensures write_both { Row TwoWriters write_both 2 write_apart }
    ensures update_both { Row TwoWriters update_both 2 write_apart }
{}

/// A variable that one process writes by both kinds of assignment is refused at its declaration (rule 71); its neighbour isn't.
pub fn both_assignments()
    ensures { Row WrittenBothWays writes_both_ways 2 writes_one_way }
{}

/// A variable that one process writes by blocking and another reads, and a net that reaches it and is read, is refused at its
/// declaration (rule 72); its neighbour isn't.
pub fn reads_across_processes()
    ensures reads_across { Row ReadAcross reads_across 2 reads_update }
    ensures reads_over_net { Row ReadAcross (over_net (assign 5 0 (byte 1))) 8 (over_net (later 5 0 (byte 1))) }
{}

/// Nets that depend on themselves are refused at their declarations (rule 73); their neighbours aren't.
pub fn nets_in_circles()
    ensures first_net { Row NetsInCircle (two_nets (NetValue (u 8) 1)) 3 (two_nets (read 0)) }
    ensures second_net { Row NetsInCircle (two_nets (NetValue (u 8) 1)) 4 (two_nets (read 0)) }
{}
