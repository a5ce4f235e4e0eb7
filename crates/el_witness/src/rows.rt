//! Rows of operators and of targets with their values, each the contract of a function that does nothing.
ghost use Rattle.el_design.specs.Sound.{IsStatement};
ghost use Rattle.el_witness.specs.Bench.{AreCopied, AreRight, AreStored, bench};
ghost use Rattle.el_witness.specs.Operators.{mentioned, arithmetic, comparisons, logical, bitwise, reductions, shifts, put_together};
ghost use Rattle.el_witness.specs.Operators.{names};
ghost use Rattle.el_witness.specs.Targets.{copied, targets, wide_loop};

/// Each operator, select, concatenation, replication and call has the value that the standard gives or its words ask for, and each of
/// these expressions is well made.
pub fn operators_are_right()
    ensures mentioned { AreRight mentioned }
    ensures arithmetic { AreRight arithmetic }
    ensures comparisons { AreRight comparisons }
    ensures logical { AreRight logical }
    ensures bitwise { AreRight bitwise }
    ensures reductions { AreRight reductions }
    ensures shifts { AreRight shifts }
    ensures put_together { AreRight put_together }
    ensures names { AreRight names }
{}

/// Each form of target stores what the standard's words ask for, and each of these targets is one of a sound design; and an output is
/// copied by its own width and sign. A `for` may store what is wider than its variable.
pub fn targets_are_right()
    ensures stored { AreStored targets }
    ensures copied { AreCopied copied }
    ensures wide_loop { IsStatement bench wide_loop }
{}
