//! Laws of counted loops, each the contract of a function that does nothing: the values that a loop's variable takes, and whether it ends.
ghost use Rattle.std.specs.Prelude.{ℕ};
ghost use Rattle.xt_base.specs.declared.refusals.Place.{Place};
ghost use Rattle.el_design.specs.Plain.{Expr, Statement, For, Flat};
ghost use Rattle.el_design.specs.Sound.{IsStatement};
ghost use Rattle.el_design.specs.Turns.{IsCounted};
ghost use Rattle.el_design.specs.Progression.{TakesAllAlike};
ghost use Rattle.el_design.specs.CountedLoops.{EndsByValues};

/// A variable of w bits to which a step is added again and again takes each value that leaves the same as its first value when divided by
/// the lowest bit that is set in the step, and no other.
pub fn values_are_alike()
    ensures { (w : ℕ) → (first : ℕ) → (step : ℕ) → TakesAllAlike w first step }
{}

/// A counted `for` asks its test for just those values. It is endless where the test holds of all of them, and ends where it fails of one.
pub fn counted_loops_end()
    ensures { (d : Flat) → (at : Place) → (v : ℕ) → (first : Expr) → (test : Expr) → (next : Expr) → (body : Statement) → IsStatement d (For at v first test next body) → IsCounted d v first test next body → EndsByValues d at v first test next body }
{}
