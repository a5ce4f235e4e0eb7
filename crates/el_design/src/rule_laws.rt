//! Laws of the rules, each the contract of a function that does nothing: which break is named.
ghost use Rattle.std.specs.Prelude.{ℕ};
ghost use Rattle.el_design.specs.Plain.{Flat};
ghost use Rattle.el_design.specs.RuleLaws.{NoneBesides, FirstIsOne, NamedIsOne};

/// Of breaks at most one is the first: of any breaks, of those of a pass, and of those of all passes.
pub fn first_breaks_are_one()
    ensures any { NoneBesides }
    ensures pass { (d : Flat) → (pass : ℕ) → FirstIsOne d pass }
    ensures named { (d : Flat) → NamedIsOne d }
{}
