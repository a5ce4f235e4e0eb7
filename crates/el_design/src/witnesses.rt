//! Witnesses of the definitions, each the contract of a function that does nothing: designs that are checked.
ghost use Rattle.std.specs.Prelude.{[], ◌∷◌};
ghost use Rattle.el_design.specs.Checked.{IsChecked};
ghost use Rattle.el_design.specs.Witnesses.{two_waits};

/// A design whose process waits twice and assigns after each wait is checked.
pub fn designs_are_checked()
    ensures two_waits { IsChecked two_waits (0 ∷ 1 ∷ []) }
{}
