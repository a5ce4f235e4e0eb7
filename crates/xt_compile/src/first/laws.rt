//! A law of the form, the contract of a function that does nothing.
ghost use Rattle.std.specs.Prelude.{◌≡◌, ◌↔◌, true, false, length};
ghost use Rattle.xt_base.specs.declared.refusals.Place.{Place};
ghost use Rattle.el_design.specs.Checked.{IsChecked};
ghost use Rattle.el_design.specs.Queue.{numbers};
ghost use Rattle.el_design.specs.Rules.{IsCleanBefore, SpinsAt};
ghost use Rattle.el_design.specs.View.{flat_of};
ghost use Rattle.xt_compile.specs.declared.first.source.Source.{Source};
ghost use Rattle.xt_compile.specs.first.Flatten.{design_of};
ghost use Rattle.xt_compile.specs.first.Source.{IsSource, waits};

/// The design of a source of the form is checked where its process waits, and its nets are in order as they stand. A turn
/// without a wait is in it where the process doesn't wait, at the place of the process, and nowhere else; no rule of an
/// earlier pass is broken.
pub fn sources_are_checked()
    ensures checked { (s : Source) → IsSource s → waits s ≡ true → IsChecked (flat_of (design_of s)) (numbers (length (design_of s).nets)) }
    ensures spins { (s : Source) → (at : Place) → SpinsAt (flat_of (design_of s)) at ↔ ((waits s ≡ false) × (at ≡ s.process)) }
    ensures clean_before { (s : Source) → IsSource s → IsCleanBefore (flat_of (design_of s)) 12 }
{}
