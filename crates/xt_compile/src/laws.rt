//! A law of the definition of hardware, the contract of a function that does nothing.
ghost use Rattle.el_design.specs.Plain.{Flat};
ghost use Rattle.el_design.specs.Rules.{IsFinite};
ghost use Rattle.xt_compile.specs.Hardware.{CallsAreListed};

/// In a design in which no task or function leads back to itself, the imports for which a process has pins are those that it calls
/// in place.
pub fn calls_are_listed()
    ensures { (d : Flat) → IsFinite d → CallsAreListed d }
{}
