//! Laws of calls and enables, each the contract of a function that does nothing: what stands at one is what its body is.
//! They hold of sound designs in which no task or function leads back to itself.
ghost use Rattle.el_design.specs.Plain.{Flat};
ghost use Rattle.el_design.specs.Sound.{IsSound};
ghost use Rattle.el_design.specs.Rules.{IsFinite};
ghost use Rattle.el_design.specs.CallLaws.{CallsAreBodies, DeepCallsAgree, EnablesCountBodies, CallsCountBodies, EnablesStopInBodies};

/// A call of a function gives what the function's body gives of its arguments, with the calls in the body at their own values.
/// Calls that nest n deep at most give the same, where no chain of n calls begins in the body.
pub fn calls_are_bodies()
    ensures value { (d : Flat) → IsSound d → IsFinite d → CallsAreBodies d }
    ensures depth { (d : Flat) → IsSound d → IsFinite d → DeepCallsAgree d }
{}

/// The size of an enable in place is its own with the size of the task's body, and a call counts the size of the function's body;
/// waits and host calls in an enable are those of the task's body.
pub fn sizes_unfold()
    ensures enables { (d : Flat) → IsSound d → IsFinite d → EnablesCountBodies d }
    ensures calls { (d : Flat) → IsSound d → IsFinite d → CallsCountBodies d }
    ensures stops { (d : Flat) → IsFinite d → EnablesStopInBodies d }
{}
