//! Reports to a finder.
ghost use Rattle.std.specs.Prelude.{◌≡◌, fold};
ghost use Rattle.xt_base.specs.First.{sooner};
ghost use Rattle.ck_call.specs.inner.Breaks.{only_if};

use xt_base::{Finder, Place, Refusal, Rule};

/// Takes the break of a rule at a place, if there is one.
pub(crate) fn report_if(finder: &mut Finder, broken: bool, rule: u16, at: Place)
    ensures { finder.new.first ≡ fold sooner finder.old.first (only_if broken rule at) }
{
    if broken {
        finder.report(Refusal {
            rule: Rule(rule),
            place: at,
        });
    }
}
