//! The first break of those that a pass finds.
ghost use Rattle.std.specs.Prelude.{◌≡◌, [], List, Option, Some, None, ℕ, Contains};
ghost use Rattle.xt_base.specs.First.{stands_before, sooner, first, IsFirst, IsFound};
ghost use Rattle.xt_base.specs.declared.refusals.Refusal.{Refusal};

use crate::refusals::Refusal;

/// Whether one break stands before another: by instance, then by stretch of the text and line, then by the rule's number.
pub fn stands_before(one: &Refusal, other: &Refusal) -> bool
    ensures { result ≡ stands_before one.now other.now }
{
    let (here, there) = (one.place, other.place);
    if here.instance != there.instance {
        return here.instance < there.instance;
    }
    if here.file != there.file {
        return here.file < there.file;
    }
    if here.line != there.line {
        return here.line < there.line;
    }
    one.rule.0 < other.rule.0
}

/// Collects breaks in any order, and keeps the one that stands first.
#[derive(Clone, Copy, Debug, PartialEq, Eq)]
pub struct Finder {
    pub first: Option<Refusal>,
}

impl Finder {
    /// Nothing found so far.
    pub fn new() -> Finder
        ensures { result.first ≡ None }
    {
        Finder { first: None }
    }

    /// Takes a further break.
    pub fn report(&mut self, found: Refusal)
        ensures { self.new.first ≡ sooner self.old.first found }
    {
        let stays = match &self.first {
            Some(first) => !stands_before(&found, first),
            None => false,
        };
        if !stays {
            self.first = Some(found);
        }
    }
}

/// The first of a list of breaks is the one that no other of the list stands before, and there is at most one such break.
#[tactic(auto, using(crate::proofs::First::first_is))]
pub fn first_is_one()
    ensures found { (breaks : List Refusal) → IsFound breaks (first breaks) }
    ensures one { (breaks : List Refusal) → (a b : Refusal) → IsFirst (Contains breaks) a → IsFirst (Contains breaks) b → a ≡ b }
{}
