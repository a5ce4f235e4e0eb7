//! Laws on the places along an expanded text.
#![tactic(auto)]

ghost use Rattle.std.specs.Prelude.{◌≡◌, ◌⊎◌, ℕ, List, true, false, length, nat_lt};
ghost use Rattle.xt_base.specs.First.{stands_before};
ghost use Rattle.xt_base.specs.Outside.{Held};
ghost use Rattle.xt_base.specs.declared.refusals.Place.{Place};
ghost use Rattle.xt_base.specs.declared.refusals.Refusal.{Refusal};
ghost use Rattle.vl_pre.specs.Faults.{IsText};
ghost use Rattle.vl_pre.specs.Files.{source_expansion};
ghost use Rattle.vl_pre.specs.Text.{Expanded, begun, with_lines};
ghost use Rattle.vl_lex.specs.Tokens.{AreSpans};
ghost use Rattle.vl_lex.specs.Views.{places_of};
ghost use Rattle.vl_lex.specs.declared.kinds.Token.{Token};
ghost use Rattle.vl_places.specs.Order.{IsNotBehind, IsInOrder, NeverFall};

/// The stretch and line of a byte never fall along the text that a source is expanded to, nor along the text of one file
/// without directives; so those of tokens don't fall from one to the next.
pub fn places_never_fall()
    ensures expanded { (h : Held) (file : List ℕ) (defines : List (List ℕ × List ℕ)) (text : Expanded) → IsText text (source_expansion h file defines) → IsInOrder text }
    ensures plain { (name bytes : List ℕ) → IsInOrder (with_lines (begun name) 1 bytes) }
    ensures tokens { (text : Expanded) (ts : List Token) → IsInOrder text → AreSpans ts (length text.bytes) → NeverFall (places_of text ts) }
{}

/// Of two places of which neither is behind the other, the stretch and the line are the same.
///
/// So of two breaks in one instance that with the earlier place stands first, unless both have one place; there the lower
/// rule does.
pub fn breaks_follow_places()
    ensures same { (p q : Place) → IsNotBehind p q → IsNotBehind q p → (p.file ≡ q.file) × (p.line ≡ q.line) }
    ensures breaks { (a b : Refusal) → a.place.instance ≡ b.place.instance → IsNotBehind a.place b.place → (a.place ≡ b.place) ⊎ ((stands_before a b ≡ true) × (stands_before b a ≡ false)) }
    ensures rules { (a b : Refusal) → a.place ≡ b.place → stands_before a b ≡ nat_lt a.rule.0 b.rule.0 }
{}
