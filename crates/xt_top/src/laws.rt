//! What the definition of answers comes to.
ghost use Rattle.std.specs.Prelude.{◌≡◌, ◌⊎◌, ℕ, List, [], Some};
ghost use Rattle.xt_base.specs.Outside.{Held};
ghost use Rattle.xt_base.specs.declared.refusals.Refusal.{Refusal};
ghost use Rattle.el_design.specs.declared.designs.Design.{Design};
ghost use Rattle.xt_top.specs.Answer.{Answers, IsReady};
ghost use Rattle.xt_top.specs.Breaks.{IsBroken};
ghost use Rattle.xt_top.specs.Command.{Request, SourceWords, request_of};
ghost use Rattle.xt_top.specs.Ends.{IsRun, IsWhole, NoFault, Outside};
ghost use Rattle.xt_top.specs.Sources.{IsSourceOf};
ghost use Rattle.xt_top.specs.declared.status.Status.{Status};
ghost use Rattle.xt_top.specs.declared.status.Status.TheVariants.{Done, Memory};

/// Over files that are held words have an answer without a text, or ask for what can be done: their source breaks no rule.
pub fn some_answer()
    ensures { (words : List (List ℕ)) (h : Held) →
        ((status : Status) × (note : List ℕ) × Answers words (Some h) status note []) ⊎ ((r : Request) × (request_of words ≡ Some r) × IsReady h r) }
{}

/// Over files that are held words have one answer: its status and its note are one, what can be done is answered by Done
/// alone, a source has one design, and the first rule that it breaks is one, with its place and its file.
pub fn one_answer()
    ensures one { (words : List (List ℕ)) (h : Held) (status other : Status) (note line text bytes : List ℕ) →
        Answers words (Some h) status note text → Answers words (Some h) other line bytes → (status ≡ other) × (note ≡ line) }
    ensures ready { (words : List (List ℕ)) (h : Held) (r : Request) → request_of words ≡ Some r → IsReady h r →
        (status : Status) (note text : List ℕ) → Answers words (Some h) status note text → status ≡ Done }
    ensures design { (h : Held) (s : SourceWords) (d e : Design) → IsSourceOf h s d → IsSourceOf h s e → d ≡ e }
    ensures broken { (h : Held) (r : Request) (a b : Refusal) (file other : List ℕ) →
        IsBroken h r a file → IsBroken h r b other → (a ≡ b) × (file ≡ other) }
{}

/// A run in which no fault is counted answers Memory, or its answer stands whole on the streams.
pub fn whole_answer()
    ensures { (words : List (List ℕ)) (old new : Outside) (status : Status) →
        IsRun words old new status → NoFault old new → (status ≡ Memory) ⊎ IsWhole words old new status }
{}
