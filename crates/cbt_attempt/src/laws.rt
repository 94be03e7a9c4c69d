//! What the own writes that an attempt has noted are on its client's whole own list, newest call
//! first: as much as an abort needs at any time, and as much as a commit needs while all goes well.
//! Each function does nothing: what it ensures is the law. They take no memory.
//!
//! An attempt `a` has its entry in record `r`, `own` is what it has noted of each document, and `l` is
//! the list before the call `m`.

ghost use Rattle.std.specs.Prelude.{◌≡◌, ℕ, true, List, ◌∷◌, Option, Some, None};
ghost use Rattle.cbt_model.specs.History.{is_done};
ghost use Rattle.cbt_model.specs.declared.documents.Stage.{Stage};
ghost use Rattle.cbt_model.specs.declared.entries.Lists.{Lists};
ghost use Rattle.cbt_model.specs.declared.events.Made.{Made};
ghost use Rattle.cbt_model.specs.declared.steps.Expect.{Expect};
ghost use Rattle.cbt_model.specs.declared.steps.Reply.TheVariants as reply;
ghost use Rattle.cbt_model.specs.declared.steps.Step.TheVariants as step;
ghost use Rattle.cbt_book.specs.Licence.{CommitsUnsettled, MayAbort, MayCommit};
ghost use Rattle.cbt_book.specs.Outcomes.{is_refusal};
ghost use Rattle.cbt_book.specs.OwnLists.{Once};
ghost use Rattle.cbt_book.specs.Shown.{aborts, AddsEntry};
ghost use Rattle.cbt_attempt.specs.Notes.{stage_of, HasStaged, IsNoStaging, IsQuiet, NotesAll, NotesWrites};
ghost use Rattle.cbt_attempt.specs.OwnWrites.{NamesByKind, SetsNote};
ghost use Rattle.cbt_attempt.specs.declared.own.Own.{Own};

/// An attempt that has noted nothing, for which nothing was staged and whose entry was not added, has
/// noted all, and so it has once its entry is there.
pub fn notes_begin()
    ensures writes { (a r : ℕ) (own : List ℕ → Option Own) (l : List Made) → ((d : List ℕ) → own d ≡ None) → ¬ HasStaged a l
        → NotesWrites a r own l }
    ensures all { (a r : ℕ) (own : List ℕ → Option Own) (l : List Made) → ((d : List ℕ) → own d ≡ None) → ¬ HasStaged a l
        → ¬ Once (λ m _. AddsEntry r a m) l → NotesAll a r own l }
    ensures entered { (a r : ℕ) (own : List ℕ → Option Own) (l : List Made) (m : Made) → AddsEntry r a m → ((d : List ℕ) → own d ≡ None)
        → ¬ HasStaged a l → NotesAll a r own (m ∷ l) }
{}

/// What is noted stays right over a call that writes nothing for the attempt, as one that adds its
/// entry. What an abort needs stays right over a refused staging too, and over any unstick.
pub fn notes_stay()
    ensures writes { (a r : ℕ) (own : List ℕ → Option Own) (l : List Made) (m : Made) → IsNoStaging a m.step → NotesWrites a r own l
        → NotesWrites a r own (m ∷ l) }
    ensures refused { (a r : ℕ) (own : List ℕ → Option Own) (l : List Made) (m : Made) → is_refusal m.answer.reply ≡ true
        → NotesWrites a r own l → NotesWrites a r own (m ∷ l) }
    ensures all { (a r : ℕ) (own : List ℕ → Option Own) (l : List Made) (m : Made) → IsQuiet a m.step → NotesAll a r own l
        → NotesAll a r own (m ∷ l) }
{}

/// A staging that was answered Done is noted with its stamp, and one that failed without, since nobody
/// knows whether it took effect; without a stamp the note is right whatever the answer was.
pub fn notes_follow_stagings()
    ensures writes_done { (a r x : ℕ) (own new : List ℕ → Option Own) (l : List Made) (m : Made) (d : List ℕ) (e : Expect) (w : Own)
        → m.step ≡ step.Stage d e (stage_of a r w) → m.answer.reply ≡ reply.Done x → w.cas ≡ Some x → SetsNote own new d (Some w)
        → NotesWrites a r own l → NotesWrites a r new (m ∷ l) }
    ensures all_done { (a r x : ℕ) (own new : List ℕ → Option Own) (l : List Made) (m : Made) (d : List ℕ) (e : Expect) (w : Own)
        → m.step ≡ step.Stage d e (stage_of a r w) → m.answer.reply ≡ reply.Done x → w.cas ≡ Some x → SetsNote own new d (Some w)
        → NotesAll a r own l → NotesAll a r new (m ∷ l) }
    ensures writes_failed { (a r : ℕ) (own new : List ℕ → Option Own) (l : List Made) (m : Made) (d : List ℕ) (e : Expect) (stage : Stage) (w : Own)
        → m.step ≡ step.Stage d e stage → w.cas ≡ None → SetsNote own new d (Some w) → NotesWrites a r own l → NotesWrites a r new (m ∷ l) }
{}

/// An own write that was taken back is noted no more, and one whose unstick failed is noted without a
/// stamp.
pub fn notes_follow_unsticks()
    ensures writes_done { (a r x : ℕ) (own new : List ℕ → Option Own) (l : List Made) (m : Made) (d : List ℕ)
        → m.step ≡ step.Unstick d x → is_done m.answer.reply ≡ true → SetsNote own new d None → NotesWrites a r own l → NotesWrites a r new (m ∷ l) }
    ensures all_done { (a r x : ℕ) (own new : List ℕ → Option Own) (l : List Made) (m : Made) (d : List ℕ) (w : Own)
        → own d ≡ Some w → w.cas ≡ Some x → m.step ≡ step.Unstick d x → is_done m.answer.reply ≡ true → SetsNote own new d None
        → NotesAll a r own l → NotesAll a r new (m ∷ l) }
    ensures writes_failed { (a r x : ℕ) (own new : List ℕ → Option Own) (l : List Made) (m : Made) (d : List ℕ) (w : Own)
        → m.step ≡ step.Unstick d x → w.cas ≡ None → SetsNote own new d (Some w) → NotesWrites a r own l → NotesWrites a r new (m ∷ l) }
{}

/// An attempt whose entry was added, that was not aborted and whose commits are unsettled, may be
/// committed with the lists of its own writes, where all is noted.
pub fn may_commit()
    ensures { (a r : ℕ) (own : List ℕ → Option Own) (l : List Made) (lists : Lists) → NotesAll a r own l → Once (λ m _. AddsEntry r a m) l
        → ¬ Once (λ m _. aborts m.step ≡ Some a) l → NamesByKind own lists → CommitsUnsettled l r a → MayCommit l r a lists }
{}

/// An attempt whose entry was sent, that was not aborted and whose commits are unsettled, may be
/// aborted with the lists of its own writes.
pub fn may_abort()
    ensures { (a r : ℕ) (own : List ℕ → Option Own) (l : List Made) (lists : Lists) → NotesWrites a r own l
        → Once (λ m _. (exp : ℕ) × (m.step ≡ step.AddEntry r a exp)) l → ¬ Once (λ m _. aborts m.step ≡ Some a) l
        → NamesByKind own lists → CommitsUnsettled l r a → MayAbort l r a lists }
{}
