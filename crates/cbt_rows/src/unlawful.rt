ghost use Rattle.std.specs.Prelude.{Some, []};
ghost use Rattle.cbt_book.specs.declared.operations.OpAnswer.TheVariants as answer;
ghost use Rattle.cbt_book.specs.declared.operations.When.TheVariants as when;
ghost use Rattle.cbt_core.specs.Invariant.{StampsRise, AddedOnce, DecidedOnce, HeldWhilePending, ListedWhenDecided, GoneWhenFinished, ShownStays};
ghost use Rattle.cbt_core.specs.Laws.{NeverBoth, CommitsOnce, DocumentsCommitted, NoUpdateLost, AtMostOnce};
ghost use Rattle.cbt_core.specs.Right.{IsRightWhen, MomentsRise};
ghost use Rattle.cbt_core.specs.Runs.{IsLegalRun};
ghost use Rattle.cbt_core.specs.Walk.{nothing_yet};
ghost use Rattle.cbt_rows.specs.OneReplace as one;
ghost use Rattle.cbt_rows.specs.ReaderBeforeCommit as reader;
ghost use Rattle.cbt_rows.specs.StopAfterCommit as stop;
ghost use Rattle.cbt_rows.specs.Unlawful.{no_docs, one_doc, doc_ahead, entry_again, unstuck_by_another, listed_nowhere, deleted, run_case, book_with, lost_book, tries_book, moments_book};
ghost use Rattle.cbt_rows.specs.Words.{doc_a, span_of};

/// A run is not legal with another opening.
pub fn runs_that_are_not_legal()
    ensures { ¬ IsLegalRun run_case (book_with no_docs deleted []) }
{}

/// An answer is not right that finds a document missing which the committed table has, nor outside its
/// span.
pub fn answers_that_are_not_right()
    ensures found { ¬ IsRightWhen reader.run_case reader.book nothing_yet doc_a (span_of 4 7)
        (answer.DocNotFound (when.At 5)) (Some (when.At 5)) }
    ensures outside { ¬ IsRightWhen reader.run_case reader.book nothing_yet doc_a (span_of 4 7)
        (answer.DocExists (when.At 7)) (Some (when.At 7)) }
    ensures moments { ¬ MomentsRise moments_book }
{}

/// Where an entry may be added again, an attempt commits twice, and is rolled back too.
pub fn entry_added_again()
    ensures both { ¬ NeverBoth no_docs entry_again }
    ensures twice { ¬ CommitsOnce no_docs entry_again }
    ensures added { ¬ AddedOnce no_docs entry_again }
    ensures decided { ¬ DecidedOnce no_docs entry_again }
    ensures shown { ¬ ShownStays no_docs entry_again }
{}

/// Other unlicensed steps break the other items of the invariant.
pub fn invariants_that_are_broken()
    ensures stamps { ¬ StampsRise doc_ahead deleted }
    ensures held { ¬ HeldWhilePending one_doc unstuck_by_another }
    ensures listed { ¬ ListedWhenDecided one_doc listed_nowhere }
    ensures gone { ¬ GoneWhenFinished one_doc listed_nowhere }
{}

/// A document may be deleted that nobody has removed, an update lost, and a transaction committed twice.
pub fn laws_that_are_broken()
    ensures documents { ¬ DocumentsCommitted run_case (book_with one_doc deleted []) }
    ensures update { ¬ NoUpdateLost run_case lost_book }
    ensures once { ¬ AtMostOnce tries_book }
{}
