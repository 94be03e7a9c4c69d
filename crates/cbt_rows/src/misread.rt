ghost use Rattle.std.specs.Prelude.{◌≡◌, [], ◌∷◌, Some};
ghost use Rattle.cbt_book.specs.Cleaners.{RoundFollows, StandBehind, Whole, Cut};
ghost use Rattle.cbt_book.specs.Passes.{PassCalls, PassFollows, PassKept, Finishes};
ghost use Rattle.cbt_book.specs.ReadAt.{IsReadAt};
ghost use Rattle.cbt_book.specs.Spans.{IsSpan};
ghost use Rattle.cbt_book.specs.Outcomes.{ChangesHands};
ghost use Rattle.cbt_book.specs.declared.operations.OpAnswer.TheVariants as answer;
ghost use Rattle.cbt_book.specs.declared.operations.When.TheVariants as when;
ghost use Rattle.cbt_core.specs.Operations.{OpFollows};
ghost use Rattle.cbt_core.specs.Right.{IsRightWhen};
ghost use Rattle.cbt_rows.specs.Contended;
ghost use Rattle.cbt_core.specs.Walk.{nothing_yet};
ghost use Rattle.cbt_rows.specs.Changes.{first_attempt, first_try, get_first, committed_unconfirmed, committed_reading, missing_unconfirmed, missing_reading, three_rows, records_of, round_alone, cleaner_alone, staged_again, beat_behind, pass_with_beat, dropped_early, two_begun};
ghost use Rattle.cbt_rows.specs.CleanerFreesPendingStage as freed;
ghost use Rattle.cbt_rows.specs.CleanersCutOff as cut_off;
ghost use Rattle.cbt_rows.specs.EntryNotYetExpired as unexpired;
ghost use Rattle.cbt_rows.specs.OneReplace as one;
ghost use Rattle.cbt_rows.specs.ReaderBeforeCommit as reader;
ghost use Rattle.cbt_rows.specs.ReaderMeetsCommitOfRewrittenStage as rewritten;
ghost use Rattle.cbt_rows.specs.SlowOwnerLosesItsEntry as slow;
ghost use Rattle.cbt_rows.specs.Words.{doc_a, n, span_of};

/// What stands behind a staging is not read without the second reading of the document: neither the
/// content, where the entry is committed, nor the body, where it is not there.
pub fn readings_without_second_read()
    ensures committed { ¬ IsReadAt doc_a committed_reading committed_unconfirmed }
    ensures missing { ¬ IsReadAt doc_a missing_reading missing_unconfirmed }
{}

/// A span does not begin before the last one has ended, nor leave a call out.
pub fn spans_that_do_not_follow()
    ensures overlaps { ¬ IsSpan slow.made_1 3 (span_of 2 9) }
    ensures leaves_out { ¬ IsSpan one.made_1 0 (span_of 1 3) }
{}

/// A pass does not keep less than it was shown, and does not finish an entry that it skips. It holds no
/// call of another kind, and none for an entry that has not expired.
pub fn passes_that_do_not_follow()
    ensures covers_nothing { ¬ PassKept 0 freed.m5 (freed.m6 ∷ freed.m5 ∷ []) [] }
    ensures skips { ¬ Finishes 0 first_attempt (freed.m5 ∷ []) }
    ensures beats { ¬ PassCalls 0 freed.m5 (beat_behind ∷ freed.m6 ∷ []) }
    ensures beats_within { ¬ PassFollows (beat_behind ∷ freed.made_3) 5 pass_with_beat }
    ensures not_due { ¬ PassCalls 0 unexpired.m5 (dropped_early ∷ []) }
{}

/// A cleaner does not take a share of the records without the client record.
pub fn rounds_that_do_not_follow()
    ensures { ¬ RoundFollows cleaner_alone (freed.m6 ∷ freed.m5 ∷ []) Whole 0 round_alone }
{}

/// A round that was cut off leaves the calls of one pass unlogged, which has not ended: not those of two,
/// nor of one that has. A whole round leaves none.
pub fn passes_that_are_not_logged()
    ensures begun { StandBehind Cut (0 ∷ []) (freed.m5 ∷ []) }
    ensures two { ¬ StandBehind Cut (0 ∷ 1 ∷ []) two_begun }
    ensures ended { ¬ StandBehind Cut (0 ∷ []) (cut_off.m2 ∷ []) }
    ensures whole { ¬ StandBehind Whole (0 ∷ []) (freed.m5 ∷ []) }
{}

/// Three cleaners share five records; where one has not beaten for too long, the two others do.
pub fn shares()
    ensures first { records_of (three_rows 999948288 999948288 999948288) 1 61000 ≡ 0 ∷ 3 ∷ [] }
    ensures second { records_of (three_rows 999948288 999948288 999948288) 2 61000 ≡ 1 ∷ 4 ∷ [] }
    ensures third { records_of (three_rows 999948288 999948288 999948288) 3 61000 ≡ 2 ∷ [] }
    ensures first_of_two { records_of (three_rows 1999962112 999948288 1999962112) 1 61001 ≡ 0 ∷ 2 ∷
        4 ∷ [] }
    ensures third_of_two { records_of (three_rows 1999962112 999948288 1999962112) 3 61001 ≡ 1 ∷ 3 ∷
        [] }
{}

/// A document changes hands where a later reading shows it staged at another CAS, and not where it has
/// the same.
pub fn hands_that_change()
    ensures changes { ChangesHands doc_a 2 1003945984 staged_again
        (rewritten.m7 ∷ rewritten.m6 ∷ rewritten.m3 ∷ []) }
    ensures stays { ¬ ChangesHands doc_a 2 1003945984 staged_again
        (rewritten.m9 ∷ rewritten.m8 ∷ rewritten.m7 ∷ []) }
{}

/// A reader's answer is right that tells what the committed table had at its moment.
pub fn answers_that_are_right()
    ensures { IsRightWhen reader.run_case reader.book nothing_yet doc_a (span_of 4 7)
        (answer.Value (Some (n 2)) (when.At 5)) (Some (when.At 5)) }
{}

/// A get is answered that its document is contended after nine readings, each of which shows it staged
/// at another CAS.
pub fn document_that_changes_hands()
    ensures { OpFollows first_try Contended.calls 0 1 nothing_yet get_first Contended.log }
{}
