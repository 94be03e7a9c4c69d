ghost use Rattle.std.specs.Prelude.{Some, None, [], ◌∷◌};
ghost use Rattle.cbt_base.specs.Ids.{attempt_number, cleaner_number};
ghost use Rattle.cbt_model.specs.declared.steps.Expect.TheVariants as expect;
ghost use Rattle.cbt_book.specs.Licence.{MayAdd, MayStage, MayCommit, CommitsUnsettled, MayAbort, MayResolve, MayUnstick, MayEvict, MayDrop, MayBeat};
ghost use Rattle.cbt_rows.specs.Changes.{client, first_attempt, second_attempt, before_staging, before_commit, before_publication, own_staging, without_entry_read, other_staging, both_staged, one_published, staging_failed, commit_failed, read_at};
ghost use Rattle.cbt_rows.specs.CleanerFreesPendingStage as freed;
ghost use Rattle.cbt_rows.specs.Words.{doc_a, doc_b, n, lists_of};

/// An entry is not added twice, nor for another client's attempt.
pub fn entries_that_may_not_be_added()
    ensures twice { ¬ MayAdd client before_staging first_attempt }
    ensures of_another { ¬ MayAdd client [] (attempt_number 2 1 1) }
{}

/// A document is not staged over a CAS that was not shown, over the staging of an attempt whose entry
/// was not read, nor after the commit.
pub fn stagings_that_may_not_be_made()
    ensures another_cas { ¬ MayStage before_staging doc_a (expect.Cas 2) own_staging }
    ensures live_staging { ¬ MayStage without_entry_read doc_a (expect.Cas 1001979904)
        other_staging }
    ensures after_commit { ¬ MayStage before_publication doc_a (expect.Cas 1001979904) own_staging }
{}

/// A commit does not leave a document out, does not follow a staging that failed, and is not sent again
/// before the entry was read.
pub fn commits_that_may_not_be_sent()
    ensures document_left_out { ¬ MayCommit both_staged 0 second_attempt
        (lists_of [] (doc_a ∷ []) []) }
    ensures staging_lost { ¬ MayCommit staging_failed 12 first_attempt
        (lists_of [] (doc_a ∷ []) []) }
    ensures unread { ¬ MayCommit commit_failed 0 first_attempt (lists_of [] (doc_a ∷ []) []) }
{}

/// An abort does not leave a staging out that failed.
pub fn aborts_that_may_not_be_sent()
    ensures { ¬ MayAbort staging_failed 12 first_attempt (lists_of [] [] []) }
{}

/// A staging is not published before the commit, nor over another CAS, and not taken back by its owner
/// after the commit.
pub fn stagings_that_may_not_be_taken_off()
    ensures before_decision { ¬ MayResolve before_commit doc_a 1001979904 (Some (n 2)) }
    ensures another_cas { ¬ MayResolve before_publication doc_a 7 (Some (n 2)) }
    ensures after_commit { ¬ MayUnstick before_publication doc_a 1001979904 }
{}

/// An entry is not evicted at its last millisecond, and not dropped before the last document is
/// unstaged, nor where it was only shown pending.
pub fn entries_that_may_not_be_dropped()
    ensures not_expired { ¬ MayEvict (read_at 16001) 0 first_attempt }
    ensures staging_left { ¬ MayDrop one_published 0 second_attempt }
    ensures pending { ¬ MayDrop (read_at 21005) 0 first_attempt }
{}

/// A cleaner does not write the row of another.
pub fn beats_that_may_not_be_made()
    ensures { ¬ MayBeat client (freed.m3 ∷ []) (cleaner_number 2) [] }
{}
