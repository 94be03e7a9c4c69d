ghost use Rattle.std.specs.Prelude.{◌≡◌, ℕ, List, Some, None, Ok, Err, [], ◌∷◌, true};
ghost use Rattle.cbt_book.specs.declared.clients.TxnEnd.TheVariants as txn_end;
ghost use Rattle.cbt_expr.specs.declared.plans.TxnPlan.{TxnPlan};
ghost use Rattle.cbt_core.specs.Attempts.{HasEnded, IsCut, MayKeep, MayRollBack};
ghost use Rattle.cbt_core.specs.Clients.{FollowsPlan, RunsOn};
ghost use Rattle.cbt_core.specs.OpAnswers.{Carries, IsBlocked};
ghost use Rattle.cbt_core.specs.OpCalls.{OpCalls, write_terms};
ghost use Rattle.cbt_core.specs.Operations.{OpFollows};
ghost use Rattle.cbt_core.specs.Stops.{StopsKept};
ghost use Rattle.cbt_core.specs.Transactions.{EndsTxn, IsRetried};
ghost use Rattle.cbt_core.specs.Walk.{Writes, nothing_yet, noted};
ghost use Rattle.cbt_model.specs.declared.documents.OpKind.TheVariants.{Insert, Replace};
ghost use Rattle.cbt_model.specs.declared.steps.Step.TheVariants as step;
ghost use Rattle.cbt_rows.specs.Changes.{first_attempt, base_elsewhere, first_try, fresh_list, get_first, replace_then, got_first, staged_then, need_two, told_to_hold, told_with_call, one_entry, read_twice, txn_terms, refused_course, miscounted, own_staging, other_staging, unended_course, late_try, cut_course, whole_course, idle, idle_book, stopped_after, nothing_to_call, ended_book, served_try, after_get, read_though_served};
ghost use Rattle.cbt_rows.specs.LateCommitIsUnknown as late;
ghost use Rattle.cbt_rows.specs.OneReplace as one;
ghost use Rattle.cbt_rows.specs.SlowOwnerLosesItsEntry as slow;
ghost use Rattle.cbt_rows.specs.StopBeforeCommit as stopped;
ghost use Rattle.cbt_rows.specs.TransactionExpires as expires;
ghost use Rattle.cbt_book.specs.Closing.{CommitHolds, IsFinished, MayClose};
ghost use Rattle.cbt_book.specs.Calls.{GetCalls, MayWrite};
ghost use Rattle.cbt_rows.specs.Words.{doc_a, doc_b, n};

/// The base of a staging is not told to be at another event, nor at an earlier reading where it was
/// staged over a later one.
pub fn bases_of_another_reading()
    ensures elsewhere { ¬ OpFollows first_try one.made_1 0 1 nothing_yet replace_then
        base_elsewhere }
    ensures fresh_read { ¬ OpFollows first_try fresh_list 1 2
        (noted get_first got_first nothing_yet) replace_then staged_then }
{}

/// A need that is false is not told to hold, and has made no call.
pub fn needs_that_do_otherwise()
    ensures holds { ¬ OpFollows first_try [] 0 1 nothing_yet need_two told_to_hold }
    ensures calls { ¬ OpFollows first_try one.made_1 0 1 nothing_yet need_two told_with_call }
{}

/// A write is not blocked by one answer, a get does not read an unstaged document twice, and an entry is
/// not added to another record. A write does not read its document where the last reading serves, and
/// makes no call where its expression has no value.
pub fn calls_that_do_not_fit()
    ensures blocked { ¬ IsBlocked one_entry nothing_yet doc_a Replace first_attempt one_entry }
    ensures padded { ¬ GetCalls doc_a read_twice }
    ensures another_record { ¬ MayWrite (write_terms first_try) doc_a (step.AddEntry 3 first_attempt 15000) }
    ensures served { ¬ OpCalls served_try after_get (Writes doc_a Replace (Ok (Some (n 1))))
        read_though_served }
    ensures no_value { ¬ OpCalls first_try nothing_yet (Writes doc_b Insert (Err 1))
        (one.m0 ∷ []) }
{}

/// A staging does not carry a write under another kind, nor for another attempt.
pub fn stagings_that_carry_another_write()
    ensures kind { ¬ Carries first_try nothing_yet doc_a Insert (Some (n 2)) own_staging }
    ensures attempt { ¬ Carries first_try nothing_yet doc_a Replace (Some (n 3)) other_staging }
{}

/// An attempt does not leave operations out, none of them is cut off in time, and it is not rolled back
/// for nothing.
pub fn attempts_that_do_otherwise()
    ensures left_out { ¬ HasEnded unended_course }
    ensures in_time { ¬ IsCut late_try cut_course expires.m1 [] }
    ensures rolled_back { ¬ MayRollBack first_try whole_course }
{}

/// A commit that found no entry does not hold, one without a drop of the entry is not complete, none
/// follows an operation that failed, and nothing is unstuck before it.
pub fn commits_that_do_not_hold()
    ensures entry_missing { ¬ CommitHolds first_attempt 9 (slow.m9 ∷ []) }
    ensures entry_left { ¬ IsFinished first_attempt (one.m4 ∷ one.m3 ∷ []) true }
    ensures refused { ¬ MayKeep first_try refused_course }
    ensures unstuck { ¬ MayClose first_attempt [] (step.Unstick doc_a 1001979904) }
{}

/// A transaction is not tried again where its commit is unknown, has not spent its tries while it has
/// more, is not committed where its entry was lost, and does not expire in time.
pub fn transactions_that_end_otherwise()
    ensures unknown { ¬ IsRetried late.attempt_1_1_1 }
    ensures tries_left { ¬ EndsTxn txn_terms one.made_1 16000 (slow.attempt_1_1_1 ∷ [])
        txn_end.TriesSpent }
    ensures entry_lost { ¬ EndsTxn txn_terms slow.made_1 61000 (slow.attempt_1_1_1 ∷ [])
        (txn_end.Committed true) }
    ensures in_time { ¬ EndsTxn txn_terms expires.made_1 16000 (expires.attempt_1_1_1 ∷ [])
        (txn_end.Expired 1000) }
{}

/// A client's log counts its calls, and goes on after no stop.
pub fn clients_that_do_otherwise()
    ensures miscounted { ¬ FollowsPlan 1 16 (record { txns = one.plan_1_1 ∷ [] }) one.made_1
        miscounted }
    ensures stopped { ¬ RunsOn stopped.txn_1_1 (one.txn_1_1 ∷ []) }
{}

/// A client does not tell of a stop that the script does not name, though such a log follows each plan,
/// nor of one at another number of its calls, nor of one that came before no call or after the last. No
/// client makes more calls than its stop names.
pub fn stops_that_are_not_kept()
    ensures idle_follows { (client atrs : ℕ) (plan : TxnPlan) (plans : List TxnPlan)
        → FollowsPlan client atrs (record { txns = plan ∷ plans }) [] idle }
    ensures unnamed { ¬ StopsKept one.run_case idle_book }
    ensures elsewhere { ¬ StopsKept (stopped_after 4) stopped.book }
    ensures no_call { ¬ StopsKept nothing_to_call idle_book }
    ensures ended { ¬ StopsKept (stopped_after 6) ended_book }
    ensures too_many { ¬ StopsKept (stopped_after 3) one.book }
{}
