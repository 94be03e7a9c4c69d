//! How a client's calls add up, part by part. Each function does nothing: what it ensures is the law.
//! They take no memory.
//!
//! A client's own list is said newest call first, the newest part before the older ones: of a try under
//! the terms `t`, the calls of the operation under way, those of the operations that were answered
//! (`told`), and those before the try (`l0`); of a transaction under the terms `x`, the calls of the try
//! under way (`mine`), those of the tries that have ended (`tried`), and those before the transaction.

ghost use Rattle.std.specs.Prelude.{◌≡◌, ◌≢◌, ℕ, suc, ◌+◌, ◌<◌, ◌≤◌, false, List, [], ◌∷◌, ◌++◌, length};
ghost use Rattle.cbt_expr.specs.declared.plans.ClientPlan.{ClientPlan};
ghost use Rattle.cbt_expr.specs.declared.plans.Op.{Op};
ghost use Rattle.cbt_expr.specs.declared.plans.TxnPlan.{TxnPlan};
ghost use Rattle.cbt_model.specs.declared.events.Made.{Made};
ghost use Rattle.cbt_book.specs.OwnLists.{Descends};
ghost use Rattle.cbt_book.specs.Spans.{past_of, span_of};
ghost use Rattle.cbt_book.specs.declared.clients.AttemptEnd.TheVariants as attempt_end;
ghost use Rattle.cbt_book.specs.declared.clients.AttemptLog.{AttemptLog};
ghost use Rattle.cbt_book.specs.declared.clients.TxnEnd.{TxnEnd};
ghost use Rattle.cbt_book.specs.declared.clients.TxnEnd.TheVariants as txn_end;
ghost use Rattle.cbt_book.specs.declared.clients.TxnLog.{TxnLog};
ghost use Rattle.cbt_book.specs.declared.operations.OpAnswer.{OpAnswer};
ghost use Rattle.cbt_book.specs.declared.operations.OpLog.{OpLog};
ghost use Rattle.cbt_core.specs.Attempts.{AttemptFollows, Ends, course_of};
ghost use Rattle.cbt_core.specs.Clients.{FollowsPlan};
ghost use Rattle.cbt_core.specs.Transactions.{TxnTerms, TxnFollows, EndsTxn, IsRetried, attempt_terms, attempts_end, newest_now, now_before, start_of};
ghost use Rattle.cbt_core.specs.Walk.{AttemptTerms, noted};
ghost use Rattle.cbt_logs.specs.Closing.{ClosesWell};
ghost use Rattle.cbt_logs.specs.Operating.{ComesNext, IsAnswered, Operates, Told, log_of, sofar};
ghost use Rattle.cbt_logs.specs.Running.{IsNextTxn, Ran, terms_next};
ghost use Rattle.cbt_logs.specs.Trying.{Tried};

/// At the beginning of a try nothing is told; an operation that is answered is told next, and adds what it
/// teaches.
pub fn operations_add_up()
    ensures first { (t : AttemptTerms) (l0 : List Made) → Told t l0 [] [] }
    ensures more { (t : AttemptTerms) (l0 told calls : List Made) (logs : List OpLog) (o : Op) (a : OpAnswer)
        → Descends (calls ++ (told ++ l0)) → Told t l0 told logs → ComesNext t logs o → IsAnswered t (calls ++ (told ++ l0)) logs o calls a
        → Told t l0 (calls ++ told) (logs ++ log_of logs (told ++ l0) calls a ∷ []) }
    ensures teaches { (t : AttemptTerms) (logs : List OpLog) (o : Op) (log : OpLog) → ComesNext t logs o
        → sofar t (logs ++ log ∷ []) ≡ noted o log (sofar t logs) }
{}

/// A try whose calls after the answered operations close it well, and that ended by them, follows its
/// plan.
pub fn attempts_close()
    ensures { (t : AttemptTerms) (l0 told closing cut : List Made) (log : AttemptLog) → Descends ((closing ++ cut) ++ (told ++ l0))
        → Told t l0 told log.ops → log.id ≡ t.id → log.span ≡ span_of (past_of l0) ((closing ++ cut) ++ told) → ClosesWell t log closing cut
        → Ends t (course_of t log cut closing) ((closing ++ cut) ++ told) log.end
        → AttemptFollows t ((closing ++ cut) ++ (told ++ l0)) (past_of l0) log }
{}

/// A try that is stopped while an operation is under way, or is to begin, closes well.
pub fn stops_close()
    ensures { (t : AttemptTerms) (log : AttemptLog) (calls : List Made) → Operates t log.ops calls → log.end ≡ attempt_end.Stopped
        → log.not_committed ≡ false → ClosesWell t log [] calls }
{}

/// A transaction begins with its first try; a try that has ended, after which another one is due, in time
/// and left, is one more of those before.
pub fn tries_add_up()
    ensures first { (x : TxnTerms) (start : ℕ) (before : List Made) → 0 < x.plan.tries → Tried x start before [] [] }
    ensures more { (x : TxnTerms) (start : ℕ) (before tried mine : List Made) (tries : List AttemptLog) (log : AttemptLog)
        → Descends (mine ++ (tried ++ before)) → Tried x start before tried tries
        → AttemptFollows (attempt_terms x start (suc (length tries))) (mine ++ (tried ++ before)) (past_of (tried ++ before)) log
        → log.span.to ≡ past_of (mine ++ (tried ++ before)) → IsRetried log → newest_now (mine ++ (tried ++ before)) ≤ start + x.plan.expiry
        → suc (length tries) < x.plan.tries → Tried x start before (mine ++ tried) (tries ++ log ∷ []) }
{}

/// A transaction ends with its last try, or is stopped before its first or before a further one.
pub fn transactions_end()
    ensures over { (x : TxnTerms) (start : ℕ) (before tried mine : List Made) (tries : List AttemptLog) (log : AttemptLog) (end : TxnEnd)
        → Descends (mine ++ (tried ++ before)) → start ≡ start_of (mine ++ tried) → Tried x start before tried tries
        → AttemptFollows (attempt_terms x start (suc (length tries))) (mine ++ (tried ++ before)) (past_of (tried ++ before)) log
        → log.span.to ≡ past_of (mine ++ (tried ++ before))
        → EndsTxn x (mine ++ (tried ++ before)) (start + x.plan.expiry) (tries ++ log ∷ []) end
        → TxnFollows x (mine ++ (tried ++ before)) (past_of before) (record { attempts = tries ++ log ∷ []; end = end }) }
    ensures reach { (at : ℕ) (tries : List AttemptLog) (log : AttemptLog) → attempts_end at (tries ++ log ∷ []) ≡ log.span.to }
    // The time of the newest call is that of the last one before the place behind it.
    ensures newest { (l : List Made) → Descends l → now_before l (past_of l) ≡ newest_now l }
    ensures unbegun { (x : TxnTerms) (before : List Made)
        → TxnFollows x before (past_of before) (record { attempts = []; end = txn_end.Stopped }) }
    ensures between { (x : TxnTerms) (start : ℕ) (before tried : List Made) (tries : List AttemptLog) → Descends (tried ++ before)
        → start ≡ start_of tried → tries ≢ [] → Tried x start before tried tries
        → TxnFollows x (tried ++ before) (past_of before) (record { attempts = tries; end = txn_end.Stopped }) }
{}

/// A client begins with nothing; a transaction that has ended is one more of those before.
pub fn transactions_add_up()
    ensures first { (client atrs : ℕ) (plan : ClientPlan) → Ran client atrs plan [] [] }
    ensures more { (client atrs : ℕ) (plan : ClientPlan) (before mine : List Made) (txns : List TxnLog) (this : TxnPlan) (log : TxnLog)
        → Descends (mine ++ before) → Ran client atrs plan before txns → IsNextTxn plan txns this
        → TxnFollows (terms_next client atrs this txns) (mine ++ before) (past_of before) log
        → attempts_end (past_of before) log.attempts ≡ past_of (mine ++ before) → log.end ≢ txn_end.Stopped
        → Ran client atrs plan (mine ++ before) (txns ++ log ∷ []) }
{}

/// A client whose transactions have all ended, or that was stopped in one of them, follows its plan.
pub fn clients_follow()
    ensures done { (client atrs : ℕ) (plan : ClientPlan) (l : List Made) (txns : List TxnLog) → Descends l → Ran client atrs plan l txns
        → length txns ≡ length plan.txns → FollowsPlan client atrs plan l (record { txns = txns; calls = length l }) }
    ensures stopped { (client atrs : ℕ) (plan : ClientPlan) (before mine : List Made) (txns : List TxnLog) (this : TxnPlan) (log : TxnLog)
        → Descends (mine ++ before) → Ran client atrs plan before txns → IsNextTxn plan txns this
        → TxnFollows (terms_next client atrs this txns) (mine ++ before) (past_of before) log
        → attempts_end (past_of before) log.attempts ≡ past_of (mine ++ before) → log.end ≡ txn_end.Stopped
        → FollowsPlan client atrs plan (mine ++ before) (record { txns = txns ++ log ∷ []; calls = length (mine ++ before) }) }
{}
