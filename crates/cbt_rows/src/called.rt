//! The laws, called on a row: what they ask is met there.
ghost use Rattle.std.specs.Prelude.{◌≡◌, [], ◌∷◌};
ghost use Rattle.cbt_base.specs.Ids.{attempt_number};
ghost use Rattle.cbt_core.specs.Laws.{IsFinishedAt, CommitsOnce, DocumentsCommitted, NoUpdateLost, AtMostOnce};
ghost use Rattle.cbt_core.specs.Right.{AnswersRight};
ghost use Rattle.cbt_core.specs.Stops.{IsComplete};
ghost use Rattle.cbt_rows.specs.CleanerFreesPendingStage;

use cbt_core::{
    completeness, fresh_openings, invariant, k1, k2, k3, k4, k5, k6, tables_count_commits,
};

/// A cleaner drops the entry of a client that was stopped: each law holds of this run. From the end of
/// the cleaner's pass on nothing is left of the attempt. The other client, which has no stop, ended its
/// transaction.
pub fn laws_where_cleaner_frees_pending_stage()
    ensures once { CommitsOnce CleanerFreesPendingStage.opening CleanerFreesPendingStage.history }
    ensures documents { DocumentsCommitted CleanerFreesPendingStage.run_case CleanerFreesPendingStage.book }
    ensures answers { AnswersRight CleanerFreesPendingStage.run_case CleanerFreesPendingStage.book }
    ensures finished { IsFinishedAt CleanerFreesPendingStage.opening CleanerFreesPendingStage.history (attempt_number 1 1 1) 7 }
    ensures none_lost { NoUpdateLost CleanerFreesPendingStage.run_case CleanerFreesPendingStage.book }
    ensures at_most_once { AtMostOnce CleanerFreesPendingStage.book }
    ensures complete { IsComplete (record { txns = CleanerFreesPendingStage.plan_2_1 ∷ [] })
        CleanerFreesPendingStage.client_2 }
{
    fresh_openings();
    tables_count_commits();
    invariant();
    k1();
    k2();
    k3();
    k4();
    k5();
    k6();
    completeness();
}
