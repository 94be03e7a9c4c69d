//! How the end of a transaction is told.

ghost use Rattle.std.specs.Prelude.{◌≡◌};
ghost use Rattle.cbt_report.specs.Outcomes.{outcome_text, why_text};

use cbt_book::{TxnEnd, Why};

/// The words that a report has for the end of a transaction.
pub fn outcome(end: TxnEnd) -> &'static str
    ensures { result.now ≡ outcome_text end }
{
    match end {
        TxnEnd::Committed { complete: true } => "committed",
        TxnEnd::Committed { complete: false } => "committed incomplete",
        TxnEnd::Empty => "empty",
        TxnEnd::RolledBack => "rolled back",
        TxnEnd::Failed(why) => failure(why),
        TxnEnd::Expired { .. } => "expired",
        TxnEnd::TriesSpent => "tries spent",
        TxnEnd::Unknown => "unknown",
        TxnEnd::CallFailed { .. } => "call failed",
        TxnEnd::Stopped => "stopped",
    }
}

fn failure(why: Why) -> &'static str
    ensures { result.now ≡ why_text why }
{
    match why {
        Why::NotFound => "failed not-found",
        Why::Exists => "failed exists",
        Why::NeedFalse => "failed need-false",
        Why::BadValue => "failed bad-value",
    }
}
