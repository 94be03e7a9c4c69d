//! Replies as text.

ghost use Rattle.std.specs.Prelude.{◌≡◌, ◌++◌, OnOk, codes, decimal};
ghost use Rattle.cbt_history.specs.Replies.{state_word, reply_text};

use cbt_base::{NoMemory, Text};
use cbt_lex::push_number;
use cbt_model::{EntryState, Reply};

/// Puts a reply at the end.
pub(crate) fn push_reply(out: &mut Text, reply: &Reply) -> Result<(), NoMemory>
    ensures { OnOk result (out.new ≡ out.old ++ reply_text reply.now) }
{
    match reply {
        Reply::Doc { cas, .. } => push_counted(out, "doc ", *cas),
        Reply::Absent => out.push_str("absent"),
        Reply::Done { cas } => push_counted(out, "done ", *cas),
        Reply::CasMismatch { have } => push_counted(out, "cas-mismatch ", *have),
        Reply::Exists => out.push_str("exists"),
        Reply::Entry(entry) => push_state(out, entry.state),
        Reply::NoEntry => out.push_str("no-entry"),
        Reply::Decided => out.push_str("decided"),
        Reply::Entries(entries) => push_counted(out, "entries ", entries.len() as u64),
        Reply::Clients(rows) => push_counted(out, "clients ", rows.len() as u64),
        Reply::Failed => out.push_str("failed"),
    }
}

// A word and a number.
fn push_counted(out: &mut Text, word: &str, n: u64) -> Result<(), NoMemory>
    ensures { OnOk result (out.new ≡ out.old ++ (word.now ++ decimal n)) }
{
    out.push_str(word)?;
    push_number(out, n)
}

fn push_state(out: &mut Text, state: EntryState) -> Result<(), NoMemory>
    ensures { OnOk result (out.new ≡ out.old ++ (codes "entry " ++ state_word state)) }
{
    out.push_str("entry ")?;
    out.push_str(state_word(state))
}

fn state_word(state: EntryState) -> &'static str
    ensures { result.now ≡ state_word state }
{
    match state {
        EntryState::Pending => "PENDING",
        EntryState::Committed => "COMMITTED",
        EntryState::Aborted => "ABORTED",
    }
}
