//! The history text of a run.

ghost use Rattle.std.specs.Prelude.{◌≡◌, ◌+◌, ◌-◌, ◌^◌, ◌≤◌, length, IfOk};
ghost use Rattle.cbt_base.specs.Clock.{clock_of};
ghost use Rattle.cbt_history.specs.Histories.{history_text};

use crate::events::push_events;
use cbt_base::{NoMemory, Text};
use cbt_book::Book;
use cbt_script::Script;
use std::alloc::Global;

/// The history text of a run: its script's canonical text, and the events that were kept, each with
/// what it was answered.
///
/// It fails only where memory runs out.
pub fn history_of(alloc: Global, script: &Script, book: &Book) -> Result<Text, NoMemory>
    requires last { book.now.kept.opening.last ≤ clock_of (2 ^ 43 - 1) + 2 ^ 32 }
    requires short { length book.now.kept.history ≤ 2 ^ 62 }
    ensures { IfOk result (λ text. text ≡ history_text script.now book.now) }
{
    let canonical = script.text(alloc)?;
    let mut out = Text::from_str(alloc, "script\n")?;
    out.push_str(canonical.as_str())?;
    out.push_str("events\n")?;
    push_events(alloc, &mut out, &book.kept)?;
    Ok(out)
}
