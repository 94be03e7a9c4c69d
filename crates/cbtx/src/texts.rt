//! The texts that the program writes.

ghost use Rattle.std.specs.Prelude.{◌≡◌, ◌+◌, ◌-◌, ◌<◌, ◌≤◌, ◌^◌, ◌⊎◌, ◌++◌, length, IfOk};
ghost use Rattle.std.specs.Io.KnownBytes.{Appends};
ghost use Rattle.cbt_base.specs.Clock.{clock_of};
ghost use Rattle.cbt_history.specs.Histories.{history_text};
ghost use Rattle.cbt_report.specs.Report.{report_text};
ghost use Rattle.cbtx.specs.Commands.{run_text};
ghost use Rattle.cbtx.specs.Statuses.{IsCut, bad_line};

use cbt_base::{NoMemory, Text};
use cbt_book::Book;
use cbt_history::history_of;
use cbt_lex::push_number;
use cbt_report::{report_of, summary_of};
use cbt_script::{Bad, Script};
use cbt_streams::{Sink, write_all};
use cbt_words::Command;
use std::alloc::Global;

/// What is written where the words are no command.
pub const USAGE: &str =
    "usage: cbtx sim [--history] | run [--history] | gen --seed N [--clients N] [--accounts N] [--transfers N] [--sim]\n";

/// What a command tells of a run.
pub fn run_text(
    alloc: Global,
    command: &Command,
    script: &Script,
    book: &Book,
) -> Result<Text, NoMemory>
    requires last { book.now.kept.opening.last ≤ clock_of (2 ^ 43 - 1) + 2 ^ 32 }
    requires short { length book.now.kept.history ≤ 2 ^ 62 }
    ensures { IfOk result (λ text. text ≡ run_text command.now script.now book.now) }
{
    match command {
        Command::Sim { history: true } => report_and_history(alloc, script, book),
        Command::Sim { history: false } | Command::Run { .. } => report_of(alloc, script, book),
        Command::Gen { .. } => summary_of(alloc, book),
    }
}

fn report_and_history(alloc: Global, script: &Script, book: &Book) -> Result<Text, NoMemory>
    requires last { book.now.kept.opening.last ≤ clock_of (2 ^ 43 - 1) + 2 ^ 32 }
    requires short { length book.now.kept.history ≤ 2 ^ 62 }
    ensures { IfOk result (λ text. text ≡ report_text script.now book.now ++ history_text script.now book.now) }
{
    let mut text = report_of(alloc, script, book)?;
    let history = history_of(alloc, script, book)?;
    text.push_str(history.as_str())?;
    Ok(text)
}

/// The line on the first bad line of an input that is no script.
pub fn bad_text(alloc: Global, bad: Bad) -> Result<Text, NoMemory>
    ensures { IfOk result (λ text. text ≡ bad_line bad) }
{
    let mut text = Text::from_str(alloc, "script refused: line ")?;
    push_number(&mut text, bad.line)?;
    text.push_str(": ")?;
    text.push_str(bad.why.word())?;
    text.push_str("\n")?;
    Ok(text)
}

/// Writes a text: the status is the one named, or 4 where the sink failed.
pub fn written<K: Sink>(out: &mut K, text: &str, status: u8) -> u8
    requires { status < 4 }
    ensures status { (result ≡ status) ⊎ (result ≡ 4) }
    ensures whole { result ≡ status → Appends (K.taken out.old) (K.taken out.new) text.now }
    ensures cut { result ≡ 4 → IsCut (K.taken out.old) (K.taken out.new) (K.faults out.old) (K.faults out.new) text.now }
{
    match write_all(out, text.as_bytes()) {
        Ok(()) => status,
        Err(_) => 4,
    }
}
