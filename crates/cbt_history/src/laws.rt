//! What holds of histories and their texts. Each function does nothing: what it ensures is the law.

ghost use Rattle.std.specs.Prelude.{◌≡◌, ℕ, ◌^◌, ◌<◌, ◌≤◌, ◌++◌, true, List, length, take, Ok, Err};
ghost use Rattle.std.specs.List.{AllByRecursion};
ghost use Rattle.cbt_lex.specs.Lines.{lined};
ghost use Rattle.cbt_model.specs.declared.events.Event.{Event};
ghost use Rattle.cbt_model.specs.declared.states.State.{State};
ghost use Rattle.cbt_script.specs.Printed.{script_lines, script_text};
ghost use Rattle.cbt_script.specs.Rules.{IsScript};
ghost use Rattle.cbt_history.specs.Histories.{history_text, history_lines};
ghost use Rattle.cbt_history.specs.HistoriesRead.{history_of_text};
ghost use Rattle.cbt_history.specs.Rules.{IsEvent, IsOpening, AreEvents};
ghost use Rattle.cbt_history.specs.ScriptsRead.{goes_on, BeginsScript};

use crate::faults::HistoryFault;
use cbt_book::Book;
use cbt_script::Script;

/// A law: the history text of a script that keeps the rules, and of events that fit, at most 2^64 of
/// them, is read back as this script and these events. It is UTF-8 by its type.
pub fn histories_read_back(script: &Script, book: &Book, text: &str)
    requires { text.now ≡ history_text script.now book.now }
    ensures { IsScript script.now → AreEvents book.now.kept.opening book.now.kept.history → length book.now.kept.history ≤ 2 ^ 64
        → history_of_text text.now ≡ Ok (script.now, book.now.kept.history) }
{}

/// A law: where the numbers of an opening have their types, each number that the replies to at most
/// 2^62 events tell has 64 bits. So the events fit, where each by itself does.
pub fn replies_have_64_bits()
    ensures { (s : State) (events : List Event) → IsOpening s → length events ≤ 2 ^ 62 → AllByRecursion IsEvent events → AreEvents s events }
{}

/// A law: of the runs of lines with which a canonical text begins none is refused in a history text,
/// and what is taken for one is one. So the line that is called bad is the first with which no
/// canonical text goes on.
pub fn canonical_lines_go_on(script: &Script, text: &str)
    requires { text.now ≡ script_text script.now }
    ensures each { (n : ℕ) → IsScript script.now → goes_on (lined (take n (script_lines script.now))) ≡ true }
    ensures no_other { (front : List ℕ) → goes_on front ≡ true → BeginsScript front }
{}

/// A law: the lines of a history text, as the law on reading back has it, are those that are stated,
/// and none of them is called bad: where a text begins with some of them, its bad line comes later.
pub fn history_lines_are_good(script: &Script, book: &Book, text: &str)
    requires { text.now ≡ history_text script.now book.now }
    ensures lines { text.now ≡ lined (history_lines script.now book.now) }
    ensures good { (front back : List (List ℕ)) (rest : List ℕ) (line : ℕ) → IsScript script.now → AreEvents book.now.kept.opening book.now.kept.history
        → length book.now.kept.history ≤ 2 ^ 64 → history_lines script.now book.now ≡ front ++ back → 0 < length front
        → history_of_text (lined front ++ rest) ≡ Err (HistoryFault.BadLine line) → length front < line }
{}
