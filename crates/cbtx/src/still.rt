//! The program as one call over any source, sink and clock.

ghost use Rattle.std.specs.Prelude.{◌≡◌, ◌<◌, ◌⊎◌, false, true, None, Some, is_some};
ghost use Rattle.std.specs.Io.KnownBytes.{Appends, Keeps};
ghost use Rattle.cbt_streams.specs.Causes.{Rose};
ghost use Rattle.cbt_streams.specs.Streams.{ReadPast, ReadUpTo};
ghost use Rattle.cbt_core.specs.Invariant.{CommitsOwnWrites};
ghost use Rattle.cbt_core.specs.Laws.{NeverBoth, CommitsOnce, NoCommitDecided, DocumentsCommitted, ContendedByOthers, MovedByOther, BlockedByAnother, NoUpdateLost, AtMostOnce, PassesLeaveNothing, AttemptsLeaveNothing, LostByEviction};
ghost use Rattle.cbt_core.specs.Right.{AnswersRight, MomentsRise};
ghost use Rattle.cbt_core.specs.Runs.{AreLicensed, IsLegalRun, LogsFollow};
ghost use Rattle.cbt_core.specs.Stops.{CleanersComplete, ClientsComplete, StopsKept};
ghost use Rattle.cbt_words.specs.Commands.{command_of};
ghost use Rattle.cbtx.specs.Cases.{case_of};
ghost use Rattle.cbtx.specs.Commands.{draws, hands_back, is_usage, reads, runs};
ghost use Rattle.cbtx.specs.Headline.{IsInTurns, ReadsBy, WhereRan};
ghost use Rattle.cbtx.specs.Statuses.{IsCutOff, IsDrawn, IsEnd, IsRefused, IsReported, IsScriptOf, max_input, usage_line};

use crate::commands::obey;
use crate::headline::runs_are_right;
use crate::ran::Ran;
use cbt_base::{Clock, Text};
use cbt_core::completeness;
use cbt_script::Script;
use cbt_streams::{Sink, Source};
use std::alloc::Global;

/// Does what the words say: it reads a script from the source or draws one from a number, lets it run, and
/// writes what is told of the run. It waits for nobody, so `run`, which needs threads, is usage.
pub fn still<S: Source, K: Sink, C: Clock>(
    alloc: Global,
    words: &[Text],
    src: &mut S,
    out: &mut K,
    clock: C,
) -> Ran
    // Exactly where the words are no command the usage line is written, unless the sink fails or memory runs out.
    ensures usage { is_usage (command_of words.now) ≡ true → IsEnd result.status 2 }
    ensures usage_line { result.status ≡ 2 → (is_usage (command_of words.now) ≡ true) × Appends (K.taken out.old) (K.taken out.new) usage_line }

    // At status 0 a script ran, and what the command tells of its run was written whole: the report, behind it with `--history` the history,
    // and for `gen --sim` the summary. `gen` alone wrote the script that it drew. Without faults `gen` ends so, or without memory.
    ensures reported { result.status ≡ 0 → runs (command_of words.now) ≡ true
        → IsReported (command_of words.now) (K.taken out.old) (K.taken out.new) result.script result.book }
    ensures drawn { result.status ≡ 0 → runs (command_of words.now) ≡ false → IsDrawn (K.taken out.old) (K.taken out.new) result.script }
    ensures draws { draws (command_of words.now) ≡ true → IsEnd result.status 0 }

    // At status 1 the input is no script, and its first bad line and the cause were written. At status 6, and only there, more bytes were taken
    // than an input may have, and nothing was written. Only `sim` takes any.
    ensures refused { result.status ≡ 1 → (reads (command_of words.now) ≡ true)
        × IsRefused (S.left src.old) (S.left src.new) (K.taken out.old) (K.taken out.new) }
    ensures too_long { result.status ≡ 6 → ReadPast (S.left src.old) (S.left src.new) max_input × Keeps (K.taken out.old) (K.taken out.new) }
    ensures within { (result.status ≡ 6 → ⊥) → ReadUpTo (S.left src.old) (S.left src.new) max_input }
    ensures unread { reads (command_of words.now) ≡ false → Keeps (S.left src.old) (S.left src.new) }

    // The source's faults give status 3, with nothing written. The sink's give status 4, with a front of the text that was due.
    ensures read_failed { result.status ≡ 3 → Rose (S.faults src.old) (S.faults src.new) × Keeps (K.taken out.old) (K.taken out.new) }
    ensures write_failed { result.status ≡ 4 → IsCutOff (command_of words.now) (S.left src.old) (S.left src.new) (K.taken out.old) (K.taken out.new)
        (K.faults out.old) (K.faults out.new) result.script result.book }

    // Memory may run out at any time before the first write, and at none behind it.
    ensures no_memory { result.status ≡ 5 → Keeps (K.taken out.old) (K.taken out.new) }
    ensures statuses { result.status < 7 }

    // The script of a run is there exactly where its book is. `gen` alone makes no book, and hands its script back unless memory ran out.
    ensures together { runs (command_of words.now) ≡ true → is_some result.script ≡ is_some result.book }
    ensures no_book { ((0 < result.status) × (result.status < 4)) ⊎ (result.status ≡ 6) → result.book ≡ None }
    ensures no_run { runs (command_of words.now) ≡ false → result.book ≡ None }
    ensures handed_back { hands_back (command_of words.now) ≡ true → (result.status ≡ 5 → ⊥) → is_some result.script ≡ true }
    ensures not_handed { hands_back (command_of words.now) ≡ true → result.status ≡ 5 → result.script ≡ None }

    // The script is the one that was read or drawn, and the book is of its run: a legal history from the script's opening, by its clients,
    // cleaners and sweep alone, of licensed steps, with a log of each that follows its plan.
    ensures script_is { (script : Script) → result.script ≡ Some script → IsScriptOf (command_of words.now) (S.left src.old) (S.left src.new) script }
    ensures legal { WhereRan result (λ script book. IsLegalRun (case_of script) book) }
    ensures licensed { WhereRan result (λ script book. AreLicensed (case_of script) book) }
    ensures follow { WhereRan result (λ script book. LogsFollow (case_of script) book) }
    ensures in_turns { WhereRan result (IsInTurns result.status) }
    ensures readings { WhereRan result (ReadsBy (C.due clock)) }

    // No actor made more calls than its stop names. Where all found memory, which status 5 alone denies, one was stopped only there, with
    // a next call; all others began and ended each of their transactions and rounds.
    ensures stops { (result.status ≡ 5 → ⊥) → WhereRan result (λ script book. StopsKept (case_of script) book) }
    ensures clients_complete { (result.status ≡ 5 → ⊥) → WhereRan result (λ script book. ClientsComplete (case_of script) book) }
    ensures cleaners_complete { (result.status ≡ 5 → ⊥) → WhereRan result (λ script book. CleanersComplete (case_of script) book) }

    // No attempt both commits and is rolled back, none commits twice, and none is answered that its entry is decided when it commits. At
    // most one attempt of a transaction commits, and the log tells whether one does, and where.
    ensures never_both { WhereRan result (λ script book. NeverBoth book.kept.opening book.kept.history) }
    ensures commits_once { WhereRan result (λ script book. CommitsOnce book.kept.opening book.kept.history) }
    ensures no_commit_decided { WhereRan result (λ script book. NoCommitDecided book.kept.opening book.kept.history) }
    ensures at_most_once { WhereRan result (λ script book. AtMostOnce book) }

    // At every moment each document resolves to what the committed write sets make of it, and a commit lists just the own writes.
    ensures documents { WhereRan result (λ script book. DocumentsCommitted (case_of script) book) }
    ensures own_writes { WhereRan result (λ script book. CommitsOwnWrites (case_of script) book) }

    // Each answer about a document is right at one moment of its operation, a client's moments rise, and no update is lost. Who was
    // contended, moved or blocked was so by others.
    ensures answers { WhereRan result (λ script book. AnswersRight (case_of script) book) }
    ensures moments { WhereRan result (λ script book. MomentsRise book) }
    ensures no_update_lost { WhereRan result (λ script book. NoUpdateLost (case_of script) book) }
    ensures contended { WhereRan result (λ script book. ContendedByOthers (case_of script) book) }
    ensures moved { WhereRan result (λ script book. MovedByOther (case_of script) book) }
    ensures blocked { WhereRan result (λ script book. BlockedByAnother (case_of script) book) }

    // A pass that ended Ok leaves nothing of the attempts that it covered, and an attempt that has ended nothing of itself; an entry is
    // lost by an eviction alone.
    ensures passes { WhereRan result (λ script book. PassesLeaveNothing book) }
    ensures attempts { WhereRan result (λ script book. AttemptsLeaveNothing book) }
    ensures entries_lost { WhereRan result (λ script book. LostByEviction book) }
{
    runs_are_right();
    completeness();
    obey(alloc, words, src, out, clock)
}
