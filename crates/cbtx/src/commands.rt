//! What the program does on a command.

ghost use Rattle.std.specs.Prelude.{◌≡◌, ℕ, ◌<◌, ◌≤◌, ◌^◌, ◌⊎◌, List, Option, false, true, None, Some, length, is_some, IfOk};
ghost use Rattle.std.specs.Io.KnownBytes.{Appends, Keeps};
ghost use Rattle.cbt_core.specs.Runs.{IsLegalRun};
ghost use Rattle.cbt_core.specs.Stops.{StopsKept};
ghost use Rattle.cbt_script.specs.Printed.{script_text};
ghost use Rattle.cbt_script.specs.Rules.{IsScript};
ghost use Rattle.cbt_streams.specs.Causes.{Rose};
ghost use Rattle.cbt_streams.specs.Streams.{ReadPast, ReadUpTo};
ghost use Rattle.cbt_words.specs.Commands.{command_of};
ghost use Rattle.cbtx.specs.Cases.{case_of};
ghost use Rattle.cbtx.specs.Commands.{draws, hands_back, is_usage, reads, run_text, runs};
ghost use Rattle.cbtx.specs.Headline.{IsInTurns, IsRunOf, ReadsBy, WhereRan};
ghost use Rattle.cbtx.specs.Statuses.{IsCut, IsCutOff, IsDrawn, IsEnd, IsRefused, IsReported, IsScriptOf, IsScriptRead, bad_line, max_input, usage_line};

use crate::ran::Ran;
use crate::run::run_script;
use crate::texts::{USAGE, bad_text, run_text, written};
use cbt_base::{Clock, Text};
use cbt_book::Book;
use cbt_gen::gen_script;
use cbt_script::{Bad, Script, ScriptFault, scripts_keep_rules};
use cbt_streams::{ReadFault, Sink, Source, read_all};
use cbt_words::{Command, command_of};
use std::alloc::Global;

/// The most bytes that an input has.
const MAX_INPUT: usize = 4_194_304;

/// Does what the words say.
pub fn obey<S: Source, K: Sink, C: Clock>(
    alloc: Global,
    words: &[Text],
    src: &mut S,
    out: &mut K,
    clock: C,
) -> Ran
    ensures usage { is_usage (command_of words.now) ≡ true → IsEnd result.status 2 }
    ensures usage_line { result.status ≡ 2 → (is_usage (command_of words.now) ≡ true) × Appends (K.taken out.old) (K.taken out.new) usage_line }
    ensures draws { draws (command_of words.now) ≡ true → IsEnd result.status 0 }
    ensures reported { result.status ≡ 0 → runs (command_of words.now) ≡ true
        → IsReported (command_of words.now) (K.taken out.old) (K.taken out.new) result.script result.book }
    ensures drawn { result.status ≡ 0 → runs (command_of words.now) ≡ false → IsDrawn (K.taken out.old) (K.taken out.new) result.script }
    ensures refused { result.status ≡ 1 → (reads (command_of words.now) ≡ true)
        × IsRefused (S.left src.old) (S.left src.new) (K.taken out.old) (K.taken out.new) }
    ensures too_long { result.status ≡ 6 → ReadPast (S.left src.old) (S.left src.new) max_input × Keeps (K.taken out.old) (K.taken out.new) }
    ensures within { (result.status ≡ 6 → ⊥) → ReadUpTo (S.left src.old) (S.left src.new) max_input }
    ensures unread { reads (command_of words.now) ≡ false → Keeps (S.left src.old) (S.left src.new) }
    ensures read_failed { result.status ≡ 3 → Rose (S.faults src.old) (S.faults src.new) × Keeps (K.taken out.old) (K.taken out.new) }
    ensures write_failed { result.status ≡ 4 → IsCutOff (command_of words.now) (S.left src.old) (S.left src.new) (K.taken out.old) (K.taken out.new)
        (K.faults out.old) (K.faults out.new) result.script result.book }
    ensures no_memory { result.status ≡ 5 → Keeps (K.taken out.old) (K.taken out.new) }
    ensures statuses { result.status < 7 }
    ensures together { runs (command_of words.now) ≡ true → is_some result.script ≡ is_some result.book }
    ensures no_book { ((0 < result.status) × (result.status < 4)) ⊎ (result.status ≡ 6) → result.book ≡ None }
    ensures no_run { runs (command_of words.now) ≡ false → result.book ≡ None }
    ensures handed_back { hands_back (command_of words.now) ≡ true → (result.status ≡ 5 → ⊥) → is_some result.script ≡ true }
    ensures not_handed { hands_back (command_of words.now) ≡ true → result.status ≡ 5 → result.script ≡ None }
    ensures script_is { (script : Script) → result.script ≡ Some script → IsScriptOf (command_of words.now) (S.left src.old) (S.left src.new) script }
    ensures run { WhereRan result IsRunOf }
    ensures stops { (result.status ≡ 5 → ⊥) → WhereRan result (λ script book. StopsKept (case_of script) book) }
    ensures in_turns { WhereRan result (IsInTurns result.status) }
    ensures readings { WhereRan result (ReadsBy (C.due clock)) }
{
    let Ok(command) = command_of(alloc, words) else {
        return Ran::ended(5);
    };
    let Some(command) = command else {
        return Ran::ended(written(out, USAGE, 2));
    };
    match command {
        Command::Sim { .. } => sim(alloc, &command, src, out, clock),
        Command::Run { .. } => Ran::ended(written(out, USAGE, 2)),
        Command::Gen {
            seed,
            clients,
            accounts,
            transfers,
            ..
        } => {
            match gen_script(alloc, seed, clients, accounts, transfers) {
                Ok(script) => generate(alloc, &command, out, script, clock),
                Err(_) => Ran::ended(5),
            }
        }
    }
}

// Runs the script that the source gives.
fn sim<S: Source, K: Sink, C: Clock>(
    alloc: Global,
    command: &Command,
    src: &mut S,
    out: &mut K,
    clock: C,
) -> Ran
    requires sims { reads (Some command.now) ≡ true }
    ensures no_usage { result.status ≡ 2 → ⊥ }
    ensures reported { result.status ≡ 0 → IsReported (Some command.now) (K.taken out.old) (K.taken out.new) result.script result.book }
    ensures refused { result.status ≡ 1 → IsRefused (S.left src.old) (S.left src.new) (K.taken out.old) (K.taken out.new) }
    ensures too_long { result.status ≡ 6 → ReadPast (S.left src.old) (S.left src.new) max_input × Keeps (K.taken out.old) (K.taken out.new) }
    ensures within { (result.status ≡ 6 → ⊥) → ReadUpTo (S.left src.old) (S.left src.new) max_input }
    ensures read_failed { result.status ≡ 3 → Rose (S.faults src.old) (S.faults src.new) × Keeps (K.taken out.old) (K.taken out.new) }
    ensures write_failed { result.status ≡ 4 → IsCutOff (Some command.now) (S.left src.old) (S.left src.new) (K.taken out.old) (K.taken out.new)
        (K.faults out.old) (K.faults out.new) result.script result.book }
    ensures no_memory { result.status ≡ 5 → Keeps (K.taken out.old) (K.taken out.new) }
    ensures statuses { result.status < 7 }
    ensures together { is_some result.script ≡ is_some result.book }
    ensures no_book { ((0 < result.status) × (result.status < 4)) ⊎ (result.status ≡ 6) → result.book ≡ None }
    ensures script_read { (script : Script) → result.script ≡ Some script → IsScriptRead (S.left src.old) (S.left src.new) script }
    ensures run { WhereRan result IsRunOf }
    ensures stops { (result.status ≡ 5 → ⊥) → WhereRan result (λ script book. StopsKept (case_of script) book) }
    ensures in_turns { WhereRan result (IsInTurns result.status) }
    ensures readings { WhereRan result (ReadsBy (C.due clock)) }
{
    scripts_keep_rules();
    let bytes = match read_all(alloc, src, MAX_INPUT) {
        Ok(bytes) => bytes,
        Err(ReadFault::NoMemory) => return Ran::ended(5),
        Err(ReadFault::Failed) => return Ran::ended(3),
        Err(ReadFault::TooLong) => return Ran::ended(6),
    };
    match Script::read(alloc, bytes.as_slice()) {
        Ok(script) => run(alloc, command, out, script, clock),
        Err(ScriptFault::Bad(bad)) => Ran::ended(refuse(alloc, out, bad)),
        Err(ScriptFault::NoMemory) => Ran::ended(5),
    }
}

// Runs a script that was drawn, where that is asked for, and else writes it.
fn generate<K: Sink, C: Clock>(
    alloc: Global,
    command: &Command,
    out: &mut K,
    script: Script,
    clock: C,
) -> Ran
    requires rules { IsScript script }
    requires draws { draws (Some command.now) ≡ true }
    ensures ends { IsEnd result.status 0 }
    ensures reported { result.status ≡ 0 → runs (Some command.now) ≡ true
        → IsReported (Some command.now) (K.taken out.old) (K.taken out.new) result.script result.book }
    ensures drawn { result.status ≡ 0 → runs (Some command.now) ≡ false → IsDrawn (K.taken out.old) (K.taken out.new) result.script }
    ensures write_failed { result.status ≡ 4 → (left left' : Option (List ℕ)) → IsCutOff (Some command.now) left left' (K.taken out.old) (K.taken out.new)
        (K.faults out.old) (K.faults out.new) result.script result.book }
    ensures no_memory { result.status ≡ 5 → Keeps (K.taken out.old) (K.taken out.new) }
    ensures together { runs (Some command.now) ≡ true → is_some result.script ≡ is_some result.book }
    ensures no_run { runs (Some command.now) ≡ false → result.book ≡ None }
    ensures handed_back { hands_back (Some command.now) ≡ true → (result.status ≡ 5 → ⊥) → is_some result.script ≡ true }
    ensures not_handed { hands_back (Some command.now) ≡ true → result.status ≡ 5 → result.script ≡ None }
    ensures same { (s : Script) → result.script ≡ Some s → s ≡ script }
    ensures run { WhereRan result IsRunOf }
    ensures stops { (result.status ≡ 5 → ⊥) → WhereRan result (λ script book. StopsKept (case_of script) book) }
    ensures in_turns { WhereRan result (IsInTurns result.status) }
    ensures readings { WhereRan result (ReadsBy (C.due clock)) }
{
    if matches!(command, Command::Gen { sim: true, .. }) {
        run(alloc, command, out, script, clock)
    } else {
        hand_back(alloc, out, script)
    }
}

// Writes a script that was drawn.
fn hand_back<K: Sink>(alloc: Global, out: &mut K, script: Script) -> Ran
    ensures ends { IsEnd result.status 0 }
    ensures whole { result.status ≡ 0 → Appends (K.taken out.old) (K.taken out.new) (script_text script) }
    ensures cut { result.status ≡ 4 → IsCut (K.taken out.old) (K.taken out.new) (K.faults out.old) (K.faults out.new) (script_text script) }
    ensures no_memory { result.status ≡ 5 → Keeps (K.taken out.old) (K.taken out.new) }
    ensures there { (result.status ≡ 5 → ⊥) → result.script ≡ Some script }
    ensures nothing { result.status ≡ 5 → result.script ≡ None }
    ensures book { result.book ≡ None }
{
    let Ok(text) = script.text(alloc) else {
        return Ran::ended(5);
    };
    let status = written(out, text.as_str(), 0);
    Ran {
        status,
        book: None,
        script: Some(script),
    }
}

// Lets a script run and writes what the command tells of it.
fn run<K: Sink, C: Clock>(
    alloc: Global,
    command: &Command,
    out: &mut K,
    script: Script,
    clock: C,
) -> Ran
    requires rules { IsScript script }
    ensures ends { IsEnd result.status 0 }
    ensures reported { result.status ≡ 0 → IsReported (Some command.now) (K.taken out.old) (K.taken out.new) result.script result.book }
    ensures told { result.status ≡ 4 → is_some result.book ≡ true }
    ensures cut { result.status ≡ 4 → (book : Book) → result.book ≡ Some book
        → IsCut (K.taken out.old) (K.taken out.new) (K.faults out.old) (K.faults out.new) (run_text command.now script book) }
    ensures no_memory { result.status ≡ 5 → Keeps (K.taken out.old) (K.taken out.new) }
    ensures together { is_some result.script ≡ is_some result.book }
    ensures same { (s : Script) → result.script ≡ Some s → s ≡ script }
    ensures run { WhereRan result IsRunOf }
    ensures stops { (result.status ≡ 5 → ⊥) → WhereRan result (λ script book. StopsKept (case_of script) book) }
    ensures in_turns { WhereRan result (IsInTurns result.status) }
    ensures readings { WhereRan result (ReadsBy (C.due clock)) }
{
    let Ok(ran) = run_script(alloc, &script, clock) else {
        return Ran::ended(5);
    };
    let status = report(alloc, command, out, &script, &ran.book, ran.refused);
    Ran {
        status,
        book: Some(ran.book),
        script: Some(script),
    }
}

// Writes what the command tells of a run, where all its actors found memory.
fn report<K: Sink>(
    alloc: Global,
    command: &Command,
    out: &mut K,
    script: &Script,
    book: &Book,
    refused: bool,
) -> u8
    requires rules { IsScript script.now }
    requires legal { IsLegalRun (case_of script.now) book.now }
    requires short { length book.now.kept.history ≤ 2 ^ 62 }
    ensures ends { IsEnd result 0 }
    ensures refused { refused ≡ true → result ≡ 5 }
    ensures whole { result ≡ 0 → Appends (K.taken out.old) (K.taken out.new) (run_text command.now script.now book.now) }
    ensures cut { result ≡ 4 → IsCut (K.taken out.old) (K.taken out.new) (K.faults out.old) (K.faults out.new)
        (run_text command.now script.now book.now) }
    ensures no_memory { result ≡ 5 → Keeps (K.taken out.old) (K.taken out.new) }
{
    if refused {
        return 5;
    }
    match run_text(alloc, command, script, book) {
        Ok(text) => written(out, text.as_str(), 0),
        Err(_) => 5,
    }
}

// Writes the first bad line and its cause.
fn refuse<K: Sink>(alloc: Global, out: &mut K, bad: Bad) -> u8
    ensures ends { IsEnd result 1 }
    ensures whole { result ≡ 1 → Appends (K.taken out.old) (K.taken out.new) (bad_line bad) }
    ensures cut { result ≡ 4 → IsCut (K.taken out.old) (K.taken out.new) (K.faults out.old) (K.faults out.new) (bad_line bad) }
    ensures no_memory { result ≡ 5 → Keeps (K.taken out.old) (K.taken out.new) }
{
    match bad_text(alloc, bad) {
        Ok(text) => written(out, text.as_str(), 1),
        Err(_) => 5,
    }
}
