//! What the calls of a put, and of a write over an own write, come to, whatever fitting answers they had.
//! Each function does nothing: what it ensures is the law. They take no memory.
//!
//! An attempt writes under the terms `t`, and `mine` are the calls of its one write, newest first.

ghost use Rattle.std.specs.Prelude.{◌≡◌, ◌≢◌, ℕ, ◌+◌, ◌≤◌, ◌↔◌, true, false, List, [], ◌++◌, length, Some, None};
ghost use Rattle.cbt_model.specs.declared.events.Made.{Made};
ghost use Rattle.cbt_model.specs.declared.steps.Step.{Step};
ghost use Rattle.cbt_book.specs.Calls.{GetCalls, WriteCalls, WriteTerms};
ghost use Rattle.cbt_book.specs.Licence.{MayTake};
ghost use Rattle.cbt_book.specs.Numbers.{Identity};
ghost use Rattle.cbt_book.specs.Outcomes.{AskedFourTimes, DoneAt, EndsFailed, is_refusal};
ghost use Rattle.cbt_book.specs.OwnLists.{during, Each};
ghost use Rattle.cbt_book.specs.declared.operations.Span.{Span};
ghost use Rattle.cbt_book.specs.declared.operations.When.{When};
ghost use Rattle.cbt_book.specs.declared.operations.When.TheVariants as when;
ghost use Rattle.cbt_stage.specs.OpenPuts.{LeavesOpen};
ghost use Rattle.cbt_stage.specs.Phases.{calls_left, end_of, step_of};
ghost use Rattle.cbt_stage.specs.PutCalls.{PutCalls};
ghost use Rattle.cbt_stage.specs.Ready.{IsPart, IsReady};
ghost use Rattle.cbt_stage.specs.Rewrites.{asked_by, call_left};
ghost use Rattle.cbt_stage.specs.Rewriting.{EndsWriting, IsWritten, StandsOnce};
ghost use Rattle.cbt_stage.specs.Standing.{EndsBlocked, EndsStaging, StandsFor, WasAsked};
ghost use Rattle.cbt_stage.specs.declared.agains.Again.{Again};
ghost use Rattle.cbt_stage.specs.declared.phases.Phase.{Phase};
ghost use Rattle.cbt_stage.specs.declared.puts.Put.{Put};
ghost use Rattle.cbt_stage.specs.declared.tasks.Task.{Task};

use crate::ends::PutEnd;

/// What a put has ended with is so by its calls: the newest staged the write over what was read, or was
/// refused by the document, or failed; or all four showed the entry of the attempt whose write waits.
pub fn puts_end_right()
    ensures staged { (t : WriteTerms) (put : Put) (mine : List Made) (place : ℕ) (base : When) → StandsFor t put mine
        → end_of put ≡ Some (PutEnd.Staged place base)
        → (base ≡ when.At put.task.seen.moment) × EndsStaging put.task (DoneAt place) mine }
    ensures moved { (t : WriteTerms) (put : Put) (mine : List Made) → StandsFor t put mine
        → end_of put ≡ Some PutEnd.Moved
        → EndsStaging put.task (λ m. is_refusal m.answer.reply ≡ true) mine }
    ensures blocked { (t : WriteTerms) (put : Put) (mine : List Made) (by : ℕ) → StandsFor t put mine
        → end_of put ≡ Some (PutEnd.Blocked by) → EndsBlocked put.task by mine }
    ensures failed { (t : WriteTerms) (put : Put) (mine : List Made) (place : ℕ) → StandsFor t put mine
        → end_of put ≡ Some (PutEnd.CallFailed place) → EndsFailed place mine }
    // Nothing is taken back.
    ensures unstaged { (t : WriteTerms) (put : Put) (mine : List Made) (place : ℕ) → StandsFor t put mine
        → end_of put ≢ Some (PutEnd.Unstaged place) }
{}

/// What the calls of a put come to they come to also where the readings of a get stand before them.
pub fn puts_end_behind_gets()
    ensures staged { (o : Task) (place : ℕ) (mine reads : List Made) → EndsStaging o (DoneAt place) mine
        → EndsStaging o (DoneAt place) (mine ++ reads) }
    ensures moved { (o : Task) (mine reads : List Made) → EndsStaging o (λ m. is_refusal m.answer.reply ≡ true) mine
        → EndsStaging o (λ m. is_refusal m.answer.reply ≡ true) (mine ++ reads) }
    ensures blocked { (r by : ℕ) (mine reads : List Made) → AskedFourTimes r by [] mine
        → AskedFourTimes r by reads (mine ++ reads) }
    ensures failed { (place : ℕ) (mine reads : List Made) → EndsFailed place mine → EndsFailed place (mine ++ reads) }
{}

/// After each call a put has made only the calls of a write, few of each kind, and has so many left that
/// it makes at most 6. With the readings of a get before them they are the calls of a write.
pub fn puts_stay_bounded()
    ensures calls { (t : WriteTerms) (put : Put) (mine : List Made) → StandsFor t put mine
        → PutCalls t put.task.doc mine }
    ensures after_get { (t : WriteTerms) (put : Put) (mine reads : List Made) → StandsFor t put mine
        → GetCalls put.task.doc reads → WriteCalls t put.task.doc (mine ++ reads) }
    ensures alone { (t : WriteTerms) (put : Put) (mine : List Made) → StandsFor t put mine
        → WriteCalls t put.task.doc mine }
    ensures few { (t : WriteTerms) (put : Put) (mine : List Made) → StandsFor t put mine
        → length mine + calls_left put ≤ 6 }
{}

/// A put asks for a call exactly where it has not ended, and exactly where a call is left. While it asks
/// for the entry of another attempt, its calls so far were readings that showed that entry; and while it
/// has not ended, no call failed and none wrote.
pub fn puts_go_on()
    ensures ended { (put : Put) → end_of put ≢ None → step_of put ≡ None }
    ensures asks { (put : Put) → end_of put ≡ None → step_of put ≢ None }
    ensures none_left { (put : Put) → calls_left put ≡ 0 ↔ step_of put ≡ None }
    ensures waits { (t : WriteTerms) (put : Put) (mine : List Made) (r by left : ℕ) → StandsFor t put mine
        → put.phase ≡ Phase.Asking r by left → WasAsked put.task r by left mine }
    ensures leaves_open { (t : WriteTerms) (put : Put) (mine : List Made) → StandsFor t put mine
        → end_of put ≡ None → Each (λ m _. LeavesOpen put.task m) mine }
{}

/// The call that a put asks for is one that its client may make next, where the client's own list before
/// the put, `l0`, shows what the put was begun with.
pub fn puts_are_licensed()
    ensures { (who : Identity) (t : WriteTerms) (put : Put) (mine l0 : List Made) (s : Step)
        → StandsFor t put mine → IsReady who put.task l0 → step_of put ≡ Some s
        → MayTake who (mine ++ l0) s }
{}

/// The newest calls of a list, and its calls in a span, are a part of it: a put may stand on a reading by
/// either.
pub fn readings_are_parts()
    ensures newest { (reads older : List Made) → IsPart reads (reads ++ older) }
    ensures during { (span : Span) (l : List Made) → IsPart (during span l) l }
{}

/// What a write over an own write has ended with is so by its call: it staged over the own write, took
/// it back, was refused by the document, or failed.
pub fn agains_end_right()
    ensures staged { (t : WriteTerms) (again : Again) (mine : List Made) (place : ℕ) (base : When) → StandsOnce t again mine
        → again.end ≡ Some (PutEnd.Staged place base)
        → (again.task.back ≡ false) × (base ≡ when.Own) × EndsWriting again.task (DoneAt place) mine }
    ensures unstaged { (t : WriteTerms) (again : Again) (mine : List Made) (place : ℕ) → StandsOnce t again mine
        → again.end ≡ Some (PutEnd.Unstaged place)
        → (again.task.back ≡ true) × EndsWriting again.task (DoneAt place) mine }
    ensures moved { (t : WriteTerms) (again : Again) (mine : List Made) → StandsOnce t again mine
        → again.end ≡ Some PutEnd.Moved
        → EndsWriting again.task (λ m. is_refusal m.answer.reply ≡ true) mine }
    ensures failed { (t : WriteTerms) (again : Again) (mine : List Made) (place : ℕ) → StandsOnce t again mine
        → again.end ≡ Some (PutEnd.CallFailed place) → EndsFailed place mine }
    // Nobody is waited for.
    ensures blocked { (t : WriteTerms) (again : Again) (mine : List Made) (by : ℕ) → StandsOnce t again mine
        → again.end ≢ Some (PutEnd.Blocked by) }
{}

/// A write over an own write asks for a call exactly where it has not ended, and makes one at most.
pub fn agains_stay_bounded()
    ensures calls { (t : WriteTerms) (again : Again) (mine : List Made) → StandsOnce t again mine
        → WriteCalls t again.task.doc mine }
    ensures few { (t : WriteTerms) (again : Again) (mine : List Made) → StandsOnce t again mine
        → length mine + call_left again ≤ 1 }
    ensures none_left { (again : Again) → call_left again ≡ 0 ↔ asked_by again ≡ None }
    ensures first { (t : WriteTerms) (again : Again) (mine : List Made) (s : Step) → StandsOnce t again mine
        → asked_by again ≡ Some s → mine ≡ [] }
    ensures ended { (again : Again) → again.end ≢ None → asked_by again ≡ None }
    ensures asks { (again : Again) → again.end ≡ None → asked_by again ≢ None }
{}

/// The call of a write over an own write is one that its client may make next, where the client's own
/// list before it, `l0`, shows the own write staged with its stamp and the attempt not decided.
pub fn agains_are_licensed()
    ensures { (who : Identity) (t : WriteTerms) (again : Again) (mine l0 : List Made) (s : Step)
        → StandsOnce t again mine → IsWritten again.task l0 → asked_by again ≡ Some s
        → MayTake who (mine ++ l0) s }
{}
