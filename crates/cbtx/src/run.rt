//! The run of a script: its actors are driven over a node, and what they leave is told.

ghost use Rattle.std.specs.Prelude.{◌≡◌, ℕ, ◌+◌, ◌^◌, ◌≤◌, false, None, [], length, IfOk};
ghost use Rattle.cbt_model.specs.Legal.{AreReadings};
ghost use Rattle.cbt_core.specs.Runs.{sweeps, terms_of, AreLicensed, IsLegalRun, LogsFollow};
ghost use Rattle.cbt_core.specs.Stops.{StopsKept};
ghost use Rattle.cbt_runs.specs.Ordered.{AreInTurns};
ghost use Rattle.cbt_script.specs.Opening.{opening_of};
ghost use Rattle.cbt_script.specs.Rules.{IsScript};
ghost use Rattle.cbtx.specs.Cases.{ahead_of, case_of};
ghost use Rattle.cbtx.specs.Crew.{IsCrew, IsSweep};

use crate::crew::{sweep_of, workers_of};
use crate::told::book_of;
use crate::workers::Worker;
use cbt_base::{Clock, Duplicate, List, NoMemory};
use cbt_book::Book;
use cbt_core::fresh_openings;
use cbt_lost::{cleaners_are_licensed, cleaners_tell};
use cbt_model::Node;
use cbt_plain::Plain;
use cbt_runs::{drive_then_sweep, driven_runs, stops_are_kept};
use cbt_script::{Script, openings_are_fresh};
use cbt_stops::shown_stays;
use cbt_txn::{clients_have_calls, clients_tell};
use std::alloc::Global;

/// What a run leaves.
#[derive(Drop)]
pub struct Run {
    pub book: Book,
    /// An actor was stopped for want of memory, or the clock was not moved ahead for want of it.
    pub refused: bool,
}

/// Lets a script run over the typed node. The clock is read where the script has no clock line.
///
/// The actors go in the script's order and then in turns until each has ended or is stopped. Behind them
/// the clock is moved ahead and the sweep goes, where the script has one.
pub fn run_script<C: Clock>(alloc: Global, script: &Script, clock: C) -> Result<Run, NoMemory>
    requires rules { IsScript script.now }
    // It is a legal run of licensed actors, whose logs follow their plans.
    ensures legal { IfOk result (λ run. IsLegalRun (case_of script.now) run.book) }
    ensures licensed { IfOk result (λ run. AreLicensed (case_of script.now) run.book) }
    ensures follow { IfOk result (λ run. LogsFollow (case_of script.now) run.book) }

    // No actor made more calls than its stop names. Where no memory was refused an actor was stopped only there, with a next call.
    ensures stops { IfOk result (λ run. run.refused ≡ false → StopsKept (case_of script.now) run.book) }

    // The actors call in the script's order and then in turns, and the sweep behind them. The clock was moved ahead where the order
    // says and before the sweep, and a mark is missing only where memory was refused.
    ensures turns { IfOk result (λ run. AreInTurns (length script.now.clients + length script.now.cleaners) (sweeps script.now.sweep)
        (ahead_of script.now) script.now.order run.refused run.book.kept.history [] run.book.kept.marks) }
    ensures short { IfOk result (λ run. length run.book.kept.history ≤ 2 ^ 62) }
    ensures readings { script.now.line ≡ None → IfOk result (λ run. (f : ℕ → ℕ) → C.due clock f
        → AreReadings f run.book.kept.history run.book.kept.marks) }
{
    let workers = workers_of(alloc, script)?;
    let sweep = sweep_of(alloc, script)?;
    let opening = script.opening(alloc)?;
    let faults = script.faults.copy(alloc)?;
    let node = Plain::new(alloc, opening, faults, script.line, clock)?;
    run_script_on(alloc, script, node, workers, sweep)
}

/// Lets the actors of a script run over a node, which has made no call.
pub fn run_script_on<N: Node>(
    alloc: Global,
    script: &Script,
    mut node: N,
    mut workers: List<Worker>,
    mut sweep: List<Worker>,
) -> Result<Run, NoMemory>
    requires rules { IsScript script.now }
    requires crew { IsCrew script.now workers }
    requires sweep { IsSweep script.now sweep }
    requires opening { N.opening node ≡ opening_of script.now.docs }
    requires terms { N.terms node ≡ terms_of (case_of script.now) }
    requires unused { N.history node ≡ [] }
    requires unmarked { N.marks node ≡ [] }
    ensures legal { IfOk result (λ run. IsLegalRun (case_of script.now) run.book) }
    ensures licensed { IfOk result (λ run. AreLicensed (case_of script.now) run.book) }
    ensures follow { IfOk result (λ run. LogsFollow (case_of script.now) run.book) }
    ensures stops { IfOk result (λ run. run.refused ≡ false → StopsKept (case_of script.now) run.book) }
    ensures turns { IfOk result (λ run. AreInTurns (length script.now.clients + length script.now.cleaners) (sweeps script.now.sweep)
        (ahead_of script.now) script.now.order run.refused run.book.kept.history [] run.book.kept.marks) }
    ensures short { IfOk result (λ run. length run.book.kept.history ≤ 2 ^ 62) }
    ensures readings { script.now.line ≡ None → IfOk result (λ run. (f : ℕ → ℕ) → N.reads_by node f
        → AreReadings f run.book.kept.history run.book.kept.marks) }
{
    clients_tell();
    clients_have_calls();
    cleaners_tell();
    cleaners_are_licensed();
    openings_are_fresh();
    fresh_openings();
    shown_stays();
    driven_runs::<Worker>();
    stops_are_kept::<Worker>();
    let ahead = script.sweep.unwrap_or(0);
    let refused = drive_then_sweep(
        alloc,
        &mut node,
        &mut workers,
        &mut sweep,
        ahead,
        &script.stops,
        &script.order,
    );
    let kept = node.finish();
    let book = book_of(alloc, kept, workers, sweep)?;
    Ok(Run { book, refused })
}
