//! Workers, and a sweep behind them.

ghost use Rattle.std.specs.Prelude.{◌≡◌, ℕ, suc, ◌+◌, ◌^◌, ◌<◌, ◌≤◌, ◌⊎◌, false, Some, [], length, slice_get};
ghost use Rattle.std.specs.List.{range_with_len};
ghost use Rattle.cbt_model.specs.History.{own};
ghost use Rattle.cbt_model.specs.declared.events.Event.{Event};
ghost use Rattle.cbt_sched.specs.Turns.{AddsMarks, callers, calls_of, turns};
ghost use Rattle.cbt_runs.specs.Driven.{kept_by, AreDriven, HaveRun};
ghost use Rattle.cbt_runs.specs.Ordered.{sweep_mark, AreInTurns};
ghost use Rattle.cbt_runs.specs.Stopped.{AreStopped, StayWithin};

use cbt_base::List;
use cbt_model::{Actor, Item, Node};
use cbt_sched::drive_in_order;
use std::alloc::Global;

/// Drives workers over a node as `drive_in_order` does, their numbers beginning with 1. Once they have
/// all ended or are stopped, the clock is moved ahead, and the sweep is driven, whose number follows
/// theirs. The sweep has no stop, and items for its number are passed over. Where there is none the clock
/// is not moved.
///
/// Answers whether memory was refused. A sweep follows a refusal too, and also where the clock could not
/// be moved ahead for want of memory.
pub fn drive_then_sweep<N: Node, A: Actor>(
    alloc: Global,
    node: &mut N,
    workers: &mut List<A>,
    sweep: &mut List<A>,
    ahead: u64,
    stops: &List<(u32, u64)>,
    order: &List<Item>,
) -> bool
    requires numbers { 1 + length workers.old + length sweep.old < 2 ^ 32 }
    requires workers { (k : ℕ) (a : A) → slice_get workers.old k ≡ Some a → A.stands_for a [] }
    requires sweep { (k : ℕ) (a : A) → slice_get sweep.old k ≡ Some a → A.stands_for a [] }
    requires empty { N.history node.old ≡ [] }

    // Each actor stands for its own list, was made with what it was before, and has ended or is stopped.
    // The history has calls of these actors alone and keeps the node's terms.
    ensures driven { AreDriven A.Actor (N.terms node.old) (kept_by N.Node node.new) workers.old workers.new sweep.old sweep.new }

    // No worker made more calls than its stop names. Where no memory was refused workers were stopped only
    // there, with a next step, and the sweep was not.
    ensures within { StayWithin stops.now (length workers.old) (kept_by N.Node node.new) }
    ensures stopped { result ≡ false → AreStopped A.Actor stops.now (kept_by N.Node node.new) workers.old workers.new sweep.old sweep.new }

    // The workers' calls are in the order of turns, and those of the sweep stand behind them. The clock was
    // moved ahead where the order says, and before the sweep.
    ensures turns { AreInTurns (length workers.old) (length sweep.old) ahead order.now result
        (N.history node.new) (N.marks node.old) (N.marks node.new) }
    ensures opening { N.opening node.new ≡ N.opening node.old }
    ensures terms { N.terms node.new ≡ N.terms node.old }
    ensures readings { (f : ℕ → ℕ) → N.reads_by node.old f → N.reads_by node.new f }
{
    let mut refused = drive_in_order(alloc, node, 1, workers, stops, order);
    let number = workers.len() as u32 + 1;
    refused |= drive_sweep(alloc, node, number, sweep, ahead);
    refused
}

/// Moves the clock ahead and drives a sweep, where there is one.
fn drive_sweep<N: Node, A: Actor>(
    alloc: Global,
    node: &mut N,
    number: u32,
    sweep: &mut List<A>,
    ahead: u64,
) -> bool
    requires numbers { number + length sweep.old < 2 ^ 32 }
    requires fresh { (k : ℕ) (a : A) → slice_get sweep.old k ≡ Some a → A.stands_for a [] }
    requires apart { (k : ℕ) → k < length sweep.old
        → own (N.opening node.old) (N.history node.old) (number + k) (length (N.history node.old)) ≡ [] }
    ensures runs { HaveRun A.Actor number (kept_by N.Node node.new) sweep.old sweep.new }
    ensures never_stopped { (k : ℕ) (begun a : A) → slice_get sweep.old k ≡ Some begun → slice_get sweep.new k ≡ Some a
        → result ≡ false → A.is_stopped begun ≡ false → A.is_stopped a ≡ false }
    ensures kept { (i : ℕ) → i < length (N.history node.old)
        → slice_get (N.history node.new) i ≡ slice_get (N.history node.old) i }
    ensures known { (i : ℕ) (e : Event) → slice_get (N.history node.new) i ≡ Some e → length (N.history node.old) ≤ i
        → (number ≤ e.actor) × (e.actor < number + length sweep.old) }
    ensures others { (other : ℕ) → (other < number) ⊎ (number + length sweep.old ≤ other)
        → own (N.opening node.new) (N.history node.new) other (length (N.history node.new))
        ≡ own (N.opening node.old) (N.history node.old) other (length (N.history node.old)) }
    ensures turns { callers (N.history node.new)
        ≡ turns (calls_of (callers (N.history node.new))) (range_with_len number (length sweep.old)) [] (callers (N.history node.old)) }
    ensures marks { AddsMarks result (sweep_mark (length sweep.old) ahead (length (N.history node.old))) (N.marks node.old) (N.marks node.new) }
    ensures opening { N.opening node.new ≡ N.opening node.old }
    ensures terms { N.terms node.new ≡ N.terms node.old }
    ensures readings { (f : ℕ → ℕ) → N.reads_by node.old f → N.reads_by node.new f }
{
    if sweep.is_empty() {
        return false;
    }
    let mut refused = node.advance(ahead).is_err();
    let no_stops = List::new(alloc);
    let no_items = List::new(alloc);
    refused |= drive_in_order(alloc, node, number, sweep, &no_stops, &no_items);
    refused
}
