//! The driver.

ghost use Rattle.std.specs.Prelude.{◌≡◌, ℕ, ◌+◌, ◌^◌, ◌<◌, ◌≤◌, ◌⊎◌, true, false, Some, None, [], length, slice_get};
ghost use Rattle.std.specs.List.{range_with_len};
ghost use Rattle.cbt_model.specs.History.{own};
ghost use Rattle.cbt_model.specs.Stops.{stop_of};
ghost use Rattle.cbt_model.specs.declared.events.Event.{Event};
ghost use Rattle.cbt_sched.specs.Stopping.{StopReached};
ghost use Rattle.cbt_sched.specs.Turns.{AddsMarks, callers, calls_of, marks_of, turns};

use crate::items::follow_items;
use crate::rounds::take_turns;
use cbt_base::List;
use cbt_model::{Actor, Item, Node};
use std::alloc::Global;

/// Drives actors over a node: first as the order's items say, and then in turns, one call each, until
/// all have ended or are stopped. The k-th actor of the list, from 0, has the number `first + k`.
///
/// A stop names how many calls its actor may make: once it has made them and has a next step, it is
/// stopped. Of two stops for an actor the first counts. Stops and items for numbers that are not in
/// the list, and items for actors that have ended or are stopped, are passed over.
///
/// Answers whether memory was refused. An actor that found none is then stopped, and the mark of an
/// `Ahead` that found none is missing. The driver itself needs no memory: a table that spares it
/// actors that have ended is left short where there is none.
pub fn drive_in_order<N: Node, A: Actor>(
    alloc: Global,
    node: &mut N,
    first: u32,
    actors: &mut List<A>,
    stops: &List<(u32, u64)>,
    order: &List<Item>,
) -> bool
    requires numbers { first + length actors.old < 2 ^ 32 }
    requires fresh { (k : ℕ) (a : A) → slice_get actors.old k ≡ Some a → A.stands_for a [] }
    requires apart { (k : ℕ) → k < length actors.old
        → own (N.opening node.old) (N.history node.old) (first + k) (length (N.history node.old)) ≡ [] }

    // Each actor stands for its own list of the history, and was made with what it was before.
    ensures length { length actors.new ≡ length actors.old }
    ensures stands { (k : ℕ) (a : A) → slice_get actors.new k ≡ Some a
        → A.stands_for a (own (N.opening node.new) (N.history node.new) (first + k) (length (N.history node.new))) }
    ensures origin { (k : ℕ) (begun a : A) → slice_get actors.old k ≡ Some begun → slice_get actors.new k ≡ Some a
        → A.same_origin begun a }

    // Each has ended or is stopped. It made no more calls than its stop names, and where no memory was
    // refused it was stopped only there, with a next step.
    ensures ended { (k : ℕ) (a : A) → slice_get actors.new k ≡ Some a → A.step_now a ≡ None }
    ensures within { (k most : ℕ) → k < length actors.old → stop_of stops.now (first + k) ≡ Some most
        → calls_of (callers (N.history node.new)) (first + k) ≤ most }
    ensures stopped { (k : ℕ) (begun a : A) → slice_get actors.old k ≡ Some begun → slice_get actors.new k ≡ Some a
        → result ≡ false → A.is_stopped begun ≡ false → A.is_stopped a ≡ true
        → StopReached A.stands_for A.step_now A.same_origin A.stopped_as (stop_of stops.now (first + k)) begun a
        (own (N.opening node.new) (N.history node.new) (first + k) (length (N.history node.new))) }

    // The history goes on with calls of these actors alone, in the order of turns for the numbers of
    // calls that they made.
    ensures kept { (i : ℕ) → i < length (N.history node.old)
        → slice_get (N.history node.new) i ≡ slice_get (N.history node.old) i }
    ensures known { (i : ℕ) (e : Event) → slice_get (N.history node.new) i ≡ Some e → length (N.history node.old) ≤ i
        → (first ≤ e.actor) × (e.actor < first + length actors.old) }
    ensures turns { callers (N.history node.new)
        ≡ turns (calls_of (callers (N.history node.new))) (range_with_len first (length actors.old)) order.now (callers (N.history node.old)) }

    // The own list of an actor that is not in the list stays as it is.
    ensures others { (other : ℕ) → (other < first) ⊎ (first + length actors.old ≤ other)
        → own (N.opening node.new) (N.history node.new) other (length (N.history node.new))
        ≡ own (N.opening node.old) (N.history node.old) other (length (N.history node.old)) }

    // The clock was moved ahead where the order says.
    ensures marks { AddsMarks result
        (marks_of (calls_of (callers (N.history node.new))) order.now (callers (N.history node.old)))
        (N.marks node.old) (N.marks node.new) }
    ensures opening { N.opening node.new ≡ N.opening node.old }
    ensures terms { N.terms node.new ≡ N.terms node.old }
    ensures readings { (f : ℕ → ℕ) → N.reads_by node.old f → N.reads_by node.new f }
{
    let mut refused = false;
    follow_items(alloc, node, first, actors, stops, order, &mut refused);
    take_turns(alloc, node, first, actors, stops, &mut refused);
    refused
}
