//! Turns of all actors, round after round.

ghost use Rattle.std.specs.Prelude.{◌≡◌, ℕ, suc, ◌+◌, ◌^◌, ◌<◌, ◌≤◌, ◌⊎◌, Bool, true, false, List as Seq, ◌++◌, length, sum_by};
ghost use Rattle.std.specs.List.{range_with_len};
ghost use Rattle.cbt_sched.specs.Driving.{AllStand, Agrees, InRound, IsOutside, Keeps, asks};
ghost use Rattle.cbt_sched.specs.Positions.{LeadsOn};
ghost use Rattle.cbt_sched.specs.Turns.{callers, calls_of, left_after, rounds};

use crate::going::Going;
use crate::stops::stop_of;
use crate::visits::make_call;
use cbt_base::List;
use cbt_model::{Actor, Node};
use std::alloc::Global;

/// Gives each actor that may go on one turn, by rising number. Answers whether any of them called.
fn one_round<N: Node, A: Actor>(
    alloc: Global,
    node: &mut N,
    first: u32,
    actors: &mut List<A>,
    stops: &List<(u32, u64)>,
    going: &mut Going,
    refused: &mut bool,
) -> bool
    requires numbers { first + length actors.old < 2 ^ 32 }
    requires going { LeadsOn first (length actors.old) going.old.next (asks A.step_now first actors.old) }
    ensures going { LeadsOn first (length actors.old) going.new.next (asks A.step_now first actors.new) }
    ensures keeps { Keeps N.Node (AllStand N.Node A.Actor first stops.now) (IsOutside first (length actors.old))
        refused.old node.old actors.old refused.new node.new actors.new }
    ensures marks { N.marks node.new ≡ N.marks node.old }
    ensures length { length actors.new ≡ length actors.old }
    ensures round { (ordered : Seq ℕ) (at_first : ℕ → Bool) (r : ℕ)
        → InRound first (length actors.old) ordered at_first r 0 (callers (N.history node.old)) (asks A.step_now first actors.old)
        → InRound first (length actors.old) ordered at_first (suc r) 0 (callers (N.history node.new)) (asks A.step_now first actors.new) }
    ensures ended { result ≡ false → (number : ℕ) → asks A.step_now first actors.new number ≡ false }
    ensures fewer { result ≡ true → sum_by A.calls_left actors.new < sum_by A.calls_left actors.old }
{
    let mut called = false;
    let mut last = 0;
    let mut at = going.after(0);
    while at <= actors.len() {
        let place = at - 1;
        let number = first + place as u32;
        let stop = stop_of(stops, number);
        if make_call(alloc, node, number, stop, actors.at_mut(place), refused) {
            called = true;
            last = at;
        } else {
            going.pass_over(last, at);
        }
        at = going.after(at);
    }
    called
}

/// Gives all actors turns, one call each, until all have ended or are stopped.
pub fn take_turns<N: Node, A: Actor>(
    alloc: Global,
    node: &mut N,
    first: u32,
    actors: &mut List<A>,
    stops: &List<(u32, u64)>,
    refused: &mut bool,
)
    requires { first + length actors.old < 2 ^ 32 }
    ensures keeps { Keeps N.Node (AllStand N.Node A.Actor first stops.now) (IsOutside first (length actors.old))
        refused.old node.old actors.old refused.new node.new actors.new }
    ensures marks { N.marks node.new ≡ N.marks node.old }
    ensures length { length actors.new ≡ length actors.old }
    ensures agreed { Agrees (callers (N.history node.old)) (asks A.step_now first actors.old) (calls_of (callers (N.history node.new))) }
    ensures rounds { let left = left_after (calls_of (callers (N.history node.new))) (callers (N.history node.old)) in
        let numbers = range_with_len first (length actors.old) in
        callers (N.history node.new) ≡ callers (N.history node.old) ++ rounds left numbers (sum_by left numbers) }
    ensures ended { (number : ℕ) → asks A.step_now first actors.new number ≡ false }
{
    let mut going = Going::all(alloc, actors.len());
    while one_round(alloc, node, first, actors, stops, &mut going, refused) {}
}
