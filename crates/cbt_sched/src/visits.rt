//! Calls of one actor.

ghost use Rattle.std.specs.Prelude.{◌≡◌, ◌≢◌, ◌<◌, ◌≤◌, true, is_some, MatchBool};
ghost use Rattle.cbt_sched.specs.Driving.{Called, Idle, Keeps, Stands, Visits};
ghost use Rattle.cbt_sched.specs.Turns.{callers};

use crate::stops::is_reached;
use cbt_base::NoMemory;
use cbt_model::{Actor, Node};
use std::alloc::Global;

/// Gives an actor its turn: it makes its next call, if it has one, and learns the answer. Answers
/// whether it called.
///
/// An actor that has made as many calls as its stop names, and has a next step, is stopped; so is one
/// that finds no memory, which `refused` then tells.
pub fn make_call<N: Node, A: Actor>(
    alloc: Global,
    node: &mut N,
    number: u32,
    stop: Option<u64>,
    actor: &mut A,
    refused: &mut bool,
) -> bool
    ensures keeps { Keeps N.Node (Stands N.Node A.Actor number stop) (λ other. other ≢ number)
        refused.old node.old actor.old refused.new node.new actor.new }
    ensures marks { N.marks node.new ≡ N.marks node.old }
    ensures turn { MatchBool result
        (Called number (callers (N.history node.old)) (callers (N.history node.new)) (is_some (A.step_now actor.old)))
        (Idle (callers (N.history node.old)) (callers (N.history node.new)) (is_some (A.step_now actor.new))) }
    ensures fewer { result ≡ true → A.calls_left actor.new < A.calls_left actor.old }
    ensures no_more { A.calls_left actor.new ≤ A.calls_left actor.old }
{
    let step = match actor.next(alloc) {
        Ok(Some(step)) => step,
        Ok(None) => return false,
        Err(NoMemory) => {
            actor.stop();
            *refused = true;
            return false;
        }
    };
    if is_reached(stop, actor.calls()) {
        actor.stop();
        return false;
    }
    match node.call(number, step) {
        Ok(answer) => {
            if actor.learn(alloc, answer).is_err() {
                *refused = true;
            }
            true
        }
        Err(NoMemory) => {
            actor.stop();
            *refused = true;
            false
        }
    }
}

/// Lets an actor make its next calls: up to a limit, where there is one, and until it ends or is
/// stopped.
pub fn make_calls<N: Node, A: Actor>(
    alloc: Global,
    node: &mut N,
    number: u32,
    stop: Option<u64>,
    limit: Option<u64>,
    actor: &mut A,
    refused: &mut bool,
)
    ensures keeps { Keeps N.Node (Stands N.Node A.Actor number stop) (λ other. other ≢ number)
        refused.old node.old actor.old refused.new node.new actor.new }
    ensures marks { N.marks node.new ≡ N.marks node.old }
    ensures calls { Visits number limit (callers (N.history node.old)) (callers (N.history node.new))
        (is_some (A.step_now actor.old)) (is_some (A.step_now actor.new)) }
{
    let mut left = limit;
    while left != Some(0) && make_call(alloc, node, number, stop, actor, refused) {
        left = left.map(|calls| calls - 1);
    }
}
