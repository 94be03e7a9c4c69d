//! The items of an order.

ghost use Rattle.std.specs.Prelude.{◌≡◌, ◌≢◌, ℕ, ◌+◌, ◌^◌, ◌<◌, ◌≤◌, ◌⊎◌, Bool, false, List as Seq, [], ◌∷◌, length, None, IfSome};
ghost use Rattle.cbt_sched.specs.Driving.{AllStand, Agrees, Follows, IsOutside, Keeps, asks};
ghost use Rattle.cbt_sched.specs.Turns.{callers};

use crate::stops::stop_of;
use crate::visits::make_calls;
use cbt_base::List;
use cbt_model::{Actor, Item, Node};
use std::alloc::Global;

// The place in a list whose numbers begin with `first`; none for a number that is not in the list.
fn place_of(first: u32, count: usize, number: u32) -> Option<usize>
    ensures place { IfSome result (λ place. (first + place ≡ number) × (place < count)) }
    ensures unknown { result ≡ None → (number < first) ⊎ (first + count ≤ number) }
{
    let place = number.checked_sub(first)? as usize;
    (place < count).then_some(place)
}

/// Follows one item. One for an actor that has ended, is stopped or is not in the list is passed
/// over; so is an `Ahead` that finds no memory, which `refused` then tells.
fn follow_item<N: Node, A: Actor>(
    alloc: Global,
    node: &mut N,
    first: u32,
    actors: &mut List<A>,
    stops: &List<(u32, u64)>,
    item: Item,
    refused: &mut bool,
)
    requires { first + length actors.old < 2 ^ 32 }
    ensures keeps { Keeps N.Node (AllStand N.Node A.Actor first stops.now) (IsOutside first (length actors.old))
        refused.old node.old actors.old refused.new node.new actors.new }
    ensures length { length actors.new ≡ length actors.old }
    ensures follows { (n : ℕ → ℕ) → Agrees (callers (N.history node.new)) (asks A.step_now first actors.new) n
        → Follows (item ∷ []) refused.new (N.marks node.old) (N.marks node.new)
        (callers (N.history node.old)) (callers (N.history node.new)) (asks A.step_now first actors.old) (asks A.step_now first actors.new) n }
{
    let (number, limit) = match item {
        Item::Calls { actor, k } => (actor, Some(k)),
        Item::All { actor } => (actor, None),
        Item::Ahead { ms } => {
            if node.advance(ms).is_err() {
                *refused = true;
            }
            return;
        }
    };
    if let Some(place) = place_of(first, actors.len(), number) {
        let stop = stop_of(stops, number);
        let actor = actors.at_mut(place);
        make_calls(alloc, node, number, stop, limit, actor, refused);
    }
}

/// Follows an order, item by item.
pub fn follow_items<N: Node, A: Actor>(
    alloc: Global,
    node: &mut N,
    first: u32,
    actors: &mut List<A>,
    stops: &List<(u32, u64)>,
    order: &List<Item>,
    refused: &mut bool,
)
    requires { first + length actors.old < 2 ^ 32 }
    ensures keeps { Keeps N.Node (AllStand N.Node A.Actor first stops.now) (IsOutside first (length actors.old))
        refused.old node.old actors.old refused.new node.new actors.new }
    ensures length { length actors.new ≡ length actors.old }
    ensures follows { (n : ℕ → ℕ) → Agrees (callers (N.history node.new)) (asks A.step_now first actors.new) n
        → Follows order.now refused.new (N.marks node.old) (N.marks node.new)
        (callers (N.history node.old)) (callers (N.history node.new)) (asks A.step_now first actors.old) (asks A.step_now first actors.new) n }
{
    for item in order.as_slice() {
        follow_item(alloc, node, first, actors, stops, *item, refused);
    }
}
