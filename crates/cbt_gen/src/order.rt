//! The order in which the clients make their calls.

ghost use Rattle.std.specs.Prelude.{◌≡◌, ◌<◌, ◌≤◌, IfOk, OnOk};
ghost use Rattle.cbt_gen.specs.Draws.{many};
ghost use Rattle.cbt_gen.specs.Generated.{calls};

use crate::draws::draw;
use cbt_base::{List, NoMemory};
use cbt_model::Item;
use rand_pcg::Pcg32;
use std::alloc::Global;

/// How many items the order has.
const ITEMS: u32 = 64;

/// The most calls that an item asks for.
const MOST_CALLS: u32 = 6;

/// Draws the order of so many clients.
pub(crate) fn draw_order(
    alloc: Global,
    stream: &mut Pcg32,
    clients: u32,
) -> Result<List<Item>, NoMemory>
    requires some { 0 < clients }
    requires few { clients ≤ 32 }
    ensures value { IfOk result (λ order. order ≡ (many 64 (λ i. calls clients) stream.old).0) }
    ensures behind { OnOk result (stream.new ≡ (many 64 (λ i. calls clients) stream.old).1) }
{
    let mut order = List::new(alloc);
    for _before in 0..ITEMS {
        order.push(draw_calls(stream, clients))?;
    }
    Ok(order)
}

// A few calls of one of so many clients.
fn draw_calls(stream: &mut Pcg32, clients: u32) -> Item
    requires some { 0 < clients }
    requires few { clients ≤ 32 }
    ensures value { result ≡ (calls clients stream.old).0 }
    ensures behind { stream.new ≡ (calls clients stream.old).1 }
{
    let client = draw(stream, clients);
    let calls = draw(stream, MOST_CALLS);
    Item::Calls {
        actor: 1 + client,
        k: 1 + u64::from(calls),
    }
}
