//! How many calls each actor has made.

ghost use Rattle.std.specs.Prelude.{◌≡◌, ◌≢◌, ℕ, ◌+◌, ◌<◌, ◌^◌, unwrap_or, IsSome, IfOk, OnOk, OnErr};
ghost use Rattle.std.specs.Ordering.{nat_cmp};
ghost use Rattle.cbt_base.specs.Keyed.{at_key};
ghost use Rattle.cbt_plain.specs.Counts.{count_of};

use cbt_base::{Map, NoMemory};

/// The number of an actor's next call, from 1. Afterwards there is room for its count; the counts
/// are as before, on `NoMemory` too.
pub fn next_number(calls: &mut Map<u32, u64>, actor: u32) -> Result<u64, NoMemory>
    requires { (a : ℕ) → count_of calls.old a < 2 ^ 63 }
    ensures number { IfOk result (λ number. number ≡ count_of calls.old actor + 1) }
    ensures room { OnOk result (IsSome (at_key nat_cmp calls.new actor)) }
    ensures same { (a : ℕ) → count_of calls.new a ≡ count_of calls.old a }
{
    match calls.get(&actor) {
        Some(count) => Ok(*count + 1),
        None => {
            calls.insert(actor, 0)?;
            Ok(1)
        }
    }
}

/// Sets an actor's count, for which there is room.
pub fn set_number(calls: &mut Map<u32, u64>, actor: u32, number: u64)
    requires { IsSome (at_key nat_cmp calls.old actor) }
    ensures own { count_of calls.new actor ≡ number }
    ensures others { (a : ℕ) → a ≢ actor → count_of calls.new a ≡ count_of calls.old a }
{
    if let Some(count) = calls.get_mut(&actor) {
        *count = number;
    }
}
