//! How many calls an actor may make.

ghost use Rattle.std.specs.Prelude.{◌≡◌, ℕ, ◌<◌, ◌≤◌, true, false, Some, IsSomeAnd};
ghost use Rattle.cbt_model.specs.Stops.{stop_of};

use cbt_base::List;

/// An actor's stop; of two the first counts.
pub fn stop_of(stops: &List<(u32, u64)>, actor: u32) -> Option<u64>
    ensures { result ≡ stop_of stops.now actor }
{
    stops.iter().find(|stop| stop.0 == actor).map(|stop| stop.1)
}

/// Whether an actor that has made so many calls has come to its stop.
pub fn is_reached(stop: Option<u64>, calls: u64) -> bool
    ensures at { result ≡ true → IsSomeAnd stop (λ most. most ≤ calls) }
    ensures below { result ≡ false → (most : ℕ) → stop ≡ Some most → calls < most }
{
    stop.is_some_and(|most| most <= calls)
}
