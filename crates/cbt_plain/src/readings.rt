//! The readings of a node's events, before the clock was moved ahead.

ghost use Rattle.std.specs.Prelude.{◌≡◌, ℕ, ◌+◌, ◌*◌, Some, None};
ghost use Rattle.cbt_base.specs.Clock.{held, ReadsNext};
ghost use Rattle.cbt_model.specs.Legal.{line_due};

use cbt_base::Clock;

// The reading that a clock line has for the event at a place.
fn line_reading(line: (u64, u64), place: u64) -> u64
    ensures { result ≡ held (line_due line place) }
{
    let (start, step) = line;
    start.saturating_add(step.saturating_mul(place))
}

/// The reading of the event at a place: that of the clock line, where there is one, and else the one
/// that waits, or a new one of the clock, which then waits.
pub fn next_reading<C: Clock>(
    line: Option<(u64, u64)>,
    place: u64,
    clock: &mut C,
    taken: &mut Option<u64>,
) -> u64
    ensures line { (l : ℕ × ℕ) → line ≡ Some l → result ≡ held (line_due l place) }
    ensures waits { line ≡ None → taken.new ≡ Some result }
    ensures again { (reading : ℕ) → line ≡ None → taken.old ≡ Some reading → (result ≡ reading) × (clock.new ≡ clock.old) }
    ensures fresh { line ≡ None → taken.old ≡ None → (f : ℕ → ℕ) → C.due clock.old f → ReadsNext f result (C.due clock.new) }
{
    match line {
        Some(line) => line_reading(line, place),
        None => raw_reading(clock, taken),
    }
}

// The clock's reading for the next event: the one that waits, or else a new one, which then waits.
fn raw_reading<C: Clock>(clock: &mut C, taken: &mut Option<u64>) -> u64
    ensures waits { taken.new ≡ Some result }
    ensures again { (reading : ℕ) → taken.old ≡ Some reading → (result ≡ reading) × (clock.new ≡ clock.old) }
    ensures fresh { taken.old ≡ None → (f : ℕ → ℕ) → C.due clock.old f → ReadsNext f result (C.due clock.new) }
{
    match *taken {
        Some(reading) => reading,
        None => {
            let reading = clock.read();
            *taken = Some(reading);
            reading
        }
    }
}
