//! The clock of a node, and where its readings come from.
ghost use Rattle.std.specs.Prelude.{◌≡◌, ℕ, ◌+◌, ◌-◌, ◌*◌, ◌^◌, ◌<◌, ◌≤◌, max, length};
ghost use Rattle.cbt_base.specs.Clock.{clock_of, clock_read, clock_mutated, ms_of, ClockCall, clock_after, held, RisesBy, reading_at, RunsAlong, ReadsNext};

use crate::list::List;
use crate::memory::{Duplicate, NoMemory};
use std::alloc::Global;

/// The largest reading that the clock follows, in milliseconds: 2^43 - 1.
const LAST_READING: u64 = (1 << 43) - 1;

/// A hybrid logical clock: its upper 48 bits are physical time in nanoseconds, its lower 16 bits
/// are logical.
#[derive(Clone, Copy, Debug, PartialEq, Eq)]
pub struct Hlc {
    /// The highest stamp so far.
    pub last: u64,
}

impl Hlc {
    /// Follows the reading `r`, in milliseconds, and never falls. It takes no memory.
    pub fn read(&mut self, r: u64)
        requires { self.old.last < 2 ^ 64 - 65537 }
        ensures last { self.new.last ≡ clock_read self.old.last r }
        ensures never_falls { self.old.last ≤ self.new.last }
        ensures within { self.new.last ≤ max (self.old.last + 1) (2 ^ 63) }
    {
        self.last = self.last.max(stamp(r));
    }

    /// The next stamp at the reading `r`, in milliseconds. It is above each earlier value of
    /// `last`, and takes no memory.
    pub fn mutate(&mut self, r: u64) -> u64
        requires { self.old.last < 2 ^ 64 - 65537 }
        ensures stamp { result ≡ clock_mutated self.old.last r }
        ensures last { self.new.last ≡ result }
        ensures above { self.old.last < result }
        ensures within { result ≤ max (self.old.last + 1) (2 ^ 63) }
    {
        self.last = (self.last + 1).max(stamp(r));
        self.last
    }
}

// The nanoseconds of a reading, with the low 16 bits cleared.
#[tactic(auto, unfolding(crate::specs::Clock::clock_of))]
fn stamp(r: u64) -> u64
    ensures value { result ≡ clock_of r }
    ensures within { result ≤ 2 ^ 63 }
{
    let nanoseconds = r.min(LAST_READING) * 1_000_000;
    nanoseconds / (1 << 16) * (1 << 16)
}

/// The milliseconds of a stamp: its nanoseconds, rounded up over the bits that were cleared.
pub fn ms(cas: u64) -> u64
    ensures { result ≡ ms_of cas }
{
    ((cas as u128 + 65_535) / 1_000_000) as u64
}

/// A law: a reading of at most 2^43 - 1 ms that leads the clock is what `ms` then gives.
pub fn leading_reading_is_now()
    ensures stamp { (r : ℕ) → r < 2 ^ 43 → ms_of (clock_of r) ≡ r }
    ensures read { (last r : ℕ) → r < 2 ^ 43 → last ≤ clock_of r → ms_of (clock_read last r) ≡ r }
    ensures mutated { (last r : ℕ) → r < 2 ^ 43 → last < clock_of r
        → ms_of (clock_mutated last r) ≡ r }
{}

/// A law: a call lifts the clock above its readings by at most one.
pub fn clock_leads_by_one()
    ensures read { (last r : ℕ) → clock_read last r ≤ max (last + 1) (2 ^ 63) }
    ensures mutated { (last r : ℕ) → clock_mutated last r ≤ max (last + 1) (2 ^ 63) }
{}

/// A law: whatever calls lie between, a new stamp is above each earlier value of the clock.
pub fn stamp_is_above_all_earlier()
    ensures { (last : ℕ) (calls : List ClockCall) (r : ℕ)
        → last < clock_mutated (clock_after last calls) r }
{}

/// Where readings in milliseconds come from. It cannot fail.
pub trait Clock: Drop {
    /// It may tell its readings: it stands for this sequence of readings to come.
    ghost due: { Self → (ℕ → ℕ) → Type 0 };

    /// The next reading, in milliseconds.
    fn read(&mut self) -> u64
        ensures { (f : ℕ → ℕ) → due self.old f → ReadsNext f result (due self.new) };
}

/// Readings that rise by the same step.
#[derive(Clone, Copy, Debug, PartialEq, Eq)]
pub struct StepClock {
    /// The next reading.
    pub next: u64,
    /// What is added after each reading. Sums are held at `u64::MAX`.
    pub step: u64,
}

impl Clock for StepClock {
    ghost due = { λ c. RisesBy c.next c.step };

    fn read(&mut self) -> u64
        ensures due { (f : ℕ → ℕ) → RisesBy self.old.next self.old.step f
            → ReadsNext f result (RisesBy self.new.next self.new.step) }
        ensures reading { result ≡ self.old.next }
        ensures next { self.new ≡ record self.old { next = held (self.old.next + self.old.step) } }
    {
        let reading = self.next;
        self.next = reading.saturating_add(self.step);
        reading
    }
}

/// Readings from a list. Past its end the last one is repeated; an empty list reads 0.
#[derive(Debug, Drop)]
pub struct ListClock {
    /// The readings, in order.
    pub readings: List<u64>,
    /// The place of the next reading.
    pub at: usize,
}

impl Duplicate for ListClock {
    fn copy(&self, alloc: Global) -> Result<ListClock, NoMemory> {
        Ok(ListClock {
            readings: self.readings.copy(alloc)?,
            at: self.at,
        })
    }
}

impl Clock for ListClock {
    ghost due = { λ c. RunsAlong c.readings c.at };

    fn read(&mut self) -> u64
        ensures due { (f : ℕ → ℕ) → RunsAlong self.old.readings self.old.at f
            → ReadsNext f result (RunsAlong self.new.readings self.new.at) }
        ensures reading { result ≡ reading_at self.old.readings self.old.at }
        ensures within { self.old.at < length self.old.readings
            → self.new ≡ record self.old { at = self.old.at + 1 } }
        ensures past { length self.old.readings ≤ self.old.at → self.new ≡ self.old }
    {
        let readings = self.readings.as_slice();
        match readings.get(self.at) {
            Some(reading) => {
                self.at += 1;
                *reading
            }
            None => readings.last().copied().unwrap_or(0),
        }
    }
}
