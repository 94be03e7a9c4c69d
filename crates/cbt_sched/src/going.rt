//! Which actors may go on.

ghost use Rattle.std.specs.Prelude.{◌≡◌, ℕ, ◌+◌, ◌^◌, ◌<◌};
ghost use Rattle.cbt_sched.specs.Positions.{PassesOver, next_of};

use cbt_base::List;
use std::alloc::Global;

/// For each position the next one whose actor may go on. Position 0 stands before the first actor,
/// and position p for the one at place p - 1.
///
/// It is for speed alone. Where there is no memory for a position, the one behind it counts as the
/// next, and actors that have ended are looked at again.
#[derive(Drop)]
pub struct Going {
    pub next: List<usize>,
}

impl Going {
    /// Each of so many actors may go on.
    pub fn all(alloc: Global, count: usize) -> Going
        requires { count < 2 ^ 32 }
        ensures { (at : ℕ) → next_of result.next at ≡ at + 1 }
    {
        let mut next = List::new(alloc);
        for at in 0..count + 1 {
            if next.push(at + 1).is_err() {
                return Going { next };
            }
        }
        Going { next }
    }

    /// The next position.
    pub fn after(&self, at: usize) -> usize
        requires { at < 2 ^ 63 }
        ensures { result ≡ next_of self.now.next at }
    {
        match self.next.get(at) {
            Some(next) => *next,
            None => at + 1,
        }
    }

    /// Passes over the position `at`, whose actor has ended, from the one before it on.
    pub fn pass_over(&mut self, before: usize, at: usize)
        requires { at < 2 ^ 63 }
        ensures { PassesOver before at self.old.next self.new.next }
    {
        let next = self.after(at);
        if before < self.next.len() {
            self.next.set(before, next);
        }
    }
}
