//! The end of a run, found again from what was kept of it.

ghost use Rattle.std.specs.Prelude.{◌≡◌, ◌+◌, ◌-◌, ◌^◌, ◌<◌, ◌≤◌, max, length, is_some, Some, IfOk, OnOk};
ghost use Rattle.cbt_base.specs.Clock.{clock_of};
ghost use Rattle.cbt_model.specs.History.{after, happens, commits_below, committed_by, commits};

use cbt_base::{Duplicate, NoMemory};
use cbt_model::{Event, Kept, State, Step, perform};
use std::alloc::Global;

/// The state after a run, and how many commits took effect in it.
#[derive(Drop)]
pub struct End {
    pub state: State,
    pub commits: u64,
}

/// Lets the events of a run happen again.
pub fn end_of(alloc: Global, kept: &Kept) -> Result<End, NoMemory>
    requires last { kept.now.opening.last ≤ clock_of (2 ^ 43 - 1) + 2 ^ 32 }
    requires short { length kept.now.history ≤ 2 ^ 62 }
    ensures state { IfOk result (λ end. end.state ≡ after kept.now.opening kept.now.history (length kept.now.history)) }
    ensures commits { IfOk result (λ end. end.commits ≡ length (commits_below kept.now.opening kept.now.history (length kept.now.history))) }
{
    let mut state = kept.opening.copy(alloc)?;
    let mut commits = 0;
    for event in kept.history.as_slice() {
        if happen(alloc, &mut state, event)? {
            commits += 1;
        }
    }
    Ok(End { state, commits })
}

// Lets an event happen to a state, and answers whether it is a commit that takes effect.
fn happen(alloc: Global, state: &mut State, event: &Event) -> Result<bool, NoMemory>
    requires { state.old.last < 2 ^ 64 - 65537 }
    ensures state { OnOk result (state.new ≡ happens state.old event.now) }
    ensures commit { IfOk result (λ commit. commit ≡ is_some (committed_by state.old (Some event.now))) }
    ensures clock { state.new.last ≤ max (state.old.last + 1) (2 ^ 63) }
{
    let happened = perform(alloc, state, event)?;
    Ok(happened.takes_effect && is_commit(&event.step))
}

fn is_commit(step: &Step) -> bool
    ensures { result ≡ is_some (commits step.now) }
{
    matches!(step, Step::Commit { .. })
}
