//! What becomes of one event.

ghost use Rattle.std.specs.Prelude.{◌≡◌, ◌+◌, ◌-◌, ◌^◌, ◌<◌, ◌≤◌, max, IsTrue, IfOk, OnErr};
ghost use Rattle.cbt_base.specs.Clock.{clock_read};
ghost use Rattle.cbt_model.specs.Fitting.{HasFitBodies, fits, step_fits};
ghost use Rattle.cbt_model.specs.History.{happens, is_done, outcome, takes_effect};

use crate::events::{Event, Fate};
use crate::states::State;
use crate::steps::Reply;
use crate::table::apply;
use cbt_base::{Hlc, NoMemory};
use std::alloc::Global;

/// What became of an event.
#[derive(Drop)]
pub struct Happened {
    /// What its actor is told.
    pub reply: Reply,
    /// It was not lost, and the step table answers it Done.
    pub takes_effect: bool,
}

/// Lets an event happen to a state: a lost call moves the clock alone, and a late one has its effect,
/// but its answer does not come back.
///
/// On `NoMemory` nothing has changed.
pub fn perform(alloc: Global, state: &mut State, event: &Event) -> Result<Happened, NoMemory>
    requires { state.old.last < 2 ^ 64 - 65537 }
    ensures state { IfOk result (λ happened. state.new ≡ happens state.old event.now) }
    ensures reply { IfOk result (λ happened. happened.reply ≡ (outcome state.old event.now).reply) }
    ensures effect { IfOk result (λ happened. happened.takes_effect ≡ takes_effect state.old event.now) }
    ensures refused { OnErr result (state.new ≡ state.old) }
    ensures clock { state.new.last ≤ max (state.old.last + 1) (2 ^ 63) }
    ensures fits { HasFitBodies state.old → IfOk result (λ happened. IsTrue (fits event.now.step happened.reply)) }
    ensures bodies { HasFitBodies state.old → IsTrue (step_fits event.now.step) → HasFitBodies state.new }
{
    match event.fate {
        Fate::Plain => {
            let reply = apply(alloc, state, event.reading, &event.step)?;
            let takes_effect = is_done(&reply);
            Ok(Happened {
                reply,
                takes_effect,
            })
        }
        Fate::Lost => {
            state.last = clock_after_reading(state.last, event.reading);
            Ok(Happened {
                reply: Reply::Failed,
                takes_effect: false,
            })
        }
        Fate::Late => {
            let reply = apply(alloc, state, event.reading, &event.step)?;
            Ok(Happened {
                reply: Reply::Failed,
                takes_effect: is_done(&reply),
            })
        }
    }
}

fn is_done(reply: &Reply) -> bool
    ensures { result ≡ is_done reply.now }
{
    matches!(reply, Reply::Done { .. })
}

// The clock after a call that changes nothing.
fn clock_after_reading(last: u64, reading: u64) -> u64
    requires { last < 2 ^ 64 - 65537 }
    ensures clock { result ≡ clock_read last reading }
    ensures within { result ≤ max (last + 1) (2 ^ 63) }
{
    let mut clock = Hlc { last };
    clock.read(reading);
    clock.last
}
