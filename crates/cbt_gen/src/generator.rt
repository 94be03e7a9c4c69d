//! The script that a number gives.

ghost use Rattle.std.specs.Prelude.{◌≡◌, ◌<◌, ◌≤◌, ◌*◌, ◌+◌, ◌∷◌, [], IfOk, OnOk};
ghost use Rattle.cbt_gen.specs.Draws.{draw};
ghost use Rattle.cbt_gen.specs.Generated.{cleaners, generated};
ghost use Rattle.cbt_script.specs.Rules.{IsScript};

use crate::accounts::account_docs;
use crate::clients::draw_clients;
use crate::draws::{draw, stream_of};
use crate::order::draw_order;
use crate::transfers::{EXPIRY, TRIES};
use cbt_base::{List, NoMemory, Text};
use cbt_model::Faults;
use cbt_script::Script;
use rand_pcg::Pcg32;
use std::alloc::Global;

/// How many transaction records there are.
const ATRS: u16 = 16;

/// How long a cleaner counts as active after its last beat, in milliseconds.
const LAPSE: u64 = 60000;

/// The first reading of the clock and the step from one to the next, in milliseconds.
const START: u64 = 1000;

const STEP: u64 = 1;

/// How many rounds each cleaner makes.
const ROUNDS: u32 = 4;

/// After how many milliseconds the sweep follows.
const SWEEP: u64 = 5000;

/// The script of a seed: so many clients, of which each makes so many transfers between so many
/// accounts. The first client stops on the way, and two cleaners and a sweep put right what it leaves.
pub fn gen_script(
    alloc: Global,
    seed: u64,
    clients: u32,
    accounts: u32,
    transfers: u32,
) -> Result<Script, NoMemory>
    requires clients_some { 2 ≤ clients }
    requires clients_few { clients ≤ 32 }
    requires accounts_some { 2 ≤ accounts }
    requires accounts_few { accounts ≤ 1000 }
    requires transfers_some { 1 ≤ transfers }
    requires transfers_few { transfers ≤ 200 }
    requires transactions_few { clients * transfers ≤ 400 }
    ensures script { IfOk result (λ s. s ≡ generated seed clients accounts transfers) }
    ensures rules { IfOk result (λ s. IsScript s) }
{
    let mut stream = stream_of(seed);
    let docs = account_docs(alloc, accounts)?;
    let cleaners = cleaner_rounds(alloc)?;
    let plans = draw_clients(alloc, &mut stream, clients, accounts, transfers)?;
    let stops = draw_stops(alloc, &mut stream)?;
    let order = draw_order(alloc, &mut stream, clients)?;
    Ok(Script {
        atrs: ATRS,
        expiry: EXPIRY,
        tries: TRIES,
        lapse: LAPSE,
        line: Some((START, STEP)),
        docs,
        clients: plans,
        cleaners,
        stops,
        faults: Faults::new(alloc),
        order,
        sweep: Some(SWEEP),
    })
}

// Two cleaners, each with its rounds.
fn cleaner_rounds(alloc: Global) -> Result<List<(Text, u32)>, NoMemory>
    ensures { IfOk result (λ list. list ≡ cleaners) }
{
    let mut list = List::new(alloc);
    list.push((Text::from_str(alloc, "k1")?, ROUNDS))?;
    list.push((Text::from_str(alloc, "k2")?, ROUNDS))?;
    Ok(list)
}

// After how many calls the first client stops: 10 to 59.
fn draw_stops(alloc: Global, stream: &mut Pcg32) -> Result<List<(u32, u64)>, NoMemory>
    ensures value { IfOk result (λ stops. stops ≡ (1, 10 + (draw 50 stream.old).0) ∷ []) }
    ensures behind { OnOk result (stream.new ≡ (draw 50 stream.old).1) }
{
    let calls = 10 + draw(stream, 50);
    let mut stops = List::new(alloc);
    stops.push((1, u64::from(calls)))?;
    Ok(stops)
}
