//! The clients with their transfers.

ghost use Rattle.std.specs.Prelude.{◌≡◌, ◌<◌, ◌≤◌, IfOk, OnOk};
ghost use Rattle.cbt_gen.specs.Draws.{many};
ghost use Rattle.cbt_gen.specs.Transfers.{transaction};
ghost use Rattle.cbt_gen.specs.Generated.{client};

use crate::names::client_name;
use crate::transfers::Transfer;
use cbt_base::{List, NoMemory, Text};
use cbt_expr::{ClientPlan, TxnPlan};
use rand_pcg::Pcg32;
use std::alloc::Global;

/// Draws so many clients, each with so many transfers.
pub(crate) fn draw_clients(
    alloc: Global,
    stream: &mut Pcg32,
    count: u32,
    accounts: u32,
    transfers: u32,
) -> Result<List<(Text, ClientPlan)>, NoMemory>
    requires count_few { count < 100 }
    requires some { 2 ≤ accounts }
    requires few { accounts ≤ 1000 }
    ensures value { IfOk result (λ clients. clients ≡ (many count (client accounts transfers) stream.old).0) }
    ensures behind { OnOk result (stream.new ≡ (many count (client accounts transfers) stream.old).1) }
{
    let mut clients = List::new(alloc);
    for before in 0..count {
        clients.push(draw_client(alloc, stream, before + 1, accounts, transfers)?)?;
    }
    Ok(clients)
}

fn draw_client(
    alloc: Global,
    stream: &mut Pcg32,
    number: u32,
    accounts: u32,
    transfers: u32,
) -> Result<(Text, ClientPlan), NoMemory>
    requires number_small { number < 100 }
    requires some { 2 ≤ accounts }
    requires few { accounts ≤ 1000 }
    ensures value { IfOk result (λ c. c ≡ (client accounts transfers number stream.old).0) }
    ensures behind { OnOk result (stream.new ≡ (client accounts transfers number stream.old).1) }
{
    let name = client_name(alloc, number)?;
    let txns = draw_transfers(alloc, stream, accounts, transfers)?;
    Ok((name, ClientPlan { txns }))
}

fn draw_transfers(
    alloc: Global,
    stream: &mut Pcg32,
    accounts: u32,
    count: u32,
) -> Result<List<TxnPlan>, NoMemory>
    requires some { 2 ≤ accounts }
    requires few { accounts ≤ 1000 }
    ensures value { IfOk result (λ txns. txns ≡ (many count (λ i. transaction accounts) stream.old).0) }
    ensures behind { OnOk result (stream.new ≡ (many count (λ i. transaction accounts) stream.old).1) }
{
    let mut txns = List::new(alloc);
    for _before in 0..count {
        let transfer = Transfer::draw(stream, accounts);
        txns.push(transfer.plan(alloc)?)?;
    }
    Ok(txns)
}
