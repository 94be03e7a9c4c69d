//! What actors tell of what they did.

ghost use Rattle.std.specs.Prelude.{◌≡◌, ◌++◌, [], ◌∷◌, OnOk, IfOk};
ghost use Rattle.cbtx.specs.Told.{cleaner_logs, client_logs};

use crate::workers::Worker;
use cbt_base::{List, NoMemory};
use cbt_book::{Book, CleanerLog, ClientLog};
use cbt_model::Kept;
use std::alloc::Global;

/// What a node kept, with the logs of its actors: the clients and the cleaners, each in their order.
pub fn book_of(
    alloc: Global,
    kept: Kept,
    workers: List<Worker>,
    sweep: List<Worker>,
) -> Result<Book, NoMemory>
    ensures kept { IfOk result (λ book. book.kept ≡ kept) }
    ensures clients { IfOk result (λ book. book.clients ≡ client_logs (workers ++ sweep)) }
    ensures cleaners { IfOk result (λ book. book.cleaners ≡ cleaner_logs (workers ++ sweep)) }
{
    let mut clients = List::new(alloc);
    let mut cleaners = List::new(alloc);
    add_logs(&mut clients, &mut cleaners, workers)?;
    add_logs(&mut clients, &mut cleaners, sweep)?;
    Ok(Book {
        kept,
        clients,
        cleaners,
    })
}

// Adds what actors did, behind what others did.
fn add_logs(
    clients: &mut List<ClientLog>,
    cleaners: &mut List<CleanerLog>,
    workers: List<Worker>,
) -> Result<(), NoMemory>
    ensures clients { OnOk result (clients.new ≡ clients.old ++ client_logs workers) }
    ensures cleaners { OnOk result (cleaners.new ≡ cleaners.old ++ cleaner_logs workers) }
{
    for worker in workers.into_vec() {
        add_log(clients, cleaners, worker)?;
    }
    Ok(())
}

// Adds what an actor did.
fn add_log(
    clients: &mut List<ClientLog>,
    cleaners: &mut List<CleanerLog>,
    worker: Worker,
) -> Result<(), NoMemory>
    ensures clients { OnOk result (clients.new ≡ clients.old ++ client_logs (worker ∷ [])) }
    ensures cleaners { OnOk result (cleaners.new ≡ cleaners.old ++ cleaner_logs (worker ∷ [])) }
{
    match worker {
        Worker::Transacts(client) => clients.push(client.into_log()),
        Worker::Cleans(cleaner) => cleaners.push(cleaner.into_log()),
    }
}
