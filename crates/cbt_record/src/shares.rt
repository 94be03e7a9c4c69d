//! The share of a cleaner, by what it read of the client record.

ghost use Rattle.std.specs.Prelude.{◌≡◌};
ghost use Rattle.cbt_book.specs.Shares.{is_active, share_of};

use cbt_base::{Id, List, ms};
use cbt_book::Share;
use cbt_model::ClientRow;

/// The share of the cleaner `me` at this time: the transaction records go round among the active
/// cleaners, by rising id. `me` is one of them, whether or not it has a row. It takes no memory.
pub fn share(clients: &List<(Id, ClientRow)>, me: Id, now: u64) -> Share
    ensures { result ≡ share_of clients.now me now }
{
    // In memory no list is so long that these would not be numbers.
    let mut others: u64 = 0;
    let mut below: u64 = 0;
    for client in clients.as_slice() {
        if is_active(&client.1, now) && client.0 != me {
            others += 1;
            if client.0 < me {
                below += 1;
            }
        }
    }
    Share {
        index: below,
        of: others + 1,
    }
}

/// Whether a cleaner's row counts as active: so long after its last beat as the row says. It takes no
/// memory.
pub fn is_active(row: &ClientRow, now: u64) -> bool
    ensures { result ≡ is_active now row.now }
{
    u128::from(now) <= u128::from(ms(row.heartbeat)) + u128::from(row.expires)
}
