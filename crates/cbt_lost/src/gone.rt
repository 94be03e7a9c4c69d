//! The cleaners that are gone.

ghost use Rattle.std.specs.Prelude.{◌≡◌, take, IfOk, OnOk};
ghost use Rattle.cbt_book.specs.Shares.{inactive};
ghost use Rattle.cbt_lost.specs.Gone.{gone_with};

use cbt_base::{Id, List, NoMemory};
use cbt_model::ClientRow;
use cbt_record::is_active;
use std::alloc::Global;

// The first twelve of the other cleaners whose rows are not active any more, or all where there are
// fewer.
pub(crate) fn gone_of(
    alloc: Global,
    rows: &List<(Id, ClientRow)>,
    me: Id,
    now: u64,
) -> Result<List<Id>, NoMemory>
    ensures { IfOk result (λ gone. gone ≡ take 12 (inactive rows.now me now)) }
{
    let mut gone = List::new(alloc);
    for row in rows.as_slice() {
        note(&mut gone, row, me, now)?;
    }
    Ok(gone)
}

// This row too.
fn note(gone: &mut List<Id>, row: &(Id, ClientRow), me: Id, now: u64) -> Result<(), NoMemory>
    ensures { OnOk result (gone.new ≡ gone_with gone.old row.now me now) }
{
    if gone.len() < 12 && !is_active(&row.1, now) && row.0 != me {
        gone.push(row.0)?;
    }
    Ok(())
}
