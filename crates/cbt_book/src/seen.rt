use cbt_base::{Duplicate, Id, NoMemory};
use cbt_json::Json;
use std::alloc::Global;
use std::marker::Model;

/// What was read of a document. Contracts see the record `Reading`, of which the words on own lists
/// speak.
#[derive(Drop)]
pub struct Seen {
    /// Its value, or that there is none.
    pub value: Option<Json>,
    /// Its stamp, where there is a document or the tombstone of one.
    pub cas: Option<u64>,
    /// The transaction record and the attempt of the write that waited in it.
    pub by: Option<(u16, Id)>,
    /// The entry of that attempt was not there.
    pub gone: bool,
    /// The place of the event at which the document had this value.
    pub moment: u64,
}

impl Model for Seen {
    ghost use Rattle.cbt_book.specs.ReadAt.{Reading};
    ghost use Rattle.std.specs.Coded.{codes};
    ghost use Rattle.cbt_json.specs.contracts.value.Json as json;

    ghost Value = { Reading };

    ghost coded = { Prim.hlevel (codes, json.the_row.coded) };

    ghost view = { λ s. record { value = s.value; cas = s.cas; by = s.by; gone = s.gone; moment = s.moment } };

    ghost inverse = { λ r. record { value = r.value; cas = r.cas; by = r.by; gone = r.gone; moment = r.moment } };
}

impl Duplicate for Seen {
    fn copy(&self, alloc: Global) -> Result<Seen, NoMemory> {
        let value = self.value.copy(alloc)?;
        Ok(Seen {
            value,
            cas: self.cas,
            by: self.by,
            gone: self.gone,
            moment: self.moment,
        })
    }
}
