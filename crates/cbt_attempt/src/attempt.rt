ghost use Rattle.std.specs.Prelude.{◌≡◌, [], None, Some, slice_get, IfOk, OnOk, OnErr};
ghost use Rattle.std.specs.Option.{option_copied, option_map};
ghost use Rattle.std.specs.Map.Iter.{deref_pair};
ghost use Rattle.cbt_attempt.specs.OwnWrites.{noted, with_noted, without_noted, lists_of, NamesByKind, SetsNote};

use crate::ordered::Ordered;
use crate::own::Own;
use cbt_base::{DocId, Duplicate, Id, List, NoMemory};
use cbt_book::Seen;
use cbt_model::{Lists, OpKind};
use std::alloc::Global;

/// What a client notes of one try of a transaction.
#[derive(Drop)]
pub struct Attempt {
    id: Id,
    atrs: u16,
    exp: u64,
    /// The transaction record to which its entry was sent.
    sent: Option<u16>,
    /// Its own writes by document, in the order of their first staging.
    writes: Ordered<DocId, Own>,
    /// What it read last of each document.
    seen: Ordered<DocId, Seen>,
}

impl Attempt {
    /// The attempt with this id, of a transaction that writes to `atrs` transaction records and whose
    /// entry may stay for `exp` milliseconds. Nothing is noted yet, and it takes no memory.
    pub fn begin(alloc: Global, id: Id, atrs: u16, exp: u64) -> Attempt
        ensures { result ≡ record { id = id; atrs = atrs; exp = exp; sent = None; writes = []; seen = [] } }
    {
        Attempt {
            id,
            atrs,
            exp,
            sent: None,
            writes: Ordered::new(alloc),
            seen: Ordered::new(alloc),
        }
    }

    pub fn id(&self) -> Id
        ensures { result ≡ self.now.id }
    {
        self.id
    }

    pub fn atrs(&self) -> u16
        ensures { result ≡ self.now.atrs }
    {
        self.atrs
    }

    pub fn exp(&self) -> u64
        ensures { result ≡ self.now.exp }
    {
        self.exp
    }

    /// The transaction record to which its entry was sent, if it was.
    pub fn sent(&self) -> Option<u16>
        ensures { result ≡ self.now.sent }
    {
        self.sent
    }

    /// The own write of a document. It takes no memory, nor does any other look-up.
    pub fn own(&self, doc: &DocId) -> Option<&Own>
        ensures { option_copied result ≡ noted self.now.writes doc.now }
    {
        self.writes.get(doc)
    }

    /// The own write at a place of their order, from 0, with its document.
    pub fn write_at(&self, i: usize) -> Option<(&DocId, &Own)>
        ensures { option_map deref_pair result ≡ slice_get self.now.writes i }
    {
        self.writes.at(i)
    }

    /// What was read last of a document.
    pub fn seen(&self, doc: &DocId) -> Option<&Seen>
        ensures { option_copied result ≡ noted self.now.seen doc.now }
    {
        self.seen.get(doc)
    }

    /// Notes that the entry was sent to this transaction record. It takes no memory.
    pub fn note_sent(&mut self, atr: u16)
        ensures { self.new ≡ record self.old { sent = Some atr } }
    {
        self.sent = Some(atr);
    }

    /// Notes the last reading of a document. Where there is no memory for it, nothing is changed.
    pub fn note_read(&mut self, doc: DocId, seen: Seen) -> Result<(), NoMemory>
        ensures ok { OnOk result (self.new ≡ record self.old { seen = with_noted self.old.seen doc seen }) }
        ensures noted { OnOk result (SetsNote (noted self.old.seen) (noted self.new.seen) doc (Some seen)) }
        ensures err { OnErr result (self.new ≡ self.old) }
    {
        self.seen.insert(doc, seen)
    }

    /// Notes the own write of a document. A new one goes last, and an old one keeps its place. Where
    /// there is no memory for it, nothing is changed.
    pub fn note_staged(&mut self, doc: DocId, own: Own) -> Result<(), NoMemory>
        ensures ok { OnOk result (self.new ≡ record self.old { writes = with_noted self.old.writes doc own }) }
        ensures noted { OnOk result (SetsNote (noted self.old.writes) (noted self.new.writes) doc (Some own)) }
        ensures err { OnErr result (self.new ≡ self.old) }
    {
        self.writes.insert(doc, own)
    }

    /// Notes that the own write of a document was taken back: it and the last reading go away, and the
    /// own writes behind it close up. It takes no memory.
    pub fn note_unstaged(&mut self, doc: &DocId)
        ensures gone { self.new ≡ record self.old { writes = without_noted self.old.writes doc.now; seen = without_noted self.old.seen doc.now } }
        ensures unwritten { SetsNote (noted self.old.writes) (noted self.new.writes) doc.now None }
        ensures unread { SetsNote (noted self.old.seen) (noted self.new.seen) doc.now None }
    {
        self.writes.remove(doc);
        self.seen.remove(doc);
    }

    /// The documents of the own writes by kind, as a commit or an abort names them, each kind in the
    /// order of the own writes.
    pub fn lists(&self, alloc: Global) -> Result<Lists, NoMemory>
        ensures lists { IfOk result (λ lists. lists ≡ lists_of self.now.writes) }
        ensures named { IfOk result (λ lists. NamesByKind (noted self.now.writes) lists) }
    {
        let mut lists = Lists {
            ins: List::new(alloc),
            rep: List::new(alloc),
            rem: List::new(alloc),
        };
        for (doc, own) in self.writes.iter() {
            let doc = doc.copy(alloc)?;
            match own.kind {
                OpKind::Insert => lists.ins.push(doc)?,
                OpKind::Replace => lists.rep.push(doc)?,
                OpKind::Remove => lists.rem.push(doc)?,
            }
        }
        Ok(lists)
    }
}
