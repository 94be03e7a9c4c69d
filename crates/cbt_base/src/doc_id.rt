ghost use Rattle.std.specs.Prelude.{◌≡◌, ◌⊎◌, Some, IfOk, not, nat_eq, position};
ghost use Rattle.std.specs.List.{starts_with};
ghost use Rattle.cbt_base.specs.Ids.{doc_id_of, id_fault, is_id_byte, reserved_prefix, IsDocId};
ghost use Rattle.cbt_base.specs.declared.doc_id.IdFault.TheVariants.{NoMemory as WantOfMemory};

use crate::memory::{Duplicate, NoMemory};
use crate::text::Text;
use std::alloc::Global;
use std::error::Error;
use std::fmt;
use std::marker::Model;

/// The most bytes that a document's identifier has.
pub const MAX_ID_LEN: usize = 250;

/// The identifier of a document: 1 to 250 bytes of text, none of them a control byte, a space or
/// 0x7f, and not beginning with `_txn:`, which is kept for the documents of the protocol.
#[derive(Debug, Drop, PartialEq, Eq, PartialOrd, Ord, Hash)]
pub struct DocId {
    text: Text,
}

impl Model for DocId {
    ghost use Rattle.std.specs.Prelude.{List, ℕ};
    ghost use Rattle.cbt_base.specs.Ids.{IsDocId};

    ghost Value = { List ℕ };

    ghost view = { λ d. d.text };

    ghost invariant = { λ d. IsDocId d.text };

    ghost inverse = { λ bytes. record { text = bytes } };
}

/// Why a text is no document's identifier.
#[derive(Clone, Copy, Debug, PartialEq, Eq)]
pub enum IdFault {
    /// It has no bytes.
    Empty,
    /// It has more than 250 bytes.
    TooLong { len: u64 },
    /// The first byte that is at most 0x20 or is 0x7f.
    BadByte { at: u64 },
    /// It begins with `_txn:`.
    Reserved,
    NoMemory,
}

impl fmt::Display for IdFault {
    fn fmt<W: fmt::Write>(&self, f: &mut fmt::Formatter<W>) -> fmt::Result {
        match self {
            IdFault::Empty => write!(f, "an identifier has a byte at least"),
            IdFault::TooLong { len } => write!(f, "an identifier has at most 250 bytes, not {len}"),
            IdFault::BadByte { at } => write!(f, "the byte at {at} may not stand in an identifier"),
            IdFault::Reserved => write!(f, "an identifier does not begin with _txn:"),
            IdFault::NoMemory => write!(f, "out of memory"),
        }
    }
}

impl Error for IdFault {}

impl From<NoMemory> for IdFault {
    ghost from_gives = { λ _ fault. fault ≡ WantOfMemory };

    fn from(_refused: NoMemory) -> IdFault {
        IdFault::NoMemory
    }
}

impl DocId {
    /// The identifier with this text.
    pub fn new(alloc: Global, text: &str) -> Result<DocId, IdFault>
        // Only want of memory is free: but for it, the answer is what the text is.
        ensures answer { (result ≡ doc_id_of text.now) ⊎ (result ≡ Err IdFault.NoMemory) }
        ensures ok { IfOk result (λ id. (id ≡ text.now) × IsDocId text.now) }
        // A text with a fault is answered with it, whatever memory there is.
        ensures refused { (fault : IdFault) → id_fault text.now ≡ Some fault → result ≡ Err fault }
    {
        match fault_of(text) {
            Some(fault) => Err(fault),
            None => Ok(DocId {
                text: Text::from_str(alloc, text)?,
            }),
        }
    }

    pub fn as_str(&self) -> &str
        ensures { result.now ≡ self.now }
    {
        self.text.as_str()
    }

    pub fn as_bytes(&self) -> &[u8]
        ensures bytes { result.now ≡ self.now }
        ensures valid { id_fault self.now ≡ None }
    {
        self.text.as_bytes()
    }
}

// What is wrong with a text as an identifier.
fn fault_of(text: &str) -> Option<IdFault>
    ensures { result ≡ id_fault text.now }
{
    let bytes = text.as_bytes();
    if bytes.len() == 0 {
        return Some(IdFault::Empty);
    }
    if bytes.len() > MAX_ID_LEN {
        return Some(IdFault::TooLong {
            len: bytes.len() as u64,
        });
    }
    match first_bad(bytes) {
        Some(at) => Some(IdFault::BadByte { at: at as u64 }),
        None if is_reserved(bytes) => Some(IdFault::Reserved),
        None => None,
    }
}

// The place of the first byte that may not stand in an identifier.
fn first_bad(bytes: &[u8]) -> Option<usize>
    ensures { result ≡ position (λ b. not (is_id_byte b)) bytes.now }
{
    bytes.iter().position(|byte| !may_stand(*byte))
}

// Whether bytes begin as the documents of the protocol do.
fn is_reserved(bytes: &[u8]) -> bool
    ensures { result ≡ starts_with nat_eq bytes.now reserved_prefix }
{
    bytes.starts_with(b"_txn:")
}

// Whether a byte may stand in an identifier.
fn may_stand(byte: u8) -> bool
    ensures { result ≡ is_id_byte byte }
{
    byte > 0x20 && byte != 0x7f
}

impl Duplicate for DocId {
    fn copy(&self, alloc: Global) -> Result<DocId, NoMemory> {
        let text = self.text.copy(alloc)?;
        Ok(DocId { text })
    }
}

impl fmt::Display for DocId {
    ghost output = { λ id. Some id };

    fn fmt<W: fmt::Write>(&self, f: &mut fmt::Formatter<W>) -> fmt::Result {
        fmt::Display::fmt(&self.as_str(), f)
    }
}
