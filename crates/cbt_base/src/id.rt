ghost use Rattle.std.specs.Prelude.{◌≡◌, ℕ, ◌+◌, ◌*◌, ◌-◌, ◌%◌, ◌^◌, ◌<◌, ◌≤◌, Some, IfOk, IfSome, IfNone, length};
ghost use Rattle.cbt_base.specs.Ids.{attempt_number, cleaner_number, id_text, owner_fields, txn_number, fnv_1a};

use crate::doc_id::DocId;
use crate::memory::{Duplicate, NoMemory};
use crate::text::Text;
use std::alloc::Global;
use std::marker::Model;
use uuid::Uuid;

/// The identifier of an attempt, of a transaction or of a cleaner: a number of 128 bits.
///
/// Its fields lie where a UUID has no version or variant bit, so different arguments give
/// different identifiers.
#[derive(Clone, Copy, Debug, PartialEq, Eq, PartialOrd, Ord, Hash)]
pub struct Id {
    number: u128,
}

impl Model for Id {
    ghost use Rattle.std.specs.Prelude.{ℕ};

    ghost Value = { ℕ };

    ghost view = { λ id. id.number };

    ghost inverse = { λ n. record { number = n } };
}

impl Id {
    /// The attempt with this number, from 1, of a client's transaction with this number, from 1.
    pub fn attempt(client: u32, txn: u16, try_no: u32) -> Id
        requires { (1 ≤ client) × (1 ≤ txn) × (1 ≤ try_no) }
        ensures { result ≡ attempt_number client txn try_no }
    {
        Id {
            number: fields(client, txn) + u128::from(try_no),
        }
    }

    /// The transaction of an attempt: the same number with its low 32 bits at zero.
    pub fn txn_of(attempt: Id) -> Id
        ensures { result ≡ txn_number attempt }
    {
        Id {
            number: attempt.number - attempt.number % (1 << 32),
        }
    }

    /// The cleaner with this number, from 1.
    pub fn cleaner(n: u32) -> Id
        requires { 1 ≤ n }
        ensures { result ≡ cleaner_number n }
    {
        Id {
            number: fields(n, 0),
        }
    }

    pub fn number(&self) -> u128
        ensures { result ≡ self.now }
    {
        self.number
    }

    /// The identifier as text: the 36 bytes of a UUID's hyphenated form, in lower case.
    pub fn text(&self, alloc: Global) -> Result<Text, NoMemory>
        ensures { IfOk result (λ text. text ≡ id_text self.now) }
    {
        let mut buffer = Uuid::encode_buffer();
        Text::from_str(alloc, written(self.number, &mut buffer))
    }

    /// The identifier that has this text; it takes no memory. Only the form that `text` gives is
    /// read: no upper case, no braces, no missing hyphens and no prefix.
    pub fn read(text: &str) -> Option<Id>
        ensures some { IfSome result (λ id. text.now ≡ id_text id) }
        ensures none { IfNone result ((n : ℕ) → n < 2 ^ 128 → text.now ≡ id_text n → ⊥) }
        // Reading the text of an identifier gives that identifier.
        ensures back { (n : ℕ) → n < 2 ^ 128 → text.now ≡ id_text n → result ≡ Some n }
    {
        let Ok(id) = Uuid::parse_str(text) else {
            return None;
        };
        // The parser takes other forms too, so what it read is written again.
        let number = id.as_u128();
        let mut buffer = Uuid::encode_buffer();
        if text == written(number, &mut buffer) {
            Some(Id { number })
        } else {
            None
        }
    }
}

// The text of a number, in a buffer that has room for it.
fn written<'b>(number: u128, buffer: &'b mut [u8]) -> &'b str
    requires { 36 ≤ length buffer.old }
    ensures { result.now ≡ id_text number }
{
    Uuid::from_u128(number).hyphenated().encode_lower(buffer)
}

// The owner and the transaction, with the version and the variant between them.
fn fields(owner: u32, txn: u16) -> u128
    ensures { result ≡ owner_fields owner txn }
{
    u128::from(owner) * (1 << 96) + u128::from(txn) * (1 << 80) + 8 * (1 << 76) + (1 << 63)
}

/// The active transaction record, of `n`, in which an attempt that writes this document first
/// has its entry: the 64-bit FNV-1a hash of the identifier's bytes, modulo `n`.
pub fn atr_of(doc: &DocId, n: u16) -> u16
    requires { (1 ≤ n) × (n ≤ 1024) }
    ensures hash { result ≡ fnv_1a doc.now % n }
    ensures within { result < n }
{
    let hash: u64 = doc.as_bytes().iter().fold(
        14695981039346656037,
        |hash: u64, byte| (hash ^ u64::from(*byte)).wrapping_mul(1099511628211),
    );
    (hash % u64::from(n)) as u16
}

impl Duplicate for Id {
    fn copy(&self, _alloc: Global) -> Result<Id, NoMemory> {
        Ok(*self)
    }
}
