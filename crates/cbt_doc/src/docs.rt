//! Documents, and the calls that change them.
ghost use Rattle.std.specs.Prelude.{◌≡◌};
ghost use Rattle.cbt_doc.specs.declared.docs.DocFault.TheVariants.{NoMemory as no_memory};

use cbt_base::{Duplicate, List, NoMemory};
use cbt_json::Json;
use cbt_subdoc::{Mut, MutFault};
use std::alloc::Global;
use std::error::Error;
use std::fmt;

/// A document with its attributes. One without a body is a tombstone.
#[derive(Debug, Drop)]
pub struct Doc {
    pub cas: u64,
    pub body: Option<Json>,
    /// An object, from attribute names to values.
    pub attrs: Json,
}

impl Duplicate for Doc {
    fn copy(&self, alloc: Global) -> Result<Doc, NoMemory> {
        let body = self.body.copy(alloc)?;
        let attrs = self.attrs.copy(alloc)?;
        Ok(Doc {
            cas: self.cas,
            body,
            attrs,
        })
    }
}

/// What a call expects of the document before it.
#[derive(Clone, Copy, Debug, PartialEq, Eq)]
pub enum DocExpect {
    Any,
    /// That there is none; a tombstone is one.
    New,
    /// That it has this CAS.
    Cas(u64),
}

/// A change at a path into the attributes or into the body.
#[derive(Debug, Drop)]
pub struct DocMut {
    /// Whether the path leads into the attributes.
    pub attr: bool,
    pub change: Mut,
}

/// What a call makes of the body, after the changes at paths.
#[derive(Debug, Drop)]
pub enum BodyChange {
    Keep,
    /// Keeps it, and makes a tombstone where there is no document.
    Ensure,
    /// Gives a tombstone a body.
    Revive(Json),
    /// Gives a document with a body another one.
    Replace(Json),
    /// Leaves a tombstone with the attributes whose names begin `_`.
    Delete,
}

/// One call on one document.
#[derive(Debug, Drop)]
pub struct DocCall {
    pub expect: DocExpect,
    /// Changes of attributes first, then changes of the body.
    pub changes: List<DocMut>,
    pub body: BodyChange,
}

/// Why a call is refused.
#[derive(Clone, Copy, Debug, PartialEq, Eq)]
pub enum DocFault {
    /// There is a document where none was expected, or a body where a tombstone was.
    Exists,
    /// There is no document.
    NotFound,
    /// The document has this CAS, and not the one that was expected.
    CasMismatch { have: u64 },
    /// The document has no body.
    Deleted,
    /// There are more than 16 paths.
    TooManyPaths { n: u64 },
    /// The attribute path at this place, from 0, stands behind a body path.
    Order { i: u64 },
    /// The first change at a path that cannot be made.
    Path(MutFault),
    NoMemory,
}

impl fmt::Display for DocFault {
    fn fmt<W: fmt::Write>(&self, f: &mut fmt::Formatter<W>) -> fmt::Result {
        match self {
            DocFault::Exists => write!(f, "the document is there already"),
            DocFault::NotFound => write!(f, "there is no document"),
            DocFault::CasMismatch { have } => write!(f, "the document has the CAS {have}"),
            DocFault::Deleted => write!(f, "the document has no body"),
            DocFault::TooManyPaths { n } => write!(f, "a call has at most 16 paths, not {n}"),
            DocFault::Order { i } => write!(f, "path {i} is an attribute's behind a body's"),
            DocFault::Path(fault) => write!(f, "{fault}"),
            DocFault::NoMemory => write!(f, "out of memory"),
        }
    }
}

impl Error for DocFault {}

impl From<NoMemory> for DocFault {
    ghost from_gives = { λ _ fault. fault ≡ no_memory };

    fn from(_refused: NoMemory) -> DocFault {
        DocFault::NoMemory
    }
}
