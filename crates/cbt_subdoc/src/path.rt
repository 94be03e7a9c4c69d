ghost use Rattle.std.specs.Prelude.{◌≡◌, ◌⊎◌, length, IfSome, IfNone, Ok, Err};
ghost use Rattle.cbt_subdoc.specs.Paths.{path_of};
ghost use Rattle.cbt_subdoc.specs.declared.path.PathFault.TheVariants.{NoMemory as no_memory};

use crate::parsing::{Stop, parts_of};
use cbt_base::{Duplicate, List, NoMemory, Text};
use std::alloc::Global;
use std::error::Error;
use std::fmt;
use std::marker::Model;

/// The most bytes that a path's text has.
const MAX_BYTES: usize = 1024;

/// The most parts that a path has.
const MAX_PARTS: usize = 32;

/// A part of a path: one step from a value to a value inside it.
#[derive(Debug, Drop)]
pub enum Part {
    /// To the member of an object with this name.
    Name(Text),
    /// To the item of a list at this place, from 0; the text has places below 2^31 alone.
    Place(u32),
    /// To the last item of a list, written `[-1]`.
    Last,
}

impl Duplicate for Part {
    fn copy(&self, alloc: Global) -> Result<Part, NoMemory> {
        match self {
            Part::Name(name) => Ok(Part::Name(name.copy(alloc)?)),
            Part::Place(at) => Ok(Part::Place(*at)),
            Part::Last => Ok(Part::Last),
        }
    }
}

/// A path into a JSON document: 1 to 32 parts. Contracts see it as the list of them.
#[derive(Debug, Drop)]
pub struct Path {
    parts: List<Part>,
}

impl Model for Path {
    ghost use Rattle.std.specs.Prelude.{List as Seq};
    ghost use Rattle.cbt_subdoc.specs.declared.path.Part.{Part};
    ghost use Rattle.cbt_subdoc.specs.contracts.path.Part as e;
    ghost use Rattle.std.specs.Coded.{coded_list, codes};

    ghost Value = { Seq Part };

    ghost coded = { coded_list (Prim.hlevel (codes, e.the_row.coded)) };

    ghost use Rattle.cbt_subdoc.specs.PathLimits.{IsPath};

    ghost view = { λ p. p.parts };

    ghost invariant = { λ p. IsPath p.parts };
}

/// Why a text is no path.
#[derive(Clone, Copy, Debug, PartialEq, Eq)]
pub enum PathFault {
    /// It has no bytes.
    Empty,
    /// It has more than 1,024 bytes.
    TooLong { len: u64 },
    /// The first byte at which no path goes on, or the text's length where it ends too early.
    BadAt { at: u64 },
    /// It has more than 32 parts.
    TooManyParts { n: u64 },
    NoMemory,
}

impl fmt::Display for PathFault {
    fn fmt<W: fmt::Write>(&self, f: &mut fmt::Formatter<W>) -> fmt::Result {
        match self {
            PathFault::Empty => write!(f, "a path has a part at least"),
            PathFault::TooLong { len } => write!(f, "a path has at most 1024 bytes, not {len}"),
            PathFault::BadAt { at } => write!(f, "no path goes on so at byte {at}"),
            PathFault::TooManyParts { n } => write!(f, "a path has at most 32 parts, not {n}"),
            PathFault::NoMemory => write!(f, "out of memory"),
        }
    }
}

impl Error for PathFault {}

impl From<NoMemory> for PathFault {
    ghost from_gives = { λ _ fault. fault ≡ no_memory };

    fn from(_refused: NoMemory) -> PathFault {
        PathFault::NoMemory
    }
}

impl Path {
    ghost use Rattle.cbt_subdoc.specs.PathLimits.{IsPath};

    /// Reads the text of a path. A name after the first part is led by a dot; a place is `[n]`, or
    /// `[-1]` for the last item; a name with bytes of another use stands between backticks, where
    /// two backticks stand for one.
    pub fn parse(alloc: Global, text: &str) -> Result<Path, PathFault>
        // So a text has one answer, unless memory runs out.
        ensures answer { (result ≡ path_of text.now) ⊎ (result ≡ Err PathFault.NoMemory) }
    {
        let len = text.len();
        if len == 0 {
            return Err(PathFault::Empty);
        }
        if len > MAX_BYTES {
            return Err(PathFault::TooLong { len: len as u64 });
        }
        match parts_of(alloc, text) {
            Ok(parts) => {
                if parts.len() > MAX_PARTS {
                    Err(PathFault::TooManyParts {
                        n: parts.len() as u64,
                    })
                } else {
                    Ok(Path { parts })
                }
            }
            Err(Stop::Left(left)) => Err(PathFault::BadAt {
                at: (len - left) as u64,
            }),
            Err(Stop::NoMemory) => Err(PathFault::NoMemory),
        }
    }

    /// The path of these parts; it takes no memory.
    pub fn of(parts: List<Part>) -> Option<Path>
        ensures found { IfSome result (λ path. (path ≡ parts) × IsPath parts) }
        ensures none { IfNone result (¬ IsPath parts) }
    {
        if parts.is_empty() || parts.len() > MAX_PARTS {
            None
        } else {
            Some(Path { parts })
        }
    }

    /// The parts, from the outermost.
    pub fn parts(&self) -> &[Part]
        ensures same { result.now ≡ self.now }
        ensures limits { IsPath self.now }
    {
        self.parts.as_slice()
    }
}

impl Duplicate for Path {
    fn copy(&self, alloc: Global) -> Result<Path, NoMemory> {
        let parts = self.parts.copy(alloc)?;
        Ok(Path { parts })
    }
}
