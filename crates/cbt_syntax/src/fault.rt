ghost use Rattle.std.specs.Prelude.{◌≡◌};
ghost use Rattle.cbt_syntax.specs.declared.fault.SyntaxFault.TheVariants.{NoMemory as no_memory};

use cbt_base::NoMemory;
use std::alloc::{AllocError, AllocFailed};
use std::error::Error;
use std::fmt;

/// Why a text is no expression, or no condition. The first defect from the left decides; an unbound
/// name counts only in a text that has no other.
#[derive(Clone, Copy, Debug, PartialEq, Eq)]
pub enum SyntaxFault {
    /// A number is `-0`, goes on with `.`, `e` or `E`, or lies outside -2^63..2^64-1.
    NotWhole,
    /// It is of another form.
    Malformed,
    /// A name in it is not bound.
    Unbound,
    /// Memory ran out.
    NoMemory,
}

impl fmt::Display for SyntaxFault {
    fn fmt<W: fmt::Write>(&self, f: &mut fmt::Formatter<W>) -> fmt::Result {
        f.write_str(match self {
            SyntaxFault::NotWhole => "not a whole number of 64 bits",
            SyntaxFault::Malformed => "not an expression",
            SyntaxFault::Unbound => "a name that is not bound",
            SyntaxFault::NoMemory => "out of memory",
        })
    }
}

impl Error for SyntaxFault {}

impl From<NoMemory> for SyntaxFault {
    ghost from_gives = { λ _ fault. fault ≡ no_memory };

    fn from(_refused: NoMemory) -> SyntaxFault {
        SyntaxFault::NoMemory
    }
}

impl From<AllocError> for SyntaxFault {
    ghost from_gives = { λ _ fault. fault ≡ no_memory };

    fn from(_refused: AllocError) -> SyntaxFault {
        SyntaxFault::NoMemory
    }
}

impl<T: Drop> From<AllocFailed<T>> for SyntaxFault {
    ghost from_gives = { λ _ fault. fault ≡ no_memory };

    fn from(_refused: AllocFailed<T>) -> SyntaxFault {
        SyntaxFault::NoMemory
    }
}
