ghost use Rattle.cbt_json.specs.declared.fault.JsonFault.TheVariants.{NoMemory as no_memory};
ghost use Rattle.std.specs.Prelude.{◌≡◌};

use cbt_base::NoMemory;
use std::alloc::{AllocError, AllocFailed};
use std::error::Error;
use std::fmt;

/// Why bytes are no `Json`.
#[derive(Clone, Copy, Debug, PartialEq, Eq)]
pub enum JsonFault {
    /// They are no JSON of at most 127 levels, or a number in them is too large for a float.
    NotJson,
    /// A number in them is not a whole number from -2^63 to 2^64-1, such as `1.0` and `-0`.
    NotWhole,
    /// Memory ran out.
    NoMemory,
}

impl fmt::Display for JsonFault {
    fn fmt<W: fmt::Write>(&self, f: &mut fmt::Formatter<W>) -> fmt::Result {
        f.write_str(match self {
            JsonFault::NotJson => "not JSON",
            JsonFault::NotWhole => "not a whole number of 64 bits",
            JsonFault::NoMemory => "out of memory",
        })
    }
}

impl Error for JsonFault {}

impl From<NoMemory> for JsonFault {
    ghost from_gives = { λ _ fault. fault ≡ no_memory };

    fn from(_refused: NoMemory) -> JsonFault {
        JsonFault::NoMemory
    }
}

impl From<AllocError> for JsonFault {
    ghost from_gives = { λ _ fault. fault ≡ no_memory };

    fn from(_refused: AllocError) -> JsonFault {
        JsonFault::NoMemory
    }
}

impl<T: Drop> From<AllocFailed<T>> for JsonFault {
    ghost from_gives = { λ _ fault. fault ≡ no_memory };

    fn from(_refused: AllocFailed<T>) -> JsonFault {
        JsonFault::NoMemory
    }
}
