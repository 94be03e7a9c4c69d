//! Why bytes are no history text.

ghost use Rattle.std.specs.Prelude.{◌≡◌};
ghost use Rattle.cbt_history.specs.declared.faults.HistoryFault.TheVariants.{NoMemory as out_of_memory};
ghost use Rattle.cbt_history.specs.declared.faults.LineFault.TheVariants.{Refused, NoMemory as no_memory};

use cbt_base::NoMemory;
use std::error::Error;
use std::fmt;

/// Why a history text was not read.
#[derive(Clone, Copy, Debug, PartialEq, Eq)]
pub enum HistoryFault {
    /// The first bad line, counted from 1 at the line `script`.
    BadLine { line: u64 },
    NoMemory,
}

impl fmt::Display for HistoryFault {
    fn fmt<W: fmt::Write>(&self, f: &mut fmt::Formatter<W>) -> fmt::Result {
        match self {
            HistoryFault::BadLine { line } => write!(f, "line {line} is no line of a history"),
            HistoryFault::NoMemory => f.write_str("out of memory"),
        }
    }
}

impl Error for HistoryFault {}

impl From<NoMemory> for HistoryFault {
    ghost from_gives = { λ _ fault. fault ≡ out_of_memory };

    fn from(_refused: NoMemory) -> HistoryFault {
        HistoryFault::NoMemory
    }
}

/// A field is of another form.
#[derive(Clone, Copy, Debug, PartialEq, Eq)]
pub(crate) struct BadField;

/// Why the line of an event was not read.
#[derive(Clone, Copy, Debug, PartialEq, Eq)]
pub(crate) enum LineFault {
    Refused,
    NoMemory,
}

impl From<NoMemory> for LineFault {
    ghost from_gives = { λ _ fault. fault ≡ no_memory };

    fn from(_refused: NoMemory) -> LineFault {
        LineFault::NoMemory
    }
}

impl From<BadField> for LineFault {
    ghost from_gives = { λ _ fault. fault ≡ Refused };

    fn from(_bad: BadField) -> LineFault {
        LineFault::Refused
    }
}
