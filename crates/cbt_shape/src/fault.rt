ghost use Rattle.std.specs.Prelude.{◌≡◌};
ghost use Rattle.cbt_shape.specs.declared.fault.ShapeFault.TheVariants.{NoMemory as no_memory};

use cbt_base::NoMemory;
use std::error::Error;
use std::fmt;

/// Why a JSON value is the written form of nothing.
#[derive(Clone, Copy, Debug, PartialEq, Eq)]
pub enum ShapeFault {
    /// The first field, counted from 1, that is missing, superfluous or of another form. It is 0 where
    /// the whole is no object, or has a name that is none of the fields.
    Shape { at: u8 },
    NoMemory,
}

impl fmt::Display for ShapeFault {
    fn fmt<W: fmt::Write>(&self, f: &mut fmt::Formatter<W>) -> fmt::Result {
        match self {
            ShapeFault::Shape { at: 0 } => write!(f, "an object of other fields, or none"),
            ShapeFault::Shape { at } => write!(
                f,
                "field {at} is missing, superfluous or of another form"
            ),
            ShapeFault::NoMemory => write!(f, "out of memory"),
        }
    }
}

impl Error for ShapeFault {}

impl From<NoMemory> for ShapeFault {
    ghost from_gives = { λ _ fault. fault ≡ no_memory };

    fn from(_refused: NoMemory) -> ShapeFault {
        ShapeFault::NoMemory
    }
}
