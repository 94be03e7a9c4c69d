//! Fields of a record, and which of them are bad.
ghost use Rattle.std.specs.Prelude.{◌≡◌};
ghost use Rattle.std.specs.Option.{option_copied};
ghost use Rattle.cbt_shape.specs.Fields.{judged, wanted, absent, formed};

use crate::fault::ShapeFault;
use cbt_json::Tree;

/// A field, by its form.
#[derive(Debug, Drop)]
pub enum Field<T> {
    Missing,
    /// It is there, and of another form than it should have.
    OtherForm,
    Good(T),
}

impl<T> Field<T> {
    /// A field that is there, by what its form makes of it.
    pub fn judged(value: Option<T>) -> Field<T>
        ensures { result ≡ judged value }
    {
        match value {
            Some(value) => Field::Good(value),
            None => Field::OtherForm,
        }
    }
}

impl<T: Drop> Field<T> {
    /// The value of a field, with its number, that should be there.
    pub fn wanted(self, at: u8) -> Result<T, ShapeFault>
        ensures { result ≡ wanted at self }
    {
        match self {
            Field::Good(value) => Ok(value),
            Field::Missing | Field::OtherForm => Err(ShapeFault::Shape { at }),
        }
    }

    /// That a field of which nothing says whether it should be there has its form where it is there.
    pub fn formed(self, at: u8) -> Result<(), ShapeFault>
        ensures { result ≡ formed at self }
    {
        match self {
            Field::OtherForm => Err(ShapeFault::Shape { at }),
            Field::Missing | Field::Good(_) => Ok(()),
        }
    }
}

/// That a field, with its number, which should not be there is not.
pub fn absent(there: Option<&Tree>, at: u8) -> Result<(), ShapeFault>
    ensures { result ≡ absent at (option_copied there.entry) }
{
    match there {
        None => Ok(()),
        Some(_) => Err(ShapeFault::Shape { at }),
    }
}
