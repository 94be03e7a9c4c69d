//! Why bytes are no script.

ghost use Rattle.std.specs.Prelude.{◌≡◌, Some};
ghost use Rattle.cbt_script.specs.Causes.{cause_word};
ghost use Rattle.cbt_script.specs.declared.cause.LineFault.TheVariants.{Refused, NoMemory as no_memory};
ghost use Rattle.cbt_script.specs.declared.cause.ScriptFault.TheVariants.{NoMemory as out_of_memory};

use cbt_base::NoMemory;
use std::error::Error;
use std::fmt;

/// What is wrong with a line. Of several causes in one field the first counts.
#[derive(Clone, Copy, Debug, PartialEq, Eq)]
pub enum Cause {
    /// Its bytes are no UTF-8.
    NotUtf8,
    /// The first word is no line that may stand here.
    Word,
    /// A field is missing or superfluous, or a fixed word is another.
    Form,
    /// A name is of another form, or is `sweep` for an actor.
    Name,
    /// An identifier of a document is refused.
    Id,
    /// A number is of another form or outside its range.
    Number,
    /// A JSON has no reading.
    NotJson,
    /// A number is not a whole number from -2^63 to 2^64-1.
    NotWhole,
    /// A body or an attribute object has more than 4,096 bytes of text or more than 100 levels.
    Big,
    /// An attribute object is no object, has the name `txn` or an empty name, or follows no `doc` of
    /// its identifier.
    Attrs,
    /// An expression or a condition is of another form.
    Expr,
    /// A name in an expression or a condition is not bound.
    Unbound,
    /// A name is no actor's.
    Unknown,
    /// It is there already.
    Twice,
    /// The line takes a count or a sum past its limit.
    Limit,
    /// The input ends inside a transaction.
    Unended,
}

impl Cause {
    /// The word that is printed for it.
    pub fn word(self) -> &'static str
        ensures { result.now ≡ cause_word self }
    {
        match self {
            Cause::NotUtf8 => "NotUtf8",
            Cause::Word => "Word",
            Cause::Form => "Form",
            Cause::Name => "Name",
            Cause::Id => "Id",
            Cause::Number => "Number",
            Cause::NotJson => "NotJson",
            Cause::NotWhole => "NotWhole",
            Cause::Big => "Big",
            Cause::Attrs => "Attrs",
            Cause::Expr => "Expr",
            Cause::Unbound => "Unbound",
            Cause::Unknown => "Unknown",
            Cause::Twice => "Twice",
            Cause::Limit => "Limit",
            Cause::Unended => "Unended",
        }
    }
}

impl fmt::Display for Cause {
    ghost output = { λ why. Some (cause_word why) };

    fn fmt<W: fmt::Write>(&self, f: &mut fmt::Formatter<W>) -> fmt::Result {
        f.write_str(self.word())
    }
}

/// The first bad line of an input, from 1, and what is wrong with it.
#[derive(Clone, Copy, Debug, PartialEq, Eq)]
pub struct Bad {
    pub line: u64,
    pub why: Cause,
}

/// Why a script was not read.
#[derive(Clone, Copy, Debug, PartialEq, Eq)]
pub enum ScriptFault {
    Bad(Bad),
    NoMemory,
}

impl fmt::Display for ScriptFault {
    fn fmt<W: fmt::Write>(&self, f: &mut fmt::Formatter<W>) -> fmt::Result {
        match self {
            ScriptFault::Bad(Bad { line, why }) => write!(f, "line {line}: {why}"),
            ScriptFault::NoMemory => f.write_str("out of memory"),
        }
    }
}

impl Error for ScriptFault {}

impl From<NoMemory> for ScriptFault {
    ghost from_gives = { λ _ fault. fault ≡ out_of_memory };

    fn from(_refused: NoMemory) -> ScriptFault {
        ScriptFault::NoMemory
    }
}

/// Why a line was not taken.
#[derive(Clone, Copy, Debug, PartialEq, Eq)]
pub(crate) enum LineFault {
    Refused(Cause),
    NoMemory,
}

impl From<NoMemory> for LineFault {
    ghost from_gives = { λ _ fault. fault ≡ no_memory };

    fn from(_refused: NoMemory) -> LineFault {
        LineFault::NoMemory
    }
}

impl From<Cause> for LineFault {
    ghost from_gives = { λ why fault. fault ≡ Refused why };

    fn from(why: Cause) -> LineFault {
        LineFault::Refused(why)
    }
}
