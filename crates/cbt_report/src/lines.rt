//! Lines of the texts, put at the end of a text.

ghost use Rattle.std.specs.Prelude.{◌≡◌, ◌++◌, OnOk};
ghost use Rattle.cbt_report.specs.Lines.{number_line};

use cbt_base::{NoMemory, Text};
use cbt_lex::push_number;

/// Puts a line of a word and a number at the end.
pub fn push_number_line(out: &mut Text, word: &str, n: u64) -> Result<(), NoMemory>
    ensures { OnOk result (out.new ≡ out.old ++ number_line word.now n) }
{
    out.push_str(word)?;
    out.push_str(" ")?;
    push_number(out, n)?;
    out.push_str("\n")
}
