//! The texts of paths in references.
ghost use Rattle.std.specs.Prelude.{◌≡◌, ◌++◌, OnOk};
ghost use Rattle.std.specs.List.{list_all};
ghost use Rattle.cbt_subdoc.specs.Written.{doubled};
ghost use Rattle.cbt_syntax.specs.References.{is_word_byte};
ghost use Rattle.cbt_syntax.specs.Texts.{is_word, name_text, part_text, path_text};

use crate::references::is_word_byte;
use cbt_base::{NoMemory, Text};
use cbt_lex::push_number;
use cbt_subdoc::Part;

/// Puts a path at the end of a text, each name behind a dot.
pub(crate) fn push_path(out: &mut Text, parts: &[Part]) -> Result<(), NoMemory>
    ensures { OnOk result (out.new ≡ out.old ++ path_text parts.now) }
{
    for part in parts {
        push_part(out, part)?;
    }
    Ok(())
}

fn push_part(out: &mut Text, part: &Part) -> Result<(), NoMemory>
    ensures { OnOk result (out.new ≡ out.old ++ part_text part.now) }
{
    match part {
        Part::Name(name) => {
            out.push_str(".")?;
            push_name(out, name.as_str())
        }
        Part::Place(at) => {
            out.push_str("[")?;
            push_number(out, u64::from(*at))?;
            out.push_str("]")
        }
        Part::Last => out.push_str("[-1]"),
    }
}

// A word as it is, and any other name between backticks.
fn push_name(out: &mut Text, name: &str) -> Result<(), NoMemory>
    ensures { OnOk result (out.new ≡ out.old ++ name_text name.now) }
{
    if is_word(name) {
        return out.push_str(name);
    }
    out.push_str("`")?;
    push_doubled(out, name)?;
    out.push_str("`")
}

fn is_word(name: &str) -> bool
    ensures { result ≡ is_word name.now }
{
    name.len() > 0 && all_of_word(name.as_bytes())
}

fn all_of_word(bytes: &[u8]) -> bool
    ensures { result ≡ list_all is_word_byte bytes.now }
{
    bytes.iter().all(|byte| is_word_byte(*byte))
}

// A name, in which each backtick stands twice.
fn push_doubled(out: &mut Text, name: &str) -> Result<(), NoMemory>
    ensures { OnOk result (out.new ≡ out.old ++ doubled name.now) }
{
    let mut rest = name;
    while let Some((piece, behind)) = rest.split_once('`') {
        out.push_str(piece)?;
        out.push_str("``")?;
        rest = behind;
    }
    out.push_str(rest)
}
