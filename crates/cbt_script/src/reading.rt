//! The reading of a script.

ghost use Rattle.std.specs.Prelude.{◌≡◌, ◌⊎◌, Err};
ghost use Rattle.cbt_script.specs.Causes.{Finds, Steps};
ghost use Rattle.cbt_script.specs.Reading.{script_of, line_step, text_field, is_passed_over, at_line, finished, Ends};

use crate::cause::{Bad, Cause, LineFault, ScriptFault};
use crate::draft::Draft;
use crate::keywords::keyword_at;
use crate::script::Script;
use cbt_lex::{cut_line, cut_word, trim};
use std::alloc::Global;
use std::str;

impl Script {
    /// Reads a script: the settings, documents, clients, cleaners, faults and order that its lines say.
    ///
    /// # Errors
    ///
    /// `Bad` with the first line that no script has at its place, counted from 1, and the cause of it.
    /// `NoMemory` where memory runs out.
    pub fn read(alloc: Global, bytes: &[u8]) -> Result<Script, ScriptFault>
        // So bytes have one answer, unless memory runs out.
        ensures answer { (result ≡ script_of bytes.now) ⊎ (result ≡ Err ScriptFault.NoMemory) }
    {
        let mut draft = Draft::new(alloc);
        let mut line: u64 = 1;
        let mut rest = bytes;
        while rest.len() > 0 {
            let (text, more) = cut_line(rest);
            take_line(alloc, &mut draft, line, text)?;
            rest = more;
            line += 1;
        }
        finish(alloc, draft, line)
    }
}

// Takes the line with this number.
fn take_line(alloc: Global, draft: &mut Draft, line: u64, text: &[u8]) -> Result<(), ScriptFault>
    ensures { Ends result draft.new (at_line line (line_step draft.old text.now)) }
{
    match step(alloc, draft, text) {
        Ok(()) => Ok(()),
        Err(LineFault::Refused(why)) => Err(ScriptFault::Bad(Bad { line, why })),
        Err(LineFault::NoMemory) => Err(ScriptFault::NoMemory),
    }
}

// Takes a line.
#[tactic(auto, unfolding(crate::specs::Reading::line_step))]
fn step(alloc: Global, draft: &mut Draft, line: &[u8]) -> Result<(), LineFault>
    ensures { Steps result draft.new (line_step draft.old line.now) }
{
    let text = text_at(trim(line))?;
    if is_passed_over(text) {
        return Ok(());
    }
    let (word, rest) = cut_word(text);
    match keyword_at(word) {
        Some(keyword) => draft.take(alloc, keyword, rest),
        None => Err(LineFault::Refused(Cause::Word)),
    }
}

// The text that a line's bytes are.
fn text_at(line: &[u8]) -> Result<&str, Cause>
    ensures { Finds (λ s. s.now) result (text_field line.now) }
{
    match str::from_utf8(line) {
        Ok(text) => Ok(text),
        Err(_) => Err(Cause::NotUtf8),
    }
}

// Whether a line is empty or a comment.
fn is_passed_over(text: &str) -> bool
    ensures { result ≡ is_passed_over text.now }
{
    match text.as_bytes() {
        [first, ..] => *first == b'#',
        [] => true,
    }
}

// The script behind the last line, where no transaction is under way.
fn finish(alloc: Global, draft: Draft, line: u64) -> Result<Script, ScriptFault>
    ensures answer { (result ≡ finished line draft) ⊎ (result ≡ Err ScriptFault.NoMemory) }
{
    if draft.clients.is_inside() {
        drop(draft);
        return Err(ScriptFault::Bad(Bad {
            line,
            why: Cause::Unended,
        }));
    }
    Ok(draft.into_script(alloc)?)
}
