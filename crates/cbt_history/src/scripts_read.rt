//! The reading of the script in a history text.

ghost use Rattle.std.specs.Prelude.{◌≡◌, ◌⊎◌, ◌++◌, [], Ok, Err, IfOk, is_some};
ghost use Rattle.cbt_lex.specs.Pieces.{pieces};
ghost use Rattle.cbt_history.specs.ScriptsRead.{if_same, canonical, goes_on, bad_line, script_in};

use crate::faults::HistoryFault;
use crate::histories_read::ended_line;
use cbt_base::{List, NoMemory};
use cbt_script::{Script, ScriptFault};
use std::alloc::Global;

// Reads the script whose canonical text this is.
pub(crate) fn read_script(alloc: Global, text: &[u8]) -> Result<Script, HistoryFault>
    ensures answer { (result ≡ script_in text.now) ⊎ (result ≡ Err HistoryFault.NoMemory) }
{
    match canonical(alloc, text)? {
        Some(script) => Ok(script),
        None => {
            let line = bad_line(alloc, text)?;
            Err(HistoryFault::BadLine { line })
        }
    }
}

// The script whose canonical text this is, where it is one.
#[tactic(auto, unfolding(crate::specs::ScriptsRead::canonical))]
fn canonical(alloc: Global, text: &[u8]) -> Result<Option<Script>, NoMemory>
    ensures { IfOk result (λ script. script ≡ canonical text.now) }
{
    match Script::read(alloc, text) {
        Ok(script) => if_same(alloc, script, text),
        Err(ScriptFault::Bad(_)) => Ok(None),
        Err(ScriptFault::NoMemory) => Err(NoMemory),
    }
}

// A script, where this is its canonical text.
fn if_same(alloc: Global, script: Script, text: &[u8]) -> Result<Option<Script>, NoMemory>
    ensures { IfOk result (λ same. same ≡ if_same text.now (Ok script)) }
{
    let Ok(canonical) = script.text(alloc) else {
        drop(script);
        return Err(NoMemory);
    };
    if text == canonical.as_bytes() {
        Ok(Some(script))
    } else {
        drop(script);
        Ok(None)
    }
}

// The first line with which no script's canonical text goes on, or the one behind all of them, the
// first being the second line of the whole. Each further line reads all lines before it anew, which
// only a text that is refused has to wait for.
fn bad_line(alloc: Global, text: &[u8]) -> Result<u64, NoMemory>
    ensures { IfOk result (λ line. line ≡ bad_line 2 [] (pieces 10 text.now)) }
{
    let mut line: u64 = 2;
    let mut at = 0;
    while let Some((first, _)) = ended_line(&text[at..]) {
        let end = at + first.len() + 1;
        if !goes_on(alloc, &text[..end])? {
            return Ok(line);
        }
        line += 1;
        at = end;
    }
    Ok(line)
}

// Whether some script's canonical text begins with these lines.
#[tactic(auto, unfolding(crate::specs::ScriptsRead::goes_on))]
fn goes_on(alloc: Global, text: &[u8]) -> Result<bool, NoMemory>
    ensures { IfOk result (λ goes. goes ≡ goes_on text.now) }
{
    Ok(
        is_closed(alloc, text, "")?
            || is_closed(alloc, text, "commit\n")?
            || is_closed(alloc, text, "lapse 1\n")?
            || is_closed(alloc, text, "tries 1\nlapse 1\n")?
            || is_closed(alloc, text, "expiry 1\ntries 1\nlapse 1\n")?
            || is_closed(alloc, text, "atrs 1\nexpiry 1\ntries 1\nlapse 1\n")?,
    )
}

// Whether lines and these behind them are the canonical text of a script.
fn is_closed(alloc: Global, text: &[u8], closing: &str) -> Result<bool, NoMemory>
    ensures { IfOk result (λ closed. closed ≡ is_some (canonical (text.now ++ closing.now))) }
{
    let mut whole = List::from_slice(alloc, text)?;
    whole.extend_from_slice(closing.as_bytes())?;
    match canonical(alloc, whole.as_slice())? {
        Some(script) => {
            drop(script);
            Ok(true)
        }
        None => Ok(false),
    }
}
