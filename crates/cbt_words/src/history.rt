//! The one option of `sim` and `run`.

ghost use Rattle.std.specs.Prelude.{◌≡◌, codes, false, IfOk};
ghost use Rattle.cbt_words.specs.Commands.{history_in};
ghost use Rattle.cbt_words.specs.Options.{has_word};

use crate::options::{bare, matches_of, with_flag};
use cbt_base::{NoMemory, Text};
use std::alloc::Global;

/// Whether `--history` is given, where the options are at most that.
pub(crate) fn history_in(alloc: Global, options: &[Text]) -> Result<Option<bool>, NoMemory>
    requires { has_word (codes "--") options.now ≡ false }
    ensures { IfOk result (λ history. history ≡ history_in options.now) }
{
    let command = with_flag(alloc, bare(alloc), "history")?;
    match matches_of(command, options)? {
        Some(matches) => Ok(Some(matches.get_flag("history"))),
        None => Ok(None),
    }
}
