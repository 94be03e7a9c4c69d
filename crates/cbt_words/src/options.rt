//! The options behind a command's word, read by clap.

ghost use Rattle.std.specs.Prelude.{◌≡◌, true, IfOk};
ghost use Rattle.clap.specs.Words.{app_of, is_simple_and_free, with_rule};
ghost use Rattle.cbt_words.specs.Options.{alone, has_word, valued};
ghost use Rattle.cbt_words.specs.Parsers.{Reads, bare_app, rule_for};

use cbt_base::{NoMemory, Text};
use clap::error::ErrorKind;
use clap::{Arg, ArgAction, ArgMatches, Command};
use std::alloc::Global;

/// Whether a word is among others.
pub(crate) fn has_word(words: &[Text], wanted: &str) -> bool
    ensures { result ≡ has_word wanted.now words.now }
{
    words.iter().any(|word| word.as_str() == wanted)
}

/// A command of clap's without options, not even those that clap adds by itself.
pub(crate) fn bare<'a>(alloc: Global) -> Command<'a>
    ensures { app_of result ≡ bare_app }
{
    Command::new(alloc, "cbtx")
        .no_binary_name(true)
        .disable_help_flag(true)
}

/// The command with one more option, which stands alone.
pub(crate) fn with_flag<'a>(
    alloc: Global,
    command: Command<'a>,
    name: &'a str,
) -> Result<Command<'a>, NoMemory>
    ensures { IfOk result (λ more. app_of more ≡ with_rule (app_of command.entry) (rule_for (name.entry.now, alone))) }
{
    let flag = Arg::new(alloc, name).long(name).action(ArgAction::SetTrue);
    Ok(command.arg(flag)?)
}

/// The command with one more option, which has a value.
pub(crate) fn with_valued<'a>(
    alloc: Global,
    command: Command<'a>,
    name: &'a str,
) -> Result<Command<'a>, NoMemory>
    ensures { IfOk result (λ more. app_of more ≡ with_rule (app_of command.entry) (rule_for (name.entry.now, valued))) }
{
    let valued = Arg::new(alloc, name).long(name);
    Ok(command.arg(valued)?)
}

/// What clap makes of the words, where it takes them.
pub(crate) fn matches_of<'a>(
    command: Command<'a>,
    words: &'a [Text],
) -> Result<Option<ArgMatches<'a>>, NoMemory>
    requires { is_simple_and_free (app_of command) ≡ true }
    ensures { IfOk result (Reads (app_of command.entry) words.entry.now) }
{
    match command.try_get_matches_from(words) {
        Ok(matches) => Ok(Some(matches)),
        Err(error) => match error.kind() {
            ErrorKind::OutOfMemory => Err(NoMemory),
            _ => Ok(None),
        },
    }
}
