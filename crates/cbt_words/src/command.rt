//! What the program is told to do.

ghost use Rattle.std.specs.Prelude.{◌≡◌, codes, false, IfOk};
ghost use Rattle.cbt_words.specs.Commands.{KeepsRanges, command_of, command_in};
ghost use Rattle.cbt_words.specs.Options.{has_word};

use crate::generator::gen_in;
use crate::history::history_in;
use crate::options::has_word;
use cbt_base::{NoMemory, Text};
use std::alloc::Global;

/// What the program is told to do.
#[derive(Debug, Drop)]
pub enum Command {
    /// Runs a script, one call after another.
    Sim {
        /// Whether the history is written behind the report.
        history: bool,
    },
    /// Runs a script, each actor in a thread of its own.
    Run {
        /// Whether the history is written behind the report.
        history: bool,
    },
    /// Makes a script from numbers.
    Gen {
        /// What the script is drawn from.
        seed: u64,
        /// How many clients it has.
        clients: u32,
        /// How many documents it has.
        accounts: u32,
        /// How many transactions each client has.
        transfers: u32,
        /// Whether the script is run at once, and a summary written in its place.
        sim: bool,
    },
}

/// The command that the words behind the program's name are, where they are one. Its numbers are in
/// the ranges that a script can be made from.
///
/// # Errors
///
/// `NoMemory` where memory runs out.
pub fn command_of(alloc: Global, words: &[Text]) -> Result<Option<Command>, NoMemory>
    ensures command { IfOk result (λ command. command ≡ command_of words.now) }
    ensures ranges { IfOk result KeepsRanges }
{
    // clap would take what stands behind this word as it is.
    if has_word(words, "--") {
        return Ok(None);
    }
    match words {
        [] => Ok(None),
        [word, options @ ..] => command_in(alloc, word.as_str(), options),
    }
}

// The command that a first word and the options behind it are.
fn command_in(alloc: Global, word: &str, options: &[Text]) -> Result<Option<Command>, NoMemory>
    requires { has_word (codes "--") options.now ≡ false }
    ensures { IfOk result (λ command. command ≡ command_in word.now options.now) }
{
    if word == "sim" {
        let history = history_in(alloc, options)?;
        Ok(history.map(|history| Command::Sim { history }))
    } else if word == "run" {
        let history = history_in(alloc, options)?;
        Ok(history.map(|history| Command::Run { history }))
    } else if word == "gen" {
        gen_in(alloc, options)
    } else {
        Ok(None)
    }
}
