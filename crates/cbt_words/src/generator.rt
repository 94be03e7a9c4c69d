//! The options of `gen`.

ghost use Rattle.std.specs.Prelude.{◌≡◌, ◌≤◌, Bool, codes, false, option_map, IfOk, IfSome};
ghost use Rattle.clap.specs.Words.{app_of, first_value, found_of, one_text};
ghost use Rattle.cbt_words.specs.Commands.{gen_in, gen_options, gen_with, number_in};
ghost use Rattle.cbt_words.specs.Options.{has_word};
ghost use Rattle.cbt_words.specs.Parsers.{app_with, truth_text};

use crate::command::Command;
use crate::options::{bare, matches_of, with_flag, with_valued};
use cbt_base::{NoMemory, Text};
use cbt_lex::number;
use clap::ArgMatches;
use std::alloc::Global;

/// The most transactions that a script has.
const MAX_TRANSACTIONS: u32 = 400;

// What a number may be that can be left out.
struct Limits {
    default: u32,
    least: u32,
    most: u32,
}

const CLIENTS: Limits = Limits {
    default: 8,
    least: 2,
    most: 32,
};

const ACCOUNTS: Limits = Limits {
    default: 40,
    least: 2,
    most: 1000,
};

const TRANSFERS: Limits = Limits {
    default: 16,
    least: 1,
    most: 200,
};

/// The command `gen` with these options.
pub(crate) fn gen_in(alloc: Global, options: &[Text]) -> Result<Option<Command>, NoMemory>
    requires { has_word (codes "--") options.now ≡ false }
    ensures { IfOk result (λ command. command ≡ gen_in options.now) }
{
    let command = gen_command(alloc)?;
    match matches_of(command, options)? {
        Some(matches) => Ok(gen_of(&matches)),
        None => Ok(None),
    }
}

fn gen_command<'a>(alloc: Global) -> Result<clap::Command<'a>, NoMemory>
    ensures { IfOk result (λ command. app_of command ≡ app_with gen_options) }
{
    let command = with_valued(alloc, bare(alloc), "seed")?;
    let command = with_valued(alloc, command, "clients")?;
    let command = with_valued(alloc, command, "accounts")?;
    let command = with_valued(alloc, command, "transfers")?;
    with_flag(alloc, command, "sim")
}

// The command by the options that were given.
#[tactic(auto, unfolding(crate::specs::Commands::gen_with))]
fn gen_of(matches: &ArgMatches) -> Option<Command>
    ensures { let value = first_value (found_of matches.now) in (sim : Bool) → one_text (found_of matches.now) (codes "sim") ≡ Some (truth_text sim)
        → result ≡ gen_with (value (codes "seed")) (value (codes "clients")) (value (codes "accounts")) (value (codes "transfers")) sim }
{
    let seed = number(matches.get_str("seed")?)?;
    let clients = number_in(&CLIENTS, matches.get_str("clients"))?;
    let accounts = number_in(&ACCOUNTS, matches.get_str("accounts"))?;
    let transfers = number_in(&TRANSFERS, matches.get_str("transfers"))?;
    if clients * transfers > MAX_TRANSACTIONS {
        return None;
    }
    Some(Command::Gen {
        seed,
        clients,
        accounts,
        transfers,
        sim: matches.get_flag("sim"),
    })
}

// The number that a text is, or the default where there is none, within the limits.
fn number_in(limits: &Limits, text: Option<&str>) -> Option<u32>
    ensures value { result ≡ number_in limits.now.default limits.now.least limits.now.most (option_map (λ t. t.now) text.entry) }
    ensures within { IfSome result (λ n. n ≤ limits.now.most) }
{
    let n = match text {
        Some(text) => number(text)?,
        None => u64::from(limits.default),
    };
    if u64::from(limits.least) <= n && n <= u64::from(limits.most) {
        Some(n as u32)
    } else {
        None
    }
}
