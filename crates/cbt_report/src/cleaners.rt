//! How the rounds of cleaners are told.

ghost use Rattle.std.specs.Prelude.{◌≡◌, ◌+◌, ◌++◌, OnOk, sum_by};
ghost use Rattle.cbt_base.specs.Clock.{held};
ghost use Rattle.cbt_report.specs.Cleaners.{cleaner_line, cleaner_lines, covered_by, failed_passes, has_failed, name_at, round_covered, unshared_rounds};

use cbt_base::{NoMemory, Text};
use cbt_book::{CleanerLog, PassEnd, PassLog, RoundLog};
use cbt_lex::push_number;

/// Puts a line for each cleaner at the end. The script's stand in the same order as their logs, and the
/// sweep is the last.
pub fn push_cleaners(
    out: &mut Text,
    cleaners: &[(Text, u32)],
    logs: &[CleanerLog],
) -> Result<(), NoMemory>
    ensures { OnOk result (out.new ≡ out.old ++ cleaner_lines cleaners.now logs.now) }
{
    for k in 0..logs.len() {
        push_cleaner(out, name_at(cleaners, k), &logs[k])?;
    }
    Ok(())
}

// The name of the cleaner at this place; behind the script's stands the sweep.
fn name_at(cleaners: &[(Text, u32)], k: usize) -> &str
    ensures { result.now ≡ name_at cleaners.now k }
{
    match cleaners.get(k) {
        Some((name, _)) => name.as_str(),
        None => "sweep",
    }
}

// A cleaner with its rounds, the attempts that they covered, and what failed.
fn push_cleaner(out: &mut Text, name: &str, log: &CleanerLog) -> Result<(), NoMemory>
    ensures { OnOk result (out.new ≡ out.old ++ cleaner_line name.now log.now) }
{
    out.push_str("cleaner ")?;
    out.push_str(name)?;
    out.push_str(" rounds ")?;
    push_number(out, log.rounds.len() as u64)?;
    out.push_str(" covered ")?;
    push_number(out, covered(log.rounds.as_slice()))?;
    out.push_str(" failed ")?;
    push_number(out, failed(log))?;
    out.push_str("\n")
}

// The attempts that were treated in rounds.
fn covered(rounds: &[RoundLog]) -> u64
    ensures { result ≡ held (sum_by round_covered rounds.now) }
{
    let mut sum: u64 = 0;
    for round in rounds {
        sum = sum.saturating_add(covered_in(round.passes.as_slice()));
    }
    sum
}

// The attempts that were treated in passes.
fn covered_in(passes: &[PassLog]) -> u64
    ensures { result ≡ held (sum_by (λ pass. covered_by pass.end) passes.now) }
{
    let mut sum: u64 = 0;
    for pass in passes {
        sum = sum.saturating_add(covered_by(&pass.end));
    }
    sum
}

fn covered_by(end: &PassEnd) -> u64
    ensures { result ≡ covered_by end.now }
{
    match end {
        PassEnd::Ok { covered } => covered.len() as u64,
        PassEnd::CallFailed { .. } => 0,
    }
}

// The rounds without a share that ended, and the passes that failed.
fn failed(log: &CleanerLog) -> u64
    ensures { result ≡ held (unshared_rounds log.now + sum_by failed_passes log.now.rounds) }
{
    let mut sum = unshared_rounds(log);
    for round in log.rounds.as_slice() {
        sum = sum.saturating_add(failed_passes(round) as u64);
    }
    sum
}

// The rounds that ended without a share. The last one of a cleaner that was stopped did not end.
fn unshared_rounds(log: &CleanerLog) -> u64
    ensures { result ≡ unshared_rounds log.now }
{
    let rounds = log.rounds.as_slice();
    let ended = if log.stopped {
        rounds.len().saturating_sub(1)
    } else {
        rounds.len()
    };
    rounds[..ended]
        .iter()
        .filter(|round| round.share.is_none())
        .count() as u64
}

fn failed_passes(round: &RoundLog) -> usize
    ensures { result ≡ failed_passes round.now }
{
    round
        .passes
        .iter()
        .filter(|pass| has_failed(&pass.end))
        .count()
}

fn has_failed(end: &PassEnd) -> bool
    ensures { result ≡ has_failed end.now }
{
    matches!(end, PassEnd::CallFailed { .. })
}
