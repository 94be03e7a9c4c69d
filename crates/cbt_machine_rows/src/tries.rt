//! Whole tries of a transaction.
//!
//! `ops` are its operations by their letters, on the document of the last digit, first on document 1: G
//! gets it, I, S and T insert, replace and remove, each with the content 9. `end rollback` is a
//! transaction that ends so, and `slow` names the own call whose answer comes back late.

ghost use Rattle.std.specs.Prelude.{◌≡◌, ◌≤◌};

use crate::bench::{ATRS, Bench, EXP, MOST_CALLS, name_of, own_id};
use crate::rows::part;
use crate::values::{WRITTEN, document, push_at};
use cbt_base::{List, NoMemory, Text};
use cbt_book::{TxnEnd, Why};
use cbt_expr::{Expr, Op, Term, TxnPlan};
use cbt_json::{Json, Tree};
use cbt_txn::{Outcome, Try};
use std::alloc::Global;

/// Tells the calls of a try, what follows it, and what it leaves.
pub fn answer(bench: &mut Bench, told: &mut String, row: &str) -> Result<(), NoMemory> {
    let keep = part(row, "end") != "rollback";
    let plan = plan_of(bench.alloc, part(row, "ops"), keep)?;
    let done = tell(bench, told, &plan, part(row, "slow"));
    drop(plan);
    done
}

fn tell(bench: &mut Bench, told: &mut String, plan: &TxnPlan, slow: &str) -> Result<(), NoMemory> {
    let slow = slow.parse::<u32>().unwrap_or(0);
    let outcome = run(bench, plan, slow)?;
    bench.push_calls(told)?;
    push_outcome(told, outcome)?;
    bench.push_documents(told)
}

// Makes the calls of a try; what follows it.
fn run(bench: &mut Bench, plan: &TxnPlan, slow: u32) -> Result<Option<Outcome>, NoMemory> {
    let mut it = Try::begin(bench.alloc, own_id(), ATRS, 0, plan)?;
    let done = drive(bench, &mut it, plan, slow);
    let outcome = it.outcome();
    drop(it);
    done?;
    Ok(outcome)
}

fn drive(bench: &mut Bench, it: &mut Try, plan: &TxnPlan, slow: u32) -> Result<(), NoMemory>
    requires { (1 ≤ it.old.operations.attempt.atrs) × (it.old.operations.attempt.atrs ≤ 1024) }
{
    for call in 1..MOST_CALLS {
        if !turn(bench, it, plan, call == slow)? {
            break;
        }
    }
    Ok(())
}

// Makes the next call; false where it has ended.
fn turn(bench: &mut Bench, it: &mut Try, plan: &TxnPlan, late: bool) -> Result<bool, NoMemory>
    requires { (1 ≤ it.old.operations.attempt.atrs) × (it.old.operations.attempt.atrs ≤ 1024) }
    ensures { it.new.operations.attempt.atrs ≡ it.old.operations.attempt.atrs }
{
    match it.next(bench.alloc)? {
        None => Ok(false),
        Some(step) => {
            let answer = bench.call(step)?;
            it.learn(bench.alloc, plan, late, answer)?;
            Ok(true)
        }
    }
}

fn push_outcome(told: &mut String, outcome: Option<Outcome>) -> Result<(), NoMemory> {
    match outcome {
        Some(Outcome::Again) => Ok(told.push_str("another try")?),
        Some(Outcome::Ends { end }) => push_end(told, end),
        None => Ok(told.push_str("not ended")?),
    }
}

fn push_end(told: &mut String, end: TxnEnd) -> Result<(), NoMemory> {
    let word = match end {
        TxnEnd::Committed { complete: true } => "committed",
        TxnEnd::Committed { complete: false } => "committed, incomplete",
        TxnEnd::Empty => "empty",
        TxnEnd::RolledBack => "rolled back",
        TxnEnd::Failed(why) => word_of(why),
        TxnEnd::Expired { .. } => "expired",
        TxnEnd::TriesSpent => "tries spent",
        TxnEnd::Unknown => "unknown",
        TxnEnd::CallFailed { place } => return push_at(told, "call failed", place),
        TxnEnd::Stopped => "stopped",
    };
    Ok(told.push_str(word)?)
}

fn word_of(why: Why) -> &'static str {
    match why {
        Why::NotFound => "failed, not found",
        Why::Exists => "failed, exists",
        Why::NeedFalse => "failed, need false",
        Why::BadValue => "failed, bad value",
    }
}

fn plan_of(alloc: Global, letters: &str, keep: bool) -> Result<TxnPlan, NoMemory> {
    Ok(TxnPlan {
        ops: ops_of(alloc, letters)?,
        expiry: EXP,
        hold: EXP,
        tries: 1,
        keep,
    })
}

fn ops_of(alloc: Global, letters: &str) -> Result<List<Op>, NoMemory> {
    let mut ops = List::new(alloc);
    let mut place = '1';
    for letter in letters.chars() {
        if letter.is_ascii_digit() {
            place = letter;
        } else {
            ops.push(op_of(alloc, letter, place)?)?;
        }
    }
    Ok(ops)
}

fn op_of(alloc: Global, letter: char, place: char) -> Result<Op, NoMemory> {
    let doc = document(alloc, name_of(place))?;
    match letter {
        'G' => Ok(Op::Get {
            doc,
            name: Text::from_str(alloc, "x")?,
        }),
        'I' => Ok(Op::Insert {
            doc,
            value: written(alloc)?,
        }),
        'T' => Ok(Op::Remove { doc }),
        _ => Ok(Op::Replace {
            doc,
            value: written(alloc)?,
        }),
    }
}

// The content that a try writes.
fn written(alloc: Global) -> Result<Expr, NoMemory> {
    let Some(json) = Json::of(Tree::Whole(WRITTEN as i128)) else {
        return Err(NoMemory);
    };
    Ok(Expr {
        first: Term::Plain(json),
        rest: List::new(alloc),
    })
}
