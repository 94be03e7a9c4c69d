//! The summary of a run.

ghost use Rattle.std.specs.Prelude.{◌≡◌, ◌^◌, ◌≤◌, ◌+◌, ◌-◌, ◌++◌, length, IfOk, OnOk};
ghost use Rattle.cbt_base.specs.Clock.{clock_of, held};
ghost use Rattle.cbt_json.specs.declared.tree.Tree.{out-Tree};
ghost use Rattle.cbt_model.specs.View.{view};
ghost use Rattle.cbt_report.specs.Summary.{amount_in, amount_of, debt, debts, gain, gains, member_n, summary_text, summed_lines, total_line, whole_in};

use crate::lines::push_number_line;
use crate::replay::end_of;
use crate::report::push_counts;
use cbt_base::{DocId, NoMemory, Text};
use cbt_book::Book;
use cbt_json::{Json, Tree};
use cbt_lex::push_number;
use cbt_model::{State, view};
use std::alloc::Global;

/// The summary of a run: how many events and commits it had, how many documents it left staged and how
/// many entries, and the sum of the members `n` of its documents. Of that sum gains and debts are held
/// at `u64::MAX` each.
///
/// It fails only where memory runs out.
pub fn summary_of(alloc: Global, book: &Book) -> Result<Text, NoMemory>
    requires last { book.now.kept.opening.last ≤ clock_of (2 ^ 43 - 1) + 2 ^ 32 }
    requires short { length book.now.kept.history ≤ 2 ^ 62 }
    ensures text { IfOk result (λ text. text ≡ summary_text book.now) }
{
    let end = end_of(alloc, &book.kept)?;
    let mut out = Text::from_str(alloc, "")?;
    push_number_line(&mut out, "history", book.kept.history.len() as u64)?;
    push_number_line(&mut out, "committed", end.commits)?;
    push_summed(&mut out, &end.state)?;
    Ok(out)
}

// What the state holds at the end.
fn push_summed(out: &mut Text, state: &State) -> Result<(), NoMemory>
    ensures { OnOk result (out.new ≡ out.old ++ summed_lines state.now) }
{
    push_counts(out, state)?;
    push_total(out, gains(state), debts(state))
}

// A line of what gains are without debts.
fn push_total(out: &mut Text, above: u64, below: u64) -> Result<(), NoMemory>
    ensures { OnOk result (out.new ≡ out.old ++ total_line above below) }
{
    out.push_str("total ")?;
    if below <= above {
        push_number(out, above - below)?;
    } else {
        out.push_str("-")?;
        push_number(out, below - above)?;
    }
    out.push_str("\n")
}

// What all documents together hold above zero.
fn gains(state: &State) -> u64
    ensures { result ≡ gains state.now state.now.docs }
{
    let mut sum: u64 = 0;
    for (id, _) in state.docs.iter() {
        sum = sum.saturating_add(gain(amount_at(state, id)));
    }
    sum
}

// What all documents together lack.
fn debts(state: &State) -> u64
    ensures { result ≡ debts state.now state.now.docs }
{
    let mut sum: u64 = 0;
    for (id, _) in state.docs.iter() {
        sum = sum.saturating_add(debt(amount_at(state, id)));
    }
    sum
}

fn gain(amount: i128) -> u64
    ensures { result ≡ held (gain amount) }
{
    u64::try_from(amount.max(0)).unwrap_or(u64::MAX)
}

fn debt(amount: i128) -> u64
    ensures { result ≡ held (debt amount) }
{
    u64::try_from(amount.min(0).unsigned_abs()).unwrap_or(u64::MAX)
}

// The amount that a document holds.
fn amount_at(state: &State, id: &DocId) -> i128
    ensures { result ≡ amount_of (view state.now id.now) }
{
    match view(state, id) {
        Some(body) => amount_in(body.tree()),
        None => 0,
    }
}

fn amount_in(body: &Tree) -> i128
    ensures { result ≡ amount_in (out-Tree body.now) }
{
    match body {
        Tree::Object(members) => member_n(members.as_slice()),
        _ => 0,
    }
}

fn member_n(members: &[(Text, Tree)]) -> i128
    ensures { result ≡ member_n members.now }
{
    for (name, value) in members {
        if name.as_str() == "n" {
            return whole_in(value);
        }
    }
    0
}

fn whole_in(value: &Tree) -> i128
    ensures { result ≡ whole_in (out-Tree value.now) }
{
    match value {
        Tree::Whole(whole) => *whole,
        _ => 0,
    }
}
