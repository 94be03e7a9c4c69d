//! Transfers from one account to another.

ghost use Rattle.std.specs.Prelude.{◌≡◌, ◌<◌, ◌≤◌, IfOk};
ghost use Rattle.cbt_gen.specs.Names.{account_id};
ghost use Rattle.cbt_expr.specs.declared.plans.Op.TheVariants as op;
ghost use Rattle.cbt_expr.specs.declared.expressions.Cond.TheVariants.{Compare};
ghost use Rattle.cbt_expr.specs.declared.expressions.Cmp.TheVariants.{Ge as at_least};
ghost use Rattle.cbt_expr.specs.Literals.{alone as one_term};
ghost use Rattle.cbt_gen.specs.Transfers.{transfer, operations, plan_of, number_term, amount_in, changed, body_with};

use crate::draws::draw;
use crate::expressions::{alone, amount_in, body_with, changed, number_term};
use crate::names::account_id;
use cbt_base::{List, NoMemory, Text};
use cbt_expr::{Cmp, Cond, Op, Sign, TxnPlan};
use rand_pcg::Pcg32;
use std::alloc::Global;

/// The most that a transfer moves.
const MOST: u32 = 100;

/// The expiry of each transaction, in milliseconds, and its tries.
pub(crate) const EXPIRY: u64 = 2000;

pub(crate) const TRIES: u32 = 8;

/// A transfer of an amount between two accounts, which are numbered from 1.
#[derive(Clone, Copy, Debug, PartialEq, Eq)]
pub(crate) struct Transfer {
    pub from: u32,
    pub to: u32,
    pub amount: u32,
}

impl Transfer {
    /// Draws a transfer between two of so many accounts.
    pub(crate) fn draw(stream: &mut Pcg32, accounts: u32) -> Transfer
        requires some { 2 ≤ accounts }
        requires few { accounts ≤ 1000 }
        ensures value { result ≡ (transfer accounts stream.old).0 }
        ensures behind { stream.new ≡ (transfer accounts stream.old).1 }
        ensures from_within { result.from ≤ accounts }
        ensures to_within { result.to ≤ accounts }
    {
        let from = draw(stream, accounts);
        let further = draw(stream, accounts - 1);
        let amount = draw(stream, MOST);
        Transfer {
            from: from + 1,
            to: (from + 1 + further) % accounts + 1,
            amount: 1 + amount,
        }
    }

    /// The transaction that makes it.
    pub(crate) fn plan(self, alloc: Global) -> Result<TxnPlan, NoMemory>
        requires from_in { self.from ≤ 1000 }
        requires to_in { self.to ≤ 1000 }
        ensures { IfOk result (λ plan. plan ≡ plan_of self) }
    {
        let ops = self.operations(alloc)?;
        Ok(TxnPlan {
            ops,
            expiry: EXPIRY,
            hold: EXPIRY,
            tries: TRIES,
            keep: true,
        })
    }

    fn operations(self, alloc: Global) -> Result<List<Op>, NoMemory>
        requires from_in { self.from ≤ 1000 }
        requires to_in { self.to ≤ 1000 }
        ensures { IfOk result (λ ops. ops ≡ operations self) }
    {
        let mut ops = List::new(alloc);
        ops.push(get(alloc, self.from, "x")?)?;
        ops.push(get(alloc, self.to, "y")?)?;
        ops.push(need(alloc, "x", self.amount)?)?;
        ops.push(replace(alloc, self.from, "x", Sign::Minus, self.amount)?)?;
        ops.push(replace(alloc, self.to, "y", Sign::Plus, self.amount)?)?;
        Ok(ops)
    }
}

fn get(alloc: Global, account: u32, name: &str) -> Result<Op, NoMemory>
    requires { account ≤ 1000 }
    ensures { IfOk result (λ o. o ≡ op.Get (account_id account) name.now) }
{
    let doc = account_id(alloc, account)?;
    let name = Text::from_str(alloc, name)?;
    Ok(Op::Get { doc, name })
}

// The account that is bound to a name holds an amount at least.
fn need(alloc: Global, name: &str, amount: u32) -> Result<Op, NoMemory>
    ensures { IfOk result (λ o. o ≡ op.Need (Compare (one_term (amount_in name.now)) at_least (one_term (number_term amount)))) }
{
    let held = amount_in(alloc, name)?;
    let wanted = number_term(amount);
    Ok(Op::Need {
        cond: Cond::Compare {
            left: alone(alloc, held),
            cmp: Cmp::Ge,
            right: alone(alloc, wanted),
        },
    })
}

// An account, bound to a name, comes to hold so much more or less.
fn replace(alloc: Global, account: u32, name: &str, sign: Sign, amount: u32) -> Result<Op, NoMemory>
    requires { account ≤ 1000 }
    ensures { IfOk result (λ o. o ≡ op.Replace (account_id account) (body_with (changed name.now sign amount))) }
{
    let doc = account_id(alloc, account)?;
    let value = body_with(alloc, changed(alloc, name, sign, amount)?)?;
    Ok(Op::Replace { doc, value })
}
