//! The canonical text of a script.

ghost use Rattle.std.specs.Prelude.{◌≡◌, ◌++◌, Ok, IfOk, OnOk, codes, decimal};
ghost use Rattle.cbt_lex.specs.Lines.{lined};
ghost use Rattle.cbt_script.specs.Printed.{script_text, settings_lines, clock_lines, doc_lines, doc_line, attrs_lines, client_lines, txn_lines, plan_lines, op_lines, op_line, end_line, cleaner_lines, stop_lines, fault_lines, fault_line, fate_word, order_lines, items_text, item_text, sweep_lines, name_of, is_empty_object, labelled};
ghost use Rattle.cbt_script.specs.Reading.{script_of};
ghost use Rattle.cbt_script.specs.Rules.{IsScript};

use crate::laws::written_text_reads_back;
use crate::script::Script;
use cbt_base::{DocId, NoMemory, Text};
use cbt_expr::{ClientPlan, Op, TxnPlan};
use cbt_json::{Json, Tree};
use cbt_lex::push_number;
use cbt_model::{Fate, Item};
use cbt_syntax::{push_cond, push_expr};
use std::alloc::Global;

impl Script {
    /// The canonical text: one space between words, no empty lines or comments, every setting but the
    /// clock line always there, every `begin` with its three pairs, one `order` line at most, faults in
    /// the order stop, lost, late and by actor and call, and canonical JSON and expressions. Reading it
    /// gives this script, where it keeps the rules, as each script does that was read itself.
    pub fn text(&self, alloc: Global) -> Result<Text, NoMemory>
        ensures text { IfOk result (λ text. text ≡ script_text self.now) }
        ensures reads_back { IfOk result (λ text. IsScript self.now → script_of text ≡ Ok self.now) }
    {
        let text = self.canonical(alloc)?;
        written_text_reads_back(self, text.as_str());
        Ok(text)
    }

    fn canonical(&self, alloc: Global) -> Result<Text, NoMemory>
        ensures { IfOk result (λ text. text ≡ script_text self.now) }
    {
        let mut out = Text::from_str(alloc, "")?;
        self.push_settings(&mut out)?;
        push_docs(alloc, &mut out, self.docs.as_slice())?;
        push_clients(alloc, &mut out, self.clients.as_slice())?;
        push_cleaners(&mut out, self.cleaners.as_slice())?;
        self.push_stops(&mut out)?;
        self.push_faults(&mut out, Fate::Lost)?;
        self.push_faults(&mut out, Fate::Late)?;
        self.push_order(&mut out)?;
        push_sweep(&mut out, self.sweep)?;
        Ok(out)
    }

    fn push_settings(&self, out: &mut Text) -> Result<(), NoMemory>
        ensures { OnOk result (out.new ≡ out.old ++ lined (settings_lines self.now)) }
    {
        push_labelled(out, "atrs ", u64::from(self.atrs))?;
        push_labelled(out, "expiry ", self.expiry)?;
        push_labelled(out, "tries ", u64::from(self.tries))?;
        push_labelled(out, "lapse ", self.lapse)?;
        push_clock(out, self.line)
    }

    // The name of the actor with this number; no text where there is none.
    fn actor_name(&self, number: u32) -> &str
        ensures { result.now ≡ name_of self.now number }
    {
        let at = number.saturating_sub(1) as usize;
        match self.clients.get(at) {
            Some(client) => client.0.as_str(),
            None => match self.cleaners.get(at.saturating_sub(self.clients.len())) {
                Some(cleaner) => cleaner.0.as_str(),
                None => "",
            },
        }
    }

    fn push_stops(&self, out: &mut Text) -> Result<(), NoMemory>
        ensures { OnOk result (out.new ≡ out.old ++ lined (stop_lines self.now self.now.stops)) }
    {
        for (actor, call) in self.stops.as_slice() {
            self.push_call(out, "stop ", *actor, *call)?;
        }
        Ok(())
    }

    // The faults with this fate.
    fn push_faults(&self, out: &mut Text, fate: Fate) -> Result<(), NoMemory>
        ensures { OnOk result (out.new ≡ out.old ++ lined (fault_lines fate self.now self.now.faults.fates)) }
    {
        for ((actor, call), found) in self.faults.fates.iter() {
            if *found == fate {
                self.push_call(out, fate_word(fate), *actor, *call)?;
            }
        }
        Ok(())
    }

    // A line on a call of an actor.
    fn push_call(&self, out: &mut Text, word: &str, actor: u32, call: u64) -> Result<(), NoMemory>
        ensures { OnOk result (out.new ≡ out.old ++ (fault_line word.now self.now actor call ++ codes "\n")) }
    {
        out.push_str(word)?;
        out.push_str(self.actor_name(actor))?;
        out.push_str(" ")?;
        push_number(out, call)?;
        out.push_str("\n")
    }

    fn push_order(&self, out: &mut Text) -> Result<(), NoMemory>
        ensures { OnOk result (out.new ≡ out.old ++ lined (order_lines self.now self.now.order)) }
    {
        let items = self.order.as_slice();
        if items.len() == 0 {
            return Ok(());
        }
        out.push_str("order")?;
        self.push_items(out, items)?;
        out.push_str("\n")
    }

    // Each item behind a space.
    fn push_items(&self, out: &mut Text, items: &[Item]) -> Result<(), NoMemory>
        ensures { OnOk result (out.new ≡ out.old ++ items_text self.now items.now) }
    {
        for item in items {
            self.push_item(out, *item)?;
        }
        Ok(())
    }

    fn push_item(&self, out: &mut Text, item: Item) -> Result<(), NoMemory>
        ensures { OnOk result (out.new ≡ out.old ++ (codes " " ++ item_text self.now item)) }
    {
        out.push_str(" ")?;
        match item {
            Item::Calls { actor, k } => {
                out.push_str(self.actor_name(actor))?;
                out.push_str("*")?;
                push_number(out, k)
            }
            Item::All { actor } => {
                out.push_str(self.actor_name(actor))?;
                out.push_str("*")
            }
            Item::Ahead { ms } => {
                out.push_str("+")?;
                push_number(out, ms)
            }
        }
    }
}

// A line of a word and a number.
fn push_labelled(out: &mut Text, word: &str, n: u64) -> Result<(), NoMemory>
    ensures { OnOk result (out.new ≡ out.old ++ (labelled word.now n ++ codes "\n")) }
{
    out.push_str(word)?;
    push_number(out, n)?;
    out.push_str("\n")
}

fn push_clock(out: &mut Text, line: Option<(u64, u64)>) -> Result<(), NoMemory>
    ensures { OnOk result (out.new ≡ out.old ++ lined (clock_lines line)) }
{
    let Some((start, step)) = line else {
        return Ok(());
    };
    out.push_str("clock ")?;
    push_number(out, start)?;
    out.push_str(" ")?;
    push_number(out, step)?;
    out.push_str("\n")
}

fn push_docs(alloc: Global, out: &mut Text, docs: &[(DocId, Json, Json)]) -> Result<(), NoMemory>
    ensures { OnOk result (out.new ≡ out.old ++ lined (doc_lines docs.now)) }
{
    for (id, body, attrs) in docs {
        push_body(alloc, out, "doc ", id, body)?;
        push_attrs(alloc, out, id, attrs)?;
    }
    Ok(())
}

// A line of a word, an identifier and a JSON.
fn push_body(
    alloc: Global,
    out: &mut Text,
    word: &str,
    id: &DocId,
    json: &Json,
) -> Result<(), NoMemory>
    ensures { OnOk result (out.new ≡ out.old ++ (doc_line word.now id.now json.now ++ codes "\n")) }
{
    let text = json.text(alloc)?;
    out.push_str(word)?;
    out.push_str(id.as_str())?;
    out.push_str(" ")?;
    out.push_str(text.as_str())?;
    out.push_str("\n")
}

// The attributes of a document, where there are some.
fn push_attrs(alloc: Global, out: &mut Text, id: &DocId, attrs: &Json) -> Result<(), NoMemory>
    ensures { OnOk result (out.new ≡ out.old ++ lined (attrs_lines id.now attrs.now)) }
{
    if is_empty_object(attrs.tree()) {
        Ok(())
    } else {
        push_body(alloc, out, "attrs ", id, attrs)
    }
}

fn is_empty_object(tree: &Tree) -> bool
    ensures { result ≡ is_empty_object tree.now }
{
    match tree {
        Tree::Object(members) => members.is_empty(),
        _ => false,
    }
}

fn push_clients(
    alloc: Global,
    out: &mut Text,
    clients: &[(Text, ClientPlan)],
) -> Result<(), NoMemory>
    ensures { OnOk result (out.new ≡ out.old ++ lined (client_lines clients.now)) }
{
    for (name, plan) in clients {
        push_name(out, "client ", name)?;
        push_plans(alloc, out, plan.txns.as_slice())?;
    }
    Ok(())
}

// A line of a word and a name.
fn push_name(out: &mut Text, word: &str, name: &Text) -> Result<(), NoMemory>
    ensures { OnOk result (out.new ≡ out.old ++ (word.now ++ name.now ++ codes "\n")) }
{
    out.push_str(word)?;
    out.push_str(name.as_str())?;
    out.push_str("\n")
}

fn push_plans(alloc: Global, out: &mut Text, plans: &[TxnPlan]) -> Result<(), NoMemory>
    ensures { OnOk result (out.new ≡ out.old ++ lined (txn_lines plans.now)) }
{
    for plan in plans {
        push_plan(alloc, out, plan)?;
    }
    Ok(())
}

fn push_plan(alloc: Global, out: &mut Text, plan: &TxnPlan) -> Result<(), NoMemory>
    ensures { OnOk result (out.new ≡ out.old ++ lined (plan_lines plan.now)) }
{
    push_counted(out, "begin expiry ", plan.expiry)?;
    push_counted(out, " hold ", plan.hold)?;
    push_labelled(out, " tries ", u64::from(plan.tries))?;
    push_ops(alloc, out, plan.ops.as_slice())?;
    push_end(out, plan.keep)?;
    Ok(())
}

// The end of a transaction.
fn push_end(out: &mut Text, keep: bool) -> Result<(), NoMemory>
    ensures { OnOk result (out.new ≡ out.old ++ (end_line keep ++ codes "\n")) }
{
    if keep {
        out.push_str("commit\n")
    } else {
        out.push_str("rollback\n")
    }
}

// A word and a number.
fn push_counted(out: &mut Text, word: &str, n: u64) -> Result<(), NoMemory>
    ensures { OnOk result (out.new ≡ out.old ++ labelled word.now n) }
{
    out.push_str(word)?;
    push_number(out, n)
}

fn push_ops(alloc: Global, out: &mut Text, ops: &[Op]) -> Result<(), NoMemory>
    ensures { OnOk result (out.new ≡ out.old ++ lined (op_lines ops.now)) }
{
    for op in ops {
        push_op(alloc, out, op)?;
        out.push_str("\n")?;
    }
    Ok(())
}

fn push_op(alloc: Global, out: &mut Text, op: &Op) -> Result<(), NoMemory>
    ensures { OnOk result (out.new ≡ out.old ++ op_line op.now) }
{
    match op {
        Op::Get { doc, name } => {
            out.push_str("get ")?;
            out.push_str(doc.as_str())?;
            out.push_str(" as ")?;
            out.push_str(name.as_str())
        }
        Op::Insert { doc, value } => {
            out.push_str("insert ")?;
            out.push_str(doc.as_str())?;
            out.push_str(" ")?;
            push_expr(alloc, out, value)
        }
        Op::Replace { doc, value } => {
            out.push_str("replace ")?;
            out.push_str(doc.as_str())?;
            out.push_str(" ")?;
            push_expr(alloc, out, value)
        }
        Op::Remove { doc } => {
            out.push_str("remove ")?;
            out.push_str(doc.as_str())
        }
        Op::Need { cond } => {
            out.push_str("need ")?;
            push_cond(alloc, out, cond)
        }
    }
}

fn push_cleaners(out: &mut Text, cleaners: &[(Text, u32)]) -> Result<(), NoMemory>
    ensures { OnOk result (out.new ≡ out.old ++ lined (cleaner_lines cleaners.now)) }
{
    for (name, rounds) in cleaners {
        out.push_str("cleaner ")?;
        out.push_str(name.as_str())?;
        out.push_str(" ")?;
        push_number(out, u64::from(*rounds))?;
        out.push_str("\n")?;
    }
    Ok(())
}

// The word of a fault, with a space.
fn fate_word(fate: Fate) -> &'static str
    ensures { result.now ≡ fate_word fate }
{
    match fate {
        Fate::Late => "late ",
        _ => "lost ",
    }
}

fn push_sweep(out: &mut Text, sweep: Option<u64>) -> Result<(), NoMemory>
    ensures { OnOk result (out.new ≡ out.old ++ lined (sweep_lines sweep)) }
{
    match sweep {
        Some(ms) => push_labelled(out, "sweep ", ms),
        None => Ok(()),
    }
}
