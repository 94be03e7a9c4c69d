//! The step table: what a node does at each step, and what it answers.
ghost use Rattle.std.specs.Prelude.{◌≡◌, ◌+◌, ◌-◌, ◌^◌, ◌<◌, ◌≤◌, ◌++◌, max, IfOk, OnErr, IsTrue};
ghost use Rattle.cbt_base.specs.Clock.{clock_read, clock_mutated};
ghost use Rattle.cbt_base.specs.Keyed.{with_pair};
ghost use Rattle.cbt_model.specs.Fitting.{fits, step_fits, HasFitBodies};
ghost use Rattle.cbt_model.specs.Keys.{IsOrdered, doc_at, entry_at, id_cmp};
ghost use Rattle.cbt_model.specs.Table.{SetsDoc, SetsEntry, DropsEntry, SetsClients, refused, takes, made, apply_to, read_doc_row, stage_row, publish_row, delete_row, unstick_row, read_entry_row, add_entry_row, decide_row, drop_entry_row, entries_of, without_gone};

use crate::documents::{DocState, Stage};
use crate::entries::{ClientRow, Entry, EntryState, Lists};
use crate::states::State;
use crate::steps::{Expect, Reply, Step};
use cbt_base::{DocId, Duplicate, Hlc, Id, List, Map, NoMemory};
use cbt_json::Json;
use std::alloc::Global;

/// Makes a step on a state at a reading of the clock, in milliseconds, and answers it.
///
/// On `NoMemory` nothing has changed.
pub fn apply(alloc: Global, state: &mut State, reading: u64, step: &Step) -> Result<Reply, NoMemory>
    requires { state.old.last < 2 ^ 64 - 65537 }
    ensures table { IfOk result (λ reply.
        (state.new, reply) ≡ apply_to state.old reading step.now) }
    ensures refused { OnErr result (state.new ≡ state.old) }
    ensures clock { state.new.last ≤ max (state.old.last + 1) (2 ^ 63) }
    ensures fits { HasFitBodies state.old → IfOk result (λ reply. IsTrue (fits step.now reply)) }
    ensures bodies { HasFitBodies state.old → IsTrue (step_fits step.now) → HasFitBodies state.new }
{
    have_rising_keys(state);
    take_step(alloc, state, reading, step)
}

// The keys of a state's maps rise, as their types have it.
fn have_rising_keys(state: &State)
    ensures { IsOrdered state.now }
{
    let _docs = state.docs.len();
    let _entries = state.entries.len();
    let _clients = state.clients.len();
}

// Makes a step by its row of the table.
#[tactic(auto, unfolding(crate::specs::Table::row))]
fn take_step(alloc: Global, state: &mut State, reading: u64, step: &Step) -> Result<Reply, NoMemory>
    requires { state.old.last < 2 ^ 64 - 65537 }
    ensures row { IfOk result (λ reply. (state.new, reply) ≡ apply_to state.old reading step.now) }
    ensures refused { OnErr result (state.new ≡ state.old) }
    ensures clock { state.new.last ≤ max (state.old.last + 1) (2 ^ 63) }
{
    match step {
        Step::ReadDoc { doc } => read_doc(alloc, state, reading, doc),
        Step::Stage {
            doc,
            expect: Expect::New,
            stage,
        } => stage_new(alloc, state, reading, doc, stage),
        Step::Stage {
            doc,
            expect: Expect::Cas(cas),
            stage,
        } => stage_over(alloc, state, reading, doc, *cas, stage),
        Step::Publish { doc, cas, body } => publish(alloc, state, reading, doc, *cas, body),
        Step::Delete { doc, cas } => delete(alloc, state, reading, doc, *cas),
        Step::Unstick { doc, cas } => unstick(alloc, state, reading, doc, *cas),
        Step::ReadEntry { atr, attempt } => read_entry(alloc, state, reading, (*atr, *attempt)),
        Step::AddEntry { atr, attempt, exp } => add_entry(
            alloc,
            state,
            reading,
            (*atr, *attempt),
            *exp,
        ),
        Step::Commit {
            atr,
            attempt,
            lists,
        } => decide(
            alloc,
            state,
            reading,
            (*atr, *attempt),
            EntryState::Committed,
            lists,
        ),
        Step::Abort {
            atr,
            attempt,
            lists,
        } => decide(
            alloc,
            state,
            reading,
            (*atr, *attempt),
            EntryState::Aborted,
            lists,
        ),
        Step::DropEntry {
            atr,
            attempt,
            guarded,
        } => Ok(drop_entry(state, reading, (*atr, *attempt), *guarded)),
        Step::ReadAtr { atr } => read_atr(alloc, state, reading, *atr),
        Step::ReadClients => read_clients(alloc, state, reading),
        Step::Beat {
            me,
            expires,
            num_atrs,
            gone,
        } => {
            let row = ClientRow {
                heartbeat: next_cas(state, reading),
                expires: *expires,
                num_atrs: *num_atrs,
            };
            beat(state, reading, *me, row, gone.as_slice())
        }
    }
}

// The stamp of a change made now.
fn next_cas(state: &State, reading: u64) -> u64
    requires { state.now.last < 2 ^ 64 - 65537 }
    ensures stamp { result ≡ clock_mutated state.now.last reading }
    ensures within { result ≤ max (state.now.last + 1) (2 ^ 63) }
{
    let mut clock = Hlc { last: state.last };
    clock.mutate(reading)
}

// Answers without a change.
fn refuse(state: &mut State, reading: u64, reply: Reply) -> Reply
    requires { state.old.last < 2 ^ 64 - 65537 }
    ensures row { (state.new, result) ≡ made state.old reading (refused reply) }
    ensures clock { state.new.last ≤ max (state.old.last + 1) (2 ^ 63) }
{
    let mut clock = Hlc { last: state.last };
    clock.read(reading);
    state.last = clock.last;
    reply
}

// Sets a document.
fn set_doc(
    alloc: Global,
    state: &mut State,
    reading: u64,
    doc: &DocId,
    set: DocState,
) -> Result<Reply, NoMemory>
    requires { state.old.last < 2 ^ 64 - 65537 }
    ensures row { IfOk result (λ reply. (state.new, reply)
        ≡ made state.old reading
        (takes (clock_mutated state.old.last reading) (SetsDoc doc.now set))) }
    ensures refused { OnErr result (state.new ≡ state.old) }
    ensures clock { state.new.last ≤ max (state.old.last + 1) (2 ^ 63) }
{
    let cas = next_cas(state, reading);
    let doc = doc.copy(alloc)?;
    state.docs.insert(doc, set)?;
    state.last = cas;
    Ok(Reply::Done { cas })
}

// Sets an entry.
fn set_entry(
    state: &mut State,
    reading: u64,
    key: (u16, Id),
    entry: Entry,
) -> Result<Reply, NoMemory>
    requires { state.old.last < 2 ^ 64 - 65537 }
    ensures row { IfOk result (λ reply. (state.new, reply)
        ≡ made state.old reading
        (takes (clock_mutated state.old.last reading) (SetsEntry key entry))) }
    ensures refused { OnErr result (state.new ≡ state.old) }
    ensures clock { state.new.last ≤ max (state.old.last + 1) (2 ^ 63) }
{
    let cas = next_cas(state, reading);
    state.entries.insert(key, entry)?;
    state.last = cas;
    Ok(Reply::Done { cas })
}

// Shows a document.
fn read_doc(alloc: Global, state: &mut State, reading: u64, doc: &DocId) -> Result<Reply, NoMemory>
    requires { state.old.last < 2 ^ 64 - 65537 }
    ensures row { IfOk result (λ reply. (state.new, reply)
        ≡ made state.old reading (read_doc_row (doc_at state.old doc.now))) }
    ensures refused { OnErr result (state.new ≡ state.old) }
    ensures clock { state.new.last ≤ max (state.old.last + 1) (2 ^ 63) }
{
    let reply = match state.docs.get(doc) {
        None => Reply::Absent,
        Some(there) => {
            let body = there.body.copy(alloc)?;
            let stage = there.stage.copy(alloc)?;
            Reply::Doc {
                cas: there.cas,
                body,
                stage,
            }
        }
    };
    Ok(refuse(state, reading, reply))
}

// Stages a write where nothing stands.
fn stage_new(
    alloc: Global,
    state: &mut State,
    reading: u64,
    doc: &DocId,
    stage: &Stage,
) -> Result<Reply, NoMemory>
    requires { state.old.last < 2 ^ 64 - 65537 }
    ensures row { IfOk result (λ reply. (state.new, reply)
        ≡ made state.old reading
        (stage_row (clock_mutated state.old.last reading)
        doc.now Expect.New stage.now (doc_at state.old doc.now))) }
    ensures refused { OnErr result (state.new ≡ state.old) }
    ensures clock { state.new.last ≤ max (state.old.last + 1) (2 ^ 63) }
{
    if state.docs.contains_key(doc) {
        return Ok(refuse(state, reading, Reply::Exists));
    }
    let set = DocState {
        cas: next_cas(state, reading),
        body: None,
        attrs: Json::empty_object(alloc),
        stage: Some(stage.copy(alloc)?),
    };
    set_doc(alloc, state, reading, doc, set)
}

// Stages a write over the document that stands there.
fn stage_over(
    alloc: Global,
    state: &mut State,
    reading: u64,
    doc: &DocId,
    cas: u64,
    stage: &Stage,
) -> Result<Reply, NoMemory>
    requires { state.old.last < 2 ^ 64 - 65537 }
    ensures row { IfOk result (λ reply. (state.new, reply)
        ≡ made state.old reading
        (stage_row (clock_mutated state.old.last reading)
        doc.now (Expect.Cas cas) stage.now (doc_at state.old doc.now))) }
    ensures refused { OnErr result (state.new ≡ state.old) }
    ensures clock { state.new.last ≤ max (state.old.last + 1) (2 ^ 63) }
{
    let reply = match state.docs.get(doc) {
        None => Reply::Absent,
        Some(there) if there.cas == cas => {
            let set = DocState {
                cas: next_cas(state, reading),
                body: there.body.copy(alloc)?,
                attrs: there.attrs.copy(alloc)?,
                stage: Some(stage.copy(alloc)?),
            };
            return set_doc(alloc, state, reading, doc, set);
        }
        Some(there) => Reply::CasMismatch { have: there.cas },
    };
    Ok(refuse(state, reading, reply))
}

// Gives a document its new body.
fn publish(
    alloc: Global,
    state: &mut State,
    reading: u64,
    doc: &DocId,
    cas: u64,
    body: &Json,
) -> Result<Reply, NoMemory>
    requires { state.old.last < 2 ^ 64 - 65537 }
    ensures row { IfOk result (λ reply. (state.new, reply)
        ≡ made state.old reading
        (publish_row (clock_mutated state.old.last reading)
        doc.now cas body.now (doc_at state.old doc.now))) }
    ensures refused { OnErr result (state.new ≡ state.old) }
    ensures clock { state.new.last ≤ max (state.old.last + 1) (2 ^ 63) }
{
    let have = match state.docs.get(doc) {
        None => 0,
        Some(there) => {
            if there.cas == cas {
                let set = DocState {
                    cas: next_cas(state, reading),
                    body: Some(body.copy(alloc)?),
                    attrs: there.attrs.copy(alloc)?,
                    stage: None,
                };
                return set_doc(alloc, state, reading, doc, set);
            }
            there.cas
        }
    };
    Ok(refuse(state, reading, Reply::CasMismatch { have }))
}

// Leaves a tombstone.
fn delete(
    alloc: Global,
    state: &mut State,
    reading: u64,
    doc: &DocId,
    cas: u64,
) -> Result<Reply, NoMemory>
    requires { state.old.last < 2 ^ 64 - 65537 }
    ensures row { IfOk result (λ reply. (state.new, reply)
        ≡ made state.old reading
        (delete_row (clock_mutated state.old.last reading)
        doc.now cas (doc_at state.old doc.now))) }
    ensures refused { OnErr result (state.new ≡ state.old) }
    ensures clock { state.new.last ≤ max (state.old.last + 1) (2 ^ 63) }
{
    let have = match state.docs.get(doc) {
        None => 0,
        Some(there) => {
            if there.cas == cas {
                let set = DocState {
                    cas: next_cas(state, reading),
                    body: None,
                    attrs: there.attrs.kept_attributes(alloc)?,
                    stage: None,
                };
                return set_doc(alloc, state, reading, doc, set);
            }
            there.cas
        }
    };
    Ok(refuse(state, reading, Reply::CasMismatch { have }))
}

// Takes a waiting write away.
fn unstick(
    alloc: Global,
    state: &mut State,
    reading: u64,
    doc: &DocId,
    cas: u64,
) -> Result<Reply, NoMemory>
    requires { state.old.last < 2 ^ 64 - 65537 }
    ensures row { IfOk result (λ reply. (state.new, reply)
        ≡ made state.old reading
        (unstick_row (clock_mutated state.old.last reading)
        doc.now cas (doc_at state.old doc.now))) }
    ensures refused { OnErr result (state.new ≡ state.old) }
    ensures clock { state.new.last ≤ max (state.old.last + 1) (2 ^ 63) }
{
    let have = match state.docs.get(doc) {
        None => 0,
        Some(there) => {
            if there.cas == cas {
                let set = DocState {
                    cas: next_cas(state, reading),
                    body: there.body.copy(alloc)?,
                    attrs: there.attrs.copy(alloc)?,
                    stage: None,
                };
                return set_doc(alloc, state, reading, doc, set);
            }
            there.cas
        }
    };
    Ok(refuse(state, reading, Reply::CasMismatch { have }))
}

// Shows an entry.
fn read_entry(
    alloc: Global,
    state: &mut State,
    reading: u64,
    key: (u16, Id),
) -> Result<Reply, NoMemory>
    requires { state.old.last < 2 ^ 64 - 65537 }
    ensures row { IfOk result (λ reply. (state.new, reply)
        ≡ made state.old reading (read_entry_row (entry_at state.old key))) }
    ensures refused { OnErr result (state.new ≡ state.old) }
    ensures clock { state.new.last ≤ max (state.old.last + 1) (2 ^ 63) }
{
    let reply = match state.entries.get(&key) {
        None => Reply::NoEntry,
        Some(entry) => Reply::Entry(entry.copy(alloc)?),
    };
    Ok(refuse(state, reading, reply))
}

// Adds a pending entry.
fn add_entry(
    alloc: Global,
    state: &mut State,
    reading: u64,
    key: (u16, Id),
    exp: u64,
) -> Result<Reply, NoMemory>
    requires { state.old.last < 2 ^ 64 - 65537 }
    ensures row { IfOk result (λ reply. (state.new, reply)
        ≡ made state.old reading
        (add_entry_row (clock_mutated state.old.last reading) key exp (entry_at state.old key))) }
    ensures refused { OnErr result (state.new ≡ state.old) }
    ensures clock { state.new.last ≤ max (state.old.last + 1) (2 ^ 63) }
{
    if state.entries.contains_key(&key) {
        return Ok(refuse(state, reading, Reply::Exists));
    }
    let entry = Entry {
        state: EntryState::Pending,
        start: next_cas(state, reading),
        exp,
        lists: Lists {
            ins: List::new(alloc),
            rep: List::new(alloc),
            rem: List::new(alloc),
        },
    };
    set_entry(state, reading, key, entry)
}

// Decides a pending entry.
fn decide(
    alloc: Global,
    state: &mut State,
    reading: u64,
    key: (u16, Id),
    decided: EntryState,
    lists: &Lists,
) -> Result<Reply, NoMemory>
    requires { state.old.last < 2 ^ 64 - 65537 }
    ensures row { IfOk result (λ reply. (state.new, reply)
        ≡ made state.old reading
        (decide_row (clock_mutated state.old.last reading)
        key decided lists.now (entry_at state.old key))) }
    ensures refused { OnErr result (state.new ≡ state.old) }
    ensures clock { state.new.last ≤ max (state.old.last + 1) (2 ^ 63) }
{
    let reply = match state.entries.get(&key) {
        None => Reply::NoEntry,
        Some(there) => match there.state {
            EntryState::Pending => {
                let entry = Entry {
                    state: decided,
                    start: there.start,
                    exp: there.exp,
                    lists: lists.copy(alloc)?,
                };
                return set_entry(state, reading, key, entry);
            }
            EntryState::Committed | EntryState::Aborted => Reply::Decided,
        },
    };
    Ok(refuse(state, reading, reply))
}

// Removes an entry, if guarded only a pending one. It takes no memory.
fn drop_entry(state: &mut State, reading: u64, key: (u16, Id), guarded: bool) -> Reply
    requires { state.old.last < 2 ^ 64 - 65537 }
    ensures row { (state.new, result)
        ≡ made state.old reading
        (drop_entry_row (clock_mutated state.old.last reading)
        key guarded (entry_at state.old key)) }
    ensures clock { state.new.last ≤ max (state.old.last + 1) (2 ^ 63) }
{
    let reply = match state.entries.get(&key) {
        None => Reply::NoEntry,
        Some(there) => match there.state {
            EntryState::Pending => return remove_entry(state, reading, key),
            EntryState::Committed | EntryState::Aborted => {
                if !guarded {
                    return remove_entry(state, reading, key);
                }
                Reply::Decided
            }
        },
    };
    refuse(state, reading, reply)
}

// Removes an entry.
fn remove_entry(state: &mut State, reading: u64, key: (u16, Id)) -> Reply
    requires { state.old.last < 2 ^ 64 - 65537 }
    ensures row { (state.new, result)
        ≡ made state.old reading (takes (clock_mutated state.old.last reading) (DropsEntry key)) }
    ensures clock { state.new.last ≤ max (state.old.last + 1) (2 ^ 63) }
{
    let cas = next_cas(state, reading);
    let _gone = state.entries.remove(&key);
    state.last = cas;
    Reply::Done { cas }
}

// Shows the entries of a transaction record.
fn read_atr(alloc: Global, state: &mut State, reading: u64, atr: u16) -> Result<Reply, NoMemory>
    requires { state.old.last < 2 ^ 64 - 65537 }
    ensures row { IfOk result (λ reply. (state.new, reply)
        ≡ made state.old reading (refused (Reply.Entries (entries_of atr state.old.entries)))) }
    ensures refused { OnErr result (state.new ≡ state.old) }
    ensures clock { state.new.last ≤ max (state.old.last + 1) (2 ^ 63) }
{
    let entries = entries_of(alloc, &state.entries, atr)?;
    Ok(refuse(state, reading, Reply::Entries(entries)))
}

// The entries of one transaction record.
fn entries_of(
    alloc: Global,
    entries: &Map<(u16, Id), Entry>,
    atr: u16,
) -> Result<List<(Id, Entry)>, NoMemory>
    ensures { IfOk result (λ found. found ≡ entries_of atr entries.now) }
{
    let mut found = List::new(alloc);
    for (key, entry) in entries.iter() {
        if key.0 == atr {
            found.push((key.1, entry.copy(alloc)?))?;
        }
    }
    Ok(found)
}

// Shows the client record.
fn read_clients(alloc: Global, state: &mut State, reading: u64) -> Result<Reply, NoMemory>
    requires { state.old.last < 2 ^ 64 - 65537 }
    ensures row { IfOk result (λ reply. (state.new, reply)
        ≡ made state.old reading (refused (Reply.Clients state.old.clients))) }
    ensures refused { OnErr result (state.new ≡ state.old) }
    ensures clock { state.new.last ≤ max (state.old.last + 1) (2 ^ 63) }
{
    let rows = rows_of(alloc, &state.clients)?;
    Ok(refuse(state, reading, Reply::Clients(rows)))
}

// The rows of the client record.
fn rows_of(alloc: Global, clients: &Map<Id, ClientRow>) -> Result<List<(Id, ClientRow)>, NoMemory>
    ensures { IfOk result (λ rows. rows ≡ clients.now) }
{
    let mut rows = List::new(alloc);
    for (id, row) in clients.iter() {
        rows.push((*id, *row))?;
    }
    Ok(rows)
}

// Sets the row of a cleaner, and removes the rows that are gone.
fn beat(
    state: &mut State,
    reading: u64,
    me: Id,
    row: ClientRow,
    gone: &[Id],
) -> Result<Reply, NoMemory>
    requires { state.old.last < 2 ^ 64 - 65537 }
    ensures row { IfOk result (λ reply. (state.new, reply)
        ≡ made state.old reading
        (takes (clock_mutated state.old.last reading) (SetsClients
        (without_gone me gone.now (with_pair id_cmp state.old.clients me row))))) }
    ensures refused { OnErr result (state.new ≡ state.old) }
    ensures clock { state.new.last ≤ max (state.old.last + 1) (2 ^ 63) }
{
    let cas = next_cas(state, reading);
    state.clients.insert(me, row)?;
    remove_rows(&mut state.clients, me, gone);
    state.last = cas;
    Ok(Reply::Done { cas })
}

// Removes the rows of the ids in `gone`, `me` excepted.
fn remove_rows(clients: &mut Map<Id, ClientRow>, me: Id, gone: &[Id])
    ensures { clients.new ≡ without_gone me gone.now clients.old }
{
    for id in gone {
        if *id != me {
            let _removed = clients.remove(id);
        }
    }
}
