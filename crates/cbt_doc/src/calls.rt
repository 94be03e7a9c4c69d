//! The calls on one document.
ghost use Rattle.std.specs.Prelude.{◌≡◌, ◌⊎◌, ◌≤◌, length, map, All, None, Ok, Err, IsTrue, IfOk, IfErr, OnOk, OnErr};
ghost use Rattle.std.specs.Option.{IsSomeAnd, option_copied};
ghost use Rattle.cbt_subdoc.specs.Fits.{mut_fits};
ghost use Rattle.cbt_subdoc.specs.Reach.{look_answer};
ghost use Rattle.cbt_doc.specs.Calls.{doc_after, looked_at};

use crate::contents::{change_content, copy_content, finish};
use crate::docs::{Doc, DocCall, DocFault};
use crate::refusals::{expect_fault, is_live, paths_fault, presence_fault};
use cbt_base::List;
use cbt_subdoc::{Look, LookAnswer, lookup};
use std::alloc::Global;

/// Makes a call on the document of a slot: the changes at its paths in order, then what it makes of
/// the body; the document then has the CAS. A fault is the first that is met: of what the call
/// expects, of its change of the body, of its paths as a whole, of one change after another. A
/// refused call leaves the slot as it was.
pub fn change_doc(
    alloc: Global,
    slot: &mut Option<Doc>,
    call: &DocCall,
    cas: u64,
) -> Result<(), DocFault>
    requires { All (λ m. IsTrue (mut_fits m.change)) call.now.changes }
    ensures ok { OnOk result (IsSomeAnd slot.new (λ doc. doc_after slot.old call.now cas ≡ Ok doc)) }
    ensures refused { IfErr result (λ fault. (doc_after slot.old call.now cas ≡ Err fault) ⊎ (fault ≡ DocFault.NoMemory)) }
    ensures unchanged { OnErr result (slot.new ≡ slot.old) }
{
    let doc = changed_doc(alloc, slot.as_ref(), call, cas)?;
    *slot = Some(doc);
    Ok(())
}

// The document after a call.
fn changed_doc(alloc: Global, slot: Option<&Doc>, call: &DocCall, cas: u64) -> Result<Doc, DocFault>
    ensures ok { IfOk result (λ doc. doc_after (option_copied slot.entry) call.now cas ≡ Ok doc) }
    ensures refused { IfErr result (λ fault. (doc_after (option_copied slot.entry) call.now cas ≡ Err fault) ⊎ (fault ≡ DocFault.NoMemory)) }
{
    if let Some(fault) = expect_fault(call.expect, slot) {
        return Err(fault);
    }
    if let Some(fault) = presence_fault(&call.body, slot) {
        return Err(fault);
    }
    let changes = call.changes.as_slice();
    if let Some(fault) = paths_fault(changes, is_live(slot)) {
        return Err(fault);
    }
    let content = copy_content(alloc, slot)?;
    let content = change_content(alloc, content, changes, cas)?;
    Ok(finish(alloc, content, &call.body, cas)?)
}

/// Answers each look into the attributes of a document, where `attr` is set, or else into its body;
/// a tombstone, which has none, is `Deleted`.
pub fn look_doc(
    alloc: Global,
    doc: &Doc,
    attr: bool,
    looks: &[Look],
) -> Result<List<LookAnswer>, DocFault>
    requires { length looks.now ≤ 16 }
    ensures ok { IfOk result (λ answers. IsSomeAnd (looked_at attr doc.now) (λ tree. answers ≡ map (look_answer tree) looks.now)) }
    ensures deleted { looked_at attr doc.now ≡ None → result ≡ Err DocFault.Deleted }
    ensures refused { IfErr result (λ fault. ((fault ≡ DocFault.Deleted) × (looked_at attr doc.now ≡ None)) ⊎ (fault ≡ DocFault.NoMemory)) }
{
    if attr {
        return Ok(lookup(alloc, &doc.attrs, looks)?);
    }
    match &doc.body {
        None => Err(DocFault::Deleted),
        Some(body) => Ok(lookup(alloc, body, looks)?),
    }
}
