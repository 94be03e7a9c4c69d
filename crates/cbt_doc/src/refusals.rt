//! The tests of a call, before anything is changed.
ghost use Rattle.std.specs.Prelude.{◌≡◌, false};
ghost use Rattle.std.specs.Option.{option_copied};
ghost use Rattle.cbt_doc.specs.Refusals.{expect_fault, presence_fault, order_fault, paths_fault, has_body, has_body_path};

use crate::docs::{BodyChange, Doc, DocExpect, DocFault, DocMut};

/// The most paths of a call.
const MAX_PATHS: usize = 16;

/// Whether there is a document with a body.
pub(crate) fn is_live(slot: Option<&Doc>) -> bool
    ensures { result ≡ has_body (option_copied slot.entry) }
{
    match slot {
        Some(doc) => doc.body.is_some(),
        None => false,
    }
}

/// What is wrong with the document that a call meets, by what it expects.
pub(crate) fn expect_fault(expect: DocExpect, slot: Option<&Doc>) -> Option<DocFault>
    ensures { result ≡ expect_fault expect (option_copied slot.entry) }
{
    match slot {
        None => match expect {
            DocExpect::Cas(_) => Some(DocFault::NotFound),
            DocExpect::Any | DocExpect::New => None,
        },
        Some(doc) => match expect {
            DocExpect::New => Some(DocFault::Exists),
            DocExpect::Cas(cas) if doc.cas != cas => Some(DocFault::CasMismatch { have: doc.cas }),
            _ => None,
        },
    }
}

/// What is wrong with it, by what becomes of the body.
pub(crate) fn presence_fault(body: &BodyChange, slot: Option<&Doc>) -> Option<DocFault>
    ensures { result ≡ presence_fault body.now (option_copied slot.entry) }
{
    match slot {
        None => match body {
            BodyChange::Ensure => None,
            _ => Some(DocFault::NotFound),
        },
        Some(doc) => match body {
            BodyChange::Revive(_) if doc.body.is_some() => Some(DocFault::Exists),
            BodyChange::Replace(_) if doc.body.is_none() => Some(DocFault::Deleted),
            _ => None,
        },
    }
}

/// What is wrong with the paths of a call, for a document with a body or without.
pub(crate) fn paths_fault(changes: &[DocMut], live: bool) -> Option<DocFault>
    ensures { result ≡ paths_fault changes.now live }
{
    if changes.len() > MAX_PATHS {
        return Some(DocFault::TooManyPaths {
            n: changes.len() as u64,
        });
    }
    match first_misplaced(changes) {
        Some(i) => Some(DocFault::Order { i: i as u64 }),
        None if !live && has_body_path(changes) => Some(DocFault::Deleted),
        None => None,
    }
}

fn has_body_path(changes: &[DocMut]) -> bool
    ensures { result ≡ has_body_path changes.now }
{
    changes.iter().any(|change| !change.attr)
}

// The place of the first attribute path behind a body path.
fn first_misplaced(changes: &[DocMut]) -> Option<usize>
    ensures { result ≡ order_fault 0 false changes.now }
{
    let mut behind_body = false;
    for (i, change) in changes.iter().enumerate() {
        if change.attr && behind_body {
            return Some(i);
        }
        if !change.attr {
            behind_body = true;
        }
    }
    None
}
