//! The content of a document, changed at paths.
ghost use Rattle.std.specs.Prelude.{◌≡◌, IfOk};
ghost use Rattle.std.specs.Option.{option_copied, ForSome};
ghost use Rattle.cbt_json.specs.Rules.{IsJson};
ghost use Rattle.cbt_doc.specs.Contents.{content_of, content_changed, all_changed, doc_of};
ghost use Rattle.cbt_subdoc.specs.Edits.{Does};
ghost use Rattle.cbt_doc.specs.Rules.{HasRules, Makes};

use crate::docs::{BodyChange, Doc, DocFault, DocMut};
use cbt_base::{Duplicate, List, NoMemory};
use cbt_json::{Json, Tree};
use cbt_subdoc::{Refusal, apply_change};
use std::alloc::Global;

/// Attributes and a body, while a call changes them.
#[derive(Drop)]
pub(crate) struct Content {
    pub(crate) attrs: Tree,
    pub(crate) body: Option<Tree>,
}

/// The content that a call begins with.
pub(crate) fn copy_content(alloc: Global, slot: Option<&Doc>) -> Result<Content, NoMemory>
    ensures content { IfOk result (λ content. content ≡ content_of (option_copied slot.entry)) }
    ensures rules { IfOk result HasRules }
{
    match slot {
        None => Ok(Content {
            attrs: Json::empty_object(alloc).into_tree(),
            body: None,
        }),
        Some(doc) => {
            let attrs = doc.attrs.copy(alloc)?.into_tree();
            let body = copy_body(alloc, &doc.body)?;
            Ok(Content { attrs, body })
        }
    }
}

fn copy_body(alloc: Global, body: &Option<Json>) -> Result<Option<Tree>, NoMemory>
    ensures body { IfOk result (λ copy. copy ≡ body.now) }
    ensures rules { IfOk result (λ copy. ForSome copy IsJson) }
{
    match body {
        None => Ok(None),
        Some(body) => Ok(Some(body.copy(alloc)?.into_tree())),
    }
}

/// The content after the changes of a call, in order.
pub(crate) fn change_content(
    alloc: Global,
    content: Content,
    changes: &[DocMut],
    cas: u64,
) -> Result<Content, DocFault>
    requires { HasRules content }
    ensures changes { Makes result (all_changed cas 0 changes.now content) }
    ensures rules { IfOk result HasRules }
{
    let mut work = content;
    for (i, change) in changes.iter().enumerate() {
        match change_once(alloc, work, change, cas) {
            Ok(after) => work = after,
            Err(Refusal::NoMemory) => return Err(DocFault::NoMemory),
            Err(refusal) => return Err(DocFault::Path(refusal.at(i as u64))),
        }
    }
    Ok(work)
}

fn change_once(
    alloc: Global,
    content: Content,
    change: &DocMut,
    cas: u64,
) -> Result<Content, Refusal>
    requires { HasRules content }
    ensures change { Does result (content_changed cas change.now content) }
    ensures rules { IfOk result HasRules }
{
    let Content { attrs, body } = content;
    if change.attr {
        let attrs = apply_change(alloc, attrs, &change.change, cas)?;
        return Ok(Content { attrs, body });
    }
    match body {
        None => Err(Refusal::PathNotFound),
        Some(body) => {
            let body = apply_change(alloc, body, &change.change, cas)?;
            Ok(Content {
                attrs,
                body: Some(body),
            })
        }
    }
}

/// The document of a content, after what a call makes of the body.
pub(crate) fn finish(
    alloc: Global,
    content: Content,
    body: &BodyChange,
    cas: u64,
) -> Result<Doc, NoMemory>
    requires { HasRules content }
    ensures { IfOk result (λ doc. doc ≡ doc_of cas body.now content) }
{
    let Content { attrs, body: had } = content;
    match body {
        BodyChange::Keep | BodyChange::Ensure => {
            let body = body_of(had);
            let attrs = Json::of(attrs).unwrap();
            Ok(Doc { cas, body, attrs })
        }
        BodyChange::Revive(body) | BodyChange::Replace(body) => {
            let body = Some(body.copy(alloc)?);
            let attrs = Json::of(attrs).unwrap();
            Ok(Doc { cas, body, attrs })
        }
        BodyChange::Delete => Ok(Doc {
            cas,
            body: None,
            attrs: Json::of(attrs).unwrap().kept_attributes(alloc)?,
        }),
    }
}

fn body_of(body: Option<Tree>) -> Option<Json>
    requires { ForSome body IsJson }
    ensures { result ≡ body }
{
    match body {
        None => None,
        Some(body) => Some(Json::of(body).unwrap()),
    }
}
