//! JSON as a staging.
ghost use Rattle.std.specs.Prelude.{◌≡◌, codes};
ghost use Rattle.std.specs.Option.{ForSome, option_copied};
ghost use Rattle.cbt_json.specs.Rules.{IsJson};
ghost use Rattle.cbt_subdoc.specs.Members.{member};
ghost use Rattle.cbt_shape.specs.Fields.{field};
ghost use Rattle.cbt_shape.specs.Readings.{Reads};
ghost use Rattle.cbt_meta.specs.StagingsRead.{are_known, kind_in, kind_form, staged_content, content_of, stage_of, staging_of};

use cbt_base::{Duplicate, Text};
use cbt_json::{Json, Tree};
use cbt_model::{OpKind, Stage};
use cbt_shape::{
    Field, ShapeFault, absent, atr_field, has_only, id_field, member_at, members_of, part, text_of,
    txn_field,
};
use std::alloc::Global;

/// The staging for which the value of an attribute `txn` stands. Its fields are, counted from 1,
/// `atr.id`, `id.atmpt`, `id.txn`, `op.stgd` and `op.type`.
pub fn read(alloc: Global, json: &Json) -> Result<Stage, ShapeFault>
    ensures { Reads (λ stage. stage) result (staging_of json.now) }
{
    let members = members_of(json.tree())?;
    if !are_known(members) {
        return Err(ShapeFault::Shape { at: 0 });
    }
    stage_of(
        alloc,
        part(members, "atr"),
        part(members, "id"),
        part(members, "op"),
    )
}

// Whether there are no names but those of the fields.
fn are_known(members: &[(Text, Tree)]) -> bool
    ensures { result ≡ are_known members.now }
{
    has_only(members, &["atr", "id", "op"])
        && has_only(part(members, "atr"), &["id"])
        && has_only(part(members, "id"), &["atmpt", "txn"])
        && has_only(part(members, "op"), &["stgd", "type"])
}

fn stage_of(
    alloc: Global,
    atr: &[(Text, Tree)],
    id: &[(Text, Tree)],
    op: &[(Text, Tree)],
) -> Result<Stage, ShapeFault>
    requires { ForSome (member (codes "stgd") op.now) IsJson }
    ensures { Reads (λ stage. stage) result (stage_of atr.now id.now op.now) }
{
    let atr = atr_field(member_at(atr, "id")).wanted(1)?;
    let attempt = id_field(member_at(id, "atmpt")).wanted(2)?;
    txn_field(attempt, member_at(id, "txn")).wanted(3)?;
    let kind = kind_field(member_at(op, "type"));
    let content = content_of(alloc, &kind, member_at(op, "stgd"))?;
    let kind = kind.wanted(5)?;
    Ok(Stage {
        attempt,
        atr,
        kind,
        content,
    })
}

// The content, which should be there exactly for an insert and a replace. Each value has its form.
fn content_of(
    alloc: Global,
    kind: &Field<OpKind>,
    there: Option<&Tree>,
) -> Result<Option<Json>, ShapeFault>
    requires { ForSome (option_copied there) IsJson }
    ensures { Reads (λ content. content) result (content_of kind.now (option_copied there.entry)) }
{
    match kind {
        Field::Good(OpKind::Insert | OpKind::Replace) => staged_content(alloc, there),
        Field::Good(OpKind::Remove) => {
            absent(there, 4)?;
            Ok(None)
        }
        Field::Missing | Field::OtherForm => Ok(None),
    }
}

fn staged_content(alloc: Global, there: Option<&Tree>) -> Result<Option<Json>, ShapeFault>
    requires { ForSome (option_copied there) IsJson }
    ensures { Reads (λ content. content) result (staged_content (option_copied there.entry)) }
{
    match there {
        None => Err(ShapeFault::Shape { at: 4 }),
        Some(tree) => {
            let tree = tree.copy(alloc)?;
            Ok(Some(Json::of(tree).unwrap()))
        }
    }
}

fn kind_field(there: Option<&Tree>) -> Field<OpKind>
    ensures { result ≡ field kind_form (option_copied there.entry) }
{
    match there {
        None => Field::Missing,
        Some(tree) => match text_of(tree) {
            Some(text) => Field::judged(kind_in(text)),
            None => Field::OtherForm,
        },
    }
}

fn kind_in(text: &str) -> Option<OpKind>
    ensures { result ≡ kind_in text.now }
{
    match text {
        "insert" => Some(OpKind::Insert),
        "replace" => Some(OpKind::Replace),
        "remove" => Some(OpKind::Remove),
        _ => None,
    }
}
