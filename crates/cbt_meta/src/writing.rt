//! A staging as JSON.
ghost use Rattle.std.specs.Prelude.{◌≡◌, ◌≤◌, Some, None, IfOk};
ghost use Rattle.cbt_json.specs.declared.tree.Tree.TheVariants as json;
ghost use Rattle.cbt_json.specs.Trees.{levels};
ghost use Rattle.cbt_shape.specs.Levels.{IsSound};
ghost use Rattle.cbt_meta.specs.Stagings.{written, kind_text, atr_fields, id_fields, op_fields, max_content_levels, HasContent};

use cbt_base::{Duplicate, Id, List, NoMemory, Text};
use cbt_json::{Json, Tree};
use cbt_model::{OpKind, Stage};
use cbt_shape::{atr_name, put};
use std::alloc::Global;

/// The value of the attribute `txn` that stands for a staging. Its content is missing exactly for a
/// remove, and has at most 125 levels.
pub fn write(alloc: Global, stage: &Stage) -> Result<Json, NoMemory>
    requires { HasContent stage.now.kind stage.now.content }
    ensures { IfOk result (λ json. json ≡ written stage.now) }
{
    let mut members = List::new(alloc);
    put(alloc, &mut members, "atr", atr_part(alloc, stage.atr)?)?;
    put(alloc, &mut members, "id", id_part(alloc, stage.attempt)?)?;
    put(alloc, &mut members, "op", op_part(alloc, stage)?)?;
    Ok(Json::of(Tree::Object(members)).unwrap())
}

fn atr_part(alloc: Global, atr: u16) -> Result<Tree, NoMemory>
    ensures { IfOk result (λ tree. tree ≡ json.Object (atr_fields atr)) }
{
    let mut fields = List::new(alloc);
    put(alloc, &mut fields, "id", Tree::Text(atr_name(alloc, atr)?))?;
    Ok(Tree::Object(fields))
}

fn id_part(alloc: Global, attempt: Id) -> Result<Tree, NoMemory>
    ensures { IfOk result (λ tree. tree ≡ json.Object (id_fields attempt)) }
{
    let mut fields = List::new(alloc);
    put(
        alloc,
        &mut fields,
        "atmpt",
        Tree::Text(attempt.text(alloc)?),
    )?;
    put(
        alloc,
        &mut fields,
        "txn",
        Tree::Text(Id::txn_of(attempt).text(alloc)?),
    )?;
    Ok(Tree::Object(fields))
}

fn op_part(alloc: Global, stage: &Stage) -> Result<Tree, NoMemory>
    requires { HasContent stage.now.kind stage.now.content }
    ensures value { IfOk result (λ tree. tree ≡ json.Object (op_fields stage.now.kind stage.now.content)) }
    ensures rules { IfOk result (IsSound 126) }
{
    match &stage.content {
        Some(content) => staged_part(alloc, stage.kind, content),
        None => bare_part(alloc, stage.kind),
    }
}

fn staged_part(alloc: Global, kind: OpKind, content: &Json) -> Result<Tree, NoMemory>
    requires { levels content.now ≤ max_content_levels }
    ensures value { IfOk result (λ tree. tree ≡ json.Object (op_fields kind (Some content.now))) }
    ensures rules { IfOk result (IsSound 126) }
{
    let mut fields = List::new(alloc);
    put(alloc, &mut fields, "stgd", content.tree().copy(alloc)?)?;
    put(alloc, &mut fields, "type", kind_tree(alloc, kind)?)?;
    Ok(Tree::Object(fields))
}

fn bare_part(alloc: Global, kind: OpKind) -> Result<Tree, NoMemory>
    ensures value { IfOk result (λ tree. tree ≡ json.Object (op_fields kind None)) }
    ensures rules { IfOk result (IsSound 126) }
{
    let mut fields = List::new(alloc);
    put(alloc, &mut fields, "type", kind_tree(alloc, kind)?)?;
    Ok(Tree::Object(fields))
}

fn kind_tree(alloc: Global, kind: OpKind) -> Result<Tree, NoMemory>
    ensures { IfOk result (λ tree. tree ≡ json.Text (kind_text kind)) }
{
    Ok(Tree::Text(Text::from_str(alloc, kind_text(kind))?))
}

fn kind_text(kind: OpKind) -> &'static str
    ensures { result.now ≡ kind_text kind }
{
    match kind {
        OpKind::Insert => "insert",
        OpKind::Replace => "replace",
        OpKind::Remove => "remove",
    }
}
