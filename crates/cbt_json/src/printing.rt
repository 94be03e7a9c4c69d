ghost use Rattle.std.specs.Prelude.{◌≡◌, ◌++◌, IfOk, OnOk};
ghost use Rattle.cbt_json.specs.Trees.{text_of};
ghost use Rattle.cbt_json.specs.Tokens.{tree_tokens, list_tokens, object_tokens};

use crate::tree::Tree;
use cbt_base::{NoMemory, Text};
use json::Writer;
use std::alloc::Global;

/// The compact text of a tree.
pub(crate) fn print(alloc: Global, tree: &Tree) -> Result<Text, NoMemory>
    ensures { IfOk result (λ text. text ≡ text_of tree.now) }
{
    let mut out = Writer::new(Vec::new(alloc));
    write_tree(tree, &mut out)?;
    let bytes = out.into_inner();
    Ok(Text::from_string(String::from_utf8(bytes).unwrap()))
}

#[cycle(write)]
fn write_tree(tree: &Tree, out: &mut Writer) -> Result<(), NoMemory>
    ensures ok { OnOk result (out.new.tokens ≡ out.old.tokens ++ tree_tokens tree.now) }
    ensures before { out.new.before ≡ out.old.before }
{
    match tree {
        Tree::Null => out.null()?,
        Tree::Bool(b) => out.boolean(*b)?,
        Tree::Whole(n) => out.number(itoa::Buffer::new().format(*n))?,
        Tree::Text(text) => out.string(text.as_str())?,
        Tree::List(items) => {
            out.begin_array()?;
            write_items(items.as_slice(), out)?;
        }
        Tree::Object(members) => {
            out.begin_object()?;
            write_members(members.as_slice(), out)?;
        }
    }
    Ok(())
}

/// With the closing bracket.
#[cycle(write)]
fn write_items(items: &[Tree], out: &mut Writer) -> Result<(), NoMemory>
    ensures ok { OnOk result (out.new.tokens ≡ out.old.tokens ++ list_tokens items.now) }
    ensures before { out.new.before ≡ out.old.before }
{
    for item in items {
        write_tree(item, out)?;
    }
    out.end_array()?;
    Ok(())
}

/// With the closing bracket.
#[cycle(write)]
fn write_members(members: &[(Text, Tree)], out: &mut Writer) -> Result<(), NoMemory>
    ensures ok { OnOk result (out.new.tokens ≡ out.old.tokens ++ object_tokens members.now) }
    ensures before { out.new.before ≡ out.old.before }
{
    for (name, value) in members {
        out.key(name.as_str())?;
        write_tree(value, out)?;
    }
    out.end_object()?;
    Ok(())
}
