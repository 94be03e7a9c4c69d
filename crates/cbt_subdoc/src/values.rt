//! The values that changes put into a document.
ghost use Rattle.std.specs.Prelude.{◌≡◌, IfOk};
ghost use Rattle.cbt_json.specs.Rules.{IsJson};
ghost use Rattle.cbt_subdoc.specs.Values.{macro_text, value_of};

use crate::changes::MutValue;
use cbt_base::{Duplicate, NoMemory, Text};
use cbt_json::{Json, Tree};
use std::alloc::Global;

/// The text that stands for a CAS: `0x` and its 16 digits, least byte first.
pub fn macro_text(alloc: Global, cas: u64) -> Result<Text, NoMemory>
    ensures { IfOk result (λ text. text ≡ macro_text cas) }
{
    let mut text = Text::from_str(alloc, "0x")?;
    let digits = hex::encode(alloc, cas.to_le_bytes())?;
    text.push_str(digits.as_str())?;
    Ok(text)
}

/// The tree of a change's value, at the CAS of its call. The number of a counter is a tree too.
pub(crate) fn tree_of_value(alloc: Global, value: &MutValue, cas: u64) -> Result<Tree, NoMemory>
    ensures value { IfOk result (λ tree. tree ≡ value_of cas value.now) }
    ensures rules { IfOk result IsJson }
{
    match value {
        MutValue::None => Ok(Tree::Null),
        MutValue::Json(json) => copy_of(alloc, json),
        MutValue::MacroCas => Ok(Tree::Text(macro_text(alloc, cas)?)),
        MutValue::Delta(delta) => Ok(Tree::Whole(i128::from(*delta))),
    }
}

fn copy_of(alloc: Global, json: &Json) -> Result<Tree, NoMemory>
    ensures value { IfOk result (λ tree. tree ≡ json.now) }
    ensures rules { IfOk result IsJson }
{
    let tree = json.tree();
    tree.copy(alloc)
}
