ghost use Rattle.std.specs.Prelude.{◌≡◌, ◌↔◌, IsTrue};
ghost use Rattle.cbt_json.specs.Trees.{items_data, members_data};
ghost use Rattle.cbt_json.specs.Same.{tree_eq, items_eq, members_eq};

use crate::tree::Tree;
use crate::value::Json;
use cbt_base::Text;

impl Tree {
    /// Whether the two trees are the same.
    pub fn same(&self, other: &Tree) -> bool
        ensures { IsTrue result ↔ (self.now ≡ other.now) }
    {
        same_tree(self, other)
    }
}

impl Json {
    /// Whether the two values are the same.
    pub fn same(&self, other: &Json) -> bool
        ensures { IsTrue result ↔ (self.now ≡ other.now) }
    {
        same_tree(self.tree(), other.tree())
    }
}

#[cycle(same)]
fn same_tree(tree: &Tree, other: &Tree) -> bool
    ensures { result ≡ tree_eq tree.now other.now }
{
    match tree {
        Tree::Null => match other {
            Tree::Null => true,
            _ => false,
        },
        Tree::Bool(b) => match other {
            Tree::Bool(c) => *b == *c,
            _ => false,
        },
        Tree::Whole(n) => match other {
            Tree::Whole(m) => *n == *m,
            _ => false,
        },
        Tree::Text(text) => match other {
            Tree::Text(more) => text == more,
            _ => false,
        },
        Tree::List(items) => match other {
            Tree::List(more) => same_items(items.as_slice(), more.as_slice()),
            _ => false,
        },
        Tree::Object(members) => match other {
            Tree::Object(more) => same_members(members.as_slice(), more.as_slice()),
            _ => false,
        },
    }
}

#[cycle(same)]
fn same_items(items: &[Tree], others: &[Tree]) -> bool
    ensures { result ≡ items_eq (items_data items.now) (items_data others.now) }
{
    if items.len() != others.len() {
        return false;
    }
    for (at, item) in items.iter().enumerate() {
        if !same_tree(item, &others[at]) {
            return false;
        }
    }
    true
}

#[cycle(same)]
fn same_members(members: &[(Text, Tree)], others: &[(Text, Tree)]) -> bool
    ensures { result ≡ members_eq (members_data members.now) (members_data others.now) }
{
    if members.len() != others.len() {
        return false;
    }
    for (at, (name, value)) in members.iter().enumerate() {
        let (other_name, other_value) = &others[at];
        if name != other_name || !same_tree(value, other_value) {
            return false;
        }
    }
    true
}
