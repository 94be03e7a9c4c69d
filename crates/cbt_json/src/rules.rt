ghost use Rattle.std.specs.Prelude.{◌≡◌, ◌↔◌, ◌≤◌, nat_le, IsTrue};
ghost use Rattle.serde_json.specs.Data.{members_depth, items_depth};
ghost use Rattle.cbt_json.specs.Trees.{data_of, levels, items_data, members_data};
ghost use Rattle.cbt_json.specs.Rules.{is_in_range, is_regular, names_rise, items_are_regular, members_are_regular};

use crate::tree::Tree;
use cbt_base::Text;

impl Tree {
    /// Whether the tree has at most `room` levels of lists and objects. It goes no deeper than that,
    /// and takes no memory.
    pub fn has_levels_within(&self, room: u32) -> bool
        ensures { IsTrue result ↔ (levels self.now ≤ room) }
    {
        levels_within(self, room)
    }
}

#[cycle(levels)]
fn levels_within(tree: &Tree, room: u32) -> bool
    ensures { result ≡ nat_le (levels tree.now) room }
{
    match tree {
        Tree::List(items) => room > 0 && items_within(items.as_slice(), room - 1),
        Tree::Object(members) => { room > 0 && members_within(members.as_slice(), room - 1) }
        _ => true,
    }
}

#[cycle(levels)]
fn items_within(items: &[Tree], room: u32) -> bool
    ensures { result ≡ nat_le (items_depth (items_data items.now)) room }
{
    for item in items {
        if !levels_within(item, room) {
            return false;
        }
    }
    true
}

#[cycle(levels)]
fn members_within(members: &[(Text, Tree)], room: u32) -> bool
    ensures { result ≡ nat_le (members_depth (members_data members.now)) room }
{
    for (_, value) in members {
        if !levels_within(value, room) {
            return false;
        }
    }
    true
}

/// Whether whole numbers are in the range and names rise, at every level.
#[cycle(regular)]
pub(crate) fn is_regular_tree(tree: &Tree) -> bool
    ensures { result ≡ is_regular (data_of tree.now) }
{
    match tree {
        Tree::Whole(n) => is_in_whole_range(*n),
        Tree::List(items) => are_regular_items(items.as_slice()),
        Tree::Object(members) => {
            have_rising_names(members.as_slice()) && are_regular_members(members.as_slice())
        }
        _ => true,
    }
}

#[cycle(regular)]
fn are_regular_items(items: &[Tree]) -> bool
    ensures { result ≡ items_are_regular (items_data items.now) }
{
    for item in items {
        if !is_regular_tree(item) {
            return false;
        }
    }
    true
}

#[cycle(regular)]
fn are_regular_members(members: &[(Text, Tree)]) -> bool
    ensures { result ≡ members_are_regular (members_data members.now) }
{
    for (_, value) in members {
        if !is_regular_tree(value) {
            return false;
        }
    }
    true
}

fn have_rising_names(members: &[(Text, Tree)]) -> bool
    ensures { result ≡ names_rise (members_data members.now) }
{
    let Some(((first, _), rest)) = members.split_first() else {
        return true;
    };
    let mut last = first;
    for (name, _) in rest {
        if last >= name {
            return false;
        }
        last = name;
    }
    true
}

fn is_in_whole_range(n: i128) -> bool
    ensures { result ≡ is_in_range n }
{
    i64::MIN as i128 <= n && n <= u64::MAX as i128
}
