ghost use Rattle.std.specs.Prelude.{◌≡◌, length};
ghost use Rattle.json.specs.Print.{escape_byte, quoted};
ghost use Rattle.serde_json.specs.Written.{items_text, members_text};
ghost use Rattle.std.specs.Prelude.{false};
ghost use Rattle.cbt_json.specs.Trees.{text_of, items_data, members_data};
ghost use Rattle.cbt_json.specs.Fit.{left_of};

use crate::tree::Tree;
use cbt_base::Text;

/// What is left of `room` bytes behind the text of `tree`, where it fits. It looks at no more of the
/// tree than about `room` bytes of its text.
#[cycle(fit)]
pub(crate) fn room_after(tree: &Tree, room: usize) -> Option<usize>
    ensures { result ≡ left_of room (length (text_of tree.now)) }
{
    match tree {
        Tree::Null | Tree::Bool(true) => room_behind(room, 4),
        Tree::Bool(false) => room_behind(room, 5),
        Tree::Whole(n) => room_behind(room, itoa::Buffer::new().format(*n).len()),
        Tree::Text(text) => room_after_quoted(text.as_str(), room),
        Tree::List(items) => room_after_items(items.as_slice(), room_behind(room, 1)?),
        Tree::Object(members) => room_after_members(members.as_slice(), room_behind(room, 1)?),
    }
}

/// With the closing bracket.
#[cycle(fit)]
fn room_after_items(items: &[Tree], room: usize) -> Option<usize>
    ensures { result ≡ left_of room (length (items_text false (items_data items.now))) }
{
    let mut left = room;
    for (at, item) in items.iter().enumerate() {
        if at > 0 {
            left = room_behind(left, 1)?;
        }
        left = room_after(item, left)?;
    }
    room_behind(left, 1)
}

/// With the closing bracket.
#[cycle(fit)]
fn room_after_members(members: &[(Text, Tree)], room: usize) -> Option<usize>
    ensures { result ≡ left_of room (length (members_text false (members_data members.now))) }
{
    let mut left = room;
    for (at, (name, value)) in members.iter().enumerate() {
        if at > 0 {
            left = room_behind(left, 1)?;
        }
        left = room_after_quoted(name.as_str(), left)?;
        left = room_behind(left, 1)?;
        left = room_after(value, left)?;
    }
    room_behind(left, 1)
}

fn room_after_quoted(text: &str, room: usize) -> Option<usize>
    ensures { result ≡ left_of room (length (quoted text.now)) }
{
    let mut left = room_behind(room, 2)?;
    for byte in text.as_bytes() {
        left = room_behind(left, escaped_len(*byte))?;
    }
    Some(left)
}

/// How many bytes stand in a text for one of its bytes.
#[tactic(auto, unfolding(json::specs::Print::escape_byte))]
fn escaped_len(byte: u8) -> usize
    ensures { result ≡ length (escape_byte byte) }
{
    match byte {
        b'"' | b'\\' | b'\x08' | b'\x0c' | b'\n' | b'\r' | b'\t' => 2,
        0..32 => 6,
        _ => 1,
    }
}

fn room_behind(room: usize, len: usize) -> Option<usize>
    ensures { result ≡ left_of room len }
{
    room.checked_sub(len)
}
