//! The members of an object, whose names rise by bytes.
ghost use Rattle.std.specs.Prelude.{◌≡◌, ◌<◌, ◌≤◌, length, IfOk, IfErr};
ghost use Rattle.std.specs.Option.{option_copied};
ghost use Rattle.cbt_subdoc.specs.Members.{seat, member};

use cbt_base::Text;
use cbt_json::Tree;
use std::cmp::Ordering;

/// The place of a name, or else the place at which it would stand.
pub(crate) fn seat_of(members: &[(Text, Tree)], name: &Text) -> Result<usize, usize>
    ensures seat { result ≡ seat name.now members.now }
    ensures found { IfOk result (λ at. at < length members.now) }
    ensures gap { IfErr result (λ at. at ≤ length members.now) }
{
    for (at, (other, _)) in members.iter().enumerate() {
        match name.cmp(other) {
            Ordering::Less => return Err(at),
            Ordering::Equal => return Ok(at),
            Ordering::Greater => {}
        }
    }
    Err(members.len())
}

/// The value of a name.
pub(crate) fn member_at<'a>(members: &'a [(Text, Tree)], name: &Text) -> Option<&'a Tree>
    ensures { option_copied result ≡ member name.now members.now }
{
    match seat_of(members, name) {
        Ok(at) => Some(&members[at].1),
        Err(_) => None,
    }
}
