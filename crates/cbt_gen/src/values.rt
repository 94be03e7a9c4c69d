//! JSON values that are known to keep the rules.

ghost use Rattle.std.specs.Prelude.{◌≡◌};
ghost use Rattle.cbt_json.specs.Rules.{IsJson};

use cbt_json::{Json, Tree};

/// The value of a tree that keeps the rules.
pub(crate) fn json_of(tree: Tree) -> Json
    requires { IsJson tree }
    ensures { result ≡ tree }
{
    match Json::of(tree) {
        Some(json) => json,
        None => unreachable!(),
    }
}
