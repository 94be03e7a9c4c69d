//! What a client is made with.

ghost use Rattle.std.specs.Prelude.{◌<◌, ◌≤◌, ◌^◌, All, length};

use cbt_expr::ClientPlan;

/// What a client was made with.
#[derive(Drop)]
pub struct Origin {
    /// Its number among the actors, from 1.
    pub actor: u32,
    pub plan: ClientPlan,
    /// How many transaction records there are.
    pub atrs: u16,
    ghost numbered: { 1 ≤ actor },
    ghost small: { actor < 2 ^ 32 },
    ghost records: { (1 ≤ atrs) × (atrs ≤ 1024) },
    ghost few: { length plan.txns < 2 ^ 16 },
    ghost tried: { All (λ txn. 1 ≤ txn.tries) plan.txns },
}
