use cbt_base::{Duplicate, NoMemory};
use cbt_json::Json;
use cbt_model::OpKind;
use std::alloc::Global;
use std::marker::Model;

/// An own write: the last staging of a document that may stand.
///
/// Its content may be staged as it is: it is missing exactly for a remove, and else a fit body.
#[derive(Drop)]
pub struct Own {
    pub kind: OpKind,
    pub content: Option<Json>,
    /// The stamp of the staging. None means that a call on it failed, so that it may or may not
    /// have taken effect.
    pub cas: Option<u64>,
}

impl Model for Own {
    ghost use Rattle.std.specs.Prelude.{◌≡◌, true};
    ghost use Rattle.std.specs.Coded.{codes};
    ghost use Rattle.cbt_json.specs.contracts.value.Json as json;
    ghost use Rattle.cbt_model.specs.Fitting.{content_fits};
    ghost use Rattle.cbt_attempt.specs.Noted.{Noted};

    ghost Value = { Noted };

    ghost coded = { Prim.hlevel (codes, json.the_row.coded) };

    ghost view = { λ o. record { kind = o.kind; content = o.content; cas = o.cas } };

    ghost invariant = { λ o. content_fits o.kind o.content ≡ true };

    ghost inverse = { λ n. record { kind = n.kind; content = n.content; cas = n.cas } };
}

impl Duplicate for Own {
    fn copy(&self, alloc: Global) -> Result<Own, NoMemory> {
        let content = self.content.copy(alloc)?;
        Ok(Own {
            kind: self.kind,
            content,
            cas: self.cas,
        })
    }
}
