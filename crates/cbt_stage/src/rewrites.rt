//! What a write over an own write is begun with.

ghost use Rattle.std.specs.Prelude.{◌≡◌, true, Some, IfOk, IsTrue};
ghost use Rattle.cbt_model.specs.Fitting.{content_fits, step_fits};
ghost use Rattle.cbt_stage.specs.Rewrites.{call_of, kind_over, rewrite_of, takes_back, written_over, CanWriteAgain};

use cbt_attempt::{Attempt, Own};
use cbt_base::{DocId, Duplicate, Id, NoMemory};
use cbt_json::Json;
use cbt_model::{Expect, OpKind, Stage, Step};
use std::alloc::Global;

/// A write of a document over the attempt's own write of it.
#[derive(Drop)]
pub struct Rewrite {
    pub doc: DocId,
    pub attempt: Id,
    /// The transaction record of the attempt's entry.
    pub atr: u16,
    /// The stamp of the own write.
    pub cas: u64,
    /// The own write is taken back, and nothing is staged.
    pub back: bool,
    /// What is staged, or else the own write that is taken back. Until an answer comes it has no stamp.
    pub write: Own,
}

impl Rewrite {
    pub(crate) fn new(
        alloc: Global,
        attempt: &Attempt,
        doc: DocId,
        kind: OpKind,
        content: Option<Json>,
    ) -> Result<Rewrite, NoMemory>
        requires own { CanWriteAgain attempt.now doc kind }
        requires fits { content_fits kind content ≡ true }
        ensures { IfOk result (λ it. Some it ≡ rewrite_of attempt.now doc kind content) }
    {
        let own = attempt.own(&doc).unwrap();
        let cas = own.cas.unwrap();
        let atr = attempt.sent().unwrap();
        let write = written_over(alloc, own, kind, content)?;
        Ok(Rewrite {
            doc,
            attempt: attempt.id(),
            atr,
            cas,
            back: takes_back(kind, own.kind),
            write,
        })
    }

    // The call that makes the write.
    pub(crate) fn call(&self, alloc: Global) -> Result<Step, NoMemory>
        ensures step { IfOk result (λ step. step ≡ call_of self.now) }
        ensures fits { IfOk result (λ step. IsTrue (step_fits step)) }
    {
        let doc = self.doc.copy(alloc)?;
        if self.back {
            return Ok(Step::Unstick { doc, cas: self.cas });
        }
        let content = self.write.content.copy(alloc)?;
        Ok(Step::Stage {
            doc,
            expect: Expect::Cas(self.cas),
            stage: Stage {
                attempt: self.attempt,
                atr: self.atr,
                kind: self.write.kind,
                content,
            },
        })
    }
}

// Whether a write takes the own write back: a remove does so that meets an own insert.
fn takes_back(kind: OpKind, own: OpKind) -> bool
    ensures { result ≡ takes_back kind own }
{
    matches!((kind, own), (OpKind::Remove, OpKind::Insert))
}

// The kind of what is staged over an own write: an inserted document stays inserted, and what is
// inserted over an own remove replaces what was there before.
fn kind_over(kind: OpKind, own: OpKind) -> OpKind
    ensures { result ≡ kind_over kind own }
{
    match (kind, own) {
        (OpKind::Insert, _) => OpKind::Replace,
        (OpKind::Replace, OpKind::Insert) => OpKind::Insert,
        (OpKind::Replace, _) => OpKind::Replace,
        (OpKind::Remove, _) => OpKind::Remove,
    }
}

// What is staged over an own write, or else that write itself, which is taken back.
fn written_over(
    alloc: Global,
    own: &Own,
    kind: OpKind,
    content: Option<Json>,
) -> Result<Own, NoMemory>
    requires { content_fits kind content ≡ true }
    ensures { IfOk result (λ it. it ≡ written_over own.now kind content) }
{
    if takes_back(kind, own.kind) {
        let content = own.content.copy(alloc)?;
        return Ok(Own {
            kind: own.kind,
            content,
            cas: None,
        });
    }
    Ok(Own {
        kind: kind_over(kind, own.kind),
        content,
        cas: None,
    })
}
