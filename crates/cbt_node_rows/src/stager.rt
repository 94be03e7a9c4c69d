//! An actor that reads and stages, and a loop that drives any actor over any node.

ghost use Rattle.std.specs.Prelude.{◌≡◌, true, None, length, OnOk};
ghost use Rattle.cbt_model.specs.History.{own};
ghost use Rattle.cbt_model.specs.Fitting.{stage_fits};
ghost use Rattle.cbt_node_rows.specs.ReadThenStage.{stamp_of};

use cbt_base::{DocId, Duplicate, NoMemory};
use cbt_model::{Actor, Answer, Expect, Node, Reply, Stage, Step};
use std::alloc::Global;

/// Reads a document, and then stages a change of it over the stamp that it read.
#[derive(Drop)]
pub struct Stager {
    pub doc: DocId,
    pub stage: Stage,
    /// The stamp that it read.
    pub seen: Option<u64>,
    pub made: u64,
    pub stopped: bool,
    ghost fits: { stage_fits stage ≡ true },
}

fn stamp_of(reply: &Reply) -> Option<u64>
    ensures { result ≡ stamp_of reply.now }
{
    match reply {
        Reply::Doc { cas, .. } => Some(*cas),
        _ => None,
    }
}

impl Actor for Stager {
    ghost use Rattle.std.specs.Prelude.{◌≡◌, ◌-◌, None, true, if◌then◌else◌, refl};
    ghost use Rattle.std.proofs.Common.{◌∙◌, rules};
    ghost use Rattle.cbt_node_rows.specs.ReadThenStage.{Follows, step_of};

    ghost stands_for = { λ a l. Follows a.doc a.stage a.made a.seen a.stopped l };

    ghost step_now = { λ a. if a.stopped then None else step_of a.doc a.stage a.made a.seen };

    ghost is_stopped = { λ a. a.stopped };

    ghost calls_left = { λ a. if a.stopped then 0 else 2 - a.made };

    ghost same_origin = { λ a b. (a.doc ≡ b.doc) × (a.stage ≡ b.stage) };

    ghost stopped_as = { λ a b. b ≡ record a { stopped = true } };

    fn next(&self, alloc: Global) -> Result<Option<Step>, NoMemory> {
        if self.stopped {
            return Ok(None);
        }
        match (self.made, self.seen) {
            (0, _) => Ok(Some(Step::ReadDoc {
                doc: self.doc.copy(alloc)?,
            })),
            (1, Some(cas)) => {
                let doc = self.doc.copy(alloc)?;
                let stage = self.stage.copy(alloc)?;
                Ok(Some(Step::Stage {
                    doc,
                    expect: Expect::Cas(cas),
                    stage,
                }))
            }
            _ => Ok(None),
        }
    }

    fn learn(&mut self, _alloc: Global, answer: Answer) -> Result<(), NoMemory> {
        if self.made == 0 {
            self.seen = stamp_of(&answer.reply);
        }
        self.made += 1;
        Ok(())
    }

    fn calls(&self) -> u64 {
        self.made
    }

    fn stop(&mut self) {
        self.stopped = true;
    }

    ghost at_end = { Prim.search rules };

    ghost when_stopped = { Prim.search rules };

    ghost origin_itself = { λ a. (refl, refl) };

    ghost origin_along = { λ a b c p q. (p.0 ∙ q.0, p.1 ∙ q.1) };
}

/// Drives an actor to its end over a node, where there is memory.
pub fn drive<N: Node, A: Actor>(
    alloc: Global,
    node: &mut N,
    number: u32,
    actor: &mut A,
) -> Result<(), NoMemory>
    requires { A.stands_for actor.old (own (N.opening node.old) (N.history node.old) number (length (N.history node.old))) }
    ensures stands { A.stands_for actor.new (own (N.opening node.new) (N.history node.new) number (length (N.history node.new))) }
    ensures ended { OnOk result (A.step_now actor.new ≡ None) }
{
    while let Some(step) = actor.next(alloc)? {
        let answer = node.call(number, step)?;
        actor.learn(alloc, answer)?;
    }
    Ok(())
}
