//! Small actors that only read.

ghost use Rattle.std.specs.Prelude.{◌^◌, ◌<◌, ◌≤◌};

use cbt_base::NoMemory;
use cbt_model::{Actor, Answer, Step};
use std::alloc::Global;

/// Reads a transaction record, so many times.
#[derive(Drop)]
pub struct Reader {
    pub atr: u16,
    pub reads: u32,
    pub made: u32,
    pub stopped: bool,
    ghost within: { made ≤ reads },
}

impl Reader {
    ghost use Rattle.std.specs.Prelude.{◌≡◌, false};

    pub fn new(atr: u16, reads: u32) -> Reader
        ensures made { result.made ≡ 0 }
        ensures running { result.stopped ≡ false }
    {
        Reader {
            atr,
            reads,
            made: 0,
            stopped: false,
        }
    }
}

impl Actor for Reader {
    ghost use Rattle.std.specs.Prelude.{◌≡◌, ◌-◌, ◌==◌, None, Some, true, length, if◌then◌else◌, refl};
    ghost use Rattle.std.proofs.Common.{◌∙◌, rules};
    ghost use Rattle.cbt_model.specs.declared.steps.Step.TheVariants as step;

    ghost stands_for = { λ a l. a.made ≡ length l };

    ghost step_now = { λ a. if a.stopped then None else (if a.made == a.reads then None else Some (step.ReadAtr a.atr)) };

    ghost is_stopped = { λ a. a.stopped };

    ghost calls_left = { λ a. if a.stopped then 0 else a.reads - a.made };

    ghost same_origin = { λ a b. (a.atr ≡ b.atr) × (a.reads ≡ b.reads) };

    ghost stopped_as = { λ a b. b ≡ record a { stopped = true } };

    fn next(&self, _alloc: Global) -> Result<Option<Step>, NoMemory> {
        if self.stopped || self.made == self.reads {
            return Ok(None);
        }
        Ok(Some(Step::ReadAtr { atr: self.atr }))
    }

    fn learn(&mut self, _alloc: Global, _answer: Answer) -> Result<(), NoMemory> {
        self.made += 1;
        Ok(())
    }

    fn calls(&self) -> u64 {
        u64::from(self.made)
    }

    fn stop(&mut self) {
        self.stopped = true;
    }

    ghost at_end = { Prim.search rules };

    ghost when_stopped = { Prim.search rules };

    ghost origin_itself = { λ a. (refl, refl) };

    ghost origin_along = { λ a b c p q. (p.0 ∙ q.0, p.1 ∙ q.1) };
}

/// Reads the client record, so many times.
#[derive(Drop)]
pub struct Watcher {
    pub looks: u32,
    pub left: u32,
    pub stopped: bool,
    ghost within: { left ≤ looks },
    ghost few: { looks < 2 ^ 32 },
}

impl Actor for Watcher {
    ghost use Rattle.std.specs.Prelude.{◌≡◌, ◌+◌, ◌==◌, None, Some, true, length, if◌then◌else◌, refl};
    ghost use Rattle.std.proofs.Common.{◌∙◌, rules};
    ghost use Rattle.cbt_model.specs.declared.steps.Step.TheVariants as step;

    ghost stands_for = { λ a l. a.looks ≡ a.left + length l };

    ghost step_now = { λ a. if a.stopped then None else (if a.left == 0 then None else Some step.ReadClients) };

    ghost is_stopped = { λ a. a.stopped };

    ghost calls_left = { λ a. if a.stopped then 0 else a.left };

    ghost same_origin = { λ a b. a.looks ≡ b.looks };

    ghost stopped_as = { λ a b. b ≡ record a { stopped = true } };

    fn next(&self, _alloc: Global) -> Result<Option<Step>, NoMemory> {
        if self.stopped || self.left == 0 {
            return Ok(None);
        }
        Ok(Some(Step::ReadClients))
    }

    fn learn(&mut self, _alloc: Global, _answer: Answer) -> Result<(), NoMemory> {
        self.left -= 1;
        Ok(())
    }

    fn calls(&self) -> u64 {
        u64::from(self.looks - self.left)
    }

    fn stop(&mut self) {
        self.stopped = true;
    }

    ghost at_end = { Prim.search rules };

    ghost when_stopped = { Prim.search rules };

    ghost origin_itself = { λ a. refl };

    ghost origin_along = { λ a b c p q. p ∙ q };
}

/// One of two kinds.
#[derive(Drop)]
pub enum Worker {
    Reads(Reader),
    Watches(Watcher),
}

impl Worker {
    pub fn is_stopped(&self) -> bool {
        match self {
            Worker::Reads(reader) => reader.stopped,
            Worker::Watches(watcher) => watcher.stopped,
        }
    }
}

impl Actor for Worker {
    ghost use Rattle.std.specs.Prelude.{refl};
    ghost use Rattle.std.proofs.Common.{◌∙◌, rules};
    ghost use Rattle.cbt_node_rows.specs.declared.workers.Worker.TheVariants.{Reads, Watches};

    ghost stands_for = { λ w l. elim w [
      | Reads a ↦ ⟦<Reader as Actor>⟧.stands_for a l
      | Watches a ↦ ⟦<Watcher as Actor>⟧.stands_for a l
    ] };

    ghost step_now = { λ w. elim w [
      | Reads a ↦ ⟦<Reader as Actor>⟧.step_now a
      | Watches a ↦ ⟦<Watcher as Actor>⟧.step_now a
    ] };

    ghost is_stopped = { λ w. elim w [
      | Reads a ↦ ⟦<Reader as Actor>⟧.is_stopped a
      | Watches a ↦ ⟦<Watcher as Actor>⟧.is_stopped a
    ] };

    ghost calls_left = { λ w. elim w [
      | Reads a ↦ ⟦<Reader as Actor>⟧.calls_left a
      | Watches a ↦ ⟦<Watcher as Actor>⟧.calls_left a
    ] };

    ghost same_origin = { λ v w. elim v [
      | Reads a ↦ elim w [ Reads b ↦ ⟦<Reader as Actor>⟧.same_origin a b | Watches b ↦ ⊥ ]
      | Watches a ↦ elim w [ Reads b ↦ ⊥ | Watches b ↦ ⟦<Watcher as Actor>⟧.same_origin a b ]
    ] };

    ghost stopped_as = { λ v w. elim v [
      | Reads a ↦ elim w [ Reads b ↦ ⟦<Reader as Actor>⟧.stopped_as a b | Watches b ↦ ⊥ ]
      | Watches a ↦ elim w [ Reads b ↦ ⊥ | Watches b ↦ ⟦<Watcher as Actor>⟧.stopped_as a b ]
    ] };

    fn next(&self, alloc: Global) -> Result<Option<Step>, NoMemory> {
        match self {
            Worker::Reads(reader) => reader.next(alloc),
            Worker::Watches(watcher) => watcher.next(alloc),
        }
    }

    fn learn(&mut self, alloc: Global, answer: Answer) -> Result<(), NoMemory> {
        match self {
            Worker::Reads(reader) => reader.learn(alloc, answer),
            Worker::Watches(watcher) => watcher.learn(alloc, answer),
        }
    }

    fn calls(&self) -> u64 {
        match self {
            Worker::Reads(reader) => reader.calls(),
            Worker::Watches(watcher) => watcher.calls(),
        }
    }

    fn stop(&mut self) {
        match self {
            Worker::Reads(reader) => reader.stop(),
            Worker::Watches(watcher) => watcher.stop(),
        }
    }

    ghost at_end = { elim [ Reads a ↦ Prim.search rules | Watches a ↦ Prim.search rules ] };

    ghost when_stopped = { elim [ Reads a ↦ Prim.search rules | Watches a ↦ Prim.search rules ] };

    ghost origin_itself = { elim [ Reads a ↦ (refl, refl) | Watches a ↦ refl ] };

    ghost origin_along = { elim [
      | Reads a ↦ elim [
        | Reads b ↦ elim [ Reads c ↦ λ p q. (p.0 ∙ q.0, p.1 ∙ q.1) | Watches c ↦ λ p q. absurd q ]
        | Watches b ↦ λ c p q. absurd p
      ]
      | Watches a ↦ elim [
        | Reads b ↦ λ c p q. absurd p
        | Watches b ↦ elim [ Reads c ↦ λ p q. absurd q | Watches c ↦ λ p q. p ∙ q ]
      ]
    ] };
}
