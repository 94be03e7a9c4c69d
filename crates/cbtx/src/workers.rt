//! One kind of actor for clients and cleaners.

use cbt_base::NoMemory;
use cbt_lost::Cleaner;
use cbt_model::{Actor, Answer, Step};
use cbt_txn::Client;
use std::alloc::Global;

/// An actor of a script.
#[derive(Drop)]
pub enum Worker {
    Transacts(Client),
    Cleans(Cleaner),
}

impl Actor for Worker {
    ghost use Rattle.std.specs.Prelude.{refl};
    ghost use Rattle.std.proofs.Common.{◌∙◌, rules};
    ghost use Rattle.cbt_lost.specs.Cleaning as lost;
    ghost use Rattle.cbt_txn.specs.Clients as txn;
    ghost use Rattle.cbtx.specs.declared.workers.Worker.TheVariants.{Transacts, Cleans};

    ghost stands_for = { λ w l. elim w [
      | Transacts a ↦ ⟦<Client as Actor>⟧.stands_for a l
      | Cleans a ↦ ⟦<Cleaner as Actor>⟧.stands_for a l
    ] };

    ghost step_now = { λ w. elim w [
      | Transacts a ↦ ⟦<Client as Actor>⟧.step_now a
      | Cleans a ↦ ⟦<Cleaner as Actor>⟧.step_now a
    ] };

    ghost is_stopped = { λ w. elim w [
      | Transacts a ↦ ⟦<Client as Actor>⟧.is_stopped a
      | Cleans a ↦ ⟦<Cleaner as Actor>⟧.is_stopped a
    ] };

    ghost calls_left = { λ w. elim w [
      | Transacts a ↦ ⟦<Client as Actor>⟧.calls_left a
      | Cleans a ↦ ⟦<Cleaner as Actor>⟧.calls_left a
    ] };

    ghost same_origin = { λ v w. elim v [
      | Transacts a ↦ elim w [ Transacts b ↦ ⟦<Client as Actor>⟧.same_origin a b | Cleans b ↦ ⊥ ]
      | Cleans a ↦ elim w [ Transacts b ↦ ⊥ | Cleans b ↦ ⟦<Cleaner as Actor>⟧.same_origin a b ]
    ] };

    ghost stopped_as = { λ v w. elim v [
      | Transacts a ↦ elim w [ Transacts b ↦ ⟦<Client as Actor>⟧.stopped_as a b | Cleans b ↦ ⊥ ]
      | Cleans a ↦ elim w [ Transacts b ↦ ⊥ | Cleans b ↦ ⟦<Cleaner as Actor>⟧.stopped_as a b ]
    ] };

    fn next(&self, alloc: Global) -> Result<Option<Step>, NoMemory> {
        match self {
            Worker::Transacts(client) => client.next(alloc),
            Worker::Cleans(cleaner) => cleaner.next(alloc),
        }
    }

    fn learn(&mut self, alloc: Global, answer: Answer) -> Result<(), NoMemory> {
        match self {
            Worker::Transacts(client) => client.learn(alloc, answer),
            Worker::Cleans(cleaner) => cleaner.learn(alloc, answer),
        }
    }

    fn calls(&self) -> u64 {
        match self {
            Worker::Transacts(client) => client.calls(),
            Worker::Cleans(cleaner) => cleaner.calls(),
        }
    }

    fn stop(&mut self) {
        match self {
            Worker::Transacts(client) => client.stop(),
            Worker::Cleans(cleaner) => cleaner.stop(),
        }
    }

    ghost at_end = { elim [
      | Transacts a ↦ λ none. txn.none_asked (txn.step_now a) (txn.running_left a) none
      | Cleans a ↦ λ none. lost.none_asked (lost.step_now a) (lost.running_left a) none
    ] };

    ghost when_stopped = { elim [ Transacts a ↦ Prim.search rules | Cleans a ↦ Prim.search rules ] };

    ghost origin_itself = { elim [ Transacts a ↦ refl | Cleans a ↦ (refl, refl) ] };

    ghost origin_along = { elim [
      | Transacts a ↦ elim [
        | Transacts b ↦ elim [ Transacts c ↦ λ p q. p ∙ q | Cleans c ↦ λ p q. absurd q ]
        | Cleans b ↦ λ c p q. absurd p
      ]
      | Cleans a ↦ elim [
        | Transacts b ↦ λ c p q. absurd p
        | Cleans b ↦ elim [ Transacts c ↦ λ p q. absurd q | Cleans c ↦ λ p q. (p.0 ∙ q.0, p.1 ∙ q.1) ]
      ]
    ] };
}
