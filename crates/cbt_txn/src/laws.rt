//! What the calls of a client come to. Each function does nothing: what it ensures is the law. They take
//! no memory.

ghost use Rattle.std.specs.Prelude.{◌≡◌, ◌≢◌, ◌↔◌, ℕ, false, true, List, ◌++◌, length, None, Some};
ghost use Rattle.cbt_model.specs.declared.events.Made.{Made};
ghost use Rattle.cbt_model.specs.declared.steps.Step.{Step};
ghost use Rattle.cbt_book.specs.Licence.{MayTake};
ghost use Rattle.cbt_book.specs.Numbers.{Identity};
ghost use Rattle.cbt_book.specs.OwnLists.{Descends};
ghost use Rattle.cbt_core.specs.Clients.{FollowsPlan};
ghost use Rattle.cbt_core.specs.Staying.{StaysAsShown};
ghost use Rattle.cbt_core.specs.Stops.{LastHasCall, WasStopped};
ghost use Rattle.cbt_core.specs.Walk.{AttemptTerms};
ghost use Rattle.cbt_expr.specs.declared.plans.Op.{Op};
ghost use Rattle.cbt_txn.specs.Bounds.{try_left};
ghost use Rattle.cbt_txn.specs.Clients.{StandsFor, client_log_of, has_ended};
ghost use Rattle.cbt_txn.specs.Clients as clients;
ghost use Rattle.cbt_txn.specs.Closings.{IsOf, NamesOnly, TryFollows, TryHalts, TryMayGoOn};
ghost use Rattle.cbt_txn.specs.Licensing.{MayGoOn};
ghost use Rattle.cbt_txn.specs.Tries.{outcome, step_now};
ghost use Rattle.cbt_txn.specs.Works.{step_of};
ghost use Rattle.cbt_txn.specs.declared.clients.Client.{Client};
ghost use Rattle.cbt_txn.specs.declared.operations.Operations.{Operations};
ghost use Rattle.cbt_txn.specs.declared.tries.Try.{Try};

/// Each call that the operations of a try ask for is licensed by its client's whole own list.
pub fn operations_are_licensed()
    ensures { (who : Identity) (c : Operations) (l : List Made) (s : Step) → MayGoOn who c l → step_of c.work ≡ Some s
        → MayTake who l s }
{}

/// So is each call that a try asks for.
pub fn tries_are_licensed()
    ensures { (who : Identity) (it : Try) (l : List Made) (s : Step) → TryMayGoOn who it l → step_now it ≡ Some s
        → MayTake who l s }
{}

/// The calls that a try asks for name no attempt but its own, where they add an entry, stage or decide.
pub fn steps_name_attempt()
    ensures { (who : Identity) (id atrs : ℕ) (it : Try) (l : List Made) (s : Step) → TryMayGoOn who it l → IsOf id atrs it
        → step_now it ≡ Some s → NamesOnly id s }
{}

/// A try may be told at any moment as one that was stopped.
pub fn tries_stop()
    ensures { (t : AttemptTerms) (it : Try) (l0 mine : List Made) → Descends (mine ++ l0) → it.operations.attempt.id ≡ t.id
        → TryFollows t it l0 mine → TryHalts t it l0 mine }
{}

/// A try that has not ended asks for a call.
pub fn tries_go_on()
    ensures { (t : AttemptTerms) (it : Try) (l0 mine : List Made) → TryFollows t it l0 mine → outcome it ≡ None
        → step_now it ≢ None }
{}

/// A try that has no calls left asks for none. With each answer fewer are left.
pub fn tries_stay_bounded()
    ensures at_end { (ops : List Op) (it : Try) → try_left ops it ≡ 0 → step_now it ≡ None }
{}

/// The log of a client is what `Client::into_log` says of it, at any moment and without a call of that.
pub fn clients_tell()
    ensures follows { (c : Client) (l : List Made) → StandsFor c l → Descends l
        → FollowsPlan c.origin.actor c.origin.atrs c.origin.plan l (client_log_of c) }
    ensures calls { (c : Client) (l : List Made) → StandsFor c l → (client_log_of c).calls ≡ length l }
    // It says that it was stopped exactly where some transaction has not ended.
    ensures stopped { (c : Client) (l : List Made) → StandsFor c l → Descends l
        → WasStopped (client_log_of c).txns ↔ (has_ended c ≡ false) }
    // That is so only of a client that was stopped, or that asks for a call.
    ensures asks { (c : Client) (l : List Made) → StandsFor c l → Descends l → has_ended c ≡ false
        → clients.step_now c ≡ None → c.stopped ≡ true }
{}

/// A client that asks for a call and is then stopped had that call to make: its log says that it was
/// stopped, and the last of its transactions has no other end by its calls, and asks for one. That is so
/// where what its calls were shown stays so, as it does in every run of licensed actors.
pub fn clients_have_calls()
    ensures stopped { (c : Client) (l : List Made) (s : Step) → StandsFor c l → Descends l → clients.step_now c ≡ Some s
        → WasStopped (client_log_of (record c { stopped = true })).txns }
    ensures has_call { (c : Client) (l : List Made) (s : Step) → StandsFor c l → Descends l → StaysAsShown l → clients.step_now c ≡ Some s
        → LastHasCall c.origin.actor c.origin.atrs l 0 1 c.origin.plan.txns (client_log_of (record c { stopped = true })).txns }
{}
