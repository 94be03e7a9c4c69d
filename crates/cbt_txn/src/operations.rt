//! The operations of one try.

ghost use Rattle.std.specs.Prelude.{◌≡◌, ◌≤◌, ◌<◌, ◌+◌, ◌*◌, ◌^◌, Bool, true, false, nat_lt, List, [], ◌∷◌, ◌++◌, length, slice_get, Some, None, IsTrue, IsSome, IfOk, IfSome, OnOk, OnErr};
ghost use Rattle.cbt_core.specs.Operations.{is_good};
ghost use Rattle.cbt_core.specs.Walk.{AttemptTerms};
ghost use Rattle.cbt_model.specs.Fitting.{fits, step_fits};
ghost use Rattle.cbt_model.specs.declared.events.Made.{Made};
ghost use Rattle.cbt_model.specs.declared.steps.Step.{Step};
ghost use Rattle.cbt_book.specs.Numbers.{Identity};
ghost use Rattle.cbt_book.specs.OwnLists.{Descends};
ghost use Rattle.cbt_book.specs.Spans.{past_of};
ghost use Rattle.cbt_logs.specs.Operating.{ComesNext};
ghost use Rattle.cbt_read.specs.declared.gets.Get.{Get};
ghost use Rattle.cbt_stage.specs.Phases as put_phases;
ghost use Rattle.cbt_stage.specs.Rewrites.{asked_by};
ghost use Rattle.cbt_txn.specs.Beginnings.{Begins, CanBegin};
ghost use Rattle.cbt_txn.specs.Bounds.{due_left, fed_left, open_left, rest_left};
ghost use Rattle.cbt_txn.specs.Feeding.{fed, fed_again, fed_put, fed_read, learnt, logged, marked, rebound, went_on, with_rewrite, with_staging};
ghost use Rattle.cbt_txn.specs.Following.{Answers, Between, Fits, Follows, GoesOn, Halts, IsNew, IsUnder, Reads};
ghost use Rattle.cbt_txn.specs.Licensing.{GoesWell, MayCome, MayGoOn, MayRead, Owns};
ghost use Rattle.cbt_txn.specs.Works.{step_of};

use crate::answers::{
    answer_of, end_of_again, end_of_put, is_good, note_put, note_write, stamp_in,
};
use crate::starts::{Beginning, Start, agrees, refusal, start_op};
use cbt_attempt::{Attempt, Own};
use cbt_base::{DocId, Duplicate, List, Map, NoMemory, Text};
use cbt_book::{OpAnswer, OpLog, Seen, Span, When};
use cbt_expr::Op;
use cbt_json::Json;
use cbt_model::{Answer, Step};
use cbt_read::{Get, GetEnd, Phase};
use cbt_stage::{Again, Put, PutEnd};
use std::alloc::Global;
use std::mem;

/// The operations of one try, one after another. It asks for a call, learns the answer, and so on until
/// none is left, one is answered so that the try goes no further, or an answer comes back late.
#[derive(Drop)]
pub struct Operations {
    pub attempt: Attempt,
    /// What its gets have bound.
    pub bound: Map<Text, Option<Json>>,
    /// The operations that were answered.
    pub logs: List<OpLog>,
    /// The place of the first call of the operation under way, where it has made one.
    pub first: Option<u64>,
    /// One past the place of the client's newest call.
    pub past: u64,
    pub work: Work,
}

/// What the operation under way does.
#[derive(Drop)]
pub enum Work {
    /// It reads its document: a get, or a write that then stages this.
    Get { get: Get, write: Option<Own> },
    Put { put: Put },
    Again { again: Again },
    /// All operations were answered, and the try may go on.
    Done,
    /// The last answer lets the try go no further.
    Refused,
    /// The last call came back at this time, past the transaction's.
    Late { now: u64 },
}

// What became of the work once it has taken an answer in.
#[derive(Drop)]
enum Fed {
    Going {
        work: Work,
    },
    /// A document was read, for a get or for a write that then stages this.
    Read {
        doc: DocId,
        write: Option<Own>,
        end: GetEnd,
    },
    Written {
        end: PutEnd,
    },
}

impl Operations {
    /// The operations of a new attempt, up to the first call. The client's newest call so far stands
    /// before the place `past`.
    pub fn begin(
        alloc: Global,
        attempt: Attempt,
        past: u64,
        ops: &List<Op>,
    ) -> Result<Operations, NoMemory>
        requires atrs { (1 ≤ attempt.atrs) × (attempt.atrs ≤ 1024) }
        ensures follows { (t : AttemptTerms) (l0 : List Made) → t.plan.ops ≡ ops.now → IsUnder t attempt → IsNew attempt → past ≡ past_of l0
            → IfOk result (λ operations. Follows t operations l0 []) }
        ensures licensed { (who : Identity) (l : List Made) → Owns who attempt l → GoesWell attempt l
            → IfOk result (λ operations. MayGoOn who operations l) }
        ensures attempt { IfOk result (λ operations. operations.attempt ≡ attempt) }
        ensures few { IfOk result (λ operations. open_left ops.now operations
            ≤ 25 * length ops.now + 2 * length attempt.writes + 8) }
    {
        let mut operations = Operations {
            attempt,
            bound: Map::new(alloc),
            logs: List::new(alloc),
            first: None,
            past,
            work: Work::Done,
        };
        operations.advance(alloc, ops)?;
        Ok(operations)
    }

    /// The call to make now; none where no operation goes on.
    pub fn next(&self, alloc: Global) -> Result<Option<Step>, NoMemory>
        ensures step { IfOk result (λ step. step ≡ step_of self.now.work) }
        ensures fits { IfOk result (λ step. IfSome step (λ s. IsTrue (step_fits s))) }
    {
        match &self.work {
            Work::Get { get, .. } => get.next(alloc),
            Work::Put { put } => put.next(alloc),
            Work::Again { again } => again.next(alloc),
            Work::Done | Work::Refused | Work::Late { .. } => Ok(None),
        }
    }

    /// Takes in the answer to the call that `next` gave, which came back late or not, and goes on to the
    /// next call.
    pub fn learn(
        &mut self,
        alloc: Global,
        ops: &List<Op>,
        late: bool,
        answer: Answer,
    ) -> Result<(), NoMemory>
        requires atrs { (1 ≤ self.old.attempt.atrs) × (self.old.attempt.atrs ≤ 1024) }
        requires asked { IsSome (step_of self.old.work) }
        requires fits { (s : Step) → step_of self.old.work ≡ Some s → IsTrue (fits s answer.reply) }
        requires place { answer.place < 2 ^ 62 }
        ensures follows { (t : AttemptTerms) (l0 mine : List Made) (s : Step) → t.plan.ops ≡ ops.now → late ≡ nat_lt t.latest answer.now
            → step_of self.old.work ≡ Some s → Descends (record { step = s; answer = answer } ∷ mine ++ l0) → Follows t self.old l0 mine
            → OnOk result (Follows t self.new l0 (record { step = s; answer = answer } ∷ mine)) }
        // Where no memory was found, what was told so far stands, and the operation under way is cut off.
        ensures halts { (t : AttemptTerms) (l0 mine : List Made) (s : Step) → t.plan.ops ≡ ops.now → late ≡ nat_lt t.latest answer.now
            → step_of self.old.work ≡ Some s → Descends (record { step = s; answer = answer } ∷ mine ++ l0) → Follows t self.old l0 mine
            → OnErr result (Halts t self.new.logs l0 (record { step = s; answer = answer } ∷ mine)) }
        ensures licensed { (who : Identity) (l : List Made) (s : Step) → step_of self.old.work ≡ Some s → MayGoOn who self.old l
            → OnOk result (MayGoOn who self.new (record { step = s; answer = answer } ∷ l)) }
        ensures same { (self.new.attempt.id ≡ self.old.attempt.id) × (self.new.attempt.atrs ≡ self.old.attempt.atrs) }
        // So they and what closes the try come to an end, after so many calls at most.
        ensures fewer { OnOk result (open_left ops.now self.new < open_left ops.now self.old) }
    {
        let now = answer.now;
        self.mark(answer.place);
        let fed = self.take_in(answer)?;
        if late {
            self.set_work(Work::Late { now });
            return Ok(());
        }
        self.go_on(alloc, ops, fed)
    }

    // The answer to the last call was taken in, and came in time.
    fn go_on(&mut self, alloc: Global, ops: &List<Op>, fed: Fed) -> Result<(), NoMemory>
        requires atrs { (1 ≤ self.old.attempt.atrs) × (self.old.attempt.atrs ≤ 1024) }
        ensures follows { (t : AttemptTerms) (l0 told calls : List Made) → t.plan.ops ≡ ops.now → Descends (calls ++ (told ++ l0))
            → Fits t self.old l0 told calls fed → OnOk result (Follows t self.new l0 (calls ++ told)) }
        ensures halts { (t : AttemptTerms) (l0 told calls : List Made) → t.plan.ops ≡ ops.now → Descends (calls ++ (told ++ l0))
            → Fits t self.old l0 told calls fed → OnErr result (Halts t self.new.logs l0 (calls ++ told)) }
        ensures licensed { (who : Identity) (l : List Made) → Owns who self.old.attempt l → MayCome who self.old.attempt l fed
            → OnOk result (MayGoOn who self.new l) }
        ensures same { (self.new.attempt.id ≡ self.old.attempt.id) × (self.new.attempt.atrs ≡ self.old.attempt.atrs) }
        ensures few { OnOk result (open_left ops.now self.new ≤ fed_left fed + rest_left ops.now self.old) }
    {
        match fed {
            Fed::Going { work } => {
                self.set_work(work);
                Ok(())
            }
            Fed::Read { doc, write, end } => self.got(alloc, ops, doc, write, end),
            Fed::Written { end } => self.close(alloc, ops, answer_of(end)),
        }
    }

    // A call was made at this place.
    fn mark(&mut self, place: u64)
        requires { place < 2 ^ 62 }
        ensures { self.new ≡ marked self.old place }
    {
        if self.first.is_none() {
            self.first = Some(place);
        }
        self.past = place + 1;
    }

    // The work takes the answer in, and the attempt notes what it teaches.
    fn take_in(&mut self, answer: Answer) -> Result<Fed, NoMemory>
        requires asked { IsSome (step_of self.old.work) }
        requires fits { (s : Step) → step_of self.old.work ≡ Some s → IsTrue (fits s answer.reply) }
        ensures fed { IfOk result (λ it. it ≡ fed self.old.work answer.place answer.reply) }
        ensures learnt { OnOk result (self.new ≡ record self.old {
          attempt = learnt self.old.attempt self.old.work answer.place answer.reply;
          work = Work.Done;
        }) }
        ensures logs { self.new.logs ≡ self.old.logs }
        ensures same { (self.new.attempt.id ≡ self.old.attempt.id) × (self.new.attempt.atrs ≡ self.old.attempt.atrs) }
    {
        match mem::replace(&mut self.work, Work::Done) {
            Work::Get { mut get, write } => {
                get.learn(answer);
                Ok(fed_get(get, write))
            }
            Work::Put { put } => self.take_put(put, answer),
            Work::Again { again } => self.take_again(again, answer),
            work => Ok(Fed::Going { work }),
        }
    }

    fn take_put(&mut self, mut put: Put, answer: Answer) -> Result<Fed, NoMemory>
        requires asked { IsSome (put_phases.step_of put) }
        requires fits { (s : Step) → put_phases.step_of put ≡ Some s → IsTrue (fits s answer.reply) }
        ensures fed { IfOk result (λ it. it ≡ fed (Work.Put put) answer.place answer.reply) }
        ensures learnt { OnOk result (self.new ≡ record self.old {
          attempt = learnt self.old.attempt (Work.Put put) answer.place answer.reply;
        }) }
        ensures logs { self.new.logs ≡ self.old.logs }
        ensures same { (self.new.attempt.id ≡ self.old.attempt.id) × (self.new.attempt.atrs ≡ self.old.attempt.atrs) }
    {
        if let Some(atr) = put.adding() {
            self.attempt.note_sent(atr);
        }
        let stamp = stamp_in(&answer.reply);
        let staging = put.staging();
        put.learn(answer);
        let end = end_of_put(&put);
        end_put(&mut self.attempt, put, staging, end, stamp)
    }

    fn take_again(&mut self, mut again: Again, answer: Answer) -> Result<Fed, NoMemory>
        requires asked { IsSome (asked_by again) }
        requires fits { (s : Step) → asked_by again ≡ Some s → IsTrue (fits s answer.reply) }
        ensures fed { IfOk result (λ it. it ≡ fed (Work.Again again) answer.place answer.reply) }
        ensures learnt { OnOk result (self.new ≡ record self.old {
          attempt = learnt self.old.attempt (Work.Again again) answer.place answer.reply;
        }) }
        ensures logs { self.new.logs ≡ self.old.logs }
        ensures same { (self.new.attempt.id ≡ self.old.attempt.id) × (self.new.attempt.atrs ≡ self.old.attempt.atrs) }
    {
        let stamp = stamp_in(&answer.reply);
        again.learn(answer);
        let end = end_of_again(&again);
        end_again(&mut self.attempt, again, end, stamp)
    }

    // The document was read.
    fn got(
        &mut self,
        alloc: Global,
        ops: &List<Op>,
        doc: DocId,
        write: Option<Own>,
        end: GetEnd,
    ) -> Result<(), NoMemory>
        requires atrs { (1 ≤ self.old.attempt.atrs) × (self.old.attempt.atrs ≤ 1024) }
        ensures follows { (t : AttemptTerms) (l0 told calls : List Made) → t.plan.ops ≡ ops.now → Descends (calls ++ (told ++ l0))
            → Reads t self.old l0 told calls doc write end → OnOk result (Follows t self.new l0 (calls ++ told)) }
        ensures halts { (t : AttemptTerms) (l0 told calls : List Made) → t.plan.ops ≡ ops.now → Descends (calls ++ (told ++ l0))
            → Reads t self.old l0 told calls doc write end → OnErr result (Halts t self.new.logs l0 (calls ++ told)) }
        ensures licensed { (who : Identity) (l : List Made) → Owns who self.old.attempt l → GoesWell self.old.attempt l → MayRead doc end l
            → OnOk result (MayGoOn who self.new l) }
        ensures same { (self.new.attempt.id ≡ self.old.attempt.id) × (self.new.attempt.atrs ≡ self.old.attempt.atrs) }
        ensures few { OnOk result (open_left ops.now self.new ≤ fed_left (Fed.Read doc write end) + rest_left ops.now self.old) }
    {
        match (end, write) {
            (GetEnd::Contended, _) => self.close(alloc, ops, OpAnswer::Contended),
            (GetEnd::CallFailed { place }, _) => {
                self.close(alloc, ops, OpAnswer::CallFailed { place })
            }
            (GetEnd::Value { seen }, Some(write)) => self.write(alloc, ops, doc, write, seen),
            (GetEnd::Value { seen }, None) => {
                let value = seen.value.copy(alloc)?;
                let when = When::At(seen.moment);
                self.attempt.note_read(doc, seen)?;
                self.close(alloc, ops, OpAnswer::Value { value, when })
            }
        }
    }

    // A write stands on what was read of its document, where that agrees.
    fn write(
        &mut self,
        alloc: Global,
        ops: &List<Op>,
        doc: DocId,
        write: Own,
        seen: Seen,
    ) -> Result<(), NoMemory>
        requires atrs { (1 ≤ self.old.attempt.atrs) × (self.old.attempt.atrs ≤ 1024) }
        ensures follows { (t : AttemptTerms) (l0 told calls : List Made) → t.plan.ops ≡ ops.now → Descends (calls ++ (told ++ l0))
            → Reads t self.old l0 told calls doc (Some write) (GetEnd.Value seen) → OnOk result (Follows t self.new l0 (calls ++ told)) }
        ensures halts { (t : AttemptTerms) (l0 told calls : List Made) → t.plan.ops ≡ ops.now → Descends (calls ++ (told ++ l0))
            → Reads t self.old l0 told calls doc (Some write) (GetEnd.Value seen) → OnErr result (Halts t self.new.logs l0 (calls ++ told)) }
        ensures licensed { (who : Identity) (l : List Made) → Owns who self.old.attempt l → GoesWell self.old.attempt l → MayRead doc (GetEnd.Value seen) l
            → OnOk result (MayGoOn who self.new l) }
        ensures attempt { self.new.attempt ≡ self.old.attempt }
        ensures few { OnOk result (open_left ops.now self.new ≤ 8 + rest_left ops.now self.old) }
    {
        if !agrees(write.kind, &seen.value) {
            return self.close(alloc, ops, refusal(write.kind, When::At(seen.moment)));
        }
        let Own { kind, content, .. } = write;
        let put = Put::begin(&self.attempt, doc, kind, content, seen);
        self.set_work(Work::Put { put });
        Ok(())
    }

    // The operation under way has this answer: the next one begins, where the try may go on.
    fn close(&mut self, alloc: Global, ops: &List<Op>, answer: OpAnswer) -> Result<(), NoMemory>
        requires atrs { (1 ≤ self.old.attempt.atrs) × (self.old.attempt.atrs ≤ 1024) }
        ensures follows { (t : AttemptTerms) (l0 told calls : List Made) → t.plan.ops ≡ ops.now → Descends (calls ++ (told ++ l0))
            → Answers t self.old l0 told calls answer → OnOk result (Follows t self.new l0 (calls ++ told)) }
        ensures halts { (t : AttemptTerms) (l0 told calls : List Made) → t.plan.ops ≡ ops.now → Descends (calls ++ (told ++ l0))
            → Answers t self.old l0 told calls answer → OnErr result (Halts t self.new.logs l0 (calls ++ told)) }
        ensures licensed { (who : Identity) (l : List Made) → Owns who self.old.attempt l → (is_good answer ≡ true → GoesWell self.old.attempt l)
            → OnOk result (MayGoOn who self.new l) }
        ensures attempt { self.new.attempt ≡ self.old.attempt }
        ensures few { OnOk result (open_left ops.now self.new ≤ rest_left ops.now self.old) }
    {
        if self.log_on(alloc, ops, answer)? {
            self.advance(alloc, ops)
        } else {
            Ok(())
        }
    }

    // The operations that are left begin, up to the first that makes a call.
    fn advance(&mut self, alloc: Global, ops: &List<Op>) -> Result<(), NoMemory>
        requires atrs { (1 ≤ self.old.attempt.atrs) × (self.old.attempt.atrs ≤ 1024) }
        ensures follows { (t : AttemptTerms) (l0 told : List Made) → t.plan.ops ≡ ops.now → Between t self.old l0 told
            → OnOk result (Follows t self.new l0 told) }
        ensures halts { (t : AttemptTerms) (l0 told : List Made) → t.plan.ops ≡ ops.now → Between t self.old l0 told
            → OnErr result (Halts t self.new.logs l0 told) }
        ensures licensed { (who : Identity) (l : List Made) → Owns who self.old.attempt l → GoesWell self.old.attempt l → OnOk result (MayGoOn who self.new l) }
        ensures attempt { self.new.attempt ≡ self.old.attempt }
        ensures few { OnOk result (open_left ops.now self.new ≤ due_left ops.now self.old) }
    {
        for at in self.logs.len()..ops.len() {
            if !self.begin_op(alloc, ops, &ops.as_slice()[at])? {
                return Ok(());
            }
        }
        self.set_work(Work::Done);
        Ok(())
    }

    // This operation begins. Whether the one behind it is to begin too: it is where this one was answered
    // without a call, and the try may go on.
    fn begin_op(&mut self, alloc: Global, ops: &List<Op>, op: &Op) -> Result<bool, NoMemory>
        requires atrs { (1 ≤ self.old.attempt.atrs) × (self.old.attempt.atrs ≤ 1024) }
        ensures follows { (t : AttemptTerms) (l0 told : List Made) → t.plan.ops ≡ ops.now → ComesNext t self.old.logs op.now
            → Between t self.old l0 told → IfOk result (λ on. GoesOn on t self.new l0 told) }
        ensures halts { (t : AttemptTerms) (l0 told : List Made) → Between t self.old l0 told → OnErr result (Halts t self.new.logs l0 told) }
        ensures licensed { (who : Identity) (l : List Made) → Owns who self.old.attempt l → GoesWell self.old.attempt l
            → IfOk result (λ on. on ≡ false → MayGoOn who self.new l) }
        ensures more { IfOk result (λ on. on ≡ true → length self.new.logs ≡ length self.old.logs + 1) }
        ensures few { IfOk result (λ on. on ≡ false → open_left ops.now self.new ≤ 25 + rest_left ops.now self.old) }
        ensures attempt { self.new.attempt ≡ self.old.attempt }
    {
        match start_op(alloc, op, &self.attempt, &self.bound)? {
            Start::Calls { beginning } => {
                let work = self.begin_work(alloc, beginning)?;
                self.set_work(work);
                Ok(false)
            }
            Start::Answered { answer } => self.log_on(alloc, ops, answer),
        }
    }

    // The operation under way has this answer, which is told. Whether the try may go on; else its work is
    // over.
    fn log_on(&mut self, alloc: Global, ops: &List<Op>, answer: OpAnswer) -> Result<bool, NoMemory>
        ensures good { IfOk result (λ good. good ≡ is_good answer) }
        ensures ok { OnOk result (self.new ≡ went_on (is_good answer) (logged ops.now self.old answer)) }
        ensures logs { OnErr result (self.new.logs ≡ self.old.logs) }
        ensures attempt { self.new.attempt ≡ self.old.attempt }
    {
        let good = self.log(alloc, ops, answer)?;
        if good {
            return Ok(true);
        }
        self.set_work(Work::Refused);
        Ok(false)
    }

    // What the operation under way does now.
    fn set_work(&mut self, work: Work)
        ensures { self.new ≡ record self.old { work = work } }
    {
        self.work = work;
    }

    // The work that makes these calls.
    fn begin_work(&self, alloc: Global, beginning: Beginning) -> Result<Work, NoMemory>
        requires atrs { (1 ≤ self.now.attempt.atrs) × (self.now.attempt.atrs ≤ 1024) }
        requires can { CanBegin self.now.attempt beginning }
        ensures { IfOk result (λ work. Begins self.now.attempt beginning work) }
    {
        match beginning {
            Beginning::Get { doc } => Ok(Work::Get {
                get: Get::begin(doc),
                write: None,
            }),
            Beginning::Read { doc, write } => Ok(Work::Get {
                get: Get::begin(doc),
                write: Some(write),
            }),
            Beginning::Put { doc, write, seen } => {
                let Own { kind, content, .. } = write;
                Ok(Work::Put {
                    put: Put::begin(&self.attempt, doc, kind, content, seen),
                })
            }
            Beginning::Again { doc, write } => {
                let Own { kind, content, .. } = write;
                let again = Again::begin(alloc, &self.attempt, doc, kind, content)?;
                Ok(Work::Again { again })
            }
        }
    }

    // The operation under way has this answer, which is told, and binds a get's name. Whether the try may
    // go on.
    fn log(&mut self, alloc: Global, ops: &List<Op>, answer: OpAnswer) -> Result<bool, NoMemory>
        ensures good { IfOk result (λ good. good ≡ is_good answer) }
        ensures ok { OnOk result (self.new ≡ logged ops.now self.old answer) }
        ensures logs { OnErr result (self.new.logs ≡ self.old.logs) }
        ensures attempt { self.new.attempt ≡ self.old.attempt }
    {
        self.bind(alloc, ops, &answer)?;
        let good = is_good(&answer);
        let count = u32::try_from(self.logs.len()).map_err(|_| NoMemory)?;
        let op = count.checked_add(1).ok_or(NoMemory)?;
        let span = Span {
            from: self.first.unwrap_or(self.past),
            to: self.past,
        };
        self.logs.push(OpLog { op, span, answer })?;
        self.first = None;
        Ok(good)
    }

    // A get's value is bound to its name.
    fn bind(&mut self, alloc: Global, ops: &List<Op>, answer: &OpAnswer) -> Result<(), NoMemory>
        ensures ok { OnOk result (self.new ≡ record self.old {
          bound = rebound (slice_get ops.now (length self.old.logs)) answer.now self.old.bound;
        }) }
        ensures err { OnErr result (self.new ≡ self.old) }
    {
        let (Some(Op::Get { name, .. }), OpAnswer::Value { value, .. }) = (
            ops.get(self.logs.len()),
            answer,
        ) else {
            return Ok(());
        };
        let name = name.copy(alloc)?;
        let value = value.copy(alloc)?;
        self.bound.insert(name, value)
    }
}

// A read that has taken an answer in.
fn fed_get(get: Get, write: Option<Own>) -> Fed
    ensures { result ≡ fed_read get.doc write get.phase }
{
    let Get { doc, phase } = get;
    match phase {
        Phase::Ended { end } => Fed::Read { doc, write, end },
        phase => Fed::Going {
            work: Work::Get {
                get: Get { doc, phase },
                write,
            },
        },
    }
}

// A put that has ended so, or goes on.
fn end_put(
    attempt: &mut Attempt,
    put: Put,
    staging: bool,
    end: Option<PutEnd>,
    stamp: Option<u64>,
) -> Result<Fed, NoMemory>
    ensures fed { IfOk result (λ it. it ≡ fed_put put end) }
    ensures ok { OnOk result (attempt.new ≡ with_staging attempt.old put.task staging end stamp) }
    ensures err { OnErr result (attempt.new ≡ attempt.old) }
{
    match end {
        None => Ok(Fed::Going {
            work: Work::Put { put },
        }),
        Some(end) => {
            note_put(attempt, put, staging, &end, stamp)?;
            Ok(Fed::Written { end })
        }
    }
}

// A write over an own write that has ended so, or goes on.
fn end_again(
    attempt: &mut Attempt,
    again: Again,
    end: Option<PutEnd>,
    stamp: Option<u64>,
) -> Result<Fed, NoMemory>
    ensures fed { IfOk result (λ it. it ≡ fed_again again end) }
    ensures ok { OnOk result (attempt.new ≡ with_rewrite attempt.old again.task end stamp) }
    ensures err { OnErr result (attempt.new ≡ attempt.old) }
{
    match end {
        None => Ok(Fed::Going {
            work: Work::Again { again },
        }),
        Some(end) => {
            let (doc, write) = again.take_write();
            note_write(attempt, doc, write, &end, stamp)?;
            Ok(Fed::Written { end })
        }
    }
}
