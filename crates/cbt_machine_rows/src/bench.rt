//! A node with up to three documents, on which a machine and another actor make calls.

ghost use Rattle.std.specs.Prelude.{◌≡◌, ◌≤◌, ◌<◌, ◌^◌, true, [], IsTrue, IfOk};
ghost use Rattle.cbt_model.specs.Fitting.{content_fits, fits, step_fits};

use crate::values::{body, content, document, push_value};
use cbt_attempt::{Attempt, Own};
use cbt_base::{DocId, Id, List, Map, NoMemory, StepClock};
use cbt_json::Json;
use cbt_model::{
    Answer, DocState, Expect, Fate, Fault, Faults, Lists, Node, OpKind, Reply, Stage, State, Step,
};
use cbt_plain::Plain;
use std::alloc::Global;

/// The number of the actor whose machine is driven, and of its client.
const OWN: u32 = 1;
/// The number of the other actor.
const OTHER: u32 = 2;
/// The transaction record of the entries.
const ATR: u16 = 12;
/// How many transaction records there are.
pub const ATRS: u16 = 16;
/// How many milliseconds an entry may stay.
pub const EXP: u64 = 15000;
/// A machine is driven for at most so many calls.
pub const MOST_CALLS: u32 = 40;
/// Of more than so many calls only the number is told.
const MOST_LETTERS: usize = 10;

#[derive(Drop)]
pub struct Bench {
    pub alloc: Global,
    node: Plain<StepClock>,
    /// What the own attempt has noted of the calls that were made by their letters.
    pub attempt: Attempt,
    // The letters of the machine's calls, and how many there are.
    letters: [char; MOST_LETTERS],
    count: usize,
    // The document of which the letters speak.
    place: char,
    // How many contents were staged.
    contents: u64,
}

/// The own attempt, which has noted nothing.
pub fn own_attempt(alloc: Global) -> Attempt
    ensures atrs { (1 ≤ result.atrs) × (result.atrs ≤ 1024) }
    ensures writes { result.writes ≡ [] }
{
    Attempt::begin(alloc, attempt(OWN), ATRS, EXP)
}

/// The identifier of the own attempt.
pub fn own_id() -> Id {
    attempt(OWN)
}

// The attempt of an actor's client.
fn attempt(client: u32) -> Id {
    Id::attempt(client.max(1), 1, 1)
}

impl Bench {
    /// Over a state without documents, where those own calls fail that a row names.
    pub fn new(alloc: Global, row: &str) -> Result<Bench, NoMemory> {
        let faults = faults_of(alloc, row)?;
        Ok(Bench {
            alloc,
            node: node_of(alloc, faults)?,
            attempt: own_attempt(alloc),
            letters: [' '; MOST_LETTERS],
            count: 0,
            place: '1',
            contents: 0,
        })
    }

    /// Forgets the calls of the machine that was driven before.
    pub fn forget(&mut self) {
        self.count = 0;
    }

    /// A call of the machine.
    pub fn call(&mut self, step: Step) -> Result<Answer, NoMemory>
        requires { IsTrue (step_fits step) }
        ensures fits { IfOk result (λ answer. IsTrue (fits step answer.reply)) }
        ensures place { IfOk result (λ answer. answer.place < 2 ^ 62) }
    {
        self.note_letter(letter_of(&step));
        self.node.call(OWN, step)
    }

    fn note_letter(&mut self, letter: char) {
        let count = self.count;
        if let Some(slot) = self.letters.get_mut(count) {
            *slot = letter;
        }
        self.count = count.saturating_add(1);
    }

    /// Makes the calls that letters name, on the document of the last digit, first on document 1: I, S
    /// and T stage an insert, a replace and a remove, P publishes, X deletes, U unsticks, A adds the entry,
    /// C commits, B aborts, R drops the entry. Those in capitals are another actor's, and the others the
    /// own ones. Each stands on the present stamp of its document.
    pub fn make(&mut self, letters: &str) -> Result<(), NoMemory> {
        for letter in letters.chars() {
            if letter.is_ascii_digit() {
                self.place = letter;
            } else if letter.is_ascii_lowercase() {
                self.make_own(letter.to_ascii_uppercase())?;
            } else {
                self.make_call(OTHER, letter)?;
            }
        }
        Ok(())
    }

    fn make_own(&mut self, letter: char) -> Result<(), NoMemory> {
        match letter {
            'I' => self.stage_own(OpKind::Insert),
            'S' => self.stage_own(OpKind::Replace),
            'T' => self.stage_own(OpKind::Remove),
            _ => self.make_call(OWN, letter),
        }
    }

    fn make_call(&mut self, actor: u32, letter: char) -> Result<(), NoMemory> {
        match letter {
            'I' => self.stage_other(actor, OpKind::Insert),
            'S' => self.stage_other(actor, OpKind::Replace),
            'T' => self.stage_other(actor, OpKind::Remove),
            'P' => self.publish(actor),
            'X' | 'U' => self.unstage(actor, letter),
            _ => self.change_entry(actor, letter),
        }
    }

    // The document of which the letters speak.
    fn document(&self) -> Result<DocId, NoMemory> {
        document(self.alloc, name_of(self.place))
    }

    // The present stamp of that document.
    fn stamp(&self, doc: &DocId) -> Option<u64> {
        Some(self.node.state().docs.get(doc)?.cas)
    }

    // Stages a write of the own attempt, and notes it.
    fn stage_own(&mut self, kind: OpKind) -> Result<(), NoMemory> {
        let cas = self.stage_next(OWN, kind)?;
        let content = content(self.alloc, kind, self.contents)?;
        self.note(kind, content, cas)
    }

    fn note(
        &mut self,
        kind: OpKind,
        content: Option<Json>,
        cas: Option<u64>,
    ) -> Result<(), NoMemory>
        requires { content_fits kind content ≡ true }
    {
        match self.document() {
            Ok(doc) => self.attempt.note_staged(doc, Own { kind, content, cas }),
            Err(refused) => {
                drop(content);
                Err(refused)
            }
        }
    }

    fn stage_other(&mut self, actor: u32, kind: OpKind) -> Result<(), NoMemory> {
        self.stage_next(actor, kind)?;
        Ok(())
    }

    // Stages the next content; the stamp, where that did not fail.
    fn stage_next(&mut self, actor: u32, kind: OpKind) -> Result<Option<u64>, NoMemory> {
        self.contents = self.contents.saturating_add(1);
        let content = content(self.alloc, kind, self.contents)?;
        match self.document() {
            Ok(doc) => self.stage(actor, doc, kind, content),
            Err(refused) => {
                drop(content);
                Err(refused)
            }
        }
    }

    fn stage(
        &mut self,
        actor: u32,
        doc: DocId,
        kind: OpKind,
        content: Option<Json>,
    ) -> Result<Option<u64>, NoMemory>
        requires { content_fits kind content ≡ true }
    {
        let expect = match self.stamp(&doc) {
            Some(cas) => Expect::Cas(cas),
            None => Expect::New,
        };
        let stage = Stage {
            attempt: attempt(actor),
            atr: ATR,
            kind,
            content,
        };
        self.send(actor, Step::Stage { doc, expect, stage })
    }

    fn publish(&mut self, actor: u32) -> Result<(), NoMemory> {
        let doc = self.document()?;
        let cas = self.stamp(&doc).unwrap_or(0);
        let body = body(self.alloc, self.contents)?;
        self.send(actor, Step::Publish { doc, cas, body })?;
        Ok(())
    }

    fn unstage(&mut self, actor: u32, letter: char) -> Result<(), NoMemory> {
        let doc = self.document()?;
        let cas = self.stamp(&doc).unwrap_or(0);
        if letter == 'X' {
            self.send(actor, Step::Delete { doc, cas })?;
        } else {
            self.send(actor, Step::Unstick { doc, cas })?;
        }
        Ok(())
    }

    fn change_entry(&mut self, actor: u32, letter: char) -> Result<(), NoMemory> {
        if letter == 'A' && actor == OWN {
            self.attempt.note_sent(ATR);
        }
        let step = on_entry(self.alloc, attempt(actor), letter);
        self.send(actor, step)?;
        Ok(())
    }

    // A call; its stamp, where it took effect and did not fail.
    fn send(&mut self, actor: u32, step: Step) -> Result<Option<u64>, NoMemory>
        requires { IsTrue (step_fits step) }
    {
        let answer = self.node.call(actor, step)?;
        Ok(stamp_in(&answer.reply))
    }

    /// Tells the letters of the machine's calls, or their number.
    pub fn push_calls(&self, told: &mut String) -> Result<(), NoMemory> {
        if self.count > MOST_LETTERS {
            let count = self.count;
            return Ok(write!(told, "{count} calls; ")?);
        }
        for (at, letter) in self.letters.iter().take(self.count).enumerate() {
            if at > 0 {
                told.push(' ')?;
            }
            told.push(*letter)?;
        }
        Ok(told.push_str("; ")?)
    }

    /// The documents as they are now.
    pub fn push_documents(&self, told: &mut String) -> Result<(), NoMemory> {
        for (doc, state) in self.node.state().docs.iter() {
            told.push_str("; ")?;
            told.push_str(doc.as_str())?;
            told.push(' ')?;
            push_state(told, self.alloc, state)?;
        }
        Ok(())
    }
}

fn push_state(told: &mut String, alloc: Global, state: &DocState) -> Result<(), NoMemory> {
    push_value(told, alloc, state.body.as_ref())?;
    match &state.stage {
        Some(stage) => {
            told.push_str(" staged ")?;
            push_value(told, alloc, stage.content.as_ref())
        }
        None => Ok(()),
    }
}

fn node_of(alloc: Global, faults: Faults) -> Result<Plain<StepClock>, NoMemory> {
    let opening = State {
        last: 0,
        docs: Map::new(alloc),
        entries: Map::new(alloc),
        clients: Map::new(alloc),
    };
    Plain::new(alloc, opening, faults, None, StepClock { next: 0, step: 1 })
}

/// The name of the document with this digit.
pub fn name_of(place: char) -> &'static str {
    match place {
        '1' => "a",
        '2' => "b",
        _ => "c",
    }
}

fn stamp_in(reply: &Reply) -> Option<u64> {
    match reply {
        Reply::Done { cas } => Some(*cas),
        _ => None,
    }
}

fn on_entry(alloc: Global, attempt: Id, letter: char) -> Step
    ensures { IsTrue (step_fits result) }
{
    match letter {
        'A' => Step::AddEntry {
            atr: ATR,
            attempt,
            exp: EXP,
        },
        'C' => Step::Commit {
            atr: ATR,
            attempt,
            lists: no_lists(alloc),
        },
        'B' => Step::Abort {
            atr: ATR,
            attempt,
            lists: no_lists(alloc),
        },
        _ => Step::DropEntry {
            atr: ATR,
            attempt,
            guarded: false,
        },
    }
}

fn no_lists(alloc: Global) -> Lists {
    Lists {
        ins: List::new(alloc),
        rep: List::new(alloc),
        rem: List::new(alloc),
    }
}

fn letter_of(step: &Step) -> char {
    match step {
        Step::Stage { stage, .. } => stage_letter(stage.kind),
        Step::ReadDoc { .. } => 'D',
        Step::ReadEntry { .. } => 'E',
        Step::AddEntry { .. } => 'A',
        Step::Commit { .. } => 'C',
        Step::Abort { .. } => 'B',
        Step::Publish { .. } => 'P',
        Step::Delete { .. } => 'X',
        Step::Unstick { .. } => 'U',
        Step::DropEntry { .. } => 'R',
        _ => '?',
    }
}

fn stage_letter(kind: OpKind) -> char {
    match kind {
        OpKind::Insert => 'I',
        OpKind::Replace => 'S',
        OpKind::Remove => 'T',
    }
}

// The own calls that fail, as `lost 1, late 3`.
fn faults_of(alloc: Global, row: &str) -> Result<Faults, NoMemory> {
    let mut faults = Faults::new(alloc);
    for part in row.split(", ") {
        if let Some((word, call)) = part.split_once(' ') {
            if let Some(fate) = fate_of(word) {
                let call = call.parse::<u64>().unwrap_or(0);
                faults.add(Fault {
                    actor: OWN,
                    call,
                    fate,
                })?;
            }
        }
    }
    Ok(faults)
}

fn fate_of(word: &str) -> Option<Fate> {
    match word {
        "lost" => Some(Fate::Lost),
        "late" => Some(Fate::Late),
        _ => None,
    }
}
