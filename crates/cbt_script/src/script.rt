ghost use Rattle.std.specs.Prelude.{◌≡◌, IfOk};
ghost use Rattle.cbt_script.specs.Opening.{opening_of, first_state};

use cbt_base::{DocId, Duplicate, List, Map, NoMemory, Text};
use cbt_expr::ClientPlan;
use cbt_json::Json;
use cbt_model::{DocState, Faults, Item, State};
use std::alloc::Global;

/// A script: what stands before the run, who takes part in it, and in which order they go.
#[derive(Drop)]
pub struct Script {
    /// How many active transaction records there are.
    pub atrs: u16,
    /// The expiry of a transaction that names none, in milliseconds.
    pub expiry: u64,
    /// The tries of a transaction that names none.
    pub tries: u32,
    /// How long a cleaner counts as active after its last beat, in milliseconds.
    pub lapse: u64,
    /// The first reading of the clock and the step from one to the next, in milliseconds.
    pub line: Option<(u64, u64)>,
    /// The documents, each with its body and its attributes.
    pub docs: List<(DocId, Json, Json)>,
    /// The clients by name, with what they do.
    pub clients: List<(Text, ClientPlan)>,
    /// The cleaners by name, with how many rounds they make.
    pub cleaners: List<(Text, u32)>,
    /// After how many calls an actor stops.
    pub stops: List<(u32, u64)>,
    /// The calls that fail.
    pub faults: Faults,
    /// The order in which the actors go.
    pub order: List<Item>,
    /// A last round over all records, after so many milliseconds.
    pub sweep: Option<u64>,
}

impl Script {
    /// The state before the run: the documents in their order, the k-th with CAS k, from 1.
    pub fn opening(&self, alloc: Global) -> Result<State, NoMemory>
        ensures { IfOk result (λ state. state ≡ opening_of self.now.docs) }
    {
        let mut docs = Map::new(alloc);
        let mut cas: u64 = 0;
        for (id, body, attrs) in self.docs.as_slice() {
            cas += 1;
            let id = id.copy(alloc)?;
            docs.insert(id, first_state(alloc, cas, body, attrs)?)?;
        }
        Ok(State {
            last: cas,
            docs,
            entries: Map::new(alloc),
            clients: Map::new(alloc),
        })
    }
}

// A document that nobody has written yet.
fn first_state(alloc: Global, cas: u64, body: &Json, attrs: &Json) -> Result<DocState, NoMemory>
    ensures { IfOk result (λ doc. doc ≡ first_state cas body.now attrs.now) }
{
    let body = body.copy(alloc)?;
    let attrs = attrs.copy(alloc)?;
    Ok(DocState {
        cas,
        body: Some(body),
        attrs,
        stage: None,
    })
}
