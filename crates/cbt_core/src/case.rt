use cbt_base::{Duplicate, List, NoMemory};
use cbt_expr::ClientPlan;
use cbt_model::{Faults, State};
use std::alloc::Global;

/// What a run is given before it begins, as far as the laws speak of it.
#[derive(Drop)]
pub struct Case {
    /// The state that the node begins with.
    pub opening: State,
    /// The first reading of the clock and the step from one to the next, in milliseconds.
    pub line: Option<(u64, u64)>,
    /// The calls that fail.
    pub faults: Faults,
    /// After how many calls an actor stops. Of two for one actor the first counts.
    pub stops: List<(u32, u64)>,
    /// The plans of the clients, which are the actors from 1 on.
    pub plans: List<ClientPlan>,
    /// How many actors there are: clients, then cleaners, then the sweep.
    pub actors: u32,
    /// How many transaction records there are.
    pub atrs: u16,
    /// How long a cleaner counts as active after its last beat, in milliseconds.
    pub lapse: u64,
    /// How many rounds each cleaner makes.
    pub rounds: List<u32>,
    /// A last round over all records, after so many milliseconds.
    pub sweep: Option<u64>,
}

impl Duplicate for Case {
    fn copy(&self, alloc: Global) -> Result<Case, NoMemory> {
        let opening = self.opening.copy(alloc)?;
        let faults = self.faults.copy(alloc)?;
        let stops = self.stops.copy(alloc)?;
        let plans = self.plans.copy(alloc)?;
        let rounds = self.rounds.copy(alloc)?;
        Ok(Case {
            opening,
            line: self.line,
            faults,
            stops,
            plans,
            actors: self.actors,
            atrs: self.atrs,
            lapse: self.lapse,
            rounds,
            sweep: self.sweep,
        })
    }
}
