//! How a script's run is to go, as far as it was read: the cleaners, stops, failing calls, the order
//! and the sweep.

ghost use Rattle.std.specs.Prelude.{◌≡◌, OnOk};
ghost use Rattle.cbt_lex.specs.Lines.{skip_spaces};
ghost use Rattle.cbt_lex.specs.Words.{words_of};
ghost use Rattle.cbt_script.specs.Causes.{Gives, Steps, StepsBoth};
ghost use Rattle.cbt_script.specs.Course.{no_course, with_actor, known_actor, named_actor, add_cleaner, add_stop, add_fault, add_item, add_items, add_order, item_of, ahead_of, calls_of, one_call_of, all_calls_of, some_calls_of, set_sweep};

use crate::cause::{Cause, LineFault};
use crate::fields::{actor, end, number, number_within, require};
use crate::limits::{MAX_CALL, MAX_CLEANERS, MAX_MS, MAX_PASSES, MAX_ROUNDS};
use cbt_base::{Duplicate, List, Map, NoMemory, Text};
use cbt_lex::{cut_word, is_a_name, past_spaces};
use cbt_model::{Fate, Faults, Item};
use std::alloc::Global;

/// The numbers of actors by their names, from 1.
pub(crate) type Actors = Map<Text, u32>;

/// What was given on how the run goes.
#[derive(Drop)]
pub(crate) struct Course {
    /// The cleaners by name, with how many rounds they make.
    pub cleaners: List<(Text, u32)>,
    /// Rounds times records, summed over the cleaners.
    pub passes: u64,
    /// After how many calls an actor stops.
    pub stops: Map<u32, u64>,
    pub faults: Faults,
    pub order: List<Item>,
    pub sweep: Option<u64>,
}

impl Course {
    pub(crate) fn new(alloc: Global) -> Course
        ensures { result ≡ no_course }
    {
        Course {
            cleaners: List::new(alloc),
            passes: 0,
            stops: Map::new(alloc),
            faults: Faults::new(alloc),
            order: List::new(alloc),
            sweep: None,
        }
    }

    /// Takes a cleaner, whose name is no actor's yet, over so many records.
    #[tactic(auto, unfolding(crate::specs::Course::add_cleaner))]
    pub(crate) fn take_cleaner(
        &mut self,
        alloc: Global,
        actors: &mut Actors,
        atrs: u16,
        rest: &str,
    ) -> Result<(), LineFault>
        ensures { StepsBoth result actors.new self.new (add_cleaner atrs actors.old self.old rest.now) }
    {
        let (name, rest) = actor(rest)?;
        let name = Text::from_str(alloc, name)?;
        require(!actors.contains_key(&name), Cause::Twice)?;
        let (rounds, rest) = number(rest, 1, MAX_ROUNDS)?;
        end(rest)?;
        let passes = self.passes.saturating_add(rounds * u64::from(atrs));
        require(
            self.cleaners.len() < MAX_CLEANERS && passes <= MAX_PASSES,
            Cause::Limit,
        )?;
        add_actor(alloc, actors, &name)?;
        self.cleaners.push((name, rounds as u32))?;
        self.passes = passes;
        Ok(())
    }

    /// Takes an actor's stop.
    #[tactic(auto, unfolding(crate::specs::Course::add_stop))]
    pub(crate) fn take_stop(
        &mut self,
        alloc: Global,
        actors: &Actors,
        rest: &str,
    ) -> Result<(), LineFault>
        ensures { Steps result self.new (add_stop actors.now self.old rest.now) }
    {
        let (name, rest) = actor(rest)?;
        let actor = number_of(alloc, actors, name)?;
        require(!self.stops.contains_key(&actor), Cause::Twice)?;
        let (call, rest) = number(rest, 0, MAX_CALL)?;
        end(rest)?;
        self.stops.insert(actor, call)?;
        Ok(())
    }

    /// Takes a call that fails with this fate.
    #[tactic(auto, unfolding(crate::specs::Course::add_fault))]
    pub(crate) fn take_fault(
        &mut self,
        alloc: Global,
        actors: &Actors,
        fate: Fate,
        rest: &str,
    ) -> Result<(), LineFault>
        ensures { Steps result self.new (add_fault fate actors.now self.old rest.now) }
    {
        let (name, rest) = actor(rest)?;
        let actor = number_of(alloc, actors, name)?;
        let (call, rest) = number(rest, 1, MAX_CALL)?;
        let key = (actor, call);
        require(!self.faults.fates.contains_key(&key), Cause::Twice)?;
        end(rest)?;
        self.faults.fates.insert(key, fate)?;
        Ok(())
    }

    /// Takes the items of an order line, one at least.
    pub(crate) fn take_order(
        &mut self,
        alloc: Global,
        actors: &Actors,
        rest: &str,
    ) -> Result<(), LineFault>
        ensures { Steps result self.new (add_order actors.now self.old rest.now) }
    {
        let rest = past_spaces(rest);
        if rest.len() == 0 {
            Err(LineFault::Refused(Cause::Form))
        } else {
            self.take_items(alloc, actors, rest)
        }
    }

    fn take_items(&mut self, alloc: Global, actors: &Actors, words: &str) -> Result<(), LineFault>
        requires { skip_spaces words.now ≡ words.now }
        ensures { Steps result self.new (add_items actors.now self.old (words_of words.now)) }
    {
        let mut rest = words;
        while rest.len() > 0 {
            let (word, more) = cut_word(rest);
            self.take_item(alloc, actors, word)?;
            rest = more;
        }
        Ok(())
    }

    #[tactic(auto, unfolding(crate::specs::Course::add_item))]
    fn take_item(&mut self, alloc: Global, actors: &Actors, word: &str) -> Result<(), LineFault>
        ensures { Steps result self.new (add_item actors.now self.old word.now) }
    {
        let item = item_at(alloc, actors, word)?;
        self.order.push(item)?;
        Ok(())
    }

    /// Takes the sweep.
    #[tactic(auto, unfolding(crate::specs::Course::set_sweep))]
    pub(crate) fn take_sweep(&mut self, rest: &str) -> Result<(), LineFault>
        ensures { Steps result self.new (set_sweep self.old rest.now) }
    {
        require(self.sweep.is_none(), Cause::Twice)?;
        let (ms, rest) = number(rest, 0, MAX_MS)?;
        end(rest)?;
        self.sweep = Some(ms);
        Ok(())
    }
}

/// Gives a name the next number.
pub(crate) fn add_actor(alloc: Global, actors: &mut Actors, name: &Text) -> Result<(), NoMemory>
    ensures { OnOk result (actors.new ≡ with_actor name.now actors.old) }
{
    let before = actors.len();
    // So many names have no room in memory.
    if before >= u32::MAX as usize {
        return Err(NoMemory);
    }
    actors.insert(name.copy(alloc)?, before as u32 + 1)
}

// The number of the actor with this name.
fn number_of(alloc: Global, actors: &Actors, name: &str) -> Result<u32, LineFault>
    ensures { Gives (λ n. n) result (known_actor actors.now name.now) }
{
    let name = Text::from_str(alloc, name)?;
    match actors.get(&name) {
        Some(number) => Ok(*number),
        None => Err(LineFault::Refused(Cause::Unknown)),
    }
}

// The item that a word is.
fn item_at(alloc: Global, actors: &Actors, word: &str) -> Result<Item, LineFault>
    ensures { Gives (λ i. i) result (item_of actors.now word.now) }
{
    match word.split_once('+') {
        Some((front, ms)) if front.len() == 0 => Ok(ahead_item(ms)?),
        _ => calls_item(alloc, actors, word),
    }
}

#[tactic(auto, unfolding(crate::specs::Course::ahead_of))]
fn ahead_item(ms: &str) -> Result<Item, Cause>
    ensures { result ≡ ahead_of ms.now }
{
    let ms = number_within(ms, 0, MAX_MS)?;
    Ok(Item::Ahead { ms })
}

// `NAME`, `NAME*` or `NAME*K`.
fn calls_item(alloc: Global, actors: &Actors, word: &str) -> Result<Item, LineFault>
    ensures { Gives (λ i. i) result (calls_of actors.now word.now) }
{
    match word.split_once('*') {
        None => one_call(alloc, actors, word),
        Some((name, count)) => {
            if count.len() == 0 {
                all_calls(alloc, actors, name)
            } else {
                some_calls(alloc, actors, name, count)
            }
        }
    }
}

#[tactic(auto, unfolding(crate::specs::Course::one_call_of))]
fn one_call(alloc: Global, actors: &Actors, name: &str) -> Result<Item, LineFault>
    ensures { Gives (λ i. i) result (one_call_of actors.now name.now) }
{
    let actor = named_actor(alloc, actors, name)?;
    Ok(Item::Calls { actor, k: 1 })
}

#[tactic(auto, unfolding(crate::specs::Course::all_calls_of))]
fn all_calls(alloc: Global, actors: &Actors, name: &str) -> Result<Item, LineFault>
    ensures { Gives (λ i. i) result (all_calls_of actors.now name.now) }
{
    let actor = named_actor(alloc, actors, name)?;
    Ok(Item::All { actor })
}

#[tactic(auto, unfolding(crate::specs::Course::some_calls_of))]
fn some_calls(alloc: Global, actors: &Actors, name: &str, count: &str) -> Result<Item, LineFault>
    ensures { Gives (λ i. i) result (some_calls_of actors.now name.now count.now) }
{
    let actor = named_actor(alloc, actors, name)?;
    let k = number_within(count, 1, MAX_CALL)?;
    Ok(Item::Calls { actor, k })
}

// The number of the actor that a word names.
#[tactic(auto, unfolding(crate::specs::Course::named_actor))]
fn named_actor(alloc: Global, actors: &Actors, name: &str) -> Result<u32, LineFault>
    ensures { Gives (λ n. n) result (named_actor actors.now name.now) }
{
    require(is_a_name(name) && name != "sweep", Cause::Name)?;
    number_of(alloc, actors, name)
}
