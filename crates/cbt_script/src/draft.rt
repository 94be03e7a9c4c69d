//! A script as far as its lines were read.

ghost use Rattle.std.specs.Prelude.{◌≡◌, IfOk};
ghost use Rattle.cbt_script.specs.Causes.{Steps};
ghost use Rattle.cbt_script.specs.Drafts.{start, group_number, stands_inside, enter, take_keyword, take_line, setting_line, doc_line, attrs_line, client_line, begin_line, operation_line, end_line, cleaner_line, stop_line, fault_line, order_line, sweep_line, atrs_of, expiry_of, tries_of, lapse_of, script_from};

use crate::cause::{Cause, LineFault};
use crate::clients::Clients;
use crate::course::{Actors, Course, add_actor};
use crate::documents::Documents;
use crate::fields::{actor, end, require};
use crate::keywords::{Keyword, Operation, Setting};
use crate::limits::{DEFAULT_ATRS, DEFAULT_EXPIRY, DEFAULT_LAPSE, DEFAULT_TRIES, MAX_CLIENTS};
use crate::script::Script;
use crate::settings::Settings;
use cbt_base::{List, Map, NoMemory, Text};
use cbt_model::Fate;
use std::alloc::Global;

/// The groups of lines, in their order.
#[derive(Clone, Copy, Debug, PartialEq, Eq)]
pub(crate) enum Group {
    Settings,
    Documents,
    Clients,
    Cleaners,
    Faults,
    Order,
    Sweep,
}

impl Group {
    // Its place in the order.
    fn number(self) -> u8
        ensures { result ≡ group_number self }
    {
        self as u8
    }
}

/// What the lines so far have said.
#[derive(Drop)]
pub(crate) struct Draft {
    /// The group of the last line.
    pub group: Group,
    pub settings: Settings,
    pub documents: Documents,
    /// All clients and cleaners.
    pub actors: Actors,
    pub clients: Clients,
    pub course: Course,
}

impl Draft {
    pub(crate) fn new(alloc: Global) -> Draft
        ensures { result ≡ start }
    {
        Draft {
            group: Group::Settings,
            settings: Settings::new(),
            documents: Documents::new(alloc),
            actors: Map::new(alloc),
            clients: Clients::new(alloc),
            course: Course::new(alloc),
        }
    }

    /// Takes a line by its first word. Operations and the ends of transactions stand inside a
    /// transaction, and other lines outside.
    pub(crate) fn take(
        &mut self,
        alloc: Global,
        keyword: Keyword,
        rest: &str,
    ) -> Result<(), LineFault>
        ensures { Steps result self.new (take_keyword keyword self.old rest.now) }
    {
        if stands_inside(keyword) != self.clients.is_inside() {
            return Err(LineFault::Refused(Cause::Word));
        }
        self.take_line(alloc, keyword, rest)
    }

    // Takes a line that may stand here.
    fn take_line(&mut self, alloc: Global, keyword: Keyword, rest: &str) -> Result<(), LineFault>
        ensures { Steps result self.new (take_line keyword self.old rest.now) }
    {
        match keyword {
            Keyword::Setting(setting) => self.take_setting(setting, rest),
            Keyword::Doc => self.take_doc(alloc, rest),
            Keyword::Attrs => self.take_attrs(alloc, rest),
            Keyword::Client => self.take_client(alloc, rest),
            Keyword::Begin => self.take_begin(alloc, rest),
            Keyword::Operation(operation) => self.take_operation(alloc, operation, rest),
            Keyword::Commit => self.take_end(alloc, true, rest),
            Keyword::Rollback => self.take_end(alloc, false, rest),
            Keyword::Cleaner => self.take_cleaner(alloc, rest),
            Keyword::Stop => self.take_stop(alloc, rest),
            Keyword::Lost => self.take_fault(alloc, Fate::Lost, rest),
            Keyword::Late => self.take_fault(alloc, Fate::Late, rest),
            Keyword::Order => self.take_order(alloc, rest),
            Keyword::Sweep => self.take_sweep(rest),
        }
    }

    // Goes to a group, which is this one or a later one.
    fn enter(&mut self, next: Group) -> Result<(), LineFault>
        ensures { Steps result self.new (enter next self.old) }
    {
        if self.group.number() > next.number() {
            return Err(LineFault::Refused(Cause::Word));
        }
        self.group = next;
        Ok(())
    }

    #[tactic(auto, unfolding(crate::specs::Drafts::setting_line))]
    fn take_setting(&mut self, setting: Setting, rest: &str) -> Result<(), LineFault>
        ensures { Steps result self.new (setting_line setting self.old rest.now) }
    {
        self.enter(Group::Settings)?;
        self.settings.take(setting, rest)
    }

    #[tactic(auto, unfolding(crate::specs::Drafts::doc_line))]
    fn take_doc(&mut self, alloc: Global, rest: &str) -> Result<(), LineFault>
        ensures { Steps result self.new (doc_line self.old rest.now) }
    {
        self.enter(Group::Documents)?;
        self.documents.take_doc(alloc, rest)
    }

    #[tactic(auto, unfolding(crate::specs::Drafts::attrs_line))]
    fn take_attrs(&mut self, alloc: Global, rest: &str) -> Result<(), LineFault>
        ensures { Steps result self.new (attrs_line self.old rest.now) }
    {
        self.enter(Group::Documents)?;
        self.documents.take_attrs(alloc, rest)
    }

    #[tactic(auto, unfolding(crate::specs::Drafts::client_line))]
    fn take_client(&mut self, alloc: Global, rest: &str) -> Result<(), LineFault>
        ensures { Steps result self.new (client_line self.old rest.now) }
    {
        self.enter(Group::Clients)?;
        let (name, rest) = actor(rest)?;
        let name = Text::from_str(alloc, name)?;
        require(!self.actors.contains_key(&name), Cause::Twice)?;
        end(rest)?;
        require(self.actors.len() < MAX_CLIENTS, Cause::Limit)?;
        add_actor(alloc, &mut self.actors, &name)?;
        self.clients.take_client(alloc, name)?;
        Ok(())
    }

    #[tactic(auto, unfolding(crate::specs::Drafts::begin_line))]
    fn take_begin(&mut self, alloc: Global, rest: &str) -> Result<(), LineFault>
        ensures { Steps result self.new (begin_line self.old rest.now) }
    {
        self.enter(Group::Clients)?;
        let expiry = self.settings.expiry.unwrap_or(DEFAULT_EXPIRY);
        let tries = self.settings.tries.unwrap_or(DEFAULT_TRIES);
        self.clients.begin(alloc, expiry, tries, rest)
    }

    #[tactic(auto, unfolding(crate::specs::Drafts::operation_line))]
    fn take_operation(
        &mut self,
        alloc: Global,
        operation: Operation,
        rest: &str,
    ) -> Result<(), LineFault>
        ensures { Steps result self.new (operation_line operation self.old rest.now) }
    {
        self.clients.take_operation(alloc, operation, rest)
    }

    #[tactic(auto, unfolding(crate::specs::Drafts::end_line))]
    fn take_end(&mut self, alloc: Global, keep: bool, rest: &str) -> Result<(), LineFault>
        ensures { Steps result self.new (end_line keep self.old rest.now) }
    {
        self.clients.end(alloc, keep, rest)
    }

    #[tactic(auto, unfolding(crate::specs::Drafts::cleaner_line))]
    fn take_cleaner(&mut self, alloc: Global, rest: &str) -> Result<(), LineFault>
        ensures { Steps result self.new (cleaner_line self.old rest.now) }
    {
        self.enter(Group::Cleaners)?;
        let atrs = self.settings.atrs.unwrap_or(DEFAULT_ATRS);
        self.course
            .take_cleaner(alloc, &mut self.actors, atrs, rest)
    }

    #[tactic(auto, unfolding(crate::specs::Drafts::stop_line))]
    fn take_stop(&mut self, alloc: Global, rest: &str) -> Result<(), LineFault>
        ensures { Steps result self.new (stop_line self.old rest.now) }
    {
        self.enter(Group::Faults)?;
        self.course.take_stop(alloc, &self.actors, rest)
    }

    #[tactic(auto, unfolding(crate::specs::Drafts::fault_line))]
    fn take_fault(&mut self, alloc: Global, fate: Fate, rest: &str) -> Result<(), LineFault>
        ensures { Steps result self.new (fault_line fate self.old rest.now) }
    {
        self.enter(Group::Faults)?;
        self.course.take_fault(alloc, &self.actors, fate, rest)
    }

    #[tactic(auto, unfolding(crate::specs::Drafts::order_line))]
    fn take_order(&mut self, alloc: Global, rest: &str) -> Result<(), LineFault>
        ensures { Steps result self.new (order_line self.old rest.now) }
    {
        self.enter(Group::Order)?;
        self.course.take_order(alloc, &self.actors, rest)
    }

    #[tactic(auto, unfolding(crate::specs::Drafts::sweep_line))]
    fn take_sweep(&mut self, rest: &str) -> Result<(), LineFault>
        ensures { Steps result self.new (sweep_line self.old rest.now) }
    {
        self.enter(Group::Sweep)?;
        self.course.take_sweep(rest)
    }

    /// The script that the lines have said.
    pub(crate) fn into_script(self, alloc: Global) -> Result<Script, NoMemory>
        ensures { IfOk result (λ script. script ≡ script_from self) }
    {
        let Draft {
            group: _,
            settings,
            documents,
            actors: _,
            clients,
            course,
        } = self;
        let Documents {
            docs,
            ids: _,
            follows: _,
        } = documents;
        let Course {
            cleaners,
            passes: _,
            stops,
            faults,
            order,
            sweep,
        } = course;
        let clients = clients.into_list()?;
        let stops = stops_listed(alloc, &stops)?;
        Ok(Script {
            atrs: settings.atrs.unwrap_or(DEFAULT_ATRS),
            expiry: settings.expiry.unwrap_or(DEFAULT_EXPIRY),
            tries: settings.tries.unwrap_or(DEFAULT_TRIES),
            lapse: settings.lapse.unwrap_or(DEFAULT_LAPSE),
            line: settings.line,
            docs,
            clients,
            cleaners,
            stops,
            faults,
            order,
            sweep,
        })
    }
}

// The stops by actor.
fn stops_listed(alloc: Global, stops: &Map<u32, u64>) -> Result<List<(u32, u64)>, NoMemory>
    ensures { IfOk result (λ list. list ≡ stops.now) }
{
    let mut list = List::new(alloc);
    for (actor, call) in stops.iter() {
        list.push((*actor, *call))?;
    }
    Ok(list)
}

// Whether a line stands inside a transaction.
fn stands_inside(keyword: Keyword) -> bool
    ensures { result ≡ stands_inside keyword }
{
    match keyword {
        Keyword::Operation(_) | Keyword::Commit | Keyword::Rollback => true,
        _ => false,
    }
}
