//! A caller: its calls, how they were answered, and where it stands.
ghost use Rattle.std.specs.Prelude.{◌≡◌, ◌≤◌, ◌<◌, ◌+◌, ◌^◌, ℕ, List, All, Some, slice_get, length, map, IfOk};
ghost use Rattle.std.specs.Arc.{arc_value};
ghost use Rattle.unit_layout.specs.Config.{setup_of};
ghost use Rattle.vm_model.specs.Setup.{groups_at};
ghost use Rattle.vm_model.specs.Rules.{IsSetup};
ghost use Rattle.vm_model.specs.Next.{Go, Answer, go_on};
ghost use Rattle.vm_model.specs.History.{started, moved_to, callers_from};
ghost use Rattle.vm_model.specs.declared.calls.Call.{Call};
ghost use Rattle.vm_model.specs.Parts.{wants};
ghost use Rattle.history_book.specs.declared.noted.Noted.{Noted};
ghost use Rattle.history_book.specs.BookEntries.{note_of};
ghost use Rattle.vm_model.specs.Places as model;
ghost use Rattle.vm_model.specs.Places.{SpareAgain};
ghost use Rattle.callers.specs.CarriedPlaces.{place_of, nothing, then_of, made_of, filled_by, IsSized, IsWhole, IsSizedAfter, IsEmptyHanded};
ghost use Rattle.callers.specs.CallerParts.{answer_of, AreSound, OpeningTellsFreed, HasCall, IsAt};

mod purge;

use crate::answers::{AnswerList, Made, Outcome};
use crate::begin::place_before;
use crate::noting::{answers_noted, note_free};
use crate::place::{After, Place};
use crate::region_number::{
    ALLOC_TURN, CHUNKS, DESK, FIRST_BLOCKS, FREE_BLOCKS, LIVE_AREAS, PAGE_MAP, PURGE_TURN,
    WAITING_SPANS,
};
use history_book::Book;
use lazy_purge::{Batch, LazySide};
use std::alloc::{AllocError, Global};
use std::marker::Model;
use std::sync::Arc;
use unit_layout::Config;
use vm_model::{CallerCalls, Reply, Span};

/// A caller between two of its sections: all that its next one needs beside its region.
#[derive(Drop)]
pub struct Local {
    alloc: Global,
    config: Arc<Config, Global>,
    caller: u16,
    opening: Arc<AnswerList, Global>,
    calls: CallerCalls,
    book: Book,
    outcomes: Vec<Outcome>,
    events: u32,
    place: Place,
    gone: Vec<u32>,
    waited: Batch,
    ranges: Vec<Span>,
}

impl Model for Local {
    ghost use Rattle.vm_model.specs.History as history;

    ghost Value = { history.Local };

    ghost use Rattle.callers.specs.CallerParts.{local_of, IsOrderly};

    ghost view = { local_of };

    ghost invariant = { IsOrderly };
}

impl Local {
    /// A caller before its first call. It takes room for all its answers, and for a dirty range of each processor.
    pub fn start(
        alloc: Global,
        config: Arc<Config, Global>,
        caller: u16,
        opening: Arc<AnswerList, Global>,
        calls: CallerCalls,
    ) -> Result<Local, AllocError>
        requires setup { IsSetup (setup_of (arc_value config)) }
        requires sound { AreSound calls }
        requires opening { OpeningTellsFreed (arc_value opening) }
        requires few { length calls ≤ 100000 }
        ensures { IfOk result (λ local. local ≡ started (setup_of (arc_value config))
            (map answer_of (arc_value opening)) caller calls) }
    {
        let count = calls.as_slice().len();
        let place = place_before(&config, calls.as_slice(), 0, opening.as_slice(), &[]);
        let ranges = Vec::with_capacity(alloc, config.layout.cpus() as usize)?;
        Ok(Local {
            alloc,
            config,
            caller,
            opening,
            calls,
            book: Book::with_room(alloc, caller, count as u32)?,
            outcomes: Vec::with_capacity(alloc, count)?,
            events: 0,
            place,
            gone: Vec::new(alloc),
            waited: LazySide::new(alloc).take(),
            ranges,
        })
    }

    /// Where it stands.
    pub fn place(&self) -> Place
        ensures { IsAt result self.now }
    {
        self.place
    }

    /// The lazy limit in pages: more waiting pages begin a purge.
    pub fn lazy_limit(&self) -> u32
        ensures { result ≡ self.now.setup.lazy }
    {
        self.config.lazy
    }

    /// The pages of a block.
    pub fn block_pages(&self) -> u32
        ensures { result ≡ self.now.setup.block_pages }
    {
        self.config.block_pages
    }

    /// The numbers of the machine.
    pub fn config(&self) -> &Config
        ensures { setup_of result.now ≡ self.now.setup }
    {
        &self.config
    }

    /// The allocator that it takes memory from.
    pub fn alloc(&self) -> Global {
        self.alloc
    }

    /// One event more, after which it stands there.
    pub fn go(&mut self, place: Place)
        requires empty_handed { IsEmptyHanded place }
        requires sized { IsSized place }
        requires whole { IsWhole self.old.setup (place_of place nothing) }
        requires filled { filled_by place ≤ self.old.events + 1 }
        requires at_hand { HasCall place (length self.old.answers) self.old.calls }
        requires events { self.old.events + 1 < 2 ^ 32 }
        ensures { self.new ≡ moved_to self.old (Go (place_of place nothing)) }
    {
        self.events += 1;
        self.place = place;
    }

    /// One event more, after which a purge is over: the search again, or the reply.
    pub fn go_on(&mut self, after: After)
        requires sized { IsSizedAfter after }
        requires at_hand { length self.old.answers < length self.old.calls }
        requires events { self.old.events + 1 < 2 ^ 32 }
        ensures { self.new ≡ moved_to self.old (go_on (then_of after)) }
    {
        match after {
            After::Search(search) => self.go(Place::FindingAgain(search)),
            After::Groups(wanted) => self.go(Place::FindingGroupsAgain(wanted)),
            After::Reply(reply) => self.answer(reply, Made::Nothing),
            After::Spare => self.go(Place::Sparing),
        }
    }

    /// One event more, which unlinked the areas of the chunk at this base. Their spans wait next.
    pub fn unlinked_groups(&mut self, base: u32)
        requires at_hand { length self.old.answers < length self.old.calls }
        requires events { self.old.events + 1 < 2 ^ 32 }
        ensures { self.new ≡ moved_to self.old
            (Go (model.Waiting (groups_at self.old.setup base) SpareAgain)) }
    {
        self.events += 1;
        self.place = Place::WaitingForGroups { base };
    }

    /// One event more, which answers the call at hand.
    #[inline(always)]
    pub fn answer(&mut self, reply: Reply, made: Made)
        requires at_hand { length self.old.answers < length self.old.calls }
        requires events { self.old.events + 1 < 2 ^ 32 }
        ensures { self.new ≡ moved_to self.old (Answer reply (made_of made)) }
    {
        self.events += 1;
        self.book.note(reply, self.events);
        note_free(&mut self.outcomes, self.calls.as_slice(), reply);
        self.outcomes.push_reserved(Outcome { made, freed: false });
        self.ranges.clear();
        self.place = place_before(
            &self.config,
            self.calls.as_slice(),
            self.outcomes.len(),
            self.opening.as_slice(),
            &self.outcomes,
        );
    }

    /// The number of the region that its next section wants, or none where all its calls are answered.
    #[inline]
    pub fn wants(&self) -> Option<u16>
        ensures { result ≡ wants self.now }
    {
        match self.place {
            Place::Over => None,
            Place::Refusing(_) => Some(DESK),
            Place::PurgeTaking { .. } | Place::PurgeGiving(_) => Some(PURGE_TURN),
            Place::TakingAlloc(_) | Place::TakingToBalance => Some(ALLOC_TURN),
            Place::GivingAlloc(..) => Some(ALLOC_TURN),
            Place::Finding(_) | Place::FindingAgain(_) => Some(FREE_BLOCKS),
            Place::FindingGroups(_) | Place::FindingGroupsAgain(_) => Some(FREE_BLOCKS),
            Place::Dropping(_) | Place::PurgeReturning(_) => Some(FREE_BLOCKS),
            Place::SettlingArea(..) | Place::Removing { .. } => Some(LIVE_AREAS),
            Place::SettlingBlock { .. } | Place::UnlinkingBlock { .. } => Some(LIVE_AREAS),
            Place::SettlingGroups { .. } | Place::UnlinkingGroups { .. } => Some(LIVE_AREAS),
            Place::PurgeUnlinking { .. } => Some(LIVE_AREAS),
            Place::Waiting { .. } | Place::WaitingForGroups { .. } => Some(WAITING_SPANS),
            Place::PurgeWaiting { .. } | Place::PurgeCollecting { .. } => Some(WAITING_SPANS),
            Place::MappingArea(..) | Place::UnmappingArea(_) => Some(PAGE_MAP),
            Place::MappingPart { .. } | Place::UnmappingPart { .. } => Some(PAGE_MAP),
            Place::Populating(_) | Place::Zeroing(_) => Some(PAGE_MAP),
            Place::Adding { .. } | Place::Summing { .. } => Some(PAGE_MAP),
            Place::Depopulating { .. } | Place::Filling { .. } => Some(PAGE_MAP),
            Place::PurgeFlushing { .. } => Some(PAGE_MAP),
            Place::Choosing(_) | Place::AddingChunk { .. } => Some(CHUNKS),
            Place::SettlingObject(_) | Place::Unplacing(_) => Some(CHUNKS),
            Place::ChoosingAtomic(_) | Place::SettlingAtomic(_) => Some(CHUNKS),
            Place::FreeingObject { .. } | Place::Sparing => Some(CHUNKS),
            Place::NextFill { .. } | Place::NotingFilled { .. } => Some(CHUNKS),
            Place::PurgeFragmenting { cpu, .. }
            | Place::CuttingPart { cpu, .. }
            | Place::AddingBlock { cpu, .. }
            | Place::SettlingPart { cpu, .. }
            | Place::BeginningUnmap { cpu, .. }
            | Place::Retiring { cpu, .. }
            | Place::LookingAtDirty { cpu } => Some(FIRST_BLOCKS + u16::from(cpu)),
        }
    }

    /// Its number; 0 is the opening.
    pub fn caller(&self) -> u16
        ensures { result ≡ self.now.caller }
    {
        self.caller
    }

    /// How many of its calls are answered.
    pub fn answered(&self) -> u32
        ensures { result ≡ length self.now.answers }
    {
        self.book.len()
    }

    /// Its book of replies.
    pub fn book(&self) -> &Book
        ensures caller { result.now.caller ≡ self.now.caller }
        ensures rows { result.now.rows ≡ map note_of self.now.answers }
        ensures noted { All (λ (n : Noted). n.own_event ≤ self.now.events) result.now.rows }
    {
        &self.book
    }

    /// Its answers, for others to share.
    pub fn answers(&self, alloc: Global) -> Result<AnswerList, AllocError>
        ensures answers { IfOk result (λ answers. map answer_of answers ≡ self.now.answers) }
        ensures freed { IfOk result OpeningTellsFreed }
    {
        answers_noted(alloc, self.calls.as_slice(), &self.book, &self.outcomes)
    }
}

/// The callers from 1 on before their first calls, once the opening has these answers.
pub fn first_callers(
    alloc: Global,
    config: &Arc<Config, Global>,
    opening: &Arc<AnswerList, Global>,
    sections: Vec<CallerCalls>,
) -> Result<Vec<Local>, AllocError>
    requires setup { IsSetup (setup_of (arc_value config.now)) }
    requires sound { (k : ℕ) (own : List Call) → slice_get sections.items k ≡ Some own
        → AreSound own }
    requires opening { OpeningTellsFreed (arc_value opening.now) }
    requires few { (k : ℕ) (own : List Call) → slice_get sections.items k ≡ Some own
        → length own ≤ 100000 }
    requires callers { length sections.items ≤ 16 }
    ensures { IfOk result (λ locals. locals.items ≡ callers_from (setup_of (arc_value config.now))
        (map answer_of (arc_value opening.now)) 1 sections.items) }
{
    let mut callers = Vec::with_capacity(alloc, sections.len())?;
    let mut rest = sections;
    while !rest.is_empty() {
        let caller = callers.len() as u16 + 1;
        let calls = rest.remove(0);
        let config = Arc::try_clone(config)?;
        let opening = Arc::try_clone(opening)?;
        callers.push(Local::start(alloc, config, caller, opening, calls)?)?;
    }
    Ok(callers)
}
