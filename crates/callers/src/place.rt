//! Where a caller stands in its calls, between two of its sections. Processors are numbered below 64.
use crate::answers::{Made, ObjectPlace};
use chunk_slots::Placed;
use map_blocks::Part;
use vm_model::{Area, AreaKind, PageSet, Reply, Span};

/// What the pages that a search finds are for.
#[derive(Clone, Copy)]
pub enum Aim {
    /// An area of this kind.
    Area(AreaKind),
    /// A block of a processor, whose first part has so many pages.
    Block { cpu: u8, pages: u32 },
}

/// What a search looks for.
#[derive(Clone, Copy)]
pub struct Search {
    /// How many pages.
    pub pages: u32,
    /// Their first page is a multiple of this.
    pub align: u32,
    pub aim: Aim,
}

/// An object that is asked for, in bytes: its size in each unit, a multiple of 4, and the alignment of its offset.
#[derive(Clone, Copy)]
pub struct ObjectSize {
    pub bytes: u32,
    pub align: u32,
}

/// A chunk that is wanted for an object, with the number that it gets.
#[derive(Clone, Copy)]
pub struct NewChunk {
    pub number: u32,
    pub object: ObjectSize,
}

/// What follows a wait or a purge: the search for pages or for a chunk's groups again, the call's reply, or the next spare
/// chunk of a balance.
#[derive(Clone, Copy)]
pub enum After {
    Search(Search),
    Groups(NewChunk),
    Reply(Reply),
    Spare,
}

/// The section that a caller makes next, with what it carries to it. Lists are kept beside its place: the starts of the
/// blocks that its purge has taken out, the spans that it flushes and returns, and the dirty ranges that it has seen.
#[derive(Clone, Copy)]
pub enum Place {
    /// All its calls are answered.
    Over,
    /// The desk refuses the call with this reply.
    Refusing(Reply),
    /// The first search, and the one after its purge.
    Finding(Search),
    FindingAgain(Search),
    /// A carved span gets frames, or is dropped where there are too few.
    MappingArea(Span, AreaKind),
    Dropping(Span),
    /// It becomes a live area.
    SettlingArea(Span, AreaKind),
    /// An area is taken out, by its first page and its serial, and unmapped, and its pages wait.
    Removing {
        start: u32,
        serial: u32,
    },
    UnmappingArea(Area),
    Waiting {
        span: Span,
        after: After,
    },
    /// A purge: its turn is taken, the fragmented blocks of each processor are taken out, unlinked and wait, what waits is
    /// collected, flushed from its lowest page to its highest, the extra span of the call with it, and returned, and the
    /// turn is given back.
    PurgeTaking {
        extra: Option<Span>,
        after: After,
    },
    PurgeFragmenting {
        cpu: u8,
        extra: Option<Span>,
        after: After,
    },
    PurgeUnlinking {
        extra: Option<Span>,
        after: After,
    },
    PurgeWaiting {
        extra: Option<Span>,
        after: After,
    },
    PurgeCollecting {
        extra: Option<Span>,
        after: After,
    },
    PurgeFlushing {
        hull: Span,
        after: After,
    },
    PurgeReturning(After),
    PurgeGiving(After),
    /// A part is cut from a block of the processor, or from a new one, gets frames and becomes live.
    CuttingPart {
        cpu: u8,
        pages: u32,
    },
    SettlingBlock {
        span: Span,
        cpu: u8,
        pages: u32,
    },
    AddingBlock {
        start: u32,
        cpu: u8,
        pages: u32,
    },
    MappingPart {
        cpu: u8,
        part: Part,
    },
    SettlingPart {
        cpu: u8,
        part: Part,
    },
    /// A part is taken up, by its first page and its serial, unmapped and ended. Where its block is spent then, the block
    /// is unlinked and waits.
    BeginningUnmap {
        cpu: u8,
        page: u32,
        serial: u32,
    },
    UnmappingPart {
        cpu: u8,
        part: Part,
    },
    Retiring {
        cpu: u8,
        part: Part,
        reply: Reply,
    },
    UnlinkingBlock {
        start: u32,
        reply: Reply,
    },
    /// The dirty ranges of the processors are looked at in turn, before a purge that flushes them.
    LookingAtDirty {
        cpu: u8,
    },
    /// An object: the alloc turn is taken, and a chunk with room is chosen. Where none has any, pages for the groups of a new
    /// one are searched for twice, settled as live areas, and the chunk is added.
    TakingAlloc(ObjectSize),
    Choosing(ObjectSize),
    FindingGroups(NewChunk),
    FindingGroupsAgain(NewChunk),
    SettlingGroups {
        base: u32,
        wanted: NewChunk,
    },
    AddingChunk {
        base: u32,
        wanted: NewChunk,
    },
    /// Its missing pages get frames and its words are 0, and it lives, or is given up where there are too few frames. The
    /// alloc turn is given back with the reply.
    Populating(Placed),
    SettlingObject(Placed),
    Unplacing(Placed),
    GivingAlloc(Reply, Made),
    /// An object on populated pages alone, without the alloc turn.
    ChoosingAtomic(ObjectSize),
    Zeroing(Placed),
    SettlingAtomic(Placed),
    /// A live object is freed, a processor's word of it is added to, or a word is summed over all processors.
    FreeingObject {
        object: ObjectPlace,
        serial: u32,
    },
    Adding {
        object: ObjectPlace,
        serial: u32,
        cpu: u8,
        index: u32,
        amount: i32,
    },
    Summing {
        object: ObjectPlace,
        serial: u32,
        index: u32,
    },
    /// A balance: the alloc turn is taken, and each spare chunk is taken out, its pages unmapped, its areas unlinked, and
    /// their spans wait.
    TakingToBalance,
    Sparing,
    Depopulating {
        base: u32,
        populated: PageSet,
    },
    UnlinkingGroups {
        base: u32,
    },
    WaitingForGroups {
        base: u32,
    },
    /// Then pages are filled, one after another: so many so far.
    NextFill {
        filled: u32,
    },
    Filling {
        chunk: u32,
        base: u32,
        page: u32,
        filled: u32,
    },
    NotingFilled {
        chunk: u32,
        page: u32,
        filled: u32,
    },
}
