//! How calls begin: the refusals at the desk, and what a call looks for first.
ghost use Rattle.std.specs.Prelude.{◌≡◌, ◌≢◌, ◌≤◌, ◌^◌, ℕ, Bool, List, map, slice_get, IfOk, IfErr};
ghost use Rattle.vm_model.specs.Setup.{Setup};
ghost use Rattle.unit_layout.specs.Config.{setup_of};
ghost use Rattle.vm_model.specs.Rules.{IsSetup};
ghost use Rattle.vm_model.specs.Calls as model;
ghost use Rattle.vm_model.specs.Calls.{align_pages, is_power_to, begin_vmalloc, begin_map_ram, begin_alloc, begin_free_area, begin_unmap_ram, begin_free_percpu, begin_add, begin_sum, begin, target_of, answers_in, was_freed};
ghost use Rattle.vm_model.specs.Places as places;
ghost use Rattle.callers.specs.CarriedPlaces.{place_of, nothing, made_of, filled_by, IsSized, IsWhole, CarriesNoSpans};
ghost use Rattle.callers.specs.CallerParts.{AreSound, HasCall, MadeBy, OpeningTellsFreed, answer_of};

use crate::answers::{Answered, Made, Outcome};
use crate::place::{Aim, ObjectSize, Place, Search};
use unit_layout::Config;
use vm_model::{AreaKind, Call, PAGE_SIZE, Reply, Target};

/// The largest alignment of an area, in bytes.
const MOST_ALIGN: u64 = 1 << 32;

/// The most bytes of a per-CPU object, the kernel's `PCPU_MIN_UNIT_SIZE`, and its largest alignment.
const MOST_OBJECT: u64 = 32_768;

const MOST_OBJECT_ALIGN: u64 = 4096;

/// The least bytes of a per-CPU object, and its least alignment: the kernel's `PCPU_MIN_ALLOC_SIZE`.
const LEAST_OBJECT: u64 = 4;

/// The outcome of a call that is not answered: it made nothing.
const NO_OUTCOME: Outcome = Outcome {
    made: Made::Nothing,
    freed: false,
};

/// Whether an area may have this alignment in bytes.
fn is_alignment(align: u64) -> bool
    ensures { result ≡ is_power_to 32 align }
{
    align.is_power_of_two() && align <= MOST_ALIGN
}

/// Whether an object may have this alignment in bytes, which is at least 4.
fn is_object_alignment(align: u64) -> bool
    ensures { result ≡ is_power_to 12 align }
{
    align.is_power_of_two() && align <= MOST_OBJECT_ALIGN
}

/// An alignment in bytes as pages, at least one.
fn align_in_pages(align: u64) -> u32
    requires { align ≤ 2 ^ 32 }
    ensures pages { result ≡ align_pages align }
    ensures low { 1 ≤ result }
{
    (align.max(PAGE_SIZE) / PAGE_SIZE) as u32
}

/// Where a `vmalloc` begins: at its search, unless its size or its alignment is refused.
fn vmalloc_place(config: &Config, bytes: u64, align: u64) -> Place
    requires { config.now.space ≤ 1048576 }
    ensures place { place_of result nothing ≡ begin_vmalloc (setup_of config.now) bytes align }
    ensures sized { IsSized result }
    ensures unfilled { filled_by result ≡ 0 }
    ensures empty_handed { CarriesNoSpans result }
    ensures whole { (c : Setup) → IsWhole c (place_of result nothing) }
{
    let pages = bytes.div_ceil(PAGE_SIZE);
    if bytes == 0 || (config.space as u64) < pages {
        return Place::Refusing(Reply::BadSize);
    }
    if !is_alignment(align) {
        return Place::Refusing(Reply::BadAlign);
    }
    Place::Finding(Search {
        pages: pages as u32 + 1,
        align: align_in_pages(align),
        aim: Aim::Area(AreaKind::Vmalloc),
    })
}

/// Where a `map_ram` begins: at a block's part or at the search for an area of its own, unless its size is refused.
fn map_ram_place(config: &Config, cpu: u8, pages: u64) -> Place
    requires { config.now.space ≤ 1048576 }
    ensures place { place_of result nothing ≡ begin_map_ram (setup_of config.now) cpu pages }
    ensures sized { IsSized result }
    ensures unfilled { filled_by result ≡ 0 }
    ensures empty_handed { CarriesNoSpans result }
    ensures whole { (c : Setup) → IsWhole c (place_of result nothing) }
{
    if pages == 0 || u64::from(config.space) < pages {
        return Place::Refusing(Reply::BadSize);
    }
    let pages = pages as u32;
    if pages <= config.part_limit {
        return Place::CuttingPart { cpu, pages };
    }
    Place::Finding(Search {
        pages,
        align: 1,
        aim: Aim::Area(AreaKind::MapRam),
    })
}

/// An object of so many bytes at such an alignment, as it is placed, or the reply that refuses it.
fn object_size(bytes: u64, align: u64) -> Result<ObjectSize, Reply>
    ensures size { IfOk result (λ o. (place : ℕ → ℕ → places.Place)
        → begin_alloc place bytes align ≡ place o.bytes o.align) }
    ensures refused { IfErr result (λ reply. (place : ℕ → ℕ → places.Place)
        → begin_alloc place bytes align ≡ places.Refusing reply) }
{
    if bytes == 0 || MOST_OBJECT < bytes {
        return Err(Reply::BadSize);
    }
    let align = align.max(LEAST_OBJECT);
    if !is_object_alignment(align) {
        return Err(Reply::BadAlign);
    }
    Ok(ObjectSize {
        bytes: 4 * (bytes as u32).div_ceil(4),
        align: align as u32,
    })
}

/// Where an `alloc_percpu` begins: at the alloc turn, unless its size or its alignment is refused.
fn alloc_percpu_place(bytes: u64, align: u64) -> Place
    ensures place { place_of result nothing ≡ begin_alloc places.TakingAlloc bytes align }
    ensures sized { IsSized result }
    ensures unfilled { filled_by result ≡ 0 }
    ensures empty_handed { CarriesNoSpans result }
    ensures whole { (c : Setup) → IsWhole c (place_of result nothing) }
{
    match object_size(bytes, align) {
        Ok(object) => Place::TakingAlloc(object),
        Err(reply) => Place::Refusing(reply),
    }
}

/// Where an `alloc_atomic` begins: at the choice of a chunk, unless its size or its alignment is refused.
fn alloc_atomic_place(bytes: u64, align: u64) -> Place
    ensures place { place_of result nothing ≡ begin_alloc places.ChoosingAtomic bytes align }
    ensures sized { IsSized result }
    ensures unfilled { filled_by result ≡ 0 }
    ensures empty_handed { CarriesNoSpans result }
    ensures whole { (c : Setup) → IsWhole c (place_of result nothing) }
{
    match object_size(bytes, align) {
        Ok(object) => Place::ChoosingAtomic(object),
        Err(reply) => Place::Refusing(reply),
    }
}

/// What the target's call made, and whether it was freed since.
fn outcome_of(opening: &[Answered], own: &[Outcome], target: Target) -> Outcome
    requires opening { OpeningTellsFreed opening.now }
    ensures made { (answers : List model.Answered) → MadeBy own.now answers
        → made_of result.made ≡ target_of (map answer_of opening.now) answers target }
    ensures freed { (answers : List model.Answered) → MadeBy own.now answers → 1 ≤ target.call
        → made_of result.made ≢ places.MadeNothing
        → result.freed ≡ was_freed (answers_in (map answer_of opening.now) answers target)
        target.call }
{
    let index = (target.call as usize).saturating_sub(1);
    if target.opening {
        match opening.get(index) {
            Some(answered) => answered.outcome,
            None => NO_OUTCOME,
        }
    } else {
        match own.get(index) {
            Some(outcome) => *outcome,
            None => NO_OUTCOME,
        }
    }
}

/// Where a `vfree` begins: at the area that its target's call made, if that made one.
fn vfree_place(made: Made) -> Place
    ensures place { place_of result nothing ≡ begin_free_area (made_of made) }
    ensures sized { IsSized result }
    ensures unfilled { filled_by result ≡ 0 }
    ensures empty_handed { CarriesNoSpans result }
    ensures whole { (c : Setup) → IsWhole c (place_of result nothing) }
{
    match made {
        Made::Area { start, serial } => Place::Removing { start, serial },
        _ => Place::Refusing(Reply::Unbound),
    }
}

/// Where an `unmap_ram` begins: at the part or at the area that its target's call made, if that made one.
fn unmap_ram_place(made: Made) -> Place
    ensures place { place_of result nothing ≡ begin_unmap_ram (made_of made) }
    ensures sized { IsSized result }
    ensures unfilled { filled_by result ≡ 0 }
    ensures empty_handed { CarriesNoSpans result }
    ensures whole { (c : Setup) → IsWhole c (place_of result nothing) }
{
    match made {
        Made::Area { start, serial } => Place::Removing { start, serial },
        Made::Part { cpu, page, serial } => Place::BeginningUnmap { cpu, page, serial },
        _ => Place::Refusing(Reply::Unbound),
    }
}

/// Where a `free_percpu` begins: at the object that its target's call made, if that made one.
fn free_percpu_place(made: Made) -> Place
    ensures place { place_of result nothing ≡ begin_free_percpu (made_of made) }
    ensures sized { IsSized result }
    ensures unfilled { filled_by result ≡ 0 }
    ensures empty_handed { CarriesNoSpans result }
    ensures whole { (c : Setup) → IsWhole c (place_of result nothing) }
{
    match made {
        Made::Object { object, serial } => Place::FreeingObject { object, serial },
        _ => Place::Refusing(Reply::Unbound),
    }
}

/// Where an `add` begins: at the word of the object that its target's call made, unless that was freed.
fn add_place(outcome: Outcome, cpu: u8, index: u32, amount: i32) -> Place
    ensures place { (freed : Bool)
        → (made_of outcome.made ≢ places.MadeNothing → outcome.freed ≡ freed)
        → place_of result nothing ≡ begin_add freed cpu index amount (made_of outcome.made) }
    ensures sized { IsSized result }
    ensures unfilled { filled_by result ≡ 0 }
    ensures empty_handed { CarriesNoSpans result }
    ensures whole { (c : Setup) → IsWhole c (place_of result nothing) }
{
    let Made::Object { object, serial } = outcome.made else {
        return Place::Refusing(Reply::Unbound);
    };
    if outcome.freed {
        return Place::Refusing(Reply::NotLive);
    }
    Place::Adding {
        object,
        serial,
        cpu,
        index,
        amount,
    }
}

/// Where a `sum` begins: at the words of the object that its target's call made, unless that was freed.
fn sum_place(outcome: Outcome, index: u32) -> Place
    ensures place { (freed : Bool)
        → (made_of outcome.made ≢ places.MadeNothing → outcome.freed ≡ freed)
        → place_of result nothing ≡ begin_sum freed index (made_of outcome.made) }
    ensures sized { IsSized result }
    ensures unfilled { filled_by result ≡ 0 }
    ensures empty_handed { CarriesNoSpans result }
    ensures whole { (c : Setup) → IsWhole c (place_of result nothing) }
{
    let Made::Object { object, serial } = outcome.made else {
        return Place::Refusing(Reply::Unbound);
    };
    if outcome.freed {
        return Place::Refusing(Reply::NotLive);
    }
    Place::Summing {
        object,
        serial,
        index,
    }
}

/// The place before the first event of the call with this index, or the end after the last call.
#[inline(always)]
pub fn place_before(
    config: &Config,
    calls: &[Call],
    index: usize,
    opening: &[Answered],
    own: &[Outcome],
) -> Place
    requires setup { IsSetup (setup_of config.now) }
    requires sound { AreSound calls.now }
    requires opening { OpeningTellsFreed opening.now }
    ensures place { (answers : List model.Answered) → MadeBy own.now answers
        → place_of result nothing ≡ begin (setup_of config.now) (map answer_of opening.now) answers
        (slice_get calls.now index) }
    ensures sized { IsSized result }
    ensures unfilled { filled_by result ≡ 0 }
    ensures empty_handed { CarriesNoSpans result }
    ensures whole { IsWhole (setup_of config.now) (place_of result nothing) }
    ensures at_hand { HasCall result index calls.now }
{
    let Some(call) = calls.get(index) else {
        return Place::Over;
    };
    match *call {
        Call::Vmalloc { bytes, align } => vmalloc_place(config, bytes, align),
        Call::Vfree { target } => vfree_place(outcome_of(opening, own, target).made),
        Call::MapRam { cpu, pages } => map_ram_place(config, cpu as u8, pages),
        Call::UnmapRam { target } => unmap_ram_place(outcome_of(opening, own, target).made),
        Call::UnmapAliases => Place::LookingAtDirty { cpu: 0 },
        Call::AllocPercpu { bytes, align } => alloc_percpu_place(bytes, align),
        Call::AllocAtomic { bytes, align } => alloc_atomic_place(bytes, align),
        Call::FreePercpu { target } => free_percpu_place(outcome_of(opening, own, target).made),
        Call::Add {
            target,
            cpu,
            index,
            amount,
        } => add_place(outcome_of(opening, own, target), cpu as u8, index, amount),
        Call::Sum { target, index } => sum_place(outcome_of(opening, own, target), index),
        Call::Balance => Place::TakingToBalance,
    }
}
