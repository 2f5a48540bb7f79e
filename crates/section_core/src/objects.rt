//! The sections over the chunks of per-CPU memory: an object is placed, settled, given up or freed.
ghost use Rattle.std.specs.Prelude.{◌≡◌, OnOk, OnErr};
ghost use Rattle.vm_model.specs.Next.{object_address};
ghost use Rattle.chunk_slots.specs.ChunkRegion.{at_of};
ghost use Rattle.callers.specs.declared.place.Place.TheVariants as place;
ghost use Rattle.callers.specs.CarriedPlaces.{made_of};
ghost use Rattle.vm_model.specs.Places.{MadeObject};
ghost use Rattle.section_core.specs.RegionSides.{percpu_region};
ghost use Rattle.section_core.specs.MadeSections.{IsMoved, TakesMemory};
ghost use Rattle.section_core.specs.StandsWell.{CanMake};

use callers::{Local, Made, NewChunk, ObjectPlace, ObjectSize, Place};
use chunk_slots::{PcpuSide, Placed};
use std::alloc::AllocError;
use vm_model::{Reply, address_of};

/// Chooses the chunk that gets an object, or goes on to the search for a new chunk.
pub(crate) fn choose(local: &mut Local, percpu: &mut PcpuSide, object: ObjectSize)
    requires { CanMake (place.Choosing object) local.old (percpu_region percpu.old) }
    ensures { IsMoved local.old (percpu_region percpu.old) local.new (percpu_region percpu.new) }
{
    percpu.set_unit_pages(local.config().layout.unit_pages());
    match percpu.place(object.bytes, object.align, local.caller()) {
        Some(placed) => local.go(Place::Populating(placed)),
        None => local.go(Place::FindingGroups(NewChunk {
            number: percpu.next_chunk(),
            object,
        })),
    }
}

/// Adds a chunk at the base that was found, and places the object in the chosen chunk, which may be an older one.
pub(crate) fn add_chunk(
    local: &mut Local,
    percpu: &mut PcpuSide,
    base: u32,
    wanted: NewChunk,
) -> Result<(), AllocError>
    requires { CanMake (place.AddingChunk base wanted) local.old (percpu_region percpu.old) }
    ensures ok { OnOk result (IsMoved local.old (percpu_region percpu.old) local.new
        (percpu_region percpu.new)) }
    ensures memory { OnErr result (TakesMemory local.old (percpu_region percpu.old)) }
    ensures local { OnErr result (local.new ≡ local.old) }
    ensures region { OnErr result (percpu_region percpu.new ≡ percpu_region percpu.old) }
{
    percpu.set_unit_pages(local.config().layout.unit_pages());
    let object = wanted.object;
    let placed = percpu.add_chunk_and_place(base, object.bytes, object.align, local.caller())?;
    local.go(Place::Populating(placed));
    Ok(())
}

/// The address of an object: that of the first processor's copy.
fn address_in(placed: Placed) -> Reply
    ensures { result ≡ object_address (at_of placed) }
{
    Reply::Address(address_of(placed.base) + u64::from(placed.off))
}

/// What the call of a settled object made.
fn made_at(placed: Placed, serial: u32) -> Made
    ensures { made_of result ≡ MadeObject (at_of placed) serial }
{
    let object = ObjectPlace {
        chunk: placed.chunk,
        base: placed.base,
        off: placed.off,
        bytes: placed.bytes,
    };
    Made::Object { object, serial }
}

/// Settles an object whose pages are populated: it lives from here on. The alloc turn is given back next.
pub(crate) fn settle_object(local: &mut Local, percpu: &mut PcpuSide, placed: Placed)
    requires { CanMake (place.SettlingObject placed) local.old (percpu_region percpu.old) }
    ensures { IsMoved local.old (percpu_region percpu.old) local.new (percpu_region percpu.new) }
{
    let serial = percpu.settle(&placed);
    local.go(Place::GivingAlloc(address_in(placed), made_at(placed, serial)));
}

/// Gives up an object for whose pages there were too few frames.
pub(crate) fn unplace(local: &mut Local, percpu: &mut PcpuSide, placed: Placed)
    requires { CanMake (place.Unplacing placed) local.old (percpu_region percpu.old) }
    ensures { IsMoved local.old (percpu_region percpu.old) local.new (percpu_region percpu.new) }
{
    percpu.unplace(&placed);
    local.go(Place::GivingAlloc(Reply::NoFrames, Made::Nothing));
}

/// Places an object on populated pages, without which there is none.
pub(crate) fn choose_atomic(local: &mut Local, percpu: &mut PcpuSide, object: ObjectSize)
    requires { CanMake (place.ChoosingAtomic object) local.old (percpu_region percpu.old) }
    ensures { IsMoved local.old (percpu_region percpu.old) local.new (percpu_region percpu.new) }
{
    percpu.set_unit_pages(local.config().layout.unit_pages());
    match percpu.place_atomic(object.bytes, object.align, local.caller()) {
        Some(placed) => local.go(Place::Zeroing(placed)),
        None => local.answer(Reply::NoAtomic, Made::Nothing),
    }
}

/// Settles an object that was placed on populated pages, whose address answers the call.
pub(crate) fn settle_atomic(local: &mut Local, percpu: &mut PcpuSide, placed: Placed)
    requires { CanMake (place.SettlingAtomic placed) local.old (percpu_region percpu.old) }
    ensures { IsMoved local.old (percpu_region percpu.old) local.new (percpu_region percpu.new) }
{
    let serial = percpu.settle(&placed);
    local.answer(address_in(placed), made_at(placed, serial));
}

/// Frees an object, unless it isn't live any more.
pub(crate) fn free_object(
    local: &mut Local,
    percpu: &mut PcpuSide,
    object: ObjectPlace,
    serial: u32,
)
    requires { CanMake (place.FreeingObject object serial) local.old (percpu_region percpu.old) }
    ensures { IsMoved local.old (percpu_region percpu.old) local.new (percpu_region percpu.new) }
{
    match percpu.free(object.chunk, object.off, serial) {
        Some(_) => local.answer(Reply::Done, Made::Nothing),
        None => local.answer(Reply::NotLive, Made::Nothing),
    }
}
