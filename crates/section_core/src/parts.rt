//! The sections of `map_ram` parts and of the blocks that they are cut from.
ghost use Rattle.std.specs.Prelude.{◌≡◌, ◌+◌, ◌<◌, ◌^◌, OnOk, OnErr};
ghost use Rattle.vm_model.specs.Space.{span};
ghost use Rattle.callers.specs.declared.place.Place.TheVariants as place;
ghost use Rattle.section_core.specs.RegionSides.{areas_region, pages_region, blocks_region};
ghost use Rattle.section_core.specs.MadeSections.{IsMoved, TakesMemory};
ghost use Rattle.section_core.specs.StandsWell.{CanMake};

use busy_areas::BusySide;
use callers::{After, Aim, Local, Made, Place, Search};
use map_blocks::{BlockSide, Part};
use page_pool::PageSide;
use std::alloc::AllocError;
use vm_model::{AreaKind, Reply, Span, address_of};

/// Cuts a part from a block that has room, or goes on to the search for a new block.
pub(crate) fn cut_part(local: &mut Local, blocks: &mut BlockSide, cpu: u8, pages: u32)
    requires { CanMake (place.CuttingPart cpu pages) local.old (blocks_region blocks.old) }
    ensures { IsMoved local.old (blocks_region blocks.old) local.new (blocks_region blocks.new) }
{
    match blocks.take_part(pages, local.caller()) {
        Some(part) => local.go(Place::MappingPart { cpu, part }),
        None => local.go(Place::Finding(Search {
            pages: local.block_pages(),
            align: local.block_pages(),
            aim: Aim::Block { cpu, pages },
        })),
    }
}

/// Settles a carved span as the area of a new block.
pub(crate) fn settle_block(
    local: &mut Local,
    busy: &mut BusySide,
    span: Span,
    cpu: u8,
    pages: u32,
) -> Result<(), AllocError>
    requires { CanMake (place.SettlingBlock span cpu pages) local.old (areas_region busy.old) }
    ensures ok { OnOk result (IsMoved local.old (areas_region busy.old) local.new
        (areas_region busy.new)) }
    ensures memory { OnErr result (TakesMemory local.old (areas_region busy.old)) }
    ensures err { OnErr result ((local.new ≡ local.old) × (busy.new ≡ busy.old)) }
{
    busy.insert(span, AreaKind::Block { cpu: cpu.into() }, local.caller())?;
    local.go(Place::AddingBlock {
        start: span.start,
        cpu,
        pages,
    });
    Ok(())
}

/// Adds a new block to its processor's, and cuts its first part.
pub(crate) fn add_block(
    local: &mut Local,
    blocks: &mut BlockSide,
    start: u32,
    cpu: u8,
    pages: u32,
) -> Result<(), AllocError>
    requires { CanMake (place.AddingBlock start cpu pages) local.old (blocks_region blocks.old) }
    ensures ok { OnOk result (IsMoved local.old (blocks_region blocks.old) local.new
        (blocks_region blocks.new)) }
    ensures memory { OnErr result (TakesMemory local.old (blocks_region blocks.old)) }
    ensures err { OnErr result ((local.new ≡ local.old) × (blocks.new ≡ blocks.old)) }
{
    let part = blocks.add_block(start, pages, local.caller())?;
    local.go(Place::MappingPart { cpu, part });
    Ok(())
}

/// The pages of a part that get frames: those that were asked for.
fn mapped_pages(part: Part) -> Span
    requires { part.block + part.offset < 2 ^ 32 }
    ensures { result ≡ span (part.block + part.offset) part.pages }
{
    Span {
        start: part.block + part.offset,
        pages: part.pages,
    }
}

/// Maps the pages of a part, or goes on to end it where there are too few frames.
pub(crate) fn map_part(local: &mut Local, pages: &mut PageSide, cpu: u8, part: Part)
    requires { CanMake (place.MappingPart cpu part) local.old (pages_region pages.old) }
    ensures { IsMoved local.old (pages_region pages.old) local.new (pages_region pages.new) }
{
    match pages.map(mapped_pages(part)) {
        Ok(()) => local.go(Place::SettlingPart { cpu, part }),
        Err(_) => local.go(Place::Retiring {
            cpu,
            part,
            reply: Reply::NoFrames,
        }),
    }
}

/// The part lives, and its address answers the call.
pub(crate) fn settle_part(local: &mut Local, blocks: &mut BlockSide, cpu: u8, part: Part)
    requires { CanMake (place.SettlingPart cpu part) local.old (blocks_region blocks.old) }
    ensures { IsMoved local.old (blocks_region blocks.old) local.new (blocks_region blocks.new) }
{
    let serial = blocks.settle(&part);
    let page = part.block + part.offset;
    local.answer(
        Reply::Address(address_of(page)),
        Made::Part { cpu, page, serial },
    );
}

/// Takes up the part that ends, unless it isn't live any more.
pub(crate) fn begin_unmap(
    local: &mut Local,
    blocks: &mut BlockSide,
    cpu: u8,
    page: u32,
    serial: u32,
)
    requires { CanMake (place.BeginningUnmap cpu page serial) local.old (blocks_region blocks.old) }
    ensures { IsMoved local.old (blocks_region blocks.old) local.new (blocks_region blocks.new) }
{
    match blocks.begin_unmap(page, serial, local.caller()) {
        Some(part) => local.go(Place::UnmappingPart { cpu, part }),
        None => local.answer(Reply::NotLive, Made::Nothing),
    }
}

/// Unmaps the pages of a part that ends.
pub(crate) fn unmap_part(local: &mut Local, pages: &mut PageSide, cpu: u8, part: Part)
    requires { CanMake (place.UnmappingPart cpu part) local.old (pages_region pages.old) }
    ensures { IsMoved local.old (pages_region pages.old) local.new (pages_region pages.new) }
{
    pages.unmap(mapped_pages(part));
    local.go(Place::Retiring {
        cpu,
        part,
        reply: Reply::Done,
    });
}

/// The part has ended. Where its block is spent then, that is unlinked next.
pub(crate) fn retire_part(
    local: &mut Local,
    blocks: &mut BlockSide,
    cpu: u8,
    part: Part,
    reply: Reply,
)
    requires { CanMake (place.Retiring cpu part reply) local.old (blocks_region blocks.old) }
    ensures { IsMoved local.old (blocks_region blocks.old) local.new (blocks_region blocks.new) }
{
    match blocks.retire(&part) {
        Some(start) => local.go(Place::UnlinkingBlock { start, reply }),
        None => local.answer(reply, Made::Nothing),
    }
}

/// Takes out the area of a spent block, whose pages wait then.
pub(crate) fn unlink_block(local: &mut Local, busy: &mut BusySide, start: u32, reply: Reply)
    requires { CanMake (place.UnlinkingBlock start reply) local.old (areas_region busy.old) }
    ensures { IsMoved local.old (areas_region busy.old) local.new (areas_region busy.new) }
{
    busy.unlink(&[start]);
    let pages = local.block_pages();
    local.go(Place::Waiting {
        span: Span { start, pages },
        after: After::Reply(reply),
    });
}
