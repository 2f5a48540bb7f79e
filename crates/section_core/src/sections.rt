//! The table of sections: which place makes which section over which side.
ghost use Rattle.std.specs.Prelude.{◌≡◌, true, IfOk, OnOk, OnErr};
ghost use Rattle.vm_model.specs.Run.{StandTogether};
ghost use Rattle.vm_model.specs.Parts as parts;
ghost use Rattle.vm_model.specs.Parts.{wants, moves, PurgeTurn, AllocTurn, WaitingSpans};
ghost use Rattle.section_laws.specs.Lawful.{IsLawful};
ghost use Rattle.section_core.specs.declared.region.Side.TheVariants as side;
ghost use Rattle.section_core.specs.RegionSides.{free_region, areas_region, pages_region, percpu_region, blocks_region};
ghost use Rattle.section_core.specs.MadeSections.{Answers, IsMoved, TakesMemory};
ghost use Rattle.section_core.specs.SectionRows.{is_row};
ghost use Rattle.section_core.specs.StandsWell.{CanMake};

use crate::areas::{
    drop_span, find, find_again, map_area, remove_area, settle_area, unmap_area, wait,
};
use crate::balance::{depopulate, fill, next_page, note_filled, spare};
use crate::desk::refuse;
use crate::groups::{
    find_groups, find_groups_again, settle_groups, unlink_groups, wait_for_groups,
};
use crate::object_pages::{add_word, populate, sum_words, zero};
use crate::objects::{
    add_chunk, choose, choose_atomic, free_object, settle_atomic, settle_object, unplace,
};
use crate::parts::{
    add_block, begin_unmap, cut_part, map_part, retire_part, settle_block, settle_part,
    unlink_block, unmap_part,
};
use crate::purge::{
    collect, flush, give_purge, look_at_dirty, return_spans, take_fragmented, take_purge,
    unlink_blocks, wait_for_blocks,
};
use crate::region::{Region, Side, Stepped};
use crate::turns::{give_alloc, take_alloc, take_to_balance};
use augmented_tree::FreeSide;
use busy_areas::BusySide;
use callers::{Local, Place};
use chunk_slots::PcpuSide;
use lazy_purge::LazySide;
use map_blocks::BlockSide;
use page_pool::PageSide;
use std::alloc::AllocError;

/// Makes the caller's next section over the region that it wants: one event. It stays where the region is a turn that
/// another caller has; then, and where memory is wanting, nothing changes.
#[inline(always)]
pub fn section(local: &mut Local, region: &mut Region) -> Result<Stepped, AllocError>
    requires { StandTogether wants IsLawful local.old region.old }
    ensures answer { IfOk result (Answers local.old region.old local.new region.new) }
    ensures memory { OnErr result (TakesMemory local.old region.old) }
    ensures err { OnErr result ((local.new ≡ local.old) × (region.new ≡ region.old)) }
{
    if !moves(local, region) {
        return Ok(Stepped::Stays);
    }
    make(local, region)?;
    Ok(Stepped::Moved)
}

/// Whether the caller's next section would move over this region.
#[inline]
pub fn moves(local: &Local, region: &Region) -> bool
    ensures { result ≡ moves local.now region.now }
{
    match local.place() {
        Place::Over => false,
        Place::PurgeTaking { .. } => !matches!(region.side, Side::Purge(Some(_))),
        Place::TakingAlloc(_) | Place::TakingToBalance => {
            !matches!(region.side, Side::Alloc(Some(_)))
        }
        _ => true,
    }
}

/// The section of a caller that moves.
fn make(local: &mut Local, region: &mut Region) -> Result<(), AllocError>
    requires together { StandTogether wants IsLawful local.old region.old }
    requires moves { moves local.old region.old ≡ true }
    ensures ok { OnOk result (IsMoved local.old region.old local.new region.new) }
    ensures memory { OnErr result (TakesMemory local.old region.old) }
    ensures err { OnErr result ((local.new ≡ local.old) × (region.new ≡ region.old)) }
{
    // each place stands before the side that it wants, and who moves isn't over
    let place = local.place();
    match &mut region.side {
        Side::Desk => Ok(over_desk(local, place)),
        Side::Purge(turn) => Ok(over_purge_turn(local, turn, place)),
        Side::Alloc(turn) => Ok(over_alloc_turn(local, turn, place)),
        Side::Free(free) => over_free(local, free, place),
        Side::Busy(busy) => over_areas(local, busy, place),
        Side::Lazy(lazy) => over_waiting(local, lazy, place),
        Side::Pages(pages) => Ok(over_pages(local, pages, place)),
        Side::Percpu(percpu) => over_chunks(local, percpu, place),
        Side::Blocks(blocks) => over_blocks(local, blocks, place),
    }
}

/// The section at the desk.
fn over_desk(local: &mut Local, place: Place)
    requires row { is_row side.Desk place ≡ true }
    requires can { CanMake place local.old parts.Desk }
    ensures { IsMoved local.old parts.Desk local.new parts.Desk }
{
    match place {
        Place::Refusing(reply) => refuse(local, reply),
        _ => unreachable!(),
    }
}

/// The sections over the purge turn.
fn over_purge_turn(local: &mut Local, turn: &mut Option<u16>, place: Place)
    requires row { is_row (side.Purge turn.old) place ≡ true }
    requires can { CanMake place local.old (PurgeTurn turn.old) }
    ensures { IsMoved local.old (PurgeTurn turn.old) local.new (PurgeTurn turn.new) }
{
    match place {
        Place::PurgeTaking { extra, after } => take_purge(local, turn, extra, after),
        Place::PurgeGiving(after) => give_purge(local, turn, after),
        _ => unreachable!(),
    }
}

/// The sections over the alloc turn.
fn over_alloc_turn(local: &mut Local, turn: &mut Option<u16>, place: Place)
    requires row { is_row (side.Alloc turn.old) place ≡ true }
    requires can { CanMake place local.old (AllocTurn turn.old) }
    ensures { IsMoved local.old (AllocTurn turn.old) local.new (AllocTurn turn.new) }
{
    match place {
        Place::TakingAlloc(object) => take_alloc(local, turn, object),
        Place::TakingToBalance => take_to_balance(local, turn),
        Place::GivingAlloc(reply, made) => give_alloc(local, turn, reply, made),
        _ => unreachable!(),
    }
}

/// The sections over the free blocks.
fn over_free(local: &mut Local, free: &mut FreeSide, place: Place) -> Result<(), AllocError>
    requires row { is_row (side.Free free.old) place ≡ true }
    requires can { CanMake place local.old (free_region free.old) }
    ensures ok { OnOk result (IsMoved local.old (free_region free.old) local.new
        (free_region free.new)) }
    ensures memory { OnErr result (TakesMemory local.old (free_region free.old)) }
    ensures local { OnErr result (local.new ≡ local.old) }
    ensures region { OnErr result (free_region free.new ≡ free_region free.old) }
{
    match place {
        Place::Finding(search) => find(local, free, search),
        Place::FindingAgain(search) => find_again(local, free, search),
        Place::FindingGroups(wanted) => find_groups(local, free, wanted),
        Place::FindingGroupsAgain(wanted) => find_groups_again(local, free, wanted),
        Place::Dropping(span) => drop_span(local, free, span),
        Place::PurgeReturning(after) => return_spans(local, free, after),
        _ => unreachable!(),
    }
}

/// The sections over the live areas.
fn over_areas(local: &mut Local, busy: &mut BusySide, place: Place) -> Result<(), AllocError>
    requires row { is_row (side.Busy busy.old) place ≡ true }
    requires can { CanMake place local.old (areas_region busy.old) }
    ensures ok { OnOk result (IsMoved local.old (areas_region busy.old) local.new
        (areas_region busy.new)) }
    ensures memory { OnErr result (TakesMemory local.old (areas_region busy.old)) }
    ensures local { OnErr result (local.new ≡ local.old) }
    ensures region { OnErr result (areas_region busy.new ≡ areas_region busy.old) }
{
    match place {
        Place::SettlingArea(span, kind) => settle_area(local, busy, span, kind),
        Place::Removing { start, serial } => Ok(remove_area(local, busy, start, serial)),
        Place::PurgeUnlinking { extra, after } => Ok(unlink_blocks(local, busy, extra, after)),
        Place::SettlingBlock { span, cpu, pages } => settle_block(local, busy, span, cpu, pages),
        Place::UnlinkingBlock { start, reply } => Ok(unlink_block(local, busy, start, reply)),
        Place::SettlingGroups { base, wanted } => settle_groups(local, busy, base, wanted),
        Place::UnlinkingGroups { base } => Ok(unlink_groups(local, busy, base)),
        _ => unreachable!(),
    }
}

/// The sections over the spans that wait.
fn over_waiting(local: &mut Local, lazy: &mut LazySide, place: Place) -> Result<(), AllocError>
    requires row { is_row (side.Lazy lazy.old) place ≡ true }
    requires can { CanMake place local.old (WaitingSpans lazy.old) }
    ensures ok { OnOk result (IsMoved local.old (WaitingSpans lazy.old) local.new
        (WaitingSpans lazy.new)) }
    ensures memory { OnErr result (TakesMemory local.old (WaitingSpans lazy.old)) }
    ensures local { OnErr result (local.new ≡ local.old) }
    ensures region { OnErr result (WaitingSpans lazy.new ≡ WaitingSpans lazy.old) }
{
    match place {
        Place::Waiting { span, after } => wait(local, lazy, span, after),
        Place::WaitingForGroups { base } => wait_for_groups(local, lazy, base),
        Place::PurgeWaiting { extra, after } => wait_for_blocks(local, lazy, extra, after),
        Place::PurgeCollecting { extra, after } => Ok(collect(local, lazy, extra, after)),
        _ => unreachable!(),
    }
}

/// The sections over the page map.
fn over_pages(local: &mut Local, pages: &mut PageSide, place: Place)
    requires row { is_row (side.Pages pages.old) place ≡ true }
    requires can { CanMake place local.old (pages_region pages.old) }
    ensures { IsMoved local.old (pages_region pages.old) local.new (pages_region pages.new) }
{
    match place {
        Place::MappingArea(span, kind) => map_area(local, pages, span, kind),
        Place::UnmappingArea(area) => unmap_area(local, pages, area),
        Place::PurgeFlushing { hull, after } => flush(local, pages, hull, after),
        Place::MappingPart { cpu, part } => map_part(local, pages, cpu, part),
        Place::UnmappingPart { cpu, part } => unmap_part(local, pages, cpu, part),
        Place::Populating(placed) => populate(local, pages, placed),
        Place::Zeroing(placed) => zero(local, pages, placed),
        Place::Adding {
            object,
            serial,
            cpu,
            index,
            amount,
        } => add_word(local, pages, object, serial, cpu, index, amount),
        Place::Summing {
            object,
            serial,
            index,
        } => sum_words(local, pages, object, serial, index),
        Place::Depopulating { base, populated } => depopulate(local, pages, base, populated),
        Place::Filling {
            chunk,
            base,
            page,
            filled,
        } => fill(local, pages, chunk, base, page, filled),
        _ => unreachable!(),
    }
}

/// The sections over the per-CPU chunks.
fn over_chunks(local: &mut Local, percpu: &mut PcpuSide, place: Place) -> Result<(), AllocError>
    requires row { is_row (side.Percpu percpu.old) place ≡ true }
    requires can { CanMake place local.old (percpu_region percpu.old) }
    ensures ok { OnOk result (IsMoved local.old (percpu_region percpu.old) local.new
        (percpu_region percpu.new)) }
    ensures memory { OnErr result (TakesMemory local.old (percpu_region percpu.old)) }
    ensures local { OnErr result (local.new ≡ local.old) }
    ensures region { OnErr result (percpu_region percpu.new ≡ percpu_region percpu.old) }
{
    match place {
        Place::Choosing(object) => Ok(choose(local, percpu, object)),
        Place::AddingChunk { base, wanted } => add_chunk(local, percpu, base, wanted),
        Place::SettlingObject(placed) => Ok(settle_object(local, percpu, placed)),
        Place::Unplacing(placed) => Ok(unplace(local, percpu, placed)),
        Place::ChoosingAtomic(object) => Ok(choose_atomic(local, percpu, object)),
        Place::SettlingAtomic(placed) => Ok(settle_atomic(local, percpu, placed)),
        Place::FreeingObject { object, serial } => Ok(free_object(local, percpu, object, serial)),
        Place::Sparing => Ok(spare(local, percpu)),
        Place::NextFill { filled } => Ok(next_page(local, percpu, filled)),
        Place::NotingFilled {
            chunk,
            page,
            filled,
        } => Ok(note_filled(local, percpu, chunk, page, filled)),
        _ => unreachable!(),
    }
}

/// The sections over the blocks of a processor.
fn over_blocks(local: &mut Local, blocks: &mut BlockSide, place: Place) -> Result<(), AllocError>
    requires row { is_row (side.Blocks blocks.old) place ≡ true }
    requires can { CanMake place local.old (blocks_region blocks.old) }
    ensures ok { OnOk result (IsMoved local.old (blocks_region blocks.old) local.new
        (blocks_region blocks.new)) }
    ensures memory { OnErr result (TakesMemory local.old (blocks_region blocks.old)) }
    ensures local { OnErr result (local.new ≡ local.old) }
    ensures region { OnErr result (blocks_region blocks.new ≡ blocks_region blocks.old) }
{
    match place {
        Place::LookingAtDirty { cpu } => Ok(look_at_dirty(local, blocks, cpu)),
        Place::PurgeFragmenting { cpu, extra, after } => take_fragmented(
            local, blocks, cpu, extra, after,
        ),
        Place::CuttingPart { cpu, pages } => Ok(cut_part(local, blocks, cpu, pages)),
        Place::AddingBlock { start, cpu, pages } => add_block(local, blocks, start, cpu, pages),
        Place::SettlingPart { cpu, part } => Ok(settle_part(local, blocks, cpu, part)),
        Place::BeginningUnmap { cpu, page, serial } => Ok(begin_unmap(
            local, blocks, cpu, page, serial,
        )),
        Place::Retiring { cpu, part, reply } => Ok(retire_part(local, blocks, cpu, part, reply)),
        _ => unreachable!(),
    }
}
