//! The sections of a purge, in their order: the turn is taken, the fragmented blocks of each processor are taken out,
//! unlinked and put behind those that wait, all that waits is collected, flushed and returned, and the turn is given back.
//! Before the purge of an `unmap_aliases` the dirty ranges of each processor are looked at.
ghost use Rattle.std.specs.Prelude.{OnOk, OnErr, ◌≡◌};
ghost use Rattle.vm_model.specs.Parts.{PurgeTurn, WaitingSpans};
ghost use Rattle.callers.specs.declared.place.Place.TheVariants as place;
ghost use Rattle.section_core.specs.RegionSides.{free_region, areas_region, pages_region, blocks_region};
ghost use Rattle.section_core.specs.MadeSections.{IsMoved, TakesMemory};
ghost use Rattle.section_core.specs.StandsWell.{CanMake};

use augmented_tree::FreeSide;
use busy_areas::BusySide;
use callers::{After, Local, Place};
use lazy_purge::LazySide;
use map_blocks::BlockSide;
use page_pool::PageSide;
use std::alloc::AllocError;
use vm_model::Span;

/// Looks at the hull of a processor's dirty ranges.
pub(crate) fn look_at_dirty(local: &mut Local, blocks: &BlockSide, cpu: u8)
    requires { CanMake (place.LookingAtDirty cpu) local.old (blocks_region blocks.now) }
    ensures { IsMoved local.old (blocks_region blocks.now) local.new (blocks_region blocks.now) }
{
    local.saw_dirty(cpu, blocks.dirty_hull());
}

/// Takes the purge turn, which nobody has.
pub(crate) fn take_purge(
    local: &mut Local,
    turn: &mut Option<u16>,
    extra: Option<Span>,
    after: After,
)
    requires { CanMake (place.PurgeTaking extra after) local.old (PurgeTurn turn.old) }
    ensures { IsMoved local.old (PurgeTurn turn.old) local.new (PurgeTurn turn.new) }
{
    *turn = Some(local.caller());
    local.take_purge(extra, after);
}

/// Takes the fragmented blocks of a processor out.
pub(crate) fn take_fragmented(
    local: &mut Local,
    blocks: &mut BlockSide,
    cpu: u8,
    extra: Option<Span>,
    after: After,
) -> Result<(), AllocError>
    requires { CanMake (place.PurgeFragmenting cpu extra after) local.old
        (blocks_region blocks.old) }
    ensures ok { OnOk result (IsMoved local.old (blocks_region blocks.old) local.new
        (blocks_region blocks.new)) }
    ensures memory { OnErr result (TakesMemory local.old (blocks_region blocks.old)) }
    ensures err { OnErr result ((local.new ≡ local.old) × (blocks.new ≡ blocks.old)) }
{
    local.take_fragmented(blocks, cpu, extra, after)
}

/// Takes out the areas of the blocks that the purge has taken out.
pub(crate) fn unlink_blocks(
    local: &mut Local,
    busy: &mut BusySide,
    extra: Option<Span>,
    after: After,
)
    requires { CanMake (place.PurgeUnlinking extra after) local.old (areas_region busy.old) }
    ensures { IsMoved local.old (areas_region busy.old) local.new (areas_region busy.new) }
{
    busy.unlink(local.gone());
    local.unlinked(extra, after);
}

/// Puts the pages of the blocks that the purge has taken out behind those that wait.
pub(crate) fn wait_for_blocks(
    local: &mut Local,
    lazy: &mut LazySide,
    extra: Option<Span>,
    after: After,
) -> Result<(), AllocError>
    requires { CanMake (place.PurgeWaiting extra after) local.old (WaitingSpans lazy.old) }
    ensures ok { OnOk result (IsMoved local.old (WaitingSpans lazy.old) local.new
        (WaitingSpans lazy.new)) }
    ensures memory { OnErr result (TakesMemory local.old (WaitingSpans lazy.old)) }
    ensures err { OnErr result ((local.new ≡ local.old) × (lazy.new ≡ lazy.old)) }
{
    let spans = local.gone_spans()?;
    lazy.add(&spans)?;
    local.go(Place::PurgeCollecting { extra, after });
    Ok(())
}

/// Takes all that waits.
pub(crate) fn collect(local: &mut Local, lazy: &mut LazySide, extra: Option<Span>, after: After)
    requires { CanMake (place.PurgeCollecting extra after) local.old (WaitingSpans lazy.old) }
    ensures { IsMoved local.old (WaitingSpans lazy.old) local.new (WaitingSpans lazy.new) }
{
    local.collect(lazy.take(), extra, after);
}

/// Flushes from the lowest page to the highest of what was collected.
pub(crate) fn flush(local: &mut Local, pages: &mut PageSide, hull: Span, after: After)
    requires { CanMake (place.PurgeFlushing hull after) local.old (pages_region pages.old) }
    ensures { IsMoved local.old (pages_region pages.old) local.new (pages_region pages.new) }
{
    pages.flush(hull);
    local.flushed(after);
}

/// Gives back the spans that were flushed.
pub(crate) fn return_spans(
    local: &mut Local,
    free: &mut FreeSide,
    after: After,
) -> Result<(), AllocError>
    requires { CanMake (place.PurgeReturning after) local.old (free_region free.old) }
    ensures ok { OnOk result (IsMoved local.old (free_region free.old) local.new
        (free_region free.new)) }
    ensures spare { free.new.spare ≡ free.old.spare }
    ensures memory { OnErr result (TakesMemory local.old (free_region free.old)) }
    ensures err { OnErr result ((local.new ≡ local.old) × (free.new ≡ free.old)) }
{
    free.release_all(local.waited())?;
    local.go(Place::PurgeGiving(after));
    Ok(())
}

/// Gives the purge turn back.
pub(crate) fn give_purge(local: &mut Local, turn: &mut Option<u16>, after: After)
    requires { CanMake (place.PurgeGiving after) local.old (PurgeTurn turn.old) }
    ensures { IsMoved local.old (PurgeTurn turn.old) local.new (PurgeTurn turn.new) }
{
    *turn = None;
    local.go_on(after);
}
