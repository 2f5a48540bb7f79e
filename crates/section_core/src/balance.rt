//! The sections of a balance: spare chunks are given up, and then pages are filled.
ghost use Rattle.callers.specs.declared.place.Place.TheVariants as place;
ghost use Rattle.section_core.specs.RegionSides.{pages_region, percpu_region};
ghost use Rattle.section_core.specs.MadeSections.{IsMoved};
ghost use Rattle.section_core.specs.StandsWell.{CanMake};

use callers::{Local, Made, Place};
use chunk_slots::PcpuSide;
use page_pool::PageSide;
use populate_balance::{mark_populated, take_spare_chunk};
use vm_model::{PageSet, Reply};

/// Takes out a spare chunk, or goes on to fill pages.
pub(crate) fn spare(local: &mut Local, percpu: &mut PcpuSide)
    requires { CanMake place.Sparing local.old (percpu_region percpu.old) }
    ensures { IsMoved local.old (percpu_region percpu.old) local.new (percpu_region percpu.new) }
{
    percpu.set_unit_pages(local.config().layout.unit_pages());
    match take_spare_chunk(percpu) {
        Some(spare) => local.go(Place::Depopulating {
            base: spare.base,
            populated: spare.populated,
        }),
        None => local.go(Place::NextFill { filled: 0 }),
    }
}

/// Unmaps the populated pages of a chunk that is given up, in every unit.
pub(crate) fn depopulate(local: &mut Local, pages: &mut PageSide, base: u32, populated: PageSet)
    requires { CanMake (place.Depopulating base populated) local.old (pages_region pages.old) }
    ensures { IsMoved local.old (pages_region pages.old) local.new (pages_region pages.new) }
{
    pages.depopulate(base, local.config().layout.units(), populated);
    local.go(Place::UnlinkingGroups { base });
}

/// Chooses the page that is filled next, or gives the alloc turn back with the number of those that were.
pub(crate) fn next_page(local: &mut Local, percpu: &mut PcpuSide, filled: u32)
    requires { CanMake (place.NextFill filled) local.old (percpu_region percpu.old) }
    ensures { IsMoved local.old (percpu_region percpu.old) local.new (percpu_region percpu.new) }
{
    percpu.set_unit_pages(local.config().layout.unit_pages());
    match populate_balance::next_page(percpu) {
        Some(next) => local.go(Place::Filling {
            chunk: next.chunk,
            base: next.base,
            page: next.page,
            filled,
        }),
        None => local.go(Place::GivingAlloc(Reply::Count(filled), Made::Nothing)),
    }
}

/// Maps a page of a chunk in every unit, or ends the balance where there are too few frames.
pub(crate) fn fill(
    local: &mut Local,
    pages: &mut PageSide,
    chunk: u32,
    base: u32,
    page: u32,
    filled: u32,
)
    requires { CanMake (place.Filling chunk base page filled) local.old (pages_region pages.old) }
    ensures { IsMoved local.old (pages_region pages.old) local.new (pages_region pages.new) }
{
    let units = local.config().layout.units();
    match pages.populate(base, units, PageSet::pages_from(page, 1)) {
        Ok(()) => local.go(Place::NotingFilled {
            chunk,
            page,
            filled,
        }),
        Err(_) => local.go(Place::GivingAlloc(Reply::NoFrames, Made::Nothing)),
    }
}

/// Notes that a page of a chunk is populated.
pub(crate) fn note_filled(
    local: &mut Local,
    percpu: &mut PcpuSide,
    chunk: u32,
    page: u32,
    filled: u32,
)
    requires { CanMake (place.NotingFilled chunk page filled) local.old (percpu_region percpu.old) }
    ensures { IsMoved local.old (percpu_region percpu.old) local.new (percpu_region percpu.new) }
{
    mark_populated(percpu, chunk, page);
    local.go(Place::NextFill { filled: filled + 1 });
}
