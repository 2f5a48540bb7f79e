//! The sections of areas: their pages are searched for, mapped and settled, or dropped, and where an area is freed, taken
//! out, unmapped and put behind those that wait.
ghost use Rattle.std.specs.Prelude.{◌≡◌, ◌≤◌, ◌<◌, ℕ, List, length, OnOk, OnErr};
ghost use Rattle.vm_model.specs.Areas.{mapped_part};
ghost use Rattle.vm_model.specs.Next.{Go, with_span};
ghost use Rattle.vm_model.specs.Parts.{WaitingSpans};
ghost use Rattle.vm_model.specs.Setup.{Setup};
ghost use Rattle.vm_model.specs.declared.calls.Call.{Call};
ghost use Rattle.callers.specs.declared.place.Place.TheVariants as place;
ghost use Rattle.callers.specs.CallerParts.{HasCall};
ghost use Rattle.callers.specs.CarriedPlaces.{place_of, nothing, aim_of, IsAim, IsCarved, IsSized, IsEmptyHanded, IsWhole};
ghost use Rattle.section_core.specs.RegionSides.{free_region, areas_region, pages_region};
ghost use Rattle.section_core.specs.MadeSections.{IsMoved, TakesMemory};
ghost use Rattle.section_core.specs.StandsWell.{CanMake};

use augmented_tree::FreeSide;
use busy_areas::BusySide;
use callers::{After, Aim, Local, Made, Place, Search};
use lazy_purge::LazySide;
use page_pool::PageSide;
use std::alloc::AllocError;
use vm_model::{Area, AreaKind, Reply, Span, address_of};

/// Where a caller goes with the span that its search carved.
fn place_for(aim: Aim, span: Span) -> Place
    requires aim { IsAim aim }
    requires carved { IsCarved span }
    ensures place { Go (place_of result nothing) ≡ with_span (aim_of aim) span }
    ensures sized { IsSized result }
    ensures empty_handed { IsEmptyHanded result }
    ensures whole { (c : Setup) → IsWhole c (place_of result nothing) }
    ensures at_hand { (answered : ℕ) (calls : List Call) → answered < length calls
        → HasCall result answered calls }
{
    match aim {
        Aim::Area(kind) => Place::MappingArea(span, kind),
        Aim::Block { cpu, pages } => Place::SettlingBlock { span, cpu, pages },
    }
}

/// The first search of a call, which carves the lowest fit, or goes on to a purge.
pub(crate) fn find(local: &mut Local, free: &mut FreeSide, search: Search) -> Result<(), AllocError>
    requires { CanMake (place.Finding search) local.old (free_region free.old) }
    ensures ok { OnOk result (IsMoved local.old (free_region free.old) local.new
        (free_region free.new)) }
    ensures spare { free.new.spare ≡ free.old.spare }
    ensures memory { OnErr result (TakesMemory local.old (free_region free.old)) }
    ensures err { OnErr result ((local.new ≡ local.old) × (free.new ≡ free.old)) }
{
    match free.carve(search.pages, search.align)? {
        Some(span) => local.go(place_for(search.aim, span)),
        None => local.go(Place::PurgeTaking {
            extra: None,
            after: After::Search(search),
        }),
    }
    Ok(())
}

/// The search after the call's own purge, without which there is no space.
pub(crate) fn find_again(
    local: &mut Local,
    free: &mut FreeSide,
    search: Search,
) -> Result<(), AllocError>
    requires { CanMake (place.FindingAgain search) local.old (free_region free.old) }
    ensures ok { OnOk result (IsMoved local.old (free_region free.old) local.new
        (free_region free.new)) }
    ensures spare { free.new.spare ≡ free.old.spare }
    ensures memory { OnErr result (TakesMemory local.old (free_region free.old)) }
    ensures err { OnErr result ((local.new ≡ local.old) × (free.new ≡ free.old)) }
{
    match free.carve(search.pages, search.align)? {
        Some(span) => local.go(place_for(search.aim, span)),
        None => local.answer(Reply::NoSpace, Made::Nothing),
    }
    Ok(())
}

/// The pages of an area that get frames: those of a `vmalloc` area but for its guard, and all of another.
fn mapped_part(kind: AreaKind, span: Span) -> Span
    requires { 1 ≤ span.pages }
    ensures { result ≡ mapped_part kind span }
{
    match kind {
        AreaKind::Vmalloc => Span {
            start: span.start,
            pages: span.pages - 1,
        },
        _ => span,
    }
}

/// Maps the pages of a carved span but for a guard, or goes on to drop it where there are too few frames.
pub(crate) fn map_area(local: &mut Local, pages: &mut PageSide, span: Span, kind: AreaKind)
    requires { CanMake (place.MappingArea span kind) local.old (pages_region pages.old) }
    ensures { IsMoved local.old (pages_region pages.old) local.new (pages_region pages.new) }
{
    match pages.map(mapped_part(kind, span)) {
        Ok(()) => local.go(Place::SettlingArea(span, kind)),
        Err(_) => local.go(Place::Dropping(span)),
    }
}

/// Gives back a span for whose pages there were too few frames.
pub(crate) fn drop_span(
    local: &mut Local,
    free: &mut FreeSide,
    span: Span,
) -> Result<(), AllocError>
    requires { CanMake (place.Dropping span) local.old (free_region free.old) }
    ensures ok { OnOk result (IsMoved local.old (free_region free.old) local.new
        (free_region free.new)) }
    ensures spare { free.new.spare ≡ free.old.spare }
    ensures memory { OnErr result (TakesMemory local.old (free_region free.old)) }
    ensures err { OnErr result ((local.new ≡ local.old) × (free.new ≡ free.old)) }
{
    free.release_all(&[span])?;
    local.answer(Reply::NoFrames, Made::Nothing);
    Ok(())
}

/// Settles a mapped span as a live area, whose address answers the call.
pub(crate) fn settle_area(
    local: &mut Local,
    busy: &mut BusySide,
    span: Span,
    kind: AreaKind,
) -> Result<(), AllocError>
    requires { CanMake (place.SettlingArea span kind) local.old (areas_region busy.old) }
    ensures ok { OnOk result (IsMoved local.old (areas_region busy.old) local.new
        (areas_region busy.new)) }
    ensures memory { OnErr result (TakesMemory local.old (areas_region busy.old)) }
    ensures err { OnErr result ((local.new ≡ local.old) × (busy.new ≡ busy.old)) }
{
    let serial = busy.insert(span, kind, local.caller())?;
    let start = span.start;
    local.answer(
        Reply::Address(address_of(start)),
        Made::Area { start, serial },
    );
    Ok(())
}

/// Takes out the area that is freed, unless it isn't live any more.
pub(crate) fn remove_area(local: &mut Local, busy: &mut BusySide, start: u32, serial: u32)
    requires { CanMake (place.Removing start serial) local.old (areas_region busy.old) }
    ensures { IsMoved local.old (areas_region busy.old) local.new (areas_region busy.new) }
{
    match busy.remove(start, serial) {
        Some(area) => local.go(Place::UnmappingArea(area)),
        None => local.answer(Reply::NotLive, Made::Nothing),
    }
}

/// Unmaps the pages of a freed area but for its guard.
pub(crate) fn unmap_area(local: &mut Local, pages: &mut PageSide, area: Area)
    requires { CanMake (place.UnmappingArea area) local.old (pages_region pages.old) }
    ensures { IsMoved local.old (pages_region pages.old) local.new (pages_region pages.new) }
{
    pages.unmap(mapped_part(area.kind, area.span));
    local.go(Place::Waiting {
        span: area.span,
        after: After::Reply(Reply::Done),
    });
}

/// Puts the pages of a freed area or block behind those that wait. Where more than the lazy limit wait then, the caller goes
/// on to a purge first.
pub(crate) fn wait(
    local: &mut Local,
    lazy: &mut LazySide,
    span: Span,
    after: After,
) -> Result<(), AllocError>
    requires { CanMake (place.Waiting span after) local.old (WaitingSpans lazy.old) }
    ensures ok { OnOk result (IsMoved local.old (WaitingSpans lazy.old) local.new
        (WaitingSpans lazy.new)) }
    ensures memory { OnErr result (TakesMemory local.old (WaitingSpans lazy.old)) }
    ensures err { OnErr result ((local.new ≡ local.old) × (lazy.new ≡ lazy.old)) }
{
    let pages = lazy.add(&[span])?;
    if local.lazy_limit() < pages {
        local.go(Place::PurgeTaking { extra: None, after });
    } else {
        local.go_on(after);
    }
    Ok(())
}
