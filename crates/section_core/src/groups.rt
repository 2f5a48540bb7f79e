//! The sections over the pages and areas of a chunk's groups: they are searched for, settled as live areas, and, where a
//! balance gives the chunk up, unlinked and put behind those that wait.
ghost use Rattle.std.specs.Prelude.{◌≡◌, ◌+◌, ◌≤◌, ◌<◌, ◌^◌, All, map, length, IfOk, OnOk, OnErr};
ghost use Rattle.vm_model.specs.Areas.{group_kinds};
ghost use Rattle.vm_model.specs.Parts.{WaitingSpans};
ghost use Rattle.unit_layout.specs.declared.layout.Group.{Group};
ghost use Rattle.congruent_areas.specs.GroupsAtBase.{spans_at};
ghost use Rattle.callers.specs.declared.place.Place.TheVariants as place;
ghost use Rattle.section_core.specs.RegionSides.{free_region, areas_region};
ghost use Rattle.section_core.specs.MadeSections.{IsMoved, TakesMemory};
ghost use Rattle.section_core.specs.StandsWell.{CanMake};

use augmented_tree::FreeSide;
use busy_areas::BusySide;
use callers::{After, Local, Made, NewChunk, Place};
use congruent_areas::carve_groups;
use lazy_purge::LazySide;
use smallvec::SmallVec;
use std::alloc::{AllocError, Global};
use unit_layout::Group;
use vm_model::{AreaKind, Reply, Span};

/// The first search for a chunk's groups, which carves them at the highest base, or goes on to a purge.
pub(crate) fn find_groups(
    local: &mut Local,
    free: &mut FreeSide,
    wanted: NewChunk,
) -> Result<(), AllocError>
    requires { CanMake (place.FindingGroups wanted) local.old (free_region free.old) }
    ensures ok { OnOk result (IsMoved local.old (free_region free.old) local.new
        (free_region free.new)) }
    ensures spare { free.new.spare ≤ free.old.spare }
    ensures memory { OnErr result (TakesMemory local.old (free_region free.old)) }
    ensures err { OnErr result ((local.new ≡ local.old) × (free.new ≡ free.old)) }
{
    let layout = &local.config().layout;
    match carve_groups(local.alloc(), free, layout.groups(), layout.atom())? {
        Some(bundle) => local.go(Place::SettlingGroups {
            base: bundle.base,
            wanted,
        }),
        None => local.go(Place::PurgeTaking {
            extra: None,
            after: After::Groups(wanted),
        }),
    }
    Ok(())
}

/// The search after the call's own purge, without which there is no space. Then the alloc turn is given back.
pub(crate) fn find_groups_again(
    local: &mut Local,
    free: &mut FreeSide,
    wanted: NewChunk,
) -> Result<(), AllocError>
    requires { CanMake (place.FindingGroupsAgain wanted) local.old (free_region free.old) }
    ensures ok { OnOk result (IsMoved local.old (free_region free.old) local.new
        (free_region free.new)) }
    ensures spare { free.new.spare ≤ free.old.spare }
    ensures memory { OnErr result (TakesMemory local.old (free_region free.old)) }
    ensures err { OnErr result ((local.new ≡ local.old) × (free.new ≡ free.old)) }
{
    let layout = &local.config().layout;
    match carve_groups(local.alloc(), free, layout.groups(), layout.atom())? {
        Some(bundle) => local.go(Place::SettlingGroups {
            base: bundle.base,
            wanted,
        }),
        None => local.go(Place::GivingAlloc(Reply::NoSpace, Made::Nothing)),
    }
    Ok(())
}

/// The span of a group of the chunk at a base.
fn span_at(group: Group, base: u32) -> Span
    requires { base + group.offset < 2 ^ 32 }
    ensures { result ≡ Rattle.congruent_areas.specs.GroupsAtBase.span_at base group }
{
    Span {
        start: base + group.offset,
        pages: group.pages,
    }
}

/// The spans of all groups, at most 8. It takes no memory.
fn group_spans(alloc: Global, groups: &[Group], base: u32) -> SmallVec<Span, 8>
    requires few { length groups.now ≤ 8 }
    requires within { All (λ (g : Group). base + g.offset < 2 ^ 32) groups.now }
    ensures { result.items ≡ spans_at base groups.now }
{
    let mut spans = SmallVec::new(alloc);
    for group in groups {
        spans.push_reserved(span_at(*group, base));
    }
    spans
}

/// The areas of all groups of a chunk. An error comes for want of memory only.
fn group_areas(
    alloc: Global,
    groups: &[Group],
    chunk: u32,
    base: u32,
) -> Result<Vec<(Span, AreaKind)>, AllocError>
    requires few { length groups.now ≤ 8 }
    requires within { All (λ (g : Group). base + g.offset < 2 ^ 32) groups.now }
    ensures { IfOk result (λ areas. areas.items ≡ group_kinds chunk 0 (spans_at base groups.now)) }
{
    let mut areas = Vec::with_capacity(alloc, groups.len())?;
    for (number, group) in groups.iter().enumerate() {
        let kind = AreaKind::Chunk {
            chunk,
            group: number as u8,
        };
        areas.push((span_at(*group, base), kind))?;
    }
    Ok(areas)
}

/// The first pages of all groups, at most 8. It takes no memory.
fn group_starts(alloc: Global, groups: &[Group], base: u32) -> SmallVec<u32, 8>
    requires few { length groups.now ≤ 8 }
    requires within { All (λ (g : Group). base + g.offset < 2 ^ 32) groups.now }
    ensures { result.items ≡ map (λ (g : Group). base + g.offset) groups.now }
{
    let mut starts = SmallVec::new(alloc);
    for group in groups {
        starts.push_reserved(base + group.offset);
    }
    starts
}

/// Settles the spans of a new chunk's groups as live areas.
pub(crate) fn settle_groups(
    local: &mut Local,
    busy: &mut BusySide,
    base: u32,
    wanted: NewChunk,
) -> Result<(), AllocError>
    requires { CanMake (place.SettlingGroups base wanted) local.old (areas_region busy.old) }
    ensures ok { OnOk result (IsMoved local.old (areas_region busy.old) local.new
        (areas_region busy.new)) }
    ensures memory { OnErr result (TakesMemory local.old (areas_region busy.old)) }
    ensures err { OnErr result ((local.new ≡ local.old) × (busy.new ≡ busy.old)) }
{
    let groups = local.config().layout.groups();
    let areas = group_areas(local.alloc(), groups, wanted.number, base)?;
    busy.insert_all(&areas, local.caller())?;
    local.go(Place::AddingChunk { base, wanted });
    Ok(())
}

/// Takes out the areas of a chunk that is given up.
pub(crate) fn unlink_groups(local: &mut Local, busy: &mut BusySide, base: u32)
    requires { CanMake (place.UnlinkingGroups base) local.old (areas_region busy.old) }
    ensures { IsMoved local.old (areas_region busy.old) local.new (areas_region busy.new) }
{
    let groups = local.config().layout.groups();
    busy.unlink(group_starts(local.alloc(), groups, base).as_slice());
    local.unlinked_groups(base);
}

/// Puts the pages of a chunk that is given up behind those that wait. Where more than the lazy limit wait then, a purge
/// comes before the next spare chunk.
pub(crate) fn wait_for_groups(
    local: &mut Local,
    lazy: &mut LazySide,
    base: u32,
) -> Result<(), AllocError>
    requires { CanMake (place.WaitingForGroups base) local.old (WaitingSpans lazy.old) }
    ensures ok { OnOk result (IsMoved local.old (WaitingSpans lazy.old) local.new
        (WaitingSpans lazy.new)) }
    ensures memory { OnErr result (TakesMemory local.old (WaitingSpans lazy.old)) }
    ensures err { OnErr result ((local.new ≡ local.old) × (lazy.new ≡ lazy.old)) }
{
    let groups = local.config().layout.groups();
    let pages = lazy.add(group_spans(local.alloc(), groups, base).as_slice())?;
    if local.lazy_limit() < pages {
        local.go(Place::PurgeTaking {
            extra: None,
            after: After::Spare,
        });
    } else {
        local.go(Place::Sparing);
    }
    Ok(())
}
