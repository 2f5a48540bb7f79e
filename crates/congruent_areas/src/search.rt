//! The search for the highest base. Functions of mm/vmalloc.c of Linux 6.1 that these follow are named with them.
ghost use Rattle.std.specs.Prelude.{◌≡◌, ◌+◌, ◌-◌, ◌%◌, ◌<◌, ◌≤◌, ℕ, true, false, length, option_map, All, IfSome, IfNone, IfOk, OnErr};
ghost use Rattle.vm_model.specs.Space.{covers};
ghost use Rattle.augmented_tree.specs.FreeBlocks.{IsFree, LeavesRunsWithout};
ghost use Rattle.unit_layout.specs.declared.layout.Group.{Group};
ghost use Rattle.congruent_areas.specs.GroupsAtBase.{AreLaidOut, IsBase, HasBase, IsGreatestBase, IsBaseOfTheMap, HasBaseOfTheMap, IsLastUpTo, span_at, spans_at};
ghost use Rattle.congruent_areas.specs.declared.bundle.Bundle.{Bundle};

use crate::bundle::{Bundle, GroupSpans};
use augmented_tree::FreeSide;
use std::alloc::{AllocError, Global};
use unit_layout::Group;
use vm_model::Span;

/// Pages of the largest space.
const LARGEST_SPACE: u32 = 1_048_576;

/// The free block that holds a page, or the highest one below it: `pvm_find_va_enclose_addr`.
fn block_up_to(free: &FreeSide, page: u32) -> Option<Span>
    ensures found { IfSome result (IsLastUpTo free.now.blocks page) }
    ensures none { IfNone result ((p : ℕ) → p ≤ page → covers free.now.blocks p ≡ false) }
    ensures space { (p : ℕ) → covers free.now.blocks p ≡ true → p < 1048576 }
{
    match free.enclosing(page) {
        Some(block) => Some(block),
        None => free.last_ending_by(page),
    }
}

/// The given base where the group's span is free there. Else the lower one from which the group ends with the free block
/// that holds its first page, or with the one below, as `pvm_determine_end_from_reverse` has it: no base between the two
/// will do. None where that would be below page 0, or there is no such block.
fn lowered(free: &FreeSide, group: Group, base: u32) -> Option<u32>
    requires pages { 1 ≤ group.pages }
    requires within { group.offset + group.pages ≤ 1048576 }
    requires base { base ≤ 1048576 }
    ensures lower { IfSome result (λ high. high ≤ base) }
    ensures fits { IfSome result (λ high. high ≡ base
        → IsFree free.now.blocks (span_at base group)) }
    ensures above { IfSome result (λ high. (b : ℕ) → b ≤ base
        → IsFree free.now.blocks (span_at b group) → b ≤ high) }
    ensures none { IfNone result ((b : ℕ) → b ≤ base → IsFree free.now.blocks (span_at b group)
        → ⊥) }
{
    let block = block_up_to(free, base + group.offset)?;
    let high = (block.start + block.pages).checked_sub(group.offset + group.pages)?;
    Some(high.min(base))
}

/// The base after one look at each group: the given one where all groups are free there, or else a lower one above which
/// there is none that will do.
fn lowered_by_all(free: &FreeSide, groups: &[Group], align: u32, from: u32) -> Option<u32>
    requires pages { All (λ (g : Group). 1 ≤ g.pages) groups.now }
    requires within { All (λ (g : Group). g.offset + g.pages ≤ 1048576) groups.now }
    requires align { 1 ≤ align }
    requires base { from ≤ 1048576 }
    requires aligned { from % align ≡ 0 }
    ensures lower { IfSome result (λ base. base ≤ from) }
    ensures aligned { IfSome result (λ base. base % align ≡ 0) }
    ensures fit { IfSome result (λ base. base ≡ from
        → IsBase free.now.blocks groups.now align from) }
    ensures above { IfSome result (λ base. (b : ℕ) → b ≤ from
        → IsBase free.now.blocks groups.now align b → b ≤ base) }
    ensures none { IfNone result ((b : ℕ) → b ≤ from → IsBase free.now.blocks groups.now align b
        → ⊥) }
{
    let mut base = from;
    for group in groups {
        let high = lowered(free, *group, base)?;
        base = high - high % align;
    }
    Some(base)
}

/// The greatest multiple of the alignment, in pages, from which each group's span is free: the search of
/// `pcpu_get_vm_areas`. It begins at the highest free block, and each step down goes to the end of one, so its cost is by
/// blocks and groups and not by pages. None where there is no such base. It takes no memory.
pub fn highest(free: &FreeSide, groups: &[Group], align: u32) -> Option<u32>
    requires groups { AreLaidOut groups.now }
    requires align { 1 ≤ align }
    ensures base { IsBaseOfTheMap free.now groups.now align result }
    ensures greatest { IfSome result (IsGreatestBase free.now.blocks groups.now align) }
    ensures none { IfNone result (HasBase free.now.blocks groups.now align → ⊥) }
    ensures within { IfSome result (λ base. base ≤ 1048576) }
{
    let top = block_up_to(free, LARGEST_SPACE)?;
    let end = top.start + top.pages;
    let mut base = end - end % align;
    loop {
        let lower = lowered_by_all(free, groups, align, base)?;
        if lower == base {
            return Some(base);
        }
        base = lower;
    }
}

/// Takes the groups' spans at a base out, where they are free and there is a spare node for each. It takes no memory.
fn carve_spans(alloc: Global, free: &mut FreeSide, groups: &[Group], base: u32) -> GroupSpans
    requires groups { AreLaidOut groups.now }
    requires base { base ≤ 1048576 }
    requires free { All (λ (g : Group). IsFree free.old.blocks (span_at base g)) groups.now }
    requires spare { length groups.now ≤ free.old.spare }
    ensures spans { result ≡ spans_at base groups.now }
    ensures carved { LeavesRunsWithout free.old free.new (covers (spans_at base groups.now)) }
    ensures spare { free.new.spare + length groups.now ≡ free.old.spare }
{
    let mut spans = GroupSpans::new(alloc);
    for group in groups {
        let span = Span {
            start: base + group.offset,
            pages: group.pages,
        };
        free.carve_at(span);
        spans.push(span);
    }
    spans
}

/// Takes the groups' spans at the greatest base out, as `pcpu_get_vm_areas` does, or none where there is no base. The
/// alignment is in pages. Room for all cuts is taken first, by spare nodes, of which each group uses one up. An error
/// comes only for want of this room, which is taken only where there is a base, and leaves the free pages as they were.
pub fn carve_groups(
    alloc: Global,
    free: &mut FreeSide,
    groups: &[Group],
    align: u32,
) -> Result<Option<Bundle>, AllocError>
    requires groups { AreLaidOut groups.now }
    requires align { 1 ≤ align }
    ensures base { IfOk result (λ found.
        IsBaseOfTheMap free.old groups.now align
        (option_map (λ (bundle : Bundle). bundle.base) found)) }
    ensures greatest { IfOk result (λ found.
        IfSome found (λ bundle. IsGreatestBase free.old.blocks groups.now align bundle.base)) }
    ensures spans { IfOk result (λ found.
        IfSome found (λ bundle. bundle.spans ≡ spans_at bundle.base groups.now)) }
    ensures carved { IfOk result (λ found.
        IfSome found (λ bundle. LeavesRunsWithout free.old free.new (covers bundle.spans))) }
    ensures spare { IfOk result (λ found.
        IfSome found (λ bundle. free.new.spare ≡ free.old.spare - length groups.now)) }
    ensures none { IfOk result (λ found.
        IfNone found (HasBase free.old.blocks groups.now align → ⊥)) }
    ensures unchanged { IfOk result (λ found. IfNone found (free.new ≡ free.old)) }
    ensures memory { OnErr result (HasBase free.old.blocks groups.now align) }
    ensures fits { OnErr result (HasBaseOfTheMap free.old groups.now align) }
    ensures err { OnErr result (free.new ≡ free.old) }
{
    let Some(base) = highest(free, groups, align) else {
        return Ok(None);
    };
    free.reserve(groups.len() as u32)?;
    let spans = carve_spans(alloc, free, groups, base);
    Ok(Some(Bundle { base, spans }))
}
