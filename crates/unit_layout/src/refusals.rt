//! Which layouts are refused.
ghost use Rattle.std.specs.Prelude.{◌≡◌, ◌+◌, ◌<◌, ◌≤◌, ◌^◌, length, drop, All};
ghost use Rattle.vm_model.specs.Space.{end_of};
ghost use Rattle.unit_layout.specs.LayoutRule.{processors, pages_of_group, span_of};
ghost use Rattle.unit_layout.specs.NumberRanges.{IsDivision, IsGroupInRange};
ghost use Rattle.unit_layout.specs.Refusals as rule;

use crate::division::Division;
use crate::errors::LayoutError;
use crate::request::GroupSpec;

/// The first group with no processor.
fn without_processor(groups: &[GroupSpec]) -> Option<u32>
    requires { processors groups.now ≤ 64 }
    ensures { result ≡ rule.first_place rule.has_no_processor 0 groups.now }
{
    for (index, group) in groups.iter().enumerate() {
        if group.cpus == 0 {
            return Some(index as u32);
        }
    }
    None
}

/// The pages of a group's units.
pub(crate) fn pages_of_group(division: Division, group: GroupSpec) -> u32
    requires division { IsDivision division }
    requires group { IsGroupInRange group }
    ensures pages { result ≡ pages_of_group division group }
    ensures few { result < 2 ^ 20 }
{
    division.unit_pages * (division.units * group.cpus.div_ceil(division.units))
}

/// The page after a group's last.
fn end_of_group(division: Division, group: GroupSpec) -> u64
    requires division { IsDivision division }
    requires group { IsGroupInRange group }
    ensures { result ≡ end_of (span_of division group) }
{
    group.offset + u64::from(pages_of_group(division, group))
}

/// Whether the spans of two groups share a page.
fn share_a_page(division: Division, one: GroupSpec, other: GroupSpec) -> bool
    requires division { IsDivision division }
    requires one { IsGroupInRange one }
    requires other { IsGroupInRange other }
    ensures { result ≡ rule.share_a_page (span_of division one) (span_of division other) }
{
    one.offset < end_of_group(division, other) && other.offset < end_of_group(division, one)
}

/// The first group from a place on whose span shares a page with that of one group.
fn overlapped(division: Division, groups: &[GroupSpec], one: GroupSpec, from: usize) -> Option<u32>
    requires division { IsDivision division }
    requires groups { All IsGroupInRange groups.now }
    requires few { length groups.now ≤ 64 }
    requires one { IsGroupInRange one }
    requires from { from ≤ length groups.now }
    ensures { result ≡ rule.first_place (λ other.
        rule.share_a_page (span_of division one) (span_of division other)) from
        (drop from groups.now) }
{
    for second in from..groups.len() {
        if share_a_page(division, one, groups[second]) {
            return Some(second as u32);
        }
    }
    None
}

/// The first two groups whose spans share a page.
fn overlap(division: Division, groups: &[GroupSpec]) -> Option<LayoutError>
    requires division { IsDivision division }
    requires groups { All IsGroupInRange groups.now }
    requires few { length groups.now ≤ 64 }
    ensures { result ≡ rule.overlap division 0 groups.now }
{
    for first in 0..groups.len() {
        if let Some(second) = overlapped(division, groups, groups[first], first + 1) {
            return Some(LayoutError::Overlap {
                first: first as u32,
                second,
            });
        }
    }
    None
}

/// The greatest end of a group.
fn width(division: Division, groups: &[GroupSpec]) -> u64
    requires division { IsDivision division }
    requires groups { All IsGroupInRange groups.now }
    ensures { result ≡ rule.width division groups.now }
{
    let mut width = 0;
    for group in groups {
        width = width.max(end_of_group(division, *group));
    }
    width
}

/// The first reason why groups have no layout.
pub(crate) fn refusal(division: Division, groups: &[GroupSpec]) -> Option<LayoutError>
    requires division { IsDivision division }
    requires groups { All IsGroupInRange groups.now }
    requires processors { processors groups.now ≤ 64 }
    ensures refusal { result ≡ rule.refusal_of division groups.now }
    ensures width { result ≡ None → rule.width division groups.now ≤ 1048576 }
{
    if let Some(group) = without_processor(groups) {
        return Some(LayoutError::NoCpu { group });
    }
    if groups.len() > 8 {
        return Some(LayoutError::TooManyGroups {
            groups: groups.len() as u32,
        });
    }
    if let Some(error) = overlap(division, groups) {
        return Some(error);
    }
    let pages = width(division, groups);
    if pages > 1_048_576 {
        return Some(LayoutError::TooWide { pages });
    }
    None
}
