//! Whether what is asked for is in its ranges, which a layout has to know.
ghost use Rattle.std.specs.Prelude.{◌≤◌, All, IsTrue};
ghost use Rattle.unit_layout.specs.LayoutRule.{processors};
ghost use Rattle.unit_layout.specs.NumberRanges.{IsInRange, IsGroupInRange, IsAligned};

use unit_layout::{GroupSpec, LayoutSpec};

/// Whether the numbers of groups are in their ranges.
fn are_in_range(groups: &[GroupSpec], atom: u32) -> bool
    requires { 1 ≤ atom }
    ensures groups { IsTrue result → All IsGroupInRange groups.now }
    ensures aligned { IsTrue result → All (IsAligned atom) groups.now }
    ensures processors { IsTrue result → processors groups.now ≤ 64 }
{
    let mut cpus = 0;
    for group in groups {
        if group.cpus > 64 - cpus
            || group.offset >= 10_000_000_000
            || group.offset % u64::from(atom) != 0
        {
            return false;
        }
        cpus += group.cpus;
    }
    true
}

/// Whether what is asked for is in its ranges.
pub fn is_in_range(spec: &LayoutSpec) -> bool
    ensures { IsTrue result → IsInRange spec.now }
{
    let groups = spec.groups.as_slice();
    if groups.is_empty() || groups[0].offset != 0 {
        return false;
    }
    if spec.unit < 8 || spec.unit > 64 {
        return false;
    }
    if spec.atom > 64 || !spec.atom.is_power_of_two() {
        return false;
    }
    are_in_range(groups, spec.atom)
}
