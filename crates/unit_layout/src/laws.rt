//! What holds of each layout, and of each refusal.
ghost use Rattle.unit_layout.specs.LayoutLaws.{LayoutsStand, UnitsLieInTheirGroup, OverlapsAreTheLeast};

/// A layout that isn't refused is one that a machine may have: no two groups share a page, and each processor has a unit
/// of its own, in the pages of the group to which it belongs. Where it is refused for an overlap, that is the least pair
/// of groups that share a page.
pub fn layouts()
    ensures layouts_stand { LayoutsStand }
    ensures units_in_group { UnitsLieInTheirGroup }
    ensures overlaps_are_the_least { OverlapsAreTheLeast }
{}
