//! Which groups a search takes.
ghost use Rattle.congruent_areas.specs.SearchableGroups.{MachinesHaveSuchGroups, LayoutsHaveSuchGroups, SpansAreTheGroups};

/// The groups of a machine's chunks can be searched for, and so can those of each layout that isn't refused. What is
/// carved are the machine's groups.
pub fn groups()
    ensures machines { MachinesHaveSuchGroups }
    ensures layouts { LayoutsHaveSuchGroups }
    ensures spans { SpansAreTheGroups }
{
    unit_layout::laws::layouts();
}
