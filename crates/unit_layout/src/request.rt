//! What a layout is asked for.

use vm_model::ItemList;

/// The processors of a group and where their units begin.
#[derive(Clone, Copy)]
pub struct GroupSpec {
    /// How many processors it has, 0 to 64.
    pub cpus: u32,
    /// Where its units begin, in pages from a chunk's base: a multiple of the atom of at most ten digits.
    pub offset: u64,
}

/// Groups in the order in which their processors are numbered.
pub type GroupList = ItemList<GroupSpec>;

/// The unit that is asked for and the groups: what the kernel's `pcpu_build_alloc_info` is given.
#[derive(Drop)]
pub struct LayoutSpec {
    /// Pages that a processor's unit has at least, 8 to 64; the kernel's `min_unit_size`.
    pub unit: u32,
    /// Pages of which a chunk's base is a multiple, a power of two, 1 to 64; the kernel's `atom_size`.
    pub atom: u32,
    /// The groups, at least one, with at most 64 processors together.
    pub groups: GroupList,
}
