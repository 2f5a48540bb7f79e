//! A layout of units.
ghost use Rattle.std.specs.Prelude.{◌≡◌, ◌+◌, ◌<◌, ◌≤◌, map, flat_map, length, slice_index, ◌++◌, All, IfOk, OnOk};
ghost use Rattle.vm_model.specs.Space.{address_of};
ghost use Rattle.unit_layout.specs.LayoutRule as rule;
ghost use Rattle.unit_layout.specs.NumberRanges.{IsInRange, IsGroupInRange, IsDivision};
ghost use Rattle.unit_layout.specs.Refusals as refused;

use crate::division::{Division, division_of};
use crate::errors::{BuildError, LayoutError};
use crate::refusals::{pages_of_group, refusal};
use crate::request::{GroupSpec, LayoutSpec};
use std::alloc::{AllocError, Global};
use std::marker::Model;

/// Where the units of a group lie in a chunk: the kernel's `pcpu_group_info`.
#[derive(Clone, Copy)]
pub struct Group {
    /// Pages from the chunk's base to the group's first unit.
    pub offset: u32,
    /// Pages of its units.
    pub pages: u32,
}

/// The groups as they lie in a chunk.
fn groups_of(
    alloc: Global,
    division: Division,
    groups: &[GroupSpec],
) -> Result<Vec<Group>, AllocError>
    requires division { IsDivision division }
    requires groups { All IsGroupInRange groups.now }
    requires width { refused.width division groups.now ≤ 1048576 }
    ensures { IfOk result (λ laid. laid.items ≡ map (rule.group_of division) groups.now) }
{
    let mut laid = Vec::new(alloc);
    for group in groups {
        laid.push(Group {
            offset: group.offset as u32,
            pages: pages_of_group(division, *group),
        })?;
    }
    Ok(laid)
}

/// Puts the units of a group's processors behind those of the groups before it.
fn push_units(units: &mut Vec<u32>, division: Division, group: GroupSpec) -> Result<(), AllocError>
    requires division { IsDivision division }
    requires group { IsGroupInRange group }
    requires offset { group.offset ≤ 1048576 }
    ensures { OnOk result (units.new.items ≡ units.old.items ++ rule.units_of division group) }
{
    let offset = group.offset as u32;
    for index in 0..group.cpus {
        units.push(offset + index * division.unit_pages)?;
    }
    Ok(())
}

/// The units of all processors.
fn units_of(alloc: Global, division: Division, groups: &[GroupSpec]) -> Result<Vec<u32>, AllocError>
    requires division { IsDivision division }
    requires groups { All IsGroupInRange groups.now }
    requires width { refused.width division groups.now ≤ 1048576 }
    ensures { IfOk result (λ units. units.items ≡ flat_map (rule.units_of division) groups.now) }
{
    let mut units = Vec::new(alloc);
    for group in groups {
        push_units(&mut units, division, *group)?;
    }
    Ok(units)
}

/// The units of the processors: the kernel's `pcpu_unit_offsets`, `pcpu_group_offsets` and `pcpu_group_sizes`, in pages.
#[derive(Drop)]
pub struct Layout {
    unit_pages: u32,
    atom: u32,
    groups: Vec<Group>,
    units: Vec<u32>,
}

impl Model for Layout {
    ghost use Rattle.std.specs.Prelude.{◌≤◌, length};
    ghost use Rattle.unit_layout.specs.LayoutRule.{Numbers};

    ghost Value = { Numbers };

    ghost view = { λ l. record {
      unit_pages = l.unit_pages;
      atom = l.atom;
      groups = l.groups.items;
      units = l.units.items;
    } };

    ghost invariant = { λ l. length l.units.items ≤ 64 };
}

impl Layout {
    /// The layout of these groups, as the kernel's `pcpu_build_alloc_info` makes it. Want of memory may come before a
    /// refusal.
    pub fn build(alloc: Global, spec: &LayoutSpec) -> Result<Layout, BuildError>
        requires { IsInRange spec.now }
        ensures layout { IfOk result (λ layout. layout ≡ rule.layout_of spec.now) }
        ensures stands { OnOk result (refused.refusal spec.now ≡ None) }
        ensures refused { (error : LayoutError) → result ≡ Err (BuildError.Layout error)
            → refused.refusal spec.now ≡ Some error }
    {
        let groups = spec.groups.as_slice();
        let division = division_of(spec);
        if let Some(error) = refusal(division, groups) {
            return Err(BuildError::Layout(error));
        }
        let laid = groups_of(alloc, division, groups)?;
        let units = units_of(alloc, division, groups)?;
        Ok(Layout {
            unit_pages: division.unit_pages,
            atom: spec.atom,
            groups: laid,
            units,
        })
    }

    /// Where each processor's unit begins, in pages from a chunk's base. It takes no memory.
    pub fn units(&self) -> &[u32]
        ensures { result.now ≡ self.now.units }
    {
        self.units.as_slice()
    }

    /// The groups, in their order. It takes no memory.
    pub fn groups(&self) -> &[Group]
        ensures { result.now ≡ self.now.groups }
    {
        self.groups.as_slice()
    }

    /// Pages of a processor's unit. It takes no memory.
    pub fn unit_pages(&self) -> u32
        ensures { result ≡ self.now.unit_pages }
    {
        self.unit_pages
    }

    /// Pages of which a chunk's base is a multiple. It takes no memory.
    pub fn atom(&self) -> u32
        ensures { result ≡ self.now.atom }
    {
        self.atom
    }

    /// How many processors there are. It takes no memory.
    pub fn cpus(&self) -> u16
        ensures { result ≡ length self.now.units }
    {
        self.units.len() as u16
    }

    /// The address of a processor's copy of the byte at an offset of a chunk: the kernel's `per_cpu_ptr`. It takes no
    /// memory.
    pub fn place(&self, base: u32, cpu: u16, off: u32) -> u64
        requires { cpu < length self.now.units }
        ensures { result ≡ address_of (base + slice_index self.now.units cpu) + off }
    {
        let unit = u64::from(base) + u64::from(self.units[cpu as usize]);
        0xffff_c900_0000_0000 + 4096 * unit + u64::from(off)
    }
}
