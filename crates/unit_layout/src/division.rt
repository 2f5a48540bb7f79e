//! How many units share an allocation.
ghost use Rattle.std.specs.Prelude.{◌≡◌, ◌*◌, ◌^◌, ◌<◌, ◌≤◌};
ghost use Rattle.vm_model.specs.Rules.{IsPower};
ghost use Rattle.unit_layout.specs.LayoutRule as rule;
ghost use Rattle.unit_layout.specs.NumberRanges.{IsInRange, IsDivision};

use crate::request::{GroupSpec, LayoutSpec};

/// An allocation's units, and the pages of each.
#[derive(Clone, Copy)]
pub struct Division {
    /// Units in an allocation, 1 to 8; the kernel's `upa`.
    pub units: u32,
    /// Pages of a unit, 8 to 64.
    pub unit_pages: u32,
}

/// How many processors the groups have together.
pub(crate) fn processors(groups: &[GroupSpec]) -> u32
    requires { rule.processors groups.now < 2 ^ 32 }
    ensures { result ≡ rule.processors groups.now }
{
    groups.iter().map(|group| group.cpus).sum()
}

/// How many allocations the groups take together, at so many units in each.
fn allocations(groups: &[GroupSpec], units: u32) -> u32
    requires units { 1 ≤ units }
    requires processors { rule.processors groups.now ≤ 64 }
    ensures allocations { result ≡ rule.allocations groups.now units }
    ensures few { result ≤ 64 }
{
    let mut sum = 0;
    for group in groups {
        sum += group.cpus.div_ceil(units);
    }
    sum
}

/// The pages of an allocation.
fn allocation(unit: u32, atom: u32) -> u32
    requires unit { unit ≤ 64 }
    requires atom { IsPower atom }
    requires atom_high { atom ≤ 64 }
    ensures pages { result ≡ rule.allocation unit atom }
    ensures few { result ≤ 64 }
{
    atom * unit.div_ceil(atom)
}

/// How many units an allocation of so many pages has, as the kernel's search for `best_upa`.
fn units_in(groups: &[GroupSpec], pages: u32, unit: u32) -> u32
    requires processors { rule.processors groups.now ≤ 64 }
    requires pages { pages ≤ 64 }
    requires unit { 8 ≤ unit }
    ensures units { result ≡ rule.units_in groups.now pages unit }
    ensures low { 1 ≤ result }
    ensures high { result ≤ 8 }
{
    let processors = processors(groups);
    let mut taken = 1;
    let mut most = processors;
    for fewer in (0..pages / unit).rev() {
        let units = fewer + 1;
        let here = allocations(groups, units);
        if pages % units == 0 && units * here <= processors + processors / 3 {
            if here > most {
                return taken;
            }
            taken = units;
            most = here;
        }
    }
    taken
}

/// How an allocation is parted among units.
pub(crate) fn division_of(spec: &LayoutSpec) -> Division
    requires { IsInRange spec.now }
    ensures division { result ≡ rule.division_of spec.now }
    ensures range { IsDivision result }
{
    let pages = allocation(spec.unit, spec.atom);
    let units = units_in(spec.groups.as_slice(), pages, spec.unit);
    Division {
        units,
        unit_pages: pages / units,
    }
}
