//! Layouts of processors' units, and the bases at which their groups fit, for each line of `data/layouts`.
//!
//! A line is `UNIT ATOM GROUPS SPACE HOLES`, as `8 32 6@0,2@64 200 5@20,1@1`: a group is its processors and its offset, and a
//! hole so many pages that are taken at the lowest multiple of an alignment; `-` is no hole. It is answered by the reason
//! against the layout, or by the pages of a unit, the groups, the units, the bases at which the groups are carved one after
//! the other, and what is free then. What is answered must be `stdout`.
#![tactic(auto)]

ghost use Rattle.std.specs.Prelude.{◌≤◌};
ghost use Rattle.congruent_areas.specs.GroupsAtBase.{AreLaidOut};

mod bases;
mod ranges;
mod requests;

use crate::bases::Space;
use crate::ranges::is_in_range;
use crate::requests::Request;
use congruent_areas::laws;
use std::{fs, io};
use unit_layout::{BuildError, Layout};

/// What a layout has.
fn show_layout(rt: &HostRuntime, layout: &Layout) -> io::Result<()> {
    print!(*rt; "unit {} groups", layout.unit_pages())?;
    for group in layout.groups() {
        let end = u64::from(group.offset) + u64::from(group.pages);
        print!(*rt; " {}..{end}", group.offset)?;
    }
    print!(*rt; " units")?;
    for unit in layout.units() {
        print!(*rt; " {unit}")?;
    }
    Ok(())
}

/// Where the groups of a layout are carved, and what is free then.
fn show_bases(rt: &HostRuntime, layout: &Layout, request: &Request) -> io::Result<()>
    requires groups { AreLaidOut layout.now.groups }
    requires atom { 1 ≤ layout.now.atom }
{
    let mut space = Space::with_holes(rt.alloc(), request)?;
    print!(*rt; " bases")?;
    for base in space.carve_all(rt.alloc(), layout.groups(), layout.atom())? {
        print!(*rt; " {base}")?;
    }
    print!(*rt; " free")?;
    for index in 0..space.free.len() {
        let block = space.free.block_at(index);
        let end = u64::from(block.start) + u64::from(block.pages);
        print!(*rt; " {}..{end}", block.start)?;
    }
    Ok(())
}

fn show(rt: &HostRuntime, line: &str) -> io::Result<()> {
    let request = Request::of(rt.alloc(), line)?;
    print!(*rt; "{line}: ")?;
    if !is_in_range(&request.spec) {
        return println!(*rt; "out of range");
    }
    match Layout::build(rt.alloc(), &request.spec) {
        Ok(layout) => {
            laws::groups();
            show_layout(rt, &layout)?;
            show_bases(rt, &layout, &request)?;
            println!(*rt)
        }
        Err(BuildError::Layout(error)) => println!(*rt; "{error}"),
        Err(BuildError::OutOfMemory) => println!(*rt; "out of memory"),
    }
}

fn main(rt: HostRuntime) -> io::Result<()> {
    let file = fs::read_to_string(&rt, "layouts")?;
    for line in file.lines() {
        show(&rt, line)?;
    }
    Ok(())
}
