//! The lines of the file, as numbers.

use std::alloc::{AllocError, Global};
use unit_layout::{GroupList, GroupSpec, LayoutSpec};

/// A layout that is asked for, and the pages in which its groups are to fit.
#[derive(Drop)]
pub struct Request {
    pub spec: LayoutSpec,
    pub space: u32,
    /// Pages that are taken before, and the alignment at which.
    pub holes: Vec<(u32, u32)>,
}

/// A number, 0 where there is none.
fn number(field: Option<&str>) -> u32 {
    field.and_then(|digits| digits.parse().ok()).unwrap_or(0)
}

/// The groups of a field such as `6@0,2@64`.
fn groups_of(alloc: Global, field: &str) -> Result<Vec<GroupSpec>, AllocError> {
    let mut groups = Vec::new(alloc);
    for group in field.split(',') {
        if let Some((cpus, offset)) = group.split_once("@") {
            groups.push(GroupSpec {
                cpus: number(Some(cpus)),
                offset: offset.parse().unwrap_or(0),
            })?;
        }
    }
    Ok(groups)
}

/// The holes of a field such as `5@20,1@1`.
fn holes_of(alloc: Global, field: &str) -> Result<Vec<(u32, u32)>, AllocError> {
    let mut holes = Vec::new(alloc);
    for hole in field.split(',') {
        if let Some((pages, align)) = hole.split_once("@") {
            holes.push((number(Some(pages)), number(Some(align))))?;
        }
    }
    Ok(holes)
}

impl Request {
    /// What a line asks for.
    pub fn of(alloc: Global, line: &str) -> Result<Request, AllocError> {
        let mut fields = line.split(' ');
        let unit = number(fields.next());
        let atom = number(fields.next());
        let groups = GroupList::of(groups_of(alloc, fields.next().unwrap_or(""))?);
        let space = number(fields.next());
        let holes = holes_of(alloc, fields.next().unwrap_or(""))?;
        Ok(Request {
            spec: LayoutSpec { unit, atom, groups },
            space,
            holes,
        })
    }
}
