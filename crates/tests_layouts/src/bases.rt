//! Free pages in which groups are carved.
ghost use Rattle.std.specs.Prelude.{◌≤◌};
ghost use Rattle.congruent_areas.specs.GroupsAtBase.{AreLaidOut};

use crate::requests::Request;
use augmented_tree::FreeSide;
use congruent_areas::carve_groups;
use std::alloc::{AllocError, Global};
use unit_layout::Group;

/// The free pages of a space.
#[derive(Drop)]
pub struct Space {
    pub free: FreeSide,
}

impl Space {
    /// The pages that a request asks for, 64 where it asks for none or for too many, without its holes.
    pub fn with_holes(alloc: Global, request: &Request) -> Result<Space, AllocError> {
        let mut pages = request.space;
        if pages == 0 || pages > 1_048_576 {
            pages = 64;
        }
        let mut free = FreeSide::whole(alloc, pages)?;
        for &(pages, align) in &request.holes {
            if pages > 0 && align > 0 {
                free.carve(pages, align)?;
            }
        }
        Ok(Space { free })
    }

    /// Carves groups as often as there is a base for them, at most 100 times, and gives these bases.
    pub fn carve_all(
        &mut self,
        alloc: Global,
        groups: &[Group],
        align: u32,
    ) -> Result<Vec<u32>, AllocError>
        requires groups { AreLaidOut groups.now }
        requires align { 1 ≤ align }
    {
        let mut bases = Vec::new(alloc);
        for _ in 0..100 {
            match carve_groups(alloc, &mut self.free, groups, align)? {
                Some(bundle) => bases.push(bundle.base)?,
                None => break,
            }
        }
        Ok(bases)
    }
}
