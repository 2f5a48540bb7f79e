//! The sections of an allocator's callers over its regions, as a table of turns takes them.
use callers::Local;
use section_core::{Region, Stepped, section};
use section_table::parts::{Parts, Turned};
use std::alloc::AllocError;

/// The allocators: their regions, their callers, and the section that a caller makes over a region.
pub struct CoreParts;

impl Parts for CoreParts {
    ghost use Rattle.caller_threads.specs.Core.{core};
    ghost use Rattle.caller_threads.specs.SectionsKeepLawful.{sections_keep};

    type Region = Region;

    type Local = Local;

    ghost meaning = { core };

    ghost keeps = { sections_keep };

    fn wants(local: &Local) -> Option<u16> {
        local.wants()
    }

    fn section(local: &mut Local, region: &mut Region) -> Result<Turned, AllocError> {
        match section(local, region)? {
            Stepped::Moved => Ok(Turned::Moved),
            Stepped::Stays => Ok(Turned::Stays),
            Stepped::Ended => unreachable!(),
        }
    }
}
