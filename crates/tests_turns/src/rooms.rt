//! Rooms, and walkers who go from one to the next.
ghost use Rattle.tests_turns.specs.Walking.{walking};

use crate::guests::Guests;
use section_table::parts::{Parts, Turned};
use std::alloc::AllocError;

/// How many rooms there are.
pub const ROOMS: u16 = 3;

/// A room, which is shut until its opener comes.
#[derive(Drop)]
pub struct Room {
    pub opener: u16,
    pub guests: Guests,
}

/// Who is to make some more visits, from this room on. A poor one gets no memory for any.
#[derive(Drop)]
pub struct Walker {
    pub number: u16,
    pub room: u16,
    pub left: u16,
    pub poor: bool,
}

/// Walkers in rooms: a section is a visit.
pub struct Walking;

impl Parts for Walking {
    type Region = Room;

    type Local = Walker;

    ghost meaning = { walking };

    ghost use Rattle.tests_turns.specs.Walking.{walking_is_lawful};

    ghost keeps = { walking_is_lawful };

    fn wants(local: &Walker) -> Option<u16> {
        if local.left == 0 {
            None
        } else {
            Some(local.room % ROOMS)
        }
    }

    fn section(local: &mut Walker, region: &mut Room) -> Result<Turned, AllocError> {
        if region.guests.count() == 0 && region.opener != local.number {
            return Ok(Turned::Stays);
        }
        if local.poor {
            return Err(AllocError);
        }
        region.guests.note(local.number)?;
        local.room = local.room % ROOMS + 1;
        local.left = local.left.saturating_sub(1);
        Ok(Turned::Moved)
    }
}
