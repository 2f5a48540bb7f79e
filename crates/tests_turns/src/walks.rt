//! A table of three rooms with two walkers, and what they do.
ghost use Rattle.std.specs.Prelude.{◌≡◌, length, IfOk};
ghost use Rattle.std.specs.List.{All};
ghost use Rattle.section_table.specs.PassViews.{HasAll, HasCaller};
ghost use Rattle.tests_turns.specs.PassCallers.{KeepsCallers};

use crate::guests::Guests;
use crate::rooms::{Room, Walker, Walking};
use section_table::Gate;
use section_table::acted::Acted;
use section_table::closed::Closed;
use section_table::pass::Pass;
use section_table::sections::Sections;
use std::alloc::{AllocError, Global};
use std::sync::Wait;

/// An empty room.
fn room(alloc: Global, opener: u16) -> Room {
    Room {
        opener,
        guests: Guests::none(alloc),
    }
}

/// Who is to make some visits, from this room on.
pub fn walker(number: u16, room: u16, left: u16) -> Walker {
    Walker {
        number,
        room,
        left,
        poor: false,
    }
}

/// Three rooms with these openers, and a pass with two walkers.
pub fn open(
    alloc: Global,
    openers: [u16; 3],
    first: Walker,
    second: Walker,
) -> Result<(Sections<Walking>, Pass<Walking>), AllocError>
    ensures table { IfOk result (λ s. s.1.place.table_id ≡ s.0.table.shared.table_id) }
    ensures two { IfOk result (λ s. length s.0.table.shared.key.locals.value.items ≡ 2) }
    ensures callers { IfOk result (λ s. HasAll 2 s.1.place.me.0) }
{
    let rooms = vec![in alloc;
        room(alloc, openers[0]),
        room(alloc, openers[1]),
        room(alloc, openers[2]),
    ]?;
    let walkers = vec![in alloc; first, second]?;
    Sections::start(alloc, rooms, walkers)
}

/// One event of a walker.
pub fn visit<G: Gate, R: Wait>(
    rt: &R,
    rooms: &Sections<Walking>,
    pass: &mut Pass<Walking>,
    caller: u16,
    gate: &G,
) -> Result<Acted, AllocError>
    requires table { pass.old.place.table_id ≡ rooms.now.table.shared.table_id }
    requires has { HasCaller caller pass.old.place.me.0 }
    ensures table { pass.new.place.table_id ≡ pass.old.place.table_id }
    ensures callers { KeepsCallers pass.old.place.me.0 pass.new.place.me.0 }
{
    rooms.act(rt, pass, caller, gate)
}

/// The stamp of an event.
fn stamp_of(acted: Acted) -> Option<u64> {
    match acted {
        Acted::Moved { stamp } => Some(stamp),
        Acted::Ended | Acted::Halted => None,
    }
}

/// One event of each of these walkers, and their stamps.
pub fn visit_each<G: Gate, R: Wait>(
    rt: &R,
    alloc: Global,
    rooms: &Sections<Walking>,
    pass: &mut Pass<Walking>,
    callers: &[u16],
    gate: &G,
) -> Result<Vec<Option<u64>>, AllocError>
    requires table { pass.old.place.table_id ≡ rooms.now.table.shared.table_id }
    requires has { All (λ caller. HasCaller caller pass.old.place.me.0) callers.now }
    ensures table { pass.new.place.table_id ≡ pass.old.place.table_id }
    ensures callers { KeepsCallers pass.old.place.me.0 pass.new.place.me.0 }
{
    let mut stamps = Vec::new(alloc);
    for caller in callers {
        stamps.push(stamp_of(visit(rt, rooms, pass, *caller, gate)?))?;
    }
    Ok(stamps)
}

/// A walker's events until it is done, and their stamps.
pub fn walk<G: Gate, R: Wait>(
    rt: &R,
    alloc: Global,
    rooms: &Sections<Walking>,
    mut pass: Pass<Walking>,
    caller: u16,
    gate: &G,
) -> Result<(Pass<Walking>, Vec<u64>), AllocError>
    requires table { pass.place.table_id ≡ rooms.now.table.shared.table_id }
    requires has { HasCaller caller pass.place.me.0 }
    ensures table { IfOk result (λ w. w.0.place.table_id ≡ rooms.now.table.shared.table_id) }
    ensures has { IfOk result (λ w. HasCaller caller w.0.place.me.0) }
{
    let mut stamps = Vec::new(alloc);
    for _ in rt.forever() {
        match visit(rt, rooms, &mut pass, caller, gate)? {
            Acted::Moved { stamp } => {
                gate.between(caller);
                stamps.push(stamp)?;
            }
            Acted::Ended | Acted::Halted => return Ok((pass, stamps)),
        }
    }
    unreachable!()
}

/// Gives the second walker a pass of its own.
pub fn part(
    rooms: &Sections<Walking>,
    pass: &mut Pass<Walking>,
) -> Result<Pass<Walking>, AllocError>
    requires table { pass.old.place.table_id ≡ rooms.now.table.shared.table_id }
    requires callers { HasAll 2 pass.old.place.me.0 }
    ensures table { pass.new.place.table_id ≡ pass.old.place.table_id }
    ensures new_table { IfOk result (λ p. p.place.table_id ≡ pass.old.place.table_id) }
    ensures first { IfOk result (λ _. HasCaller 0 pass.new.place.me.0) }
    ensures second { IfOk result (λ p. HasCaller 1 p.place.me.0) }
{
    rooms.split(pass, 1)
}

/// Joins the two walkers' passes, and closes the table.
pub fn close_both(
    rooms: Sections<Walking>,
    mut first: Pass<Walking>,
    second: Pass<Walking>,
) -> Result<Closed<Room, Walker>, AllocError>
    requires two { length rooms.table.shared.key.locals.value.items ≡ 2 }
    requires table { first.place.table_id ≡ rooms.table.shared.table_id }
    requires other { second.place.table_id ≡ rooms.table.shared.table_id }
    requires first { HasCaller 0 first.place.me.0 }
    requires second { HasCaller 1 second.place.me.0 }
{
    match rooms.join(&mut first, second) {
        Ok(()) => rooms.close(first),
        Err((_second, error)) => Err(error),
    }
}
