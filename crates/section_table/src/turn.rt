//! One turn of a pass: a halt is read first, and then one try is made.
ghost use Rattle.std.specs.Prelude.{◌≡◌, ◌+◌, ◌<◌, ◌≤◌, Some, slice_get, None, [], map};
ghost use Rattle.section_table.specs.PassViews.{HasCaller, Has};
ghost use Rattle.section_table.specs.Acts.{Tries};
ghost use Rattle.section_table.specs.Shown.{shown_of, held_of};
ghost use Rattle.section_table.specs.Attempts.{Attempts, MakesSection};
ghost use Rattle.section_table.specs.declared.caller.Caller.{Caller};

use crate::Gate;
use crate::acted::Acted;
use crate::caller::Caller;
use crate::callers::wish_of;
use crate::event::attempt;
use crate::parts::Parts;
use crate::pass::Pass;
use crate::steps::{halt, is_halted};
use crate::table::{Place, Top};
use std::alloc::AllocError;
use std::marker::Brand;

// One try of a caller that is at hand. None where there is no room for a stamp, too.
fn try_mine<P: Parts, G: Gate>(
    top: &Top<P>,
    place: &mut Place<P>,
    mine: &mut Caller<P::Local>,
    region: u16,
    caller: u16,
    gate: &G,
) -> Result<Option<u64>, AllocError>
    requires table { (place.old.table_id ≡ top.now.table_id) × (region < top.now.table_id.slots)
        × (top.now.table_id.words ≡ top.now.table_id.slots + 2) }
    requires rests { (place.old.me.0.hand ≡ None) × (place.old.me.1 ≡ []) }
    requires wants { (P.meaning.wanted mine.old.local ≡ Some region)
        × Has place.old.me.0 caller (held_of mine.old) }
    ensures table { (place.new.table_id ≡ place.old.table_id) × (place.new.id ≡ place.old.id) }
    ensures rests { (place.new.me.0.hand ≡ None) × (place.new.me.1 ≡ []) }
    ensures reach { P.meaning.reach mine.new.local ≤ P.meaning.reach mine.old.local }
    ensures tried { MakesSection P.meaning caller region place.old.me.0 place.new.me.0
        (held_of mine.old) (held_of mine.new) result }
{
    if !mine.ready()? {
        return Ok(None);
    }
    attempt::<P, Brand, G>(top, place, mine, region, caller, gate)
}

// One try of a caller of the list.
fn try_caller<P: Parts, G: Gate>(
    top: &Top<P>,
    place: &mut Place<P>,
    callers: &mut Vec<Option<Caller<P::Local>>>,
    region: u16,
    caller: u16,
    gate: &G,
) -> Result<Option<u64>, AllocError>
    requires table { (place.old.table_id ≡ top.now.table_id) × (region < top.now.table_id.slots)
        × (top.now.table_id.words ≡ top.now.table_id.slots + 2) }
    requires rests { (place.old.me.0.hand ≡ None) × (place.old.me.1 ≡ []) }
    requires same { place.old.me.0.held ≡ map shown_of callers.old.items }
    requires wants { (x : Caller P.Local) × (slice_get callers.old.items caller ≡ Some (Some x))
        × (P.meaning.wanted x.local ≡ Some region) }
    ensures table { (place.new.table_id ≡ place.old.table_id) × (place.new.id ≡ place.old.id) }
    ensures rests { (place.new.me.0.hand ≡ None) × (place.new.me.1 ≡ []) }
    ensures same { place.new.me.0.held ≡ map shown_of callers.new.items }
    ensures tried { Attempts P.meaning caller region place.old.me.0 place.new.me.0 result }
{
    let Some(mut mine) = callers[caller as usize].take() else {
        unreachable!()
    };
    let done = try_mine::<P, G>(top, place, &mut mine, region, caller, gate);
    callers[caller as usize] = Some(mine);
    done
}

/// One turn of a pass: none where it is to be tried again.
pub(crate) fn turn<P: Parts, G: Gate>(
    top: &Top<P>,
    pass: &mut Pass<P>,
    caller: u16,
    gate: &G,
) -> Result<Option<Acted>, AllocError>
    requires table { (pass.old.place.table_id ≡ top.now.table_id)
        × (top.now.table_id.words ≡ top.now.table_id.slots + 2) }
    requires has { HasCaller caller pass.old.place.me.0 }
    ensures table { pass.new.place.table_id ≡ pass.old.place.table_id }
    ensures tries { Tries P.meaning caller pass.old.place.me.0 pass.new.place.me.0 result }
{
    if is_halted::<P>(top, &mut pass.place) {
        return Ok(Some(Acted::Halted));
    }
    let Some(region) = wish_of::<P>(&pass.callers, caller) else {
        return Ok(Some(Acted::Ended));
    };
    match try_caller::<P, G>(
        top,
        &mut pass.place,
        &mut pass.callers,
        region,
        caller,
        gate,
    ) {
        Ok(Some(stamp)) => Ok(Some(Acted::Moved { stamp })),
        Ok(None) => Ok(None),
        Err(error) => {
            halt::<P>(top, &mut pass.place);
            Err(error)
        }
    }
}
