//! One try of a caller: the turn of the region that it wants, the section, the stamp, and the region and turn back.
ghost use Rattle.std.specs.Prelude.{◌≡◌, ◌+◌, ◌^◌, ◌<◌, ◌≤◌, Some, None, [], ◌∷◌, vec_len, vec_capacity};
ghost use Rattle.section_table.specs.PassViews.{Has};
ghost use Rattle.section_table.specs.Shown.{held_of};
ghost use Rattle.section_table.specs.TableSteps.{Meet};
ghost use Rattle.section_table.specs.Attempts.{MakesSection};

use crate::Gate;
use crate::caller::Caller;
use crate::parts::{Parts, Turned};
use crate::steps::{draw, release, take};
use crate::table::{Actor, Place, Top};
use std::alloc::AllocError;

/// Makes the section over the region in hand, and draws its stamp where it moves.
fn section_in<P: Parts, C: Actor>(
    top: &Top<P>,
    place: &mut Place<P>,
    mine: &mut Caller<P::Local>,
    region: u16,
) -> Result<Option<u64>, AllocError>
    requires table { (place.old.table_id ≡ top.now.table_id) × (0 < top.now.table_id.words) }
    requires room { (vec_len mine.old.stamps < vec_capacity mine.old.stamps)
        × (vec_len mine.old.stamps < 2 ^ 58) }
    requires wants { (P.meaning.wanted mine.old.local ≡ Some region)
        × Has place.old.me.0 C.caller (held_of mine.old) }
    requires hand { (r : P.Region) × (place.old.me.0.hand ≡ Some (region, r))
        × (place.old.me.1 ≡ (region, r) ∷ []) × Meet P.meaning place.old.me.0 region r }
    ensures table { (place.new.table_id ≡ place.old.table_id) × (place.new.id ≡ place.old.id) }
    ensures reach { P.meaning.reach mine.new.local ≤ P.meaning.reach mine.old.local }
    ensures hand { (r : P.Region) × (place.new.me.0.hand ≡ Some (region, r))
        × (place.new.me.1 ≡ (region, r) ∷ []) }
    ensures made { MakesSection P.meaning C.caller region place.old.me.0 place.new.me.0
        (held_of mine.old) (held_of mine.new) result }
{
    let slot = place.slot_mut(top, region as usize);
    match P::section(&mut mine.local, slot)? {
        Turned::Moved => {
            let stamp = draw::<P, C>(top, place);
            mine.stamps.push_reserved(stamp);
            Ok(Some(stamp))
        }
        Turned::Stays => Ok(None),
    }
}

/// Takes the region, makes the section, and gives the region back. None where another pass has the region, or the
/// section stays.
pub(crate) fn attempt<P: Parts, C: Actor, G: Gate>(
    top: &Top<P>,
    place: &mut Place<P>,
    mine: &mut Caller<P::Local>,
    region: u16,
    caller: u16,
    gate: &G,
) -> Result<Option<u64>, AllocError>
    requires caller { caller ≡ C.caller }
    requires table { (place.old.table_id ≡ top.now.table_id) × (region < top.now.table_id.slots)
        × (top.now.table_id.words ≡ top.now.table_id.slots + 2) }
    requires room { (vec_len mine.old.stamps < vec_capacity mine.old.stamps)
        × (vec_len mine.old.stamps < 2 ^ 58) }
    requires wants { (P.meaning.wanted mine.old.local ≡ Some region)
        × Has place.old.me.0 C.caller (held_of mine.old) }
    requires rests { (place.old.me.0.hand ≡ None) × (place.old.me.1 ≡ []) }
    ensures table { (place.new.table_id ≡ place.old.table_id) × (place.new.id ≡ place.old.id) }
    ensures rests { (place.new.me.0.hand ≡ None) × (place.new.me.1 ≡ []) }
    ensures reach { P.meaning.reach mine.new.local ≤ P.meaning.reach mine.old.local }
    ensures tried { MakesSection P.meaning C.caller region place.old.me.0 place.new.me.0
        (held_of mine.old) (held_of mine.new) result }
{
    if !take::<P>(top, place, region) {
        return Ok(None);
    }
    gate.inside(caller, region);
    let done = section_in::<P, C>(top, place, mine, region);
    release::<P>(top, place, region);
    done
}
