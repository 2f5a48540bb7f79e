//! The steps of a pass, each with what it tells.
ghost use Rattle.std.specs.Prelude.{◌≡◌, ℕ, ◌+◌, ◌^◌, ◌<◌, true, false, length, Some, None, [], ◌∷◌};
ghost use Rattle.section_table.specs.declared.views.Held.{Held};
ghost use Rattle.section_table.specs.PassViews.{Has, HasCaller, without, alone, both_of, flagged, holding};
ghost use Rattle.section_table.specs.TableSteps.{Meet, IsPast, drawn};

use crate::parts::Parts;
use crate::table::{Actor, Ask, Cut, Draw, Halt, Merge, Place, Release, Take, Top};

/// Draws a stamp for the caller, after its section in the region that is in hand.
pub(crate) fn draw<P: Parts, C: Actor>(top: &Top<P>, place: &mut Place<P>) -> u64
    requires table { (place.old.table_id ≡ top.now.table_id) × (0 < top.now.table_id.words) }
    requires ready { (h : Held P.Local) × (k : ℕ) × (r : P.Region) × Has place.old.me.0 C.caller h
        × (place.old.me.0.hand ≡ Some (k, r)) × (P.meaning.wanted h.local ≡ Some k)
        × (P.meaning.moves h.local r ≡ true) × (length h.stamps < 2 ^ 58) }
    ensures table { (place.new.table_id ≡ place.old.table_id) × (place.new.id ≡ place.old.id) }
    ensures slots { place.new.me.1 ≡ place.old.me.1 }
    ensures past { IsPast P.meaning place.old.me.0 result }
    ensures view { (h : Held P.Local) (k : ℕ) (r : P.Region) → Has place.old.me.0 C.caller h
        → place.old.me.0.hand ≡ Some (k, r)
        → place.new.me.0 ≡ drawn P.meaning place.old.me.0 C.caller h k r result }
{
    top.fetch_add::<Draw<P, C>>(place, 0, 1)
}

/// Takes the turn of a region, and its value, where no other pass has them.
pub(crate) fn take<P: Parts>(top: &Top<P>, place: &mut Place<P>, region: u16) -> bool
    requires table { (place.old.table_id ≡ top.now.table_id) × (region < top.now.table_id.slots)
        × (region + 2 < top.now.table_id.words) }
    requires rests { (place.old.me.0.hand ≡ None) × (place.old.me.1 ≡ []) }
    requires has { (caller : ℕ) × HasCaller caller place.old.me.0 }
    ensures table { (place.new.table_id ≡ place.old.table_id) × (place.new.id ≡ place.old.id) }
    ensures busy { result ≡ false → place.new.me ≡ place.old.me }
    ensures taken { result ≡ true
        → (r : P.Region) × (place.new.me
        ≡ (holding (Some (region, r)) place.old.me.0, (region, r) ∷ []))
        × Meet P.meaning place.old.me.0 region r }
{
    top.compare_exchange::<Take<P>>(place, region as usize + 2, 0, 1) == 0
}

/// Gives the region in hand and its turn back.
pub(crate) fn release<P: Parts>(top: &Top<P>, place: &mut Place<P>, region: u16)
    requires table { (place.old.table_id ≡ top.now.table_id) × (region < top.now.table_id.slots)
        × (region + 2 < top.now.table_id.words) }
    requires hand { (r : P.Region) × (place.old.me.0.hand ≡ Some (region, r))
        × (place.old.me.1 ≡ (region, r) ∷ []) }
    ensures table { (place.new.table_id ≡ place.old.table_id) × (place.new.id ≡ place.old.id) }
    ensures view { place.new.me ≡ (holding None place.old.me.0, []) }
{
    top.swap::<Release>(place, region as usize + 2, 0);
}

/// Gives a caller a seat of its own. `caller` is there for the pick of the actor alone.
pub(crate) fn cut<P: Parts, C: Actor>(top: &Top<P>, place: &mut Place<P>, _caller: u16) -> Place<P>
    requires caller { _caller ≡ C.caller }
    requires table { (place.old.table_id ≡ top.now.table_id) × (0 < top.now.table_id.words) }
    requires rests { (place.old.me.0.hand ≡ None) × (place.old.me.1 ≡ []) }
    requires has { HasCaller _caller place.old.me.0 }
    ensures table { (place.new.table_id ≡ place.old.table_id) × (place.new.id ≡ place.old.id)
        × (result.table_id ≡ place.old.table_id) }
    ensures left { place.new.me ≡ (without _caller place.old.me.0, []) }
    ensures right { result.me ≡ (alone _caller place.old.me.0, []) }
{
    top.split_seat::<Cut<C>>(place)
}

/// Takes in another seat.
pub(crate) fn unite<P: Parts>(top: &Top<P>, place: &mut Place<P>, other: Place<P>)
    requires table { (place.old.table_id ≡ top.now.table_id) × (other.table_id ≡ top.now.table_id)
        × (0 < top.now.table_id.words) }
    requires rests { (place.old.me.0.hand ≡ None) × (place.old.me.1 ≡ []) × (other.me.0.hand ≡ None)
        × (other.me.1 ≡ []) }
    ensures table { (place.new.table_id ≡ place.old.table_id) × (place.new.id ≡ place.old.id) }
    ensures view { place.new.me ≡ (both_of place.old.me.0 other.me.0, []) }
{
    top.join_seat::<Merge>(place, other);
}

/// Halts every pass.
pub(crate) fn halt<P: Parts>(top: &Top<P>, place: &mut Place<P>)
    requires table { (place.old.table_id ≡ top.now.table_id) × (1 < top.now.table_id.words) }
    ensures table { (place.new.table_id ≡ place.old.table_id) × (place.new.id ≡ place.old.id) }
    ensures view { place.new.me ≡ (flagged true true place.old.me.0, place.old.me.1) }
{
    top.swap::<Halt>(place, 1, 1);
}

/// Whether some pass has made a halt. One that was seen is found again.
pub(crate) fn is_halted<P: Parts>(top: &Top<P>, place: &mut Place<P>) -> bool
    requires table { (place.old.table_id ≡ top.now.table_id) × (1 < top.now.table_id.words) }
    ensures table { (place.new.table_id ≡ place.old.table_id) × (place.new.id ≡ place.old.id) }
    ensures again { place.old.me.0.saw_halt ≡ true → result ≡ true }
    ensures view { place.new.me ≡ (
      flagged result place.old.me.0.made_halt place.old.me.0,
      place.old.me.1,
    ) }
{
    top.load::<Ask>(place, 1) == 1
}
