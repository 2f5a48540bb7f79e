//! The sections over the alloc turn, the kernel's `pcpu_alloc_mutex`.
ghost use Rattle.callers.specs.declared.place.Place.TheVariants as place;
ghost use Rattle.vm_model.specs.Parts.{AllocTurn};
ghost use Rattle.section_core.specs.MadeSections.{IsMoved};
ghost use Rattle.section_core.specs.StandsWell.{CanMake};

use callers::{Local, Made, ObjectSize, Place};
use vm_model::Reply;

/// Takes the alloc turn for an object.
pub(crate) fn take_alloc(local: &mut Local, turn: &mut Option<u16>, object: ObjectSize)
    requires { CanMake (place.TakingAlloc object) local.old (AllocTurn turn.old) }
    ensures { IsMoved local.old (AllocTurn turn.old) local.new (AllocTurn turn.new) }
{
    *turn = Some(local.caller());
    local.go(Place::Choosing(object));
}

/// Takes the alloc turn for a balance.
pub(crate) fn take_to_balance(local: &mut Local, turn: &mut Option<u16>)
    requires { CanMake place.TakingToBalance local.old (AllocTurn turn.old) }
    ensures { IsMoved local.old (AllocTurn turn.old) local.new (AllocTurn turn.new) }
{
    *turn = Some(local.caller());
    local.go(Place::Sparing);
}

/// Gives the alloc turn back, and answers the call.
pub(crate) fn give_alloc(local: &mut Local, turn: &mut Option<u16>, reply: Reply, made: Made)
    requires { CanMake (place.GivingAlloc reply made) local.old (AllocTurn turn.old) }
    ensures { IsMoved local.old (AllocTurn turn.old) local.new (AllocTurn turn.new) }
{
    *turn = None;
    local.answer(reply, made);
}
