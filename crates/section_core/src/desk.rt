//! The section at the desk.
ghost use Rattle.callers.specs.declared.place.Place.TheVariants as place;
ghost use Rattle.vm_model.specs.Parts.{Desk};
ghost use Rattle.section_core.specs.MadeSections.{IsMoved};
ghost use Rattle.section_core.specs.StandsWell.{CanMake};

use callers::{Local, Made};
use vm_model::Reply;

/// Refuses a call.
pub(crate) fn refuse(local: &mut Local, reply: Reply)
    requires { CanMake (place.Refusing reply) local.old Desk }
    ensures { IsMoved local.old Desk local.new Desk }
{
    local.answer(reply, Made::Nothing);
}
