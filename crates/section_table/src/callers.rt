//! The callers of a pass, by their numbers.
ghost use Rattle.std.specs.Prelude.{◌≡◌, ◌+◌, ◌-◌, ◌≤◌, ◌<◌, IfOk, IfSome, Some, None, map, replicate, length, slice_get, vec_capacity};
ghost use Rattle.section_table.specs.Shown.{shown_of};
ghost use Rattle.section_table.specs.PassViews.{newcomer, merged, put_at};
ghost use Rattle.section_table.specs.declared.caller.Caller.{Caller};

use crate::caller::Caller;
use crate::parts::Parts;
use std::alloc::{AllocError, Global};

/// Each local as a caller with no stamp yet.
pub(crate) fn enlist<L: Drop>(
    alloc: Global,
    locals: Vec<L>,
) -> Result<Vec<Option<Caller<L>>>, AllocError>
    ensures { IfOk result (λ v. map shown_of v.items ≡ map newcomer locals.items) }
{
    let mut callers = Vec::new(alloc);
    for local in locals {
        callers.push(Some(Caller {
            local,
            stamps: Vec::new(alloc),
        }))?;
    }
    Ok(callers)
}

/// A list for one caller at its number. The room is taken, and nobody is in it.
pub(crate) fn room_for<L: Drop>(
    alloc: Global,
    caller: u16,
) -> Result<Vec<Option<Caller<L>>>, AllocError>
    ensures none { IfOk result (λ v. v.items ≡ replicate caller None) }
    ensures room { IfOk result (λ v. caller < vec_capacity v) }
{
    let mut callers = Vec::with_capacity(alloc, caller as usize + 1)?;
    for _ in 0..caller {
        callers.push_reserved(None);
    }
    Ok(callers)
}

// A caller, or nobody, at the next place of a list whose earlier places are done.
fn put_in<L: Drop>(callers: &mut Vec<Option<Caller<L>>>, place: usize, other: Option<Caller<L>>)
    requires place { place ≤ length callers.old.items }
    requires room { place < vec_capacity callers.old }
    ensures put { callers.new.items ≡ put_at callers.old.items place other }
    ensures capacity { vec_capacity callers.new ≡ vec_capacity callers.old }
{
    if place >= callers.len() {
        callers.push_reserved(other);
    } else if callers[place].is_none() {
        callers[place] = other;
    }
}

/// The others join the callers, who have room for them.
pub(crate) fn merge<L: Drop>(callers: &mut Vec<Option<Caller<L>>>, others: Vec<Option<Caller<L>>>)
    requires { length others.items ≤ vec_capacity callers.old }
    ensures { callers.new.items ≡ merged callers.old.items others.items }
{
    let mut place = 0;
    for other in others {
        put_in(callers, place, other);
        place += 1;
    }
}

/// What the caller wants next.
pub(crate) fn wish_of<P: Parts>(callers: &Vec<Option<Caller<P::Local>>>, caller: u16) -> Option<u16>
    requires { (x : Caller P.Local) × (slice_get callers.now.items caller ≡ Some (Some x)) }
    ensures { (x : Caller P.Local) → slice_get callers.now.items caller ≡ Some (Some x)
        → (result ≡ P.meaning.wanted x.local) × IfSome result (λ k. k < P.meaning.reach x.local) }
{
    match &callers[caller as usize] {
        Some(mine) => P::wants(&mine.local),
        None => None,
    }
}
