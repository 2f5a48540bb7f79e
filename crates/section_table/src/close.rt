//! The end of a table.
ghost use Rattle.std.specs.Prelude.{◌≡◌, ◌≤◌, [], length, map, replicate, vec_capacity, IfOk};
ghost use Rattle.std.specs.Slots.{slots_items, slots_len, IsFull};
ghost use Rattle.section_table.specs.CallerPlaces.{AreBelow};
ghost use Rattle.section_table.specs.Shown.{shown_of};
ghost use Rattle.section_table.specs.PassViews.{HasAll};
ghost use Rattle.section_table.specs.Closes.{IsClosed};
ghost use Rattle.section_table.specs.WrittenLists.{written, all_written, locals_of, HasStampsBelow};

use crate::caller::Caller;
use crate::closed::Closed;
use crate::parts::Parts;
use crate::pass::Pass;
use crate::sections::Sections;
use std::alloc::{AllocError, Global};

/// Takes each slot's value.
fn empty_out<S: Drop>(mut closed: atomic_table::Closed<S, Global>, mut into: Vec<S>) -> Vec<S>
    requires full { IsFull closed.slots }
    requires room { (into.items ≡ []) × (slots_len closed.slots ≤ vec_capacity into) }
    ensures { result.items ≡ slots_items closed.slots }
{
    let mut i = 0;
    while i < closed.slot_count() {
        into.push_reserved(closed.take(i));
        i += 1;
    }
    closed.free();
    into
}

// Writes a caller at the places that its stamps name.
fn write_picks(picks: &mut Vec<u16>, stamps: &[u64], caller: u16)
    requires { AreBelow (length picks.old.items) stamps.now }
    ensures { picks.new.items ≡ written picks.old.items caller stamps.now }
{
    for stamp in stamps {
        picks[*stamp as usize] = caller;
    }
}

/// The caller of each stamp below a number.
fn picks_of<L>(
    alloc: Global,
    callers: &[Option<Caller<L>>],
    count: usize,
) -> Result<Vec<u16>, AllocError>
    requires few { length callers.now ≤ 32 }
    requires stamps { HasStampsBelow count (map shown_of callers.now) }
    ensures { IfOk result (λ v. v.items
        ≡ all_written (replicate count 0) 0 (map shown_of callers.now)) }
{
    let mut picks = Vec::from_elem(alloc, 0u16, count)?;
    for (caller, kept) in callers.iter().enumerate() {
        if let Some(mine) = kept {
            write_picks(&mut picks, mine.stamps.as_slice(), caller as u16);
        }
    }
    Ok(picks)
}

/// The locals by caller.
fn list_locals<L: Drop>(
    alloc: Global,
    callers: Vec<Option<Caller<L>>>,
) -> Result<Vec<L>, AllocError>
    ensures { IfOk result (λ v. v.items ≡ locals_of (map shown_of callers.items)) }
{
    let mut locals = Vec::new(alloc);
    for kept in callers {
        if let Some(mine) = kept {
            locals.push(mine.into_local())?;
        }
    }
    Ok(locals)
}

impl<P: Parts> Sections<P> {
    /// Ends the table: gives its regions, its locals, and the picks that the stamps told. Takes memory for these lists;
    /// after a refusal table and pass are dropped.
    pub fn close(self, pass: Pass<P>) -> Result<Closed<P::Region, P::Local>, AllocError>
        requires table { pass.place.table_id ≡ self.table.shared.table_id }
        requires all { HasAll (length self.table.shared.key.locals.value.items) pass.place.me.0 }
        ensures { IfOk result (IsClosed P.meaning self.table.shared.key pass.place.me.0) }
    {
        let Sections { table, alloc } = self;
        let room = Vec::with_capacity(alloc, table.slot_count())?;
        let Pass { place, callers } = pass;
        let closed = table.close_with(place);
        let count = closed.word(0) as usize;
        let regions = empty_out(closed, room);
        let picks = picks_of(alloc, callers.as_slice(), count)?;
        let locals = list_locals(alloc, callers)?;
        Ok(Closed {
            regions,
            locals,
            picks,
        })
    }
}
