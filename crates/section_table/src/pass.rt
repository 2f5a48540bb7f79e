//! Some of the callers, for one thread.
ghost use Rattle.std.specs.Prelude.{◌≡◌, [], None, map};
ghost use Rattle.section_table.specs.Shown.{shown_of};
ghost use Rattle.section_table.specs.PassViews.{Has, HasCaller, IsWithin};
ghost use Rattle.section_table.specs.declared.views.Held.{Held};

use crate::caller::Caller;
use crate::parts::Parts;
use crate::table::Place;

/// Some of a table's callers, for one thread. Contracts speak of what it knows, `place.me.0`, and of its table by
/// `place.table_id`.
#[derive(Drop)]
pub struct Pass<P: Parts> {
    pub(crate) place: Place<P>,
    pub(crate) callers: Vec<Option<Caller<P::Local>>>,
    ghost rests: { (place.me.0.hand ≡ None) × (place.me.1 ≡ []) },
    ghost same: { place.me.0.held ≡ map shown_of callers.items },
    ghost reaches: { IsWithin P.meaning.reach place.table_id.slots place.me.0 },
}

impl<P: Parts> Pass<P> {
    /// The caller's local.
    pub fn local(&self, caller: u16) -> &P::Local
        requires has { HasCaller caller self.now.place.me.0 }
        ensures { (h : Held P.Local) → Has self.now.place.me.0 caller h → result.now ≡ h.local }
    {
        match &self.callers[caller as usize] {
            Some(mine) => &mine.local,
            None => unreachable!(),
        }
    }
}
