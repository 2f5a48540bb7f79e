//! A table of regions behind turns of their own, and its passes.
ghost use Rattle.std.specs.Prelude.{◌≡◌, ℕ, ◌+◌, ◌≤◌, ◌<◌, length, replicate, slice_get, IfOk, OnOk, OnErr, IfErr, Some};
ghost use Rattle.section_table.specs.PassViews.{HasCaller, starting, without, alone, both_of};
ghost use Rattle.section_table.specs.Acts.{Acts};

use crate::Gate;
use crate::acted::Acted;
use crate::callers::{enlist, merge, room_for};
use crate::parts::Parts;
use crate::pass::Pass;
use crate::steps::{cut, unite};
use crate::table::{Key, Turns};
use crate::turn::turn;
use crate::views::View;
use atomic_table::Table;
use std::alloc::{AllocError, Global};
use std::marker::Brand;
use std::snapshot::Snapshot;
use std::sync::Wait;
use std::thread::yield_now;

/// The regions, each behind its turn, and the word that stamps are drawn from. Any number of threads share it.
#[derive(Drop)]
pub struct Sections<P: Parts> {
    pub(crate) table: Table<
        P::Region,
        View<P::Region, P::Local>,
        Key<P::Region, P::Local>,
        Turns<P>,
        Global,
    >,
    pub(crate) alloc: Global,
    ghost sized: { table.shared.table_id.words ≡ table.shared.table_id.slots + 2 },
}

fn zeros(alloc: Global, count: usize) -> Result<Vec<u64>, AllocError>
    ensures { IfOk result (λ v. v.items ≡ replicate count 0) }
{
    Vec::from_elem(alloc, 0u64, count)
}

impl<P: Parts> Sections<P> {
    /// A table of these regions, and a pass with all callers: caller k has the local k. Takes memory for a word a
    /// region, and for the callers; after a refusal regions and locals are dropped.
    pub fn start(
        alloc: Global,
        regions: Vec<P::Region>,
        locals: Vec<P::Local>,
    ) -> Result<(Sections<P>, Pass<P>), AllocError>
        requires some { 0 < length locals.items }
        requires few { length locals.items ≤ 32 }
        requires reach { (k : ℕ) (l : P.Local) → slice_get locals.items k ≡ Some l
            → P.meaning.reach l ≤ length regions.items }
        requires lawful { P.meaning.lawful regions.items locals.items }
        ensures table { IfOk result (λ s. s.1.place.table_id ≡ s.0.table.shared.table_id) }
        ensures pass { IfOk result (λ s. s.1.place.me.0 ≡ starting locals.items) }
        ensures regions { IfOk result (λ s.
            s.0.table.shared.key.regions.value.items ≡ regions.items) }
        ensures locals { IfOk result (λ s. s.0.table.shared.key.locals.value.items ≡ locals.items) }
    {
        let Some(count) = regions.len().checked_add(2) else {
            return Err(AllocError);
        };
        let words = zeros(alloc, count)?;
        let key = Key {
            regions: Snapshot::of(&regions),
            locals: Snapshot::of(&locals),
        };
        let callers = enlist(alloc, locals)?;
        match Table::new(alloc, words.as_slice(), regions, &key) {
            Ok((table, place)) => Ok((Sections { table, alloc }, Pass { place, callers })),
            Err(_) => Err(AllocError),
        }
    }

    /// Gives a caller a pass of its own, with its local and all stamps that were drawn for it. Takes memory for the
    /// new pass; after a refusal nothing has changed.
    pub fn split(&self, from: &mut Pass<P>, caller: u16) -> Result<Pass<P>, AllocError>
        requires table { from.old.place.table_id ≡ self.now.table.shared.table_id }
        requires has { HasCaller caller from.old.place.me.0 }
        ensures table { from.new.place.table_id ≡ from.old.place.table_id }
        ensures new_table { IfOk result (λ p. p.place.table_id ≡ from.old.place.table_id) }
        ensures left { OnOk result (from.new.place.me.0 ≡ without caller from.old.place.me.0) }
        ensures right { IfOk result (λ p. p.place.me.0 ≡ alone caller from.old.place.me.0) }
        ensures refused { OnErr result (from.new.place.me.0 ≡ from.old.place.me.0) }
    {
        let mut callers = room_for(self.alloc, caller)?;
        let place = cut::<P, Brand>(&self.table.shared, &mut from.place, caller);
        callers.push_reserved(from.callers[caller as usize].take());
        Ok(Pass { place, callers })
    }

    /// One event of the caller: takes the turn of the region that it wants, tells the gate, makes the section, draws
    /// the stamp, and gives the region and the turn back. It waits while another pass has the region or the section
    /// stays, and where 2^58 stamps were drawn for the caller. Takes memory for one stamp, and what the section takes.
    pub fn act<G: Gate, R: Wait>(
        &self,
        rt: &R,
        pass: &mut Pass<P>,
        caller: u16,
        gate: &G,
    ) -> Result<Acted, AllocError>
        requires table { pass.old.place.table_id ≡ self.now.table.shared.table_id }
        requires has { HasCaller caller pass.old.place.me.0 }
        ensures table { pass.new.place.table_id ≡ pass.old.place.table_id }
        ensures acts { Acts P.meaning caller pass.old.place.me.0 pass.new.place.me.0 result }
    {
        for _ in rt.forever() {
            if let Some(acted) = turn(&self.table.shared, pass, caller, gate)? {
                return Ok(acted);
            }
            yield_now();
        }
        unreachable!()
    }

    /// Takes the callers of another pass in, with their locals and stamps, and a halt that it saw or made. Takes
    /// memory for them in the first pass; after a refusal the other comes back, and nothing has changed.
    pub fn join(&self, into: &mut Pass<P>, other: Pass<P>) -> Result<(), (Pass<P>, AllocError)>
        requires table { into.old.place.table_id ≡ self.now.table.shared.table_id }
        requires other { other.place.table_id ≡ self.now.table.shared.table_id }
        ensures table { into.new.place.table_id ≡ into.old.place.table_id }
        ensures joined { OnOk result (into.new.place.me.0
            ≡ both_of into.old.place.me.0 other.place.me.0) }
        ensures refused { OnErr result (into.new.place.me.0 ≡ into.old.place.me.0) }
        ensures back { IfErr result (λ e. e.0.place.me.0 ≡ other.place.me.0) }
        ensures back_table { IfErr result (λ e. e.0.place.table_id ≡ other.place.table_id) }
    {
        let more = other.callers.len().saturating_sub(into.callers.len());
        if let Err(error) = into.callers.reserve(more) {
            return Err((other, error));
        }
        let Pass { place, callers } = other;
        unite::<P>(&self.table.shared, &mut into.place, place);
        merge(&mut into.callers, callers);
        Ok(())
    }
}
