//! A caller's purge, and what it carries from one section of it to the next: the starts of the blocks that it has taken out,
//! the spans that it flushes and returns, and the dirty ranges that it has seen before.
ghost use Rattle.std.specs.Prelude.{◌≡◌, ◌≢◌, ◌≤◌, ◌<◌, ◌+◌, ◌^◌, ◌++◌, [], All, Option, length, option_to_list, IfOk, OnOk, OnErr};
ghost use Rattle.vm_model.specs.Next.{Go, next, after_collecting, after_flush};
ghost use Rattle.vm_model.specs.Events.{Fragment, Dirty};
ghost use Rattle.vm_model.specs.History.{moved_to};
ghost use Rattle.vm_model.specs.declared.areas.Span.{Span};
ghost use Rattle.vm_model.specs.Space.{HasEnd, hull};
ghost use Rattle.lazy_purge.specs.WaitingSet.{HasPage};
ghost use Rattle.vm_model.specs.Places as model;
ghost use Rattle.vm_model.specs.Places.{Then};
ghost use Rattle.map_blocks.specs.BlockRows as rows;
ghost use Rattle.callers.specs.CarriedPlaces.{then_of, carried_at, IsExtra, IsSizedAfter};

use crate::carried::{after_fragments, after_range, joined_hull, push_range};
use crate::local::Local;
use crate::place::{After, Place};
use lazy_purge::Batch;
use map_blocks::BlockSide;
use std::alloc::AllocError;
use vm_model::Span;

impl Local {
    /// The starts of the blocks that its purge has taken out.
    pub fn gone(&self) -> &[u32]
        requires { (extra : Option Span) × (after : Then)
            × (self.now.place ≡ model.PurgeUnlinking (carried_at self.now.place).gone extra after) }
        ensures { result.now ≡ (carried_at self.now.place).gone }
    {
        self.gone.as_slice()
    }

    /// The spans of the blocks that its purge has taken out.
    pub fn gone_spans(&self) -> Result<Vec<Span>, AllocError>
        requires { (extra : Option Span) × (after : Then)
            × (self.now.place ≡ model.PurgeWaiting (carried_at self.now.place).gone extra after) }
        ensures { IfOk result (λ spans. spans.items ≡ model.block_spans self.now.setup
            (carried_at self.now.place).gone) }
    {
        let pages = self.config.block_pages;
        self.gone
            .iter()
            .map(|start| Span {
                start: *start,
                pages,
            })
            .collect(self.alloc)
    }

    /// The spans that its purge has flushed and returns.
    pub fn waited(&self) -> &[Span]
        requires { (after : Then)
            × (self.now.place ≡ model.PurgeReturning (carried_at self.now.place).waited after) }
        ensures spans { result.now ≡ (carried_at self.now.place).waited }
        ensures some { All HasPage result.now }
    {
        self.waited.spans()
    }

    /// One event more, which took the purge turn. No block is taken out yet.
    pub fn take_purge(&mut self, extra: Option<Span>, after: After)
        requires extra { IsExtra self.old.setup.space extra }
        requires sized { IsSizedAfter after }
        requires at_hand { length self.old.answers < length self.old.calls }
        requires events { self.old.events + 1 < 2 ^ 32 }
        ensures { self.new ≡ moved_to self.old
            (Go (model.PurgeFragmenting 0 [] extra (then_of after))) }
    {
        self.events += 1;
        self.gone.clear();
        self.place = Place::PurgeFragmenting {
            cpu: 0,
            extra,
            after,
        };
    }

    /// One event more, which takes the fragmented blocks of a processor out. The next processor's come then, or all of
    /// them are unlinked, if there are any. An error leaves all as it was.
    pub fn take_fragmented(
        &mut self,
        blocks: &mut BlockSide,
        cpu: u8,
        extra: Option<Span>,
        after: After,
    ) -> Result<(), AllocError>
        requires place { self.old.place ≡ model.PurgeFragmenting cpu
            (carried_at self.old.place).gone extra (then_of after) }
        requires sized { IsSizedAfter after }
        requires at_hand { length self.old.answers < length self.old.calls }
        requires events { self.old.events + 1 < 2 ^ 32 }
        ensures local { OnOk result
            (self.new ≡ moved_to self.old
            (next self.old.setup self.old.place (Fragment cpu (rows.fragmented blocks.old)))) }
        ensures blocks { OnOk result
            (blocks.new ≡ rows.without_blocks (rows.fragmented blocks.old) blocks.old) }
        ensures memory { OnErr result (rows.fragmented blocks.old ≢ []) }
        ensures err { OnErr result ((self.new ≡ self.old) × (blocks.new ≡ blocks.old)) }
    {
        self.gone.reserve(blocks.fragmented())?;
        let starts = blocks.take_fragmented()?;
        self.gone.extend_from_slice(starts.as_slice())?;
        self.events += 1;
        self.place = after_fragments(cpu, self.config.layout.cpus(), &self.gone, extra, after);
        Ok(())
    }

    /// One event more, which unlinked the blocks that its purge has taken out.
    pub fn unlinked(&mut self, extra: Option<Span>, after: After)
        requires place { self.old.place
            ≡ model.PurgeUnlinking (carried_at self.old.place).gone extra (then_of after) }
        requires sized { IsSizedAfter after }
        requires at_hand { length self.old.answers < length self.old.calls }
        requires events { self.old.events + 1 < 2 ^ 32 }
        ensures { self.new ≡ moved_to self.old
            (Go (model.PurgeWaiting (carried_at self.old.place).gone extra (then_of after))) }
    {
        self.events += 1;
        self.place = Place::PurgeWaiting { extra, after };
    }

    /// One event more, which collected these spans to flush with the extra one. Where there are none, only the turn is left
    /// to give back.
    pub fn collect(&mut self, batch: Batch, extra: Option<Span>, after: After)
        requires some { All HasPage batch }
        requires ends { All HasEnd batch }
        requires space { self.old.setup.space ≤ 1048576 }
        requires extra { IsExtra self.old.setup.space extra }
        requires sized { IsSizedAfter after }
        requires at_hand { length self.old.answers < length self.old.calls }
        requires events { self.old.events + 1 < 2 ^ 32 }
        ensures { self.new ≡ moved_to self.old
            (after_collecting batch (hull (batch ++ option_to_list extra)) (then_of after)) }
    {
        let Some(hull) = joined_hull(&batch, extra) else {
            return self.go(Place::PurgeGiving(after));
        };
        self.events += 1;
        self.place = Place::PurgeFlushing { hull, after };
        self.waited = batch;
    }

    /// One event more, which flushed the spans that were collected.
    pub fn flushed(&mut self, after: After)
        requires sized { IsSizedAfter after }
        requires place { (hull : Span)
            × (self.old.place ≡ model.PurgeFlushing hull (carried_at self.old.place).waited
            (then_of after)) }
        requires at_hand { length self.old.answers < length self.old.calls }
        requires events { self.old.events + 1 < 2 ^ 32 }
        ensures { self.new ≡ moved_to self.old
            (after_flush (carried_at self.old.place).waited (then_of after)) }
    {
        self.events += 1;
        self.place = if self.waited.spans().is_empty() {
            Place::PurgeGiving(after)
        } else {
            Place::PurgeReturning(after)
        };
    }

    /// One event more, which saw the hull of a processor's dirty ranges. The next processor's comes then, or a purge that
    /// flushes the hull of them all.
    pub fn saw_dirty(&mut self, cpu: u8, range: Option<Span>)
        requires place { self.old.place ≡ model.LookingAtDirty cpu
            (carried_at self.old.place).ranges }
        requires range { IsExtra self.old.setup.space range }
        requires at_hand { length self.old.answers < length self.old.calls }
        requires events { self.old.events + 1 < 2 ^ 32 }
        ensures { self.new ≡ moved_to self.old
            (next self.old.setup self.old.place (Dirty cpu range)) }
    {
        push_range(&mut self.ranges, range);
        self.events += 1;
        self.place = after_range(cpu, self.config.layout.cpus(), &self.ranges);
    }
}
