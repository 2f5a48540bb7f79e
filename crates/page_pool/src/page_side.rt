//! The page map: which frame each page of the space has, as the kernel's page tables tell it.
ghost use Rattle.std.specs.Prelude.{◌≡◌, ◌≤◌, ◌<◌, ◌^◌, ℕ, true, false, Some, None, length, drop, count_by, slice_get, is_some, IsSome, IsTrue, ◌↔◌, ◌+◌, OnOk, OnErr, IfOk, IfErr};
ghost use Rattle.vm_model.specs.Space.{holds, end_of, pages_of, paint};
ghost use Rattle.vm_model.specs.Frames.{give_frames, joined_option, frame_of};
ghost use Rattle.page_pool.specs.FrameList.{AreShared};
ghost use Rattle.page_pool.specs.PageMap.{Pages, free_of, first_pages, with_mapped, with_unmapped, with_flushed, mapped_count, stale_count, IsBare, IsMapped};

mod units;
mod words;

use crate::cells::Cells;
use crate::free_frames::FreeFrames;
use crate::page_map::PageMap;
use crate::stale_pages::StalePages;
use std::alloc::{AllocError, Global};
use std::marker::Model;
use vm_model::Span;

/// There are fewer free frames than pages to map: where `alloc_page` gives none. It comes exactly there.
#[derive(Clone, Copy)]
pub struct NoFrames {
    /// How many pages were to be mapped, each to a frame of its own.
    pub asked: u32,
    /// How many frames were free.
    pub free: u32,
}

/// Which frame each page of a space has, which pages are stale, and the words of memory. A page is stale from when it
/// is unmapped until a flush, since a processor's TLB may still have its old frame.
#[derive(Drop)]
pub struct PageSide {
    frames: PageMap,
    free: FreeFrames,
    mapped: u32,
    stale: StalePages,
    cells: Cells,
}

impl Model for PageSide {
    ghost use Rattle.page_pool.specs.FrameList.{AreShared};
    ghost use Rattle.page_pool.specs.PageMap.{Pages, IsKept};

    ghost Value = { Pages };

    ghost view = { λ s. record { frames = s.frames; stale = s.stale; cells = s.cells } };

    ghost invariant = { λ s. IsKept (record {
      frames = s.frames;
      stale = s.stale;
      cells = s.cells;
    }) s.free s.mapped };
}

/// Gives the pages of a span the lowest free frames, by rising page.
fn give_lowest(frames: &mut PageMap, free: &mut FreeFrames, span: Span)
    requires inside { end_of span ≤ length frames.old }
    requires space { length frames.old < 2 ^ 32 }
    requires enough { span.pages ≤ length free.old.numbers }
    requires shared { AreShared frames.old free.old }
    requires unmapped { (page : ℕ) → holds span page ≡ true
        → slice_get frames.old page ≡ Some None }
    ensures frames { frames.new ≡ give_frames (pages_of span) free.old.numbers frames.old }
    ensures free { free.new ≡ record free.old { numbers = drop span.pages free.old.numbers } }
    ensures shared { AreShared frames.new free.new }
{
    for page in span.start..span.start + span.pages {
        frames.set(page, Some(free.take_lowest()));
    }
}

/// Takes the frames of the pages of a span back.
fn take_back(frames: &mut PageMap, free: &mut FreeFrames, span: Span)
    requires inside { end_of span ≤ length frames.old }
    requires space { length frames.old < 2 ^ 32 }
    requires shared { AreShared frames.old free.old }
    requires mapped { (page : ℕ) → holds span page ≡ true
        → IsSome (joined_option (slice_get frames.old page)) }
    ensures frames { frames.new ≡ paint (holds span) None frames.old }
    ensures shared { AreShared frames.new free.new }
    ensures memory { free.new.memory ≡ free.old.memory }
    ensures count { count_by is_some frames.new + span.pages ≡ count_by is_some frames.old }
{
    for page in span.start..span.start + span.pages {
        let Some(frame) = frames.at(page) else {
            unreachable!();
        };
        frames.set(page, None);
        free.put_back(frame);
    }
}

impl PageSide {
    /// A space of so many pages over a memory of so many frames: nothing is mapped, nothing is stale, and each word
    /// is 0. It takes all the memory that the side ever needs.
    pub fn new(alloc: Global, space: u32, frames: u32) -> Result<PageSide, AllocError>
        ensures first { IfOk result (λ side. side ≡ first_pages space frames) }
    {
        Ok(PageSide {
            frames: PageMap::unmapped(alloc, space)?,
            free: FreeFrames::all(alloc, frames)?,
            mapped: 0,
            stale: StalePages::none(alloc, space)?,
            cells: Cells::zero(alloc, frames)?,
        })
    }

    /// Whether a span, in pages, lies in the space. It takes no memory.
    pub fn has(&self, span: Span) -> bool
        ensures inside { IsTrue result ↔ (end_of span ≤ length self.now.frames) }
        ensures end { IsTrue result → end_of span < 2 ^ 32 }
    {
        u64::from(span.start) + u64::from(span.pages) <= u64::from(self.frames.len())
    }

    /// Whether the pages of a span lie in the space, unmapped and not stale, as `map` wants them. It takes time for each
    /// page, and no memory.
    pub fn is_bare(&self, span: Span) -> bool
        ensures inside { IsTrue result → end_of span ≤ length self.now.frames }
        ensures bare { IsTrue result → (page : ℕ) → holds span page ≡ true → IsBare self.now page }
        ensures only { end_of span ≤ length self.now.frames
            → ((page : ℕ) → holds span page ≡ true → IsBare self.now page) → IsTrue result }
    {
        if !self.has(span) {
            return false;
        }
        for page in span.start..span.start + span.pages {
            if self.frames.at(page).is_some() || self.stale.contains(page) {
                return false;
            }
        }
        true
    }

    /// Whether the pages of a span lie in the space and are mapped, as `unmap` wants them. It takes time for each page, and
    /// no memory.
    pub fn is_mapped(&self, span: Span) -> bool
        ensures inside { IsTrue result → end_of span ≤ length self.now.frames }
        ensures mapped { IsTrue result → (page : ℕ) → holds span page ≡ true
            → IsMapped self.now page }
        ensures only { end_of span ≤ length self.now.frames
            → ((page : ℕ) → holds span page ≡ true → IsMapped self.now page) → IsTrue result }
    {
        if !self.has(span) {
            return false;
        }
        for page in span.start..span.start + span.pages {
            if self.frames.at(page).is_none() {
                return false;
            }
        }
        true
    }

    /// Maps the pages of a span, which are neither mapped nor stale, as `__vmalloc_area_node` does: by rising number
    /// each gets the lowest free frame in place of one of `alloc_page`. The error comes where there are too few for all.
    /// It takes no memory.
    pub fn map(&mut self, span: Span) -> Result<(), NoFrames>
        requires inside { end_of span ≤ length self.old.frames }
        requires bare { (page : ℕ) → holds span page ≡ true → IsBare self.old page }
        ensures mapped { OnOk result (self.new ≡ with_mapped span self.old) }
        ensures enough { OnOk result (span.pages ≤ length (free_of self.old)) }
        ensures refused { IfErr result (λ refusal. refusal ≡ record {
          asked = span.pages;
          free = length (free_of self.old);
        }) }
        ensures too_few { OnErr result (length (free_of self.old) < span.pages) }
        ensures err { OnErr result (self.new ≡ self.old) }
    {
        let free = self.free.len();
        if free < span.pages {
            return Err(NoFrames {
                asked: span.pages,
                free,
            });
        }
        give_lowest(&mut self.frames, &mut self.free, span);
        self.mapped += span.pages;
        Ok(())
    }

    /// Unmaps the pages of a span, which are mapped, as `vunmap_range_noflush` does: their frames are free, and they
    /// are stale until a flush. It takes no memory.
    pub fn unmap(&mut self, span: Span)
        requires inside { end_of span ≤ length self.old.frames }
        requires mapped { (page : ℕ) → holds span page ≡ true → IsMapped self.old page }
        ensures unmapped { self.new ≡ with_unmapped span self.old }
    {
        take_back(&mut self.frames, &mut self.free, span);
        self.mapped -= span.pages;
        self.stale.mark(span);
    }

    /// No page of a span is stale any more, as after `flush_tlb_kernel_range`. It takes time for each 4,096 pages of
    /// the span, for each 64 of those in which one was stale, and for each stale page. It takes no memory.
    pub fn flush(&mut self, span: Span)
        requires inside { end_of span ≤ length self.old.frames }
        ensures flushed { self.new ≡ with_flushed span self.old }
    {
        self.stale.flush(span);
    }

    /// The frame of a page, where it is mapped, as `vmalloc_to_page` gives it for an address. It takes no memory.
    pub fn translate(&self, page: u32) -> Option<u32>
        ensures frame { result ≡ frame_of self.now.frames page }
    {
        if page < self.frames.len() {
            self.frames.at(page)
        } else {
            None
        }
    }

    /// Whether a page was unmapped and not flushed since. No page outside the space is stale. It takes no memory.
    pub fn is_stale(&self, page: u32) -> bool
        ensures stale { IsTrue result ↔ (slice_get self.now.stale page ≡ Some true) }
    {
        self.stale.contains(page)
    }

    /// How many frames no page has. It takes no memory.
    pub fn free_frames(&self) -> u32
        ensures count { result ≡ length (free_of self.now) }
    {
        self.free.len()
    }

    /// How many pages are mapped. It takes no memory.
    pub fn mapped(&self) -> u32
        ensures count { result ≡ mapped_count self.now }
    {
        self.mapped
    }

    /// How many pages are stale. It takes no memory.
    pub fn stale(&self) -> u32
        ensures count { result ≡ stale_count self.now }
    {
        self.stale.len()
    }
}
