//! Which pages are stale: those whose old frames a TLB may still have, until `flush_tlb_kernel_range`.
ghost use Rattle.std.specs.Prelude.{◌≡◌, ◌+◌, ◌/◌, ◌%◌, ◌<◌, ◌≤◌, ◌^◌, ℕ, true, false, IfOk, length, replicate, slice_get, slice_set};
ghost use Rattle.vm_model.specs.Space.{holds, end_of, paint};
ghost use Rattle.chunk_bitmaps.specs.Bitmap.{IsNextBit};
ghost use Rattle.page_pool.specs.StaleList.{is_set, set_count};

use chunk_bitmaps::Bitmap;
use std::alloc::{AllocError, Global};
use std::marker::Model;
use vm_model::Span;

/// How many pages a group has, which a flush passes over where none of them is stale.
const GROUP: u32 = 64;

/// How many pages a cluster of 64 groups has, which a flush passes over too where none of them is stale.
const CLUSTER: u32 = 64 * GROUP;

/// The most pages that a bitmap has bits for.
const MOST_PAGES: u32 = 1 << 31;

/// A bit for each page that is set where it is stale, and how many pages of each group and of each cluster are.
#[derive(Drop)]
pub(crate) struct StalePages {
    flags: Bitmap,
    groups: Vec<u16>,
    clusters: Vec<u16>,
    count: u32,
}

impl Model for StalePages {
    ghost use Rattle.std.specs.Prelude.{Bool, List};
    ghost use Rattle.page_pool.specs.StaleList.{AreCounted};

    ghost Value = { List Bool };

    ghost view = { λ s. s.flags };

    ghost invariant = { λ s. AreCounted s.flags s.groups.items s.clusters.items s.count };
}

impl StalePages {
    /// So many pages, none of them stale. An error comes also where there are more than 2 ^ 31.
    pub(crate) fn none(alloc: Global, space: u32) -> Result<StalePages, AllocError>
        ensures { IfOk result (λ pages. pages ≡ replicate space false) }
    {
        if space > MOST_PAGES {
            return Err(AllocError);
        }
        let flags = Bitmap::clear(alloc, space)?;
        let groups = vec![in alloc; 0; space.div_ceil(GROUP) as usize]?;
        let clusters = vec![in alloc; 0; space.div_ceil(CLUSTER) as usize]?;
        Ok(StalePages {
            flags,
            groups,
            clusters,
            count: 0,
        })
    }

    /// Whether a page is stale.
    pub(crate) fn contains(&self, page: u32) -> bool
        ensures { result ≡ is_set (slice_get self.now page) }
    {
        if page < self.flags.len() {
            self.flags.contains(page)
        } else {
            false
        }
    }

    /// The page is stale from now on.
    pub(crate) fn mark_page(&mut self, page: u32)
        requires inside { page < length self.old }
        requires space { length self.old < 2 ^ 32 }
        ensures { self.new ≡ slice_set self.old page true }
    {
        if self.flags.contains(page) {
            return;
        }
        self.flags.put(page, true);
        self.groups[(page / GROUP) as usize] += 1;
        self.clusters[(page / CLUSTER) as usize] += 1;
        self.count += 1;
    }

    /// The pages of a span, which lies in one group and of which none is stale, are stale from now on.
    fn mark_run(&mut self, span: Span)
        requires inside { end_of span ≤ length self.old }
        requires space { length self.old < 2 ^ 32 }
        requires pages { 0 < span.pages }
        requires group { span.start % 64 + span.pages ≤ 64 }
        requires fresh { IsNextBit self.old true span.start (end_of span) (end_of span) }
        ensures { self.new ≡ paint (holds span) true self.old }
    {
        self.flags.fill(span.start, span.pages, true);
        self.groups[(span.start / GROUP) as usize] += span.pages as u16;
        self.clusters[(span.start / CLUSTER) as usize] += span.pages as u16;
        self.count += span.pages;
    }

    /// The pages of a span, which lies in one group, are stale from now on.
    fn mark_group(&mut self, span: Span)
        requires inside { end_of span ≤ length self.old }
        requires space { length self.old < 2 ^ 32 }
        requires pages { 0 < span.pages }
        requires group { span.start % 64 + span.pages ≤ 64 }
        ensures { self.new ≡ paint (holds span) true self.old }
    {
        let end = span.start + span.pages;
        if self.next_stale(span.start, end) == end {
            self.mark_run(span);
            return;
        }
        for page in span.start..end {
            self.mark_page(page);
        }
    }

    /// The pages of a span are stale from now on.
    pub(crate) fn mark(&mut self, span: Span)
        requires inside { end_of span ≤ length self.old }
        requires space { length self.old < 2 ^ 32 }
        ensures { self.new ≡ paint (holds span) true self.old }
    {
        let end = span.start + span.pages;
        let mut page = span.start;
        while page < end {
            let pages = (GROUP - page % GROUP).min(end - page);
            self.mark_group(Span { start: page, pages });
            page += pages;
        }
    }

    /// The pages of a span, which lies in one group and all of which are stale, are no longer stale.
    fn clear_run(&mut self, span: Span)
        requires inside { end_of span ≤ length self.old }
        requires pages { 0 < span.pages }
        requires group { span.start % 64 + span.pages ≤ 64 }
        requires stale { IsNextBit self.old false span.start (end_of span) (end_of span) }
        ensures { self.new ≡ paint (holds span) false self.old }
    {
        self.flags.fill(span.start, span.pages, false);
        self.groups[(span.start / GROUP) as usize] -= span.pages as u16;
        self.clusters[(span.start / CLUSTER) as usize] -= span.pages as u16;
        self.count -= span.pages;
    }

    /// The first stale page from one on and before the end, or the end.
    fn next_stale(&self, from: u32, end: u32) -> u32
        requires order { from ≤ end }
        requires within { end ≤ length self.now }
        ensures { IsNextBit self.now true from end result }
    {
        self.flags.find_next(true, from, end)
    }

    /// No page of a span, which lies in one group, is stale any more.
    fn clear(&mut self, span: Span)
        requires inside { end_of span ≤ length self.old }
        requires space { length self.old < 2 ^ 32 }
        requires group { span.start % 64 + span.pages ≤ 64 }
        ensures { self.new ≡ paint (holds span) false self.old }
    {
        let end = span.start + span.pages;
        let mut page = self.next_stale(span.start, end);
        while page < end {
            let behind = self.flags.find_next(false, page, end);
            self.clear_run(Span {
                start: page,
                pages: behind - page,
            });
            page = self.next_stale(behind, end);
        }
    }

    /// No page of a span, which lies in one group, is stale any more.
    fn flush_group(&mut self, span: Span)
        requires inside { end_of span ≤ length self.old }
        requires space { length self.old < 2 ^ 32 }
        requires pages { 0 < span.pages }
        requires group { span.start % 64 + span.pages ≤ 64 }
        ensures { self.new ≡ paint (holds span) false self.old }
    {
        if self.groups[(span.start / GROUP) as usize] > 0 {
            self.clear(span);
        }
    }

    /// No page of a span is stale any more. It takes time for each group, and for each stale page.
    fn flush_groups(&mut self, span: Span)
        requires inside { end_of span ≤ length self.old }
        requires space { length self.old < 2 ^ 32 }
        ensures { self.new ≡ paint (holds span) false self.old }
    {
        let end = span.start + span.pages;
        let mut page = span.start;
        while page < end {
            let pages = (GROUP - page % GROUP).min(end - page);
            self.flush_group(Span { start: page, pages });
            page += pages;
        }
    }

    /// No page of a span, which lies in one cluster, is stale any more.
    fn flush_cluster(&mut self, span: Span)
        requires inside { end_of span ≤ length self.old }
        requires space { length self.old < 2 ^ 32 }
        requires pages { 0 < span.pages }
        requires cluster { (page : ℕ) → holds span page ≡ true → page / 4096 ≡ span.start / 4096 }
        ensures { self.new ≡ paint (holds span) false self.old }
    {
        if self.clusters[(span.start / CLUSTER) as usize] > 0 {
            self.flush_groups(span);
        }
    }

    /// No page of a span is stale any more. It takes time for each cluster, for each group of the clusters that have a
    /// stale page, and for each stale page.
    pub(crate) fn flush(&mut self, span: Span)
        requires inside { end_of span ≤ length self.old }
        requires space { length self.old < 2 ^ 32 }
        ensures { self.new ≡ paint (holds span) false self.old }
    {
        let end = span.start + span.pages;
        let mut page = span.start;
        while page < end {
            let pages = (CLUSTER - page % CLUSTER).min(end - page);
            self.flush_cluster(Span { start: page, pages });
            page += pages;
        }
    }

    /// How many pages are stale.
    pub(crate) fn len(&self) -> u32
        ensures { result ≡ set_count self.now }
    {
        self.count
    }
}
