//! A chunk as its side keeps it.
ghost use Rattle.std.specs.Prelude.{◌≡◌, ◌+◌, ◌-◌, ◌*◌, ◌/◌, ◌<◌, ◌≤◌, ◌&&◌, not, if◌then◌else◌, ℕ, true, false, Some, IsTrue, ◌↔◌, IfOk, IfSome, IfNone, OnOk, length, filter, slice_get, MatchOption, [], ◌∷◌, ◌++◌};
ghost use Rattle.vm_model.specs.Space.{lowest, count_from, is_among};
ghost use Rattle.vm_model.specs.Bits.{slot_of, hint_of, block_bits, free_count};
ghost use Rattle.vm_model.specs.Frames.{pages_of_bytes};
ghost use Rattle.chunk_bitmaps.specs.ChunkMap.{taken_bits, object_bits_at, with_object_at, objects_from};
ghost use Rattle.vm_model.specs.PageSets.{has_page};
ghost use Rattle.block_hints.specs.Populated.{blocked_bits};
ghost use Rattle.chunk_slots.specs.KeptChunks.{KeptRow, fresh_row, taken_for, slot_in, empty_in, row_of, bytes_at, with_bits, without_bits, with_pages, has_populated, populated_in, pages_as, page_is_free, audit_of, hints_of};
ghost use Rattle.vm_model.specs.PageSets.{pages_in};

use crate::plain_scan::{plain_bits, plain_empty, plain_hint, plain_slot};
use crate::rising::Keyed;
use crate::sizes::slot_for;
use block_hints::HintedChunk;
use chunk_bitmaps::{BLOCK_BITS, ChunkBits};
use std::alloc::{AllocError, Global};
use std::marker::Model;
use vm_model::{ChunkAudit, ChunkRow, Hint, HintRow, PageSet, Span, plain_longest};

/// The bytes of a page.
const PAGE_BYTES: u32 = 4096;

/// A chunk, the kernel's `pcpu_chunk`: its bits with their hints, its populated pages, its slot, and how many
/// populated pages have no taken bit (`nr_empty_pop_pages`).
#[derive(Drop)]
pub(crate) struct KeptChunk {
    number: u32,
    base: u32,
    pages: u32,
    populated: PageSet,
    bits: HintedChunk,
    slot: u32,
    empty: u32,
}

impl Model for KeptChunk {
    ghost use Rattle.chunk_slots.specs.KeptChunks.{KeptRow, pages_as, IsKept};

    ghost Value = { KeptRow };

    ghost view = { λ c. record {
      number = c.number;
      base = c.base;
      populated = pages_as c.pages c.populated;
      bits = c.bits;
    } };

    ghost invariant = { λ c. IsKept c.pages c.populated c.bits (record {
      number = c.number;
      base = c.base;
      populated = pages_as c.pages c.populated;
      bits = c.bits;
    }) c.slot c.empty };
}

impl Keyed for KeptChunk {
    ghost key = { λ c. c.number };

    fn key(&self) -> u64 {
        u64::from(self.number)
    }
}

/// The slot of a chunk: the kernel's `pcpu_chunk_slot`. A wholly free chunk has one of its own, above all sizes.
fn slot_of_bits(bits: &HintedChunk, pages: u32) -> u32
    requires some { 1 ≤ pages }
    requires most { pages ≤ 64 }
    requires size { bits.now.bits ≡ 1024 * pages }
    ensures { result ≡ slot_of (taken_bits bits.now) }
{
    let run = bits.longest().run;
    if run == 0 {
        0
    } else if run == BLOCK_BITS * pages {
        slot_for(PAGE_BYTES * pages) + 2
    } else {
        slot_for(4 * run)
    }
}

/// How many bits are free. It takes time for each run of the chunk and each word of it.
fn count_free(bits: &ChunkBits) -> u32
    ensures { result ≡ free_count (taken_bits bits.now) }
{
    let end = bits.len();
    let mut free = 0;
    let mut place = 0;
    while place < end {
        let start = bits.find_next(false, place, end);
        place = bits.find_next(true, start, end);
        free += place - start;
    }
    free
}

/// How many populated pages have no taken bit.
fn count_empty(bits: &HintedChunk, populated: PageSet, pages: u32) -> u32
    requires most { pages ≤ 64 }
    requires size { bits.now.bits ≡ 1024 * pages }
    ensures { result ≡ length
        (filter (λ page. page_is_free bits.now page && has_page populated page)
        (count_from pages 0)) }
{
    let mut empty = 0;
    for page in 0..pages {
        if bits.hint(page).left == BLOCK_BITS && populated.contains(page) {
            empty += 1;
        }
    }
    empty
}

/// The pages in which an object of a unit of so many pages has a byte.
fn pages_of_object(off: u32, bytes: u32) -> PageSet
    requires some { 1 ≤ bytes }
    requires within { off + bytes ≤ 262144 }
    ensures pages { pages_in result ≡ pages_of_bytes off bytes }
    ensures among { (page : ℕ) → page < 64
        → has_page result page ≡ is_among (pages_of_bytes off bytes) page }
{
    let first = off / PAGE_BYTES;
    PageSet::pages_from(first, (off + bytes - 1) / PAGE_BYTES + 1 - first)
}

/// Takes the lowest fit for so many bits, an atomic one only among populated pages.
fn take_bits(
    bits: &mut HintedChunk,
    populated: PageSet,
    count: u32,
    align: u32,
    atomic: bool,
) -> Option<u32>
    requires count { 1 ≤ count }
    requires align { 1 ≤ align }
    ensures place { result ≡ lowest (if atomic then blocked_bits populated bits.old
        else taken_bits bits.old) count align }
    ensures placed { IfSome result (λ at. bits.new ≡ with_object_at at count bits.old) }
    ensures none { IfNone result (bits.new ≡ bits.old) }
{
    if atomic {
        bits.place_populated(count, align, populated)
    } else {
        bits.place(count, align)
    }
}

impl KeptChunk {
    /// A chunk of so many pages, of which nothing is populated and nothing taken.
    pub(crate) fn new(
        alloc: Global,
        number: u32,
        base: u32,
        pages: u32,
    ) -> Result<KeptChunk, AllocError>
        requires some { 1 ≤ pages }
        requires most { pages ≤ 64 }
        ensures { IfOk result (λ chunk. chunk ≡ fresh_row number base pages) }
    {
        let bits = HintedChunk::new(alloc, pages)?;
        let slot = slot_of_bits(&bits, pages);
        Ok(KeptChunk {
            number,
            base,
            pages,
            populated: PageSet { mask: 0 },
            bits,
            slot,
            empty: 0,
        })
    }

    pub(crate) fn number(&self) -> u32
        ensures { result ≡ self.now.number }
    {
        self.number
    }

    pub(crate) fn base(&self) -> u32
        ensures { result ≡ self.now.base }
    {
        self.base
    }

    pub(crate) fn slot(&self) -> u32
        ensures { result ≡ slot_in self.now }
    {
        self.slot
    }

    /// How many populated pages have no taken bit.
    pub(crate) fn empty(&self) -> u32
        ensures { result ≡ length (empty_in self.now) }
    {
        self.empty
    }

    pub(crate) fn populated(&self) -> PageSet
        ensures pages { pages_in result ≡ populated_in self.now }
        ensures each { (page : ℕ) → page < length self.now.populated
            → has_page result page ≡ has_populated self.now page }
    {
        let all = PageSet::pages_from(0, self.pages);
        all.without(all.without(self.populated))
    }

    pub(crate) fn hint(&self, block: u32) -> Hint
        requires { 1024 * block < self.now.bits.bits }
        ensures { result ≡ hint_of (block_bits (taken_bits self.now.bits) block) }
    {
        self.bits.hint(block)
    }

    pub(crate) fn row(&self) -> ChunkRow
        ensures { result ≡ row_of self.now }
    {
        let longest = self.bits.longest();
        ChunkRow {
            chunk: self.number,
            base: self.base,
            slot: self.slot,
            free: 4 * count_free(self.bits.bits()),
            populated: self.populated.count(self.pages),
            empty: self.empty,
            run_start: longest.run_start,
            run: longest.run,
        }
    }

    /// The bits one after another, true where taken. It takes memory for them.
    pub(crate) fn plain_bits(&self, alloc: Global) -> Result<Vec<bool>, AllocError>
        ensures { IfOk result (λ plain. plain.items ≡ taken_bits self.now.bits) }
    {
        plain_bits(alloc, self.bits.bits())
    }

    /// The numbers of the chunk that a scan of its bits finds.
    pub(crate) fn audit(&self, plain: &[bool]) -> ChunkAudit
        requires { plain.now ≡ taken_bits self.now.bits }
        ensures { result ≡ audit_of self.now }
    {
        let pages = self.pages;
        let (run_start, run) = plain_longest(plain);
        ChunkAudit {
            chunk: self.number,
            run_start,
            run,
            slot: plain_slot(plain),
            empty: plain_empty(plain, self.populated, pages),
        }
    }

    /// Appends the hint of each page of the bits, as it is kept and as a scan of the page finds it. After an error some of
    /// them may be there.
    pub(crate) fn push_hints(
        &self,
        plain: &[bool],
        rows: &mut Vec<HintRow>,
    ) -> Result<(), AllocError>
        requires { plain.now ≡ taken_bits self.now.bits }
        ensures { OnOk result (rows.new.items ≡ rows.old.items ++ hints_of self.now) }
    {
        for block in 0..self.pages {
            let low = (BLOCK_BITS * block) as usize;
            rows.push(HintRow {
                chunk: self.number,
                block,
                kept: self.bits.hint(block),
                plain: plain_hint(&plain[low..low + 1024]),
            })?;
        }
        Ok(())
    }

    /// Takes the lowest fit for an object of so many bits, as `pcpu_alloc_area`; an atomic one only among populated
    /// pages. None comes exactly where there is none. It takes no memory.
    pub(crate) fn place(&mut self, bits: u32, align: u32, atomic: bool) -> Option<u32>
        requires bits { 1 ≤ bits }
        requires align { 1 ≤ align }
        ensures place { result ≡ lowest (taken_for atomic self.old) bits align }
        ensures placed { IfSome result (λ at. self.new ≡ with_bits at bits self.old) }
        ensures none { IfNone result (self.new ≡ self.old) }
    {
        let at = take_bits(&mut self.bits, self.populated, bits, align, atomic)?;
        self.slot = slot_of_bits(&self.bits, self.pages);
        self.empty = count_empty(&self.bits, self.populated, self.pages);
        Some(at)
    }

    /// Frees the bits of the object that begins at a bit, as `pcpu_free_area`, and tells how many there were.
    pub(crate) fn free(&mut self, at: u32) -> Option<u32>
        requires { at < self.old.bits.bits }
        ensures bits { result ≡ object_bits_at at self.old.bits }
        ensures freed { self.new ≡ without_bits at self.old }
    {
        let bits = self.bits.free(at)?;
        self.slot = slot_of_bits(&self.bits, self.pages);
        self.empty = count_empty(&self.bits, self.populated, self.pages);
        Some(bits)
    }

    /// The bytes of the object at an offset. None comes exactly where no object begins there.
    pub(crate) fn object_at(&self, off: u32) -> Option<u32>
        ensures { result ≡ bytes_at off self.now }
    {
        let _ = &self.bits;
        if off % 4 != 0 {
            return None;
        }
        let bits = self.bits.bits().object_at(off / 4)?;
        Some(4 * bits)
    }

    /// The first object that begins at a bit or behind it, by its bits.
    pub(crate) fn next_object(&self, from: u32) -> Option<Span>
        requires { from ≤ self.now.bits.bits }
        ensures next { MatchOption result (objects_from from self.now.bits ≡ [])
            (λ s. objects_from from self.now.bits
            ≡ s ∷ objects_from (s.start + s.pages) self.now.bits) }
        ensures within { IfSome result (λ s. (1 ≤ s.pages) × (from ≤ s.start)
            × (s.start + s.pages ≤ self.now.bits.bits)) }
        ensures few { self.now.bits.bits ≤ 65536 }
    {
        let _few = self.pages;
        self.bits.bits().next_object(from)
    }

    /// Pages become populated: `pcpu_chunk_populated`.
    pub(crate) fn populate(&mut self, pages: PageSet)
        ensures { self.new ≡ with_pages (has_page pages) self.old }
    {
        let missing = pages.without(self.populated);
        if missing.mask == 0 {
            return;
        }
        self.populated = self.populated.with(pages);
        self.empty = count_empty(&self.bits, self.populated, self.pages);
    }

    /// The pages of an object become populated.
    pub(crate) fn populate_object(&mut self, off: u32, bytes: u32)
        requires some { 1 ≤ bytes }
        requires within { off + bytes ≤ 4 * self.old.bits.bits }
        ensures { self.new ≡ with_pages (is_among (pages_of_bytes off bytes)) self.old }
    {
        let _ = &self.bits;
        self.populate(pages_of_object(off, bytes));
    }

    /// Whether it has a page that is not populated, and of which no bit is taken.
    pub(crate) fn can_populate(&self, page: u32) -> bool
        ensures { IsTrue result ↔ (slice_get self.now.populated page ≡ Some false)
            × (page_is_free self.now.bits page ≡ true) }
    {
        page < self.pages
            && !self.populated.contains(page)
            && self.bits.hint(page).left == BLOCK_BITS
    }

    /// The pages of an object that are not populated.
    pub(crate) fn missing(&self, off: u32, bytes: u32) -> PageSet
        requires some { 1 ≤ bytes }
        requires within { off + bytes ≤ 4 * self.now.bits.bits }
        ensures { pages_in result ≡ filter (λ page. not (has_populated self.now page))
            (pages_of_bytes off bytes) }
    {
        let populated = self.populated;
        pages_of_object(off, bytes).without(populated)
    }
}
