//! The words of per-CPU objects: 4 bytes each in the frames of the pages that hold them.
ghost use Rattle.std.specs.Prelude.{◌≡◌, ◌≤◌, ◌<◌, ◌+◌, ◌-◌, ◌*◌, ◌/◌, ◌+ℤ◌, ℕ, true, [], ◌∷◌, Some, length, take, FitsSigned};
ghost use Rattle.std.specs.Int.{w64};
ghost use Rattle.vm_model.specs.Space.{is_among};
ghost use Rattle.vm_model.specs.Frames.{cell_of, frame_of, zero_frame, zero_pages, pages_of_bytes, words_in_page};
ghost use Rattle.page_pool.specs.PageMap.{IsMapped};
ghost use Rattle.page_pool.specs.Units.{pages_in_unit, pages_at, bytes_at, with_zeroed, with_added, word_of, sum_of};

use crate::page_side::PageSide;
use vm_model::Span;

/// Which words of a page are some bytes of the unit, from an offset on.
fn words_in_page(off: u32, bytes: u32, page: u32) -> Span
    ensures { result ≡ words_in_page off bytes page }
{
    let first = 4096 * u64::from(page);
    let low = u64::from(off).max(first);
    let high = (u64::from(off) + u64::from(bytes)).min(first + 4096);
    Span {
        start: ((low - first) / 4) as u32,
        pages: (high.saturating_sub(low) / 4) as u32,
    }
}

impl PageSide {
    /// The frame of a page of a unit, which is mapped.
    fn frame_at(&self, base: u32, unit: u32, page: u32) -> u32
        requires { IsMapped self.now (base + unit + page) }
        ensures frame { frame_of self.now.frames (base + unit + page) ≡ Some result }
        ensures memory { 1024 * result + 1024 ≤ length self.now.cells }
    {
        match self.frames.at(base + unit + page) {
            Some(frame) => frame,
            None => unreachable!(),
        }
    }

    /// The cell of the word at a byte of a unit, whose page is mapped.
    fn cell_at(&self, base: u32, unit: u32, byte: u32) -> usize
        requires { IsMapped self.now (base + unit + byte / 4096) }
        ensures cell { cell_of self.now.frames (4096 * (base + unit) + byte) ≡ Some result }
        ensures memory { result < length self.now.cells }
    {
        let frame = self.frame_at(base, unit, byte / 4096);
        1024 * frame as usize + (byte % 4096 / 4) as usize
    }

    /// Some words of a page of a unit are 0.
    fn zero_page(&mut self, base: u32, unit: u32, page: u32, words: Span)
        requires { IsMapped self.old (base + unit + page) }
        ensures { self.new ≡ record self.old {
          cells = zero_frame (frame_of self.old.frames (base + unit + page)) words
              self.old.cells;
        } }
    {
        let frame = self.frame_at(base, unit, page);
        self.cells.clear(
            1024 * frame as usize + words.start as usize,
            words.pages as usize,
        );
    }

    /// The words from an offset of a unit on are 0.
    fn zero_unit(&mut self, base: u32, unit: u32, off: u32, bytes: u32)
        requires { (page : ℕ) → is_among (pages_in_unit base unit (pages_of_bytes off bytes)) page
            ≡ true → IsMapped self.old page }
        ensures { self.new ≡ record self.old {
          cells = zero_pages self.old.frames (base + unit) off bytes
              (pages_of_bytes off bytes) self.old.cells;
        } }
    {
        let end = u64::from(off) + u64::from(bytes);
        let last = (end.saturating_sub(1) / 4096) as u32;
        for page in off / 4096..last + 1 {
            self.zero_page(base, unit, page, words_in_page(off, bytes, page));
        }
    }

    /// Sets the words of so many bytes to 0 in the unit of each processor, from an offset of the unit on, as a new
    /// per-CPU object has them. Their pages are mapped. It takes no memory.
    pub fn zero_words(&mut self, base: u32, units: &[u32], off: u32, bytes: u32)
        requires mapped { (page : ℕ)
            → is_among (pages_at base units.now (pages_of_bytes off bytes)) page ≡ true
            → IsMapped self.old page }
        ensures zeroed { self.new ≡ with_zeroed base units.now off bytes self.old }
    {
        if self.cells.is_blank() {
            return;
        }
        for unit in units {
            self.zero_unit(base, *unit, off, bytes);
        }
    }

    /// Adds an amount to the word at an offset of a unit, as `this_cpu_add` does. Its page is mapped, and the sum fits.
    /// It takes no memory.
    pub fn add_word(&mut self, base: u32, unit: u32, off: u32, amount: i32)
        requires mapped { IsMapped self.old (base + unit + off / 4096) }
        requires fits { FitsSigned w64 (word_of self.old (4096 * (base + unit) + off) +ℤ amount) }
        ensures added { self.new ≡ with_added (4096 * (base + unit) + off) amount self.old }
    {
        let cell = self.cell_at(base, unit, off);
        let word = self.cells.read(cell);
        self.cells.write(cell, word + i64::from(amount));
    }

    /// The words at an offset of the unit of each processor, added up, as `per_cpu_sum` does. Their pages are mapped, and
    /// the sums up to each of them fit. It takes no memory.
    pub fn sum_words(&self, base: u32, units: &[u32], off: u32) -> i64
        requires mapped { (page : ℕ) → is_among (pages_at base units.now (off / 4096 ∷ [])) page
            ≡ true → IsMapped self.now page }
        requires fit { (count : ℕ)
            → FitsSigned w64 (sum_of self.now (bytes_at base (take count units.now) off)) }
        ensures sum { result ≡ sum_of self.now (bytes_at base units.now off) }
    {
        let mut sum = 0;
        for unit in units {
            sum += self.cells.read(self.cell_at(base, *unit, off));
        }
        sum
    }
}
