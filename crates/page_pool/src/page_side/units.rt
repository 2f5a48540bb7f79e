//! Pages of the units of all processors, as the chunks of the per-CPU allocator have them. A unit begins so many pages
//! from a chunk's base on.
ghost use Rattle.std.specs.Prelude.{◌≡◌, ◌≤◌, ◌<◌, ◌+◌, ℕ, true, [], ◌∷◌, length, OnOk, OnErr, IfErr};
ghost use Rattle.vm_model.specs.Space.{is_among};
ghost use Rattle.page_pool.specs.PageMap.{free_of, IsBare, IsMapped};
ghost use Rattle.vm_model.specs.PageSets.{pages_in};
ghost use Rattle.page_pool.specs.Units.{pages_in_unit, pages_at, AreDistinct, AreBareOnce, with_frames_for, without_frame, without_frames_for};

use crate::page_side::{NoFrames, PageSide};
use vm_model::PageSet;

/// How many pages a set has.
fn count_of(pages: PageSet) -> u32
    ensures { result ≡ length (pages_in pages) }
{
    if pages.mask == 0 {
        return 0;
    }
    pages.count(64)
}

impl PageSide {
    /// Maps a page of a unit, which is neither mapped nor stale, to the lowest free frame.
    fn map_page(&mut self, base: u32, unit: u32, page: u32)
        requires bare { IsBare self.old (base + unit + page) }
        requires enough { 0 < length (free_of self.old) }
        ensures { self.new ≡ with_frames_for ((base + unit + page) ∷ []) self.old }
    {
        let frame = self.free.take_lowest();
        self.frames.set(base + unit + page, Some(frame));
        self.mapped += 1;
    }

    /// Maps the pages of a set in one unit, by rising page.
    fn map_unit(&mut self, base: u32, unit: u32, pages: PageSet)
        requires bare { AreBareOnce (pages_in_unit base unit (pages_in pages)) self.old }
        requires enough { length (pages_in pages) ≤ length (free_of self.old) }
        ensures { self.new ≡ with_frames_for (pages_in_unit base unit (pages_in pages)) self.old }
    {
        for page in 0..64 {
            if pages.contains(page) {
                self.map_page(base, unit, page);
            }
        }
    }

    /// Maps the pages of a set in the unit of each processor, as `pcpu_populate_chunk` does: by processor and then by
    /// page, each to the lowest free frame. They are neither mapped nor stale, and no two are the same. The error comes
    /// where there are too few frames for all. It takes no memory.
    pub fn populate(&mut self, base: u32, units: &[u32], pages: PageSet) -> Result<(), NoFrames>
        requires bare { (page : ℕ) → is_among (pages_at base units.now (pages_in pages)) page ≡ true
            → IsBare self.old page }
        requires distinct { AreDistinct (pages_at base units.now (pages_in pages)) }
        ensures mapped { OnOk result
            (self.new ≡ with_frames_for (pages_at base units.now (pages_in pages)) self.old) }
        ensures enough { OnOk result (length (pages_at base units.now (pages_in pages))
            ≤ length (free_of self.old)) }
        ensures refused { IfErr result
            (λ refusal. refusal ≡ record {
              asked = length (pages_at base units.now (pages_in pages));
              free = length
                  (free_of self.old);
            }) }
        ensures too_few { OnErr result (length (free_of self.old)
            < length (pages_at base units.now (pages_in pages))) }
        ensures err { OnErr result (self.new ≡ self.old) }
    {
        let free = self.free.len();
        let asked = (units.len() * count_of(pages) as usize) as u32;
        if free < asked {
            return Err(NoFrames { asked, free });
        }
        if asked == 0 {
            return Ok(());
        }
        for unit in units {
            self.map_unit(base, *unit, pages);
        }
        Ok(())
    }

    /// Unmaps a page of a unit, which is stale then.
    fn unmap_page(&mut self, base: u32, unit: u32, page: u32)
        requires { base + unit + page < length self.old.frames }
        ensures { self.new ≡ without_frame (base + unit + page) self.old }
    {
        let mapped = self.frames.at(base + unit + page);
        self.stale.mark_page(base + unit + page);
        let Some(frame) = mapped else {
            return;
        };
        self.frames.set(base + unit + page, None);
        self.free.put_back(frame);
        self.mapped -= 1;
    }

    /// Unmaps the pages of a set in one unit.
    fn unmap_unit(&mut self, base: u32, unit: u32, pages: PageSet)
        requires { (page : ℕ) → is_among (pages_in_unit base unit (pages_in pages)) page ≡ true
            → page < length self.old.frames }
        ensures { self.new ≡ without_frames_for
            (pages_in_unit base unit (pages_in pages)) self.old }
    {
        for page in 0..64 {
            if pages.contains(page) {
                self.unmap_page(base, unit, page);
            }
        }
    }

    /// Unmaps the pages of a set in the unit of each processor, as `pcpu_depopulate_chunk` does: all are mapped. Their
    /// frames are free then, and they are stale until a flush. It takes no memory.
    pub fn depopulate(&mut self, base: u32, units: &[u32], pages: PageSet)
        requires mapped { (page : ℕ) → is_among (pages_at base units.now (pages_in pages)) page
            ≡ true → IsMapped self.old page }
        ensures unmapped { self.new
            ≡ without_frames_for (pages_at base units.now (pages_in pages)) self.old }
    {
        for unit in units {
            self.unmap_unit(base, *unit, pages);
        }
    }
}
