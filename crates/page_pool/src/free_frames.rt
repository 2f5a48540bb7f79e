//! The free frames of memory, which `alloc_page` and `__free_page` take and give back in the kernel.
ghost use Rattle.std.specs.Prelude.{◌≡◌, ◌<◌, ◌∷◌, false, IfOk, length};
ghost use Rattle.vm_model.specs.Space.{count_from, is_among, put_by};
ghost use Rattle.page_pool.specs.FrameList.{FrameList};

use chunk_bitmaps::Bitmap;
use std::alloc::{AllocError, Global};
use std::marker::Model;

/// The most frames that a bitmap has bits for.
const MOST_FRAMES: u32 = 1 << 31;

/// A bit for each frame that is set where it is taken, how many are free, and a frame below which none is.
#[derive(Drop)]
pub(crate) struct FreeFrames {
    taken: Bitmap,
    free: u32,
    lowest: u32,
}

impl Model for FreeFrames {
    ghost use Rattle.page_pool.specs.FrameList.{FrameList, lowest_first, AreCounted};

    ghost Value = { FrameList };

    ghost view = { λ f. lowest_first f.taken };

    ghost invariant = { λ f. AreCounted f.taken f.free f.lowest };
}

impl FreeFrames {
    /// All frames of a memory. An error comes also where there are more than 2 ^ 31.
    pub(crate) fn all(alloc: Global, memory: u32) -> Result<FreeFrames, AllocError>
        ensures { IfOk result (λ free. free ≡ record {
          numbers = count_from memory 0;
          memory = memory;
        }) }
    {
        if memory > MOST_FRAMES {
            return Err(AllocError);
        }
        Ok(FreeFrames {
            taken: Bitmap::clear(alloc, memory)?,
            free: memory,
            lowest: 0,
        })
    }

    /// How many frames are free.
    pub(crate) fn len(&self) -> u32
        ensures { result ≡ length self.now.numbers }
    {
        self.free
    }

    /// Takes the lowest free frame.
    pub(crate) fn take_lowest(&mut self) -> u32
        requires { 0 < length self.old.numbers }
        ensures { self.old ≡ record self.new { numbers = result ∷ self.new.numbers } }
    {
        let frame = self.taken.find_next(false, self.lowest, self.taken.len());
        self.taken.put(frame, true);
        self.free -= 1;
        self.lowest = frame + 1;
        frame
    }

    /// Gives a frame back, which was taken.
    pub(crate) fn put_back(&mut self, frame: u32)
        requires memory { frame < self.old.memory }
        requires taken { is_among self.old.numbers frame ≡ false }
        ensures { self.new ≡ record self.old { numbers = put_by (λ n. n) frame self.old.numbers } }
    {
        self.taken.put(frame, false);
        self.free += 1;
        self.lowest = self.lowest.min(frame);
    }
}
