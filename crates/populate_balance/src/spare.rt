//! The chunk that a balance gives up.
ghost use Rattle.std.specs.Prelude.{◌≡◌, IfSome, IfNone, option_map};
ghost use Rattle.vm_model.specs.Chunks.{spare_chunk};
ghost use Rattle.chunk_slots.specs.ChunkRegion.{setup_of, without_chunk};
ghost use Rattle.populate_balance.specs.Balance.{told_of, spare_in};

use chunk_slots::PcpuSide;
use vm_model::PageSet;

/// A wholly free chunk that was given up.
#[derive(Clone, Copy)]
pub struct SpareChunk {
    /// Its number.
    pub chunk: u32,
    /// Its base, in pages.
    pub base: u32,
    /// Its populated pages.
    pub populated: PageSet,
}

/// Takes out the second lowest-numbered of the wholly free chunks; the kernel keeps the first of its free list too. None
/// comes exactly where fewer than two are wholly free, and then nothing is changed. It takes no memory.
pub fn take_spare_chunk(side: &mut PcpuSide) -> Option<SpareChunk>
    ensures spare { option_map told_of result ≡ option_map (spare_in (setup_of side.old))
        (spare_chunk side.old.chunks) }
    ensures gone { IfSome result (λ spare. side.new ≡ without_chunk spare.chunk side.old) }
    ensures unchanged { IfNone result (side.new ≡ side.old) }
{
    let chunk = side.in_slot(side.free_slot(), 1)?;
    let index = side.find(chunk)?;
    let spare = SpareChunk {
        chunk,
        base: side.base_at(index),
        populated: side.populated_at(index),
    };
    side.remove_chunk(chunk);
    Some(spare)
}
