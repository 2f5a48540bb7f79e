//! The pages that a balance fills.
ghost use Rattle.std.specs.Prelude.{◌≡◌, ◌<◌, ◌^◌, option_map};
ghost use Rattle.vm_model.specs.Chunks.{empty_count, page_to_fill};
ghost use Rattle.chunk_slots.specs.ChunkRegion.{setup_of, CanPopulate, with_populated};
ghost use Rattle.populate_balance.specs.Balance.{page_of, placed_page, told_page, page_in_chunk};

use chunk_slots::PcpuSide;

/// From so many empty populated pages on nothing is filled: `PCPU_EMPTY_POP_PAGES_HIGH` of the kernel.
const EMPTY_PAGES: u64 = 4;

/// A page that is not populated yet.
#[derive(Clone, Copy)]
pub struct UnpopulatedPage {
    /// The number of its chunk.
    pub chunk: u32,
    /// The chunk's base, in pages.
    pub base: u32,
    /// The page, in each unit.
    pub page: u32,
}

/// How many populated pages have no byte of an object, over all chunks: the kernel's `pcpu_nr_empty_pop_pages`. It takes no
/// memory.
pub fn empty_populated(side: &PcpuSide) -> u32
    requires { empty_count (setup_of side.now) side.now.chunks < 2 ^ 32 }
    ensures { result ≡ empty_count (setup_of side.now) side.now.chunks }
{
    side.empty_pages() as u32
}

/// The lowest unpopulated page of a chunk. None comes exactly where the chunk has none, or there is no such chunk.
fn lowest_unpopulated(side: &PcpuSide, chunk: u32) -> Option<UnpopulatedPage>
    ensures { option_map told_page result ≡ option_map placed_page (page_in_chunk chunk side.now) }
{
    let index = side.find(chunk)?;
    let page = side.populated_at(index).lowest_missing(side.unit_pages())?;
    let base = side.base_at(index);
    Some(UnpopulatedPage { chunk, base, page })
}

/// The page that a balance populates next, with its chunk and base: the lowest unpopulated page of the least chunk, by slot
/// and then by number, that has one. None comes exactly where at least 4 populated pages are empty, or no page is
/// unpopulated. It takes no memory.
pub fn next_page(side: &PcpuSide) -> Option<UnpopulatedPage>
    ensures { option_map told_page result ≡ option_map placed_page
        (page_to_fill (setup_of side.now) side.now.chunks) }
{
    if side.empty_pages() >= EMPTY_PAGES {
        return None;
    }
    for place in 0..side.chunks() {
        let chunk = side.in_order(place);
        let lowest = lowest_unpopulated(side, chunk);
        if lowest.is_some() {
            return lowest;
        }
    }
    None
}

/// The chunk and the page that a balance populates next, as `next_page` tells them. It takes no memory.
pub fn next_to_populate(side: &PcpuSide) -> Option<(u32, u32)>
    ensures { result ≡ option_map page_of (page_to_fill (setup_of side.now) side.now.chunks) }
{
    let next = next_page(side)?;
    Some((next.chunk, next.page))
}

/// A page of a chunk is populated, and all else stays. It takes no memory.
pub fn mark_populated(side: &mut PcpuSide, chunk: u32, page: u32)
    requires { CanPopulate chunk page side.old }
    ensures { side.new ≡ with_populated chunk page side.old }
{
    side.set_populated(chunk, page);
}
