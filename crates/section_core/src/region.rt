//! The regions of an allocator, each of which one lock guards.
ghost use Rattle.std.specs.Prelude.{◌≡◌, ◌++◌, ℕ, ℤ, Bool, List, map, Option, IfOk, OnOk};
ghost use Rattle.vm_model.specs.Space.{count_from};
ghost use Rattle.vm_model.specs.Setup.{cpus};
ghost use Rattle.vm_model.specs.declared.areas.Span.{Span};
ghost use Rattle.vm_model.specs.declared.areas.Area.{Area};
ghost use Rattle.vm_model.specs.Parts as parts;
ghost use Rattle.vm_model.specs.PlainMap.{at_first};
ghost use Rattle.vm_model.specs.Parts.{regions_of, cpu_blocks, FreeRuns, LiveAreas, WaitingSpans, CpuBlocks};
ghost use Rattle.vm_model.specs.PlainMap.{Block, Chunk};
ghost use Rattle.unit_layout.specs.Config.{setup_of};
ghost use Rattle.vm_model.specs.Rules.{IsSetup};
ghost use Rattle.section_core.specs.RegionSides.{region_of};

use augmented_tree::FreeSide;
use busy_areas::BusySide;
use chunk_slots::PcpuSide;
use lazy_purge::LazySide;
use map_blocks::BlockSide;
use page_pool::PageSide;
use std::alloc::{AllocError, Global};
use std::marker::Model;
use unit_layout::Config;

/// What a region holds.
#[derive(Drop)]
pub(crate) enum Side {
    /// The desk, at which calls are refused, holds nothing.
    Desk,
    /// The caller that has the purge turn, the kernel's `vmap_purge_lock`.
    Purge(Option<u16>),
    /// The caller that has the alloc turn, the kernel's `pcpu_alloc_mutex`.
    Alloc(Option<u16>),
    /// The free blocks.
    Free(FreeSide),
    /// The live areas.
    Busy(BusySide),
    /// The spans that wait for a purge, the kernel's `purge_vmap_area_list`.
    Lazy(LazySide),
    /// The page map.
    Pages(PageSide),
    /// The per-CPU chunks, which the kernel's `pcpu_lock` guards.
    Percpu(PcpuSide),
    /// The blocks of a processor, its `vmap_block_queue` in the kernel.
    Blocks(BlockSide),
}

/// One of the regions of an allocator.
#[derive(Drop)]
pub struct Region {
    pub(crate) side: Side,
}

impl Model for Region {
    ghost use Rattle.vm_model.specs.Parts as parts;

    ghost Value = { parts.Region };

    ghost use Rattle.section_core.specs.RegionSides.{region_of};

    ghost view = { λ r. region_of r.side };
}

impl Region {
    fn of(side: Side) -> Region
        ensures { result ≡ region_of side }
    {
        Region { side }
    }
}

impl Region {
    /// The free blocks, of the region that has them.
    pub fn free(&self) -> &FreeSide
        requires { (blocks : List Span) × (self.now ≡ FreeRuns blocks) }
        ensures { self.now ≡ FreeRuns result.now.blocks }
    {
        match &self.side {
            Side::Free(free) => free,
            _ => unreachable!(),
        }
    }

    /// The live areas, of the region that has them.
    pub fn busy(&self) -> &BusySide
        requires { (areas : List Area) × (next : ℕ) × (self.now ≡ LiveAreas areas next) }
        ensures { self.now ≡ LiveAreas result.now.areas result.now.next }
    {
        match &self.side {
            Side::Busy(busy) => busy,
            _ => unreachable!(),
        }
    }

    /// The spans that wait, of the region that has them.
    pub fn lazy(&self) -> &LazySide
        requires { (spans : List Span) × (self.now ≡ WaitingSpans spans) }
        ensures { self.now ≡ WaitingSpans result.now }
    {
        match &self.side {
            Side::Lazy(lazy) => lazy,
            _ => unreachable!(),
        }
    }

    /// The blocks of a processor, of the region that has them.
    pub fn blocks(&self) -> &BlockSide
        requires { (cpu : ℕ) × (pages : ℕ) × (blocks : List Block) × (next : ℕ)
            × (self.now ≡ CpuBlocks cpu pages blocks next) }
        ensures { self.now ≡ CpuBlocks result.now.cpu result.now.pages result.now.blocks
            result.now.next }
    {
        match &self.side {
            Side::Blocks(blocks) => blocks,
            _ => unreachable!(),
        }
    }

    /// The page map, of the region that has it.
    pub fn pages(&self) -> &PageSide
        requires { (frames : List (Option ℕ)) × (stale : List Bool) × (cells : List ℤ)
            × (self.now ≡ parts.Pages frames stale cells) }
        ensures { self.now ≡ parts.Pages result.now.frames result.now.stale result.now.cells }
    {
        match &self.side {
            Side::Pages(pages) => pages,
            _ => unreachable!(),
        }
    }

    /// The per-CPU chunks, of the region that has them.
    pub fn percpu(&self) -> &PcpuSide
        requires { (chunks : List Chunk) × (next_object : ℕ) × (next_chunk : ℕ) × (room : ℕ)
            × (self.now ≡ parts.Percpu chunks next_object next_chunk room) }
        ensures { self.now ≡ parts.Percpu result.now.chunks result.now.next_object
            result.now.next_chunk result.now.room }
    {
        match &self.side {
            Side::Percpu(percpu) => percpu,
            _ => unreachable!(),
        }
    }
}

/// Puts the regions of the processors' blocks behind those that are there.
fn push_blocks(alloc: Global, config: &Config, regions: &mut Vec<Region>) -> Result<(), AllocError>
    requires { IsSetup (setup_of config.now) }
    ensures { OnOk result (regions.new.items ≡ regions.old.items ++ map
        (cpu_blocks (at_first (setup_of config.now) 0) config.now.block_pages)
        (count_from (cpus (setup_of config.now)) 0)) }
{
    for cpu in 0..config.layout.cpus() {
        let blocks = BlockSide::new(alloc, cpu, config.block_pages);
        regions.push(Region::of(Side::Blocks(blocks)))?;
    }
    Ok(())
}

/// The regions of a space where nothing has happened: every page is free, nothing is mapped, and there is room for so many
/// objects.
pub fn first_regions(alloc: Global, config: &Config, room: u32) -> Result<Vec<Region>, AllocError>
    requires { IsSetup (setup_of config.now) }
    ensures { IfOk result (λ regions. regions.items ≡ regions_of (setup_of config.now)
        (at_first (setup_of config.now) room)) }
{
    let free = FreeSide::whole(alloc, config.space)?;
    let pages = PageSide::new(alloc, config.space, config.frames)?;
    let percpu = PcpuSide::with_room(alloc, config.layout.unit_pages(), room)?;
    let mut regions = vec![in alloc;
        Region::of(Side::Desk),
        Region::of(Side::Purge(None)),
        Region::of(Side::Alloc(None)),
        Region::of(Side::Free(free)),
        Region::of(Side::Busy(BusySide::new(alloc))),
        Region::of(Side::Lazy(LazySide::new(alloc))),
        Region::of(Side::Pages(pages)),
        Region::of(Side::Percpu(percpu)),
    ]?;
    push_blocks(alloc, config, &mut regions)?;
    Ok(regions)
}

/// How a step ended.
#[derive(Clone, Copy)]
pub enum Stepped {
    /// The caller made its next section.
    Moved,
    /// Its section takes a turn that another caller has. Nothing changed.
    Stays,
    /// All its calls are answered. Nothing changed.
    Ended,
}
