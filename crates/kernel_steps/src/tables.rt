//! The replies and the tables of a kernel.
ghost use Rattle.std.specs.Prelude.{◌≡◌, List, All, drop, reverse, IfOk, if◌then◌else◌, []};
ghost use Rattle.vm_model.specs.declared.calls.Call.{Call};
ghost use Rattle.vm_model.specs.declared.areas.Span.{Span};
ghost use Rattle.vm_model.specs.Space.{sort_by, longest_of};
ghost use Rattle.vm_model.specs.History.{World};
ghost use Rattle.vm_model.specs.Setup.{Setup};
ghost use Rattle.vm_model.specs.Parts.{regions_of};
ghost use Rattle.vm_model.specs.Tables.{entries_of, tables_of};
ghost use Rattle.unit_layout.specs.Config.{setup_of};
ghost use Rattle.unit_layout.specs.declared.config.Config.{Config};
ghost use Rattle.section_laws.specs.Lawful.{IsRunning};
ghost use Rattle.chunk_slots.specs.ChunkRegion.{audit_table, hint_table};
ghost use Rattle.kernel_steps.specs.Kernels.{IsStanding, IsOfBlocks, tables_for};

use crate::kernel::Kernel;
use augmented_tree::FreeSide;
use callers::region_number::{
    CHUNKS, FIRST_BLOCKS, FREE_BLOCKS, LIVE_AREAS, PAGE_MAP, WAITING_SPANS,
};
use chunk_slots::PcpuSide;
use history_book::number;
use lazy_purge::LazySide;
use section_core::Region;
use std::alloc::{AllocError, Global};
use vm_model::{
    BlockList, BlockRow, ChunkAudit, ChunkAuditList, ChunkList, Entry, EntryList, HintList,
    HintRow, ObjectList, PartList, PartRow, Span, SpanList, Tables,
};

impl Kernel {
    /// The entry of each call that was answered, by caller and call.
    fn entries(&self) -> Result<Vec<Entry>, AllocError>
        ensures { IfOk result (λ entries. (c : Setup) (opening : List Call)
            (calls : List (List Call)) (w : World) → IsStanding c opening calls w self.now
            → entries.items ≡ entries_of w.events w.locals) }
    {
        let mut entries = Vec::new(self.alloc);
        for local in &self.locals {
            number(local.book(), &self.moved, &mut entries)?;
        }
        Ok(entries)
    }

    /// The replies so far, and the tables of what there is now. The rows that an audit alone reads, which are scans of
    /// all chunks, are made with one only.
    pub fn tables(&self, audit: bool) -> Result<Tables, AllocError>
        ensures { IfOk result (λ tables. (config : Config) (opening : List Call)
            (calls : List (List Call)) (w : World)
            → IsStanding (setup_of config) opening calls w self.now
            → tables ≡ tables_for audit (setup_of config) w) }
    {
        let alloc = self.alloc;
        let free = self.regions[FREE_BLOCKS as usize].free();
        let blocks = free_blocks(alloc, free)?;
        let largest = plain_largest(&blocks);
        let pages = self.regions[PAGE_MAP as usize].pages();
        let percpu = self.regions[CHUNKS as usize].percpu();
        let _units = percpu.unit_pages();
        Ok(Tables {
            entries: EntryList::of(self.entries()?),
            events: self.moved.len() as u64,
            frames: pages.free_frames(),
            mapped: pages.mapped(),
            stale: pages.stale(),
            free: SpanList::of(blocks),
            areas: self.regions[LIVE_AREAS as usize].busy().areas()?,
            waiting: SpanList::of(waiting_spans(
                alloc,
                self.regions[WAITING_SPANS as usize].lazy(),
            )?),
            blocks: BlockList::of(block_rows(alloc, &self.regions[FIRST_BLOCKS as usize..])?),
            parts: PartList::of(part_rows(alloc, &self.regions[FIRST_BLOCKS as usize..])?),
            chunks: ChunkList::of(percpu.chunk_rows(alloc)?),
            objects: ObjectList::of(percpu.object_rows(alloc)?),
            tree_blocks: free.len(),
            tree_largest: free.largest(),
            plain_largest: largest,
            chunk_audit: ChunkAuditList::of(chunk_audits(alloc, percpu, audit)?),
            hints: HintList::of(hint_rows(alloc, percpu, audit)?),
        })
    }
}

/// The free blocks by rising start.
fn free_blocks(alloc: Global, free: &FreeSide) -> Result<Vec<Span>, AllocError>
    ensures { IfOk result (λ spans. spans.items ≡ free.now.blocks) }
{
    let mut spans = Vec::new(alloc);
    for index in 0..free.len() {
        spans.push(free.block_at(index))?;
    }
    Ok(spans)
}

/// The pages of the largest free block, by a look at each.
fn plain_largest(blocks: &[Span]) -> u32
    ensures { result ≡ (longest_of blocks.now).pages }
{
    let mut largest = 0;
    for block in blocks {
        largest = largest.max(block.pages);
    }
    largest
}

/// The spans that wait, the latest first.
fn latest_first(alloc: Global, lazy: &LazySide) -> Result<Vec<Span>, AllocError>
    ensures { IfOk result (λ spans. spans.items ≡ reverse lazy.now) }
{
    lazy.spans().iter().rev().copied().collect(alloc)
}

/// The spans that wait by rising start.
fn waiting_spans(alloc: Global, lazy: &LazySide) -> Result<Vec<Span>, AllocError>
    ensures { IfOk result (λ spans. spans.items ≡ sort_by (λ (s : Span). s.start) lazy.now) }
{
    let mut spans = latest_first(alloc, lazy)?;
    spans.sort_by_key(|span| span.start)?;
    Ok(spans)
}

/// The blocks of all processors by rising start.
fn block_rows(alloc: Global, regions: &[Region]) -> Result<Vec<BlockRow>, AllocError>
    requires { All IsOfBlocks regions.now }
    ensures { IfOk result (λ rows. (c : Setup) (opening : List Call) (calls : List (List Call))
        (w : World) → IsRunning c opening calls w → regions.now ≡ drop 8 (regions_of c w.map)
        → rows.items ≡ (tables_of c w).blocks) }
{
    let mut rows = Vec::new(alloc);
    for region in regions {
        rows.append(&mut region.blocks().block_rows()?.into_vec())?;
    }
    rows.sort_by_key(|row| row.start)?;
    Ok(rows)
}

/// The live parts of all processors by rising start.
fn part_rows(alloc: Global, regions: &[Region]) -> Result<Vec<PartRow>, AllocError>
    requires { All IsOfBlocks regions.now }
    ensures { IfOk result (λ rows. (c : Setup) (opening : List Call) (calls : List (List Call))
        (w : World) → IsRunning c opening calls w → regions.now ≡ drop 8 (regions_of c w.map)
        → rows.items ≡ (tables_of c w).parts) }
{
    let mut rows = Vec::new(alloc);
    for region in regions {
        rows.append(&mut region.blocks().part_rows()?.into_vec())?;
    }
    rows.sort_by_key(|row| row.span.start)?;
    Ok(rows)
}

/// What an audit reads of each chunk, as a scan of its bits finds it, and nothing without one.
fn chunk_audits(
    alloc: Global,
    percpu: &PcpuSide,
    audit: bool,
) -> Result<Vec<ChunkAudit>, AllocError>
    ensures { IfOk result (λ rows. rows.items ≡ (if audit then audit_table percpu.now else [])) }
{
    if audit {
        percpu.chunk_audits(alloc)
    } else {
        Ok(Vec::new(alloc))
    }
}

/// The hints of all pages of bits beside those that a scan finds, and nothing without an audit.
fn hint_rows(alloc: Global, percpu: &PcpuSide, audit: bool) -> Result<Vec<HintRow>, AllocError>
    ensures { IfOk result (λ rows. rows.items ≡ (if audit then hint_table percpu.now else [])) }
{
    if audit {
        percpu.hint_rows(alloc)
    } else {
        Ok(Vec::new(alloc))
    }
}
