//! The free blocks of a space: what `free_vmap_area_root` holds in the kernel. Functions of mm/vmalloc.c of Linux 6.1
//! that these follow are named with them.
ghost use Rattle.std.specs.Prelude.{◌≡◌, ◌≤◌, ◌<◌, ◌+◌, ◌&&◌, not, nat_le, max, find, filter, ℕ, List, Bool, true, false, Some, None, All, length, slice_get, replicate, IfOk, IfSome, IfNone, IsSome, OnOk, OnErr, ◌∷◌, []};
ghost use Rattle.vm_model.specs.Space.{span, holds, covers, times, end_of, lowest, longest_of, AreSeparateFrom};
ghost use Rattle.vm_model.specs.declared.areas.Span.{Span};
ghost use Rattle.vm_model.specs.Setup.{last_of};
ghost use Rattle.augmented_tree.specs.BlockLists.{AreBlocks};
ghost use Rattle.augmented_tree.specs.FreeBlocks.{FreeBlocks, AreFreeRuns, IsFree, IsLowestFit, LeavesRunsWithout, GivesRunsWith};

use crate::blocks::{cut_out, put_back_all};
use crate::stock::Stock;
use crate::tree::Tree;
use std::alloc::{AllocError, Global};
use std::marker::Model;
use vm_model::Span;

/// The free blocks of a space of at most 1,048,576 pages, by rising start, as a balanced tree. No two blocks touch. Beside
/// them nodes lie in stock, the spare ones among them: for so many blocks that `carve_at` may make.
#[derive(Drop)]
pub struct FreeSide {
    blocks: Tree,
    stock: Stock,
    spare: u32,
}

impl Model for FreeSide {
    ghost use Rattle.std.specs.Prelude.{◌≤◌};
    ghost use Rattle.augmented_tree.specs.FreeBlocks.{FreeBlocks};
    ghost use Rattle.augmented_tree.specs.BlockLists.{AreBlocks};

    ghost Value = { FreeBlocks };

    ghost view = { λ s. record { blocks = s.blocks; spare = s.spare } };

    // the blocks are separate, each ends at 1,048,576 at most, and the spare nodes are in stock
    ghost invariant = { λ s. AreBlocks s.blocks × (s.spare ≤ s.stock) };
}

impl FreeSide {
    /// A space of so many pages, all of them free.
    pub fn whole(alloc: Global, pages: u32) -> Result<FreeSide, AllocError>
        requires low { 1 ≤ pages }
        requires high { pages ≤ 1048576 }
        ensures block { IfOk result (λ side.
            side ≡ record { blocks = span 0 pages ∷ []; spare = 0 }) }
        ensures free { IfOk result (λ side. AreFreeRuns side (replicate pages false)) }
    {
        let mut stock = Stock::new(alloc);
        stock.fill(1)?;
        let mut blocks = Tree::empty();
        blocks.insert(0, stock.take(Span { start: 0, pages }));
        Ok(FreeSide {
            blocks,
            stock,
            spare: 0,
        })
    }

    /// The least start at which so many pages are free at a multiple of the alignment, which is in pages too:
    /// `find_vmap_lowest_match`. It takes no memory.
    pub fn lowest(&self, pages: u32, align: u32) -> Option<u32>
        requires pages { 1 ≤ pages }
        requires align { 1 ≤ align }
        ensures { (taken : List Bool) → AreFreeRuns self.now taken
            → result ≡ lowest taken pages align }
    {
        match self.blocks.first_fit(pages, align) {
            Some(fit) => Some(fit.start),
            None => None,
        }
    }

    /// Takes the least such pages out, as `__alloc_vmap_area` does, or none where so many fit nowhere: it finds them as
    /// `find_vmap_lowest_match` and cuts their block as `adjust_va_to_fit_type`. The alignment is in pages too. As with the
    /// kernel's `preload_this_cpu_lock` there is a node for one more block before anything is changed, and no spare node is
    /// used up. An error, which comes only where the pages fit, leaves the blocks as they were.
    pub fn carve(&mut self, pages: u32, align: u32) -> Result<Option<Span>, AllocError>
        requires pages { 1 ≤ pages }
        requires align { 1 ≤ align }
        ensures place { IfOk result (IsLowestFit self.old pages align) }
        ensures carved { IfOk result (λ found.
            IfSome found (λ place. LeavesRunsWithout self.old self.new (holds place))) }
        ensures none { IfOk result (λ found. IfNone found (self.new ≡ self.old)) }
        ensures spare { self.new.spare ≡ self.old.spare }
        ensures fits { OnErr result ((taken : List Bool) → AreFreeRuns self.old taken
            → IsSome (lowest taken pages align)) }
        ensures err { OnErr result (self.new ≡ self.old) }
    {
        let Some(fit) = self.blocks.first_fit(pages, align) else {
            return Ok(None);
        };
        let place = Span {
            start: fit.start,
            pages,
        };
        self.stock.fill(self.spare as usize + 1)?;
        let (index, block) = (fit.index, fit.block);
        cut_out(&mut self.blocks, &mut self.stock, index, block, place);
        Ok(Some(place))
    }

    /// Takes spare nodes in stock, until there are so many. An error leaves all as it was.
    pub fn reserve(&mut self, nodes: u32) -> Result<(), AllocError>
        ensures ok { OnOk result (self.new ≡ record self.old { spare = max self.old.spare nodes }) }
        ensures err { OnErr result (self.new ≡ self.old) }
    {
        self.stock.fill(nodes as usize)?;
        self.spare = self.spare.max(nodes);
        Ok(())
    }

    /// How many spare nodes there are: `carve_at` can be called so many times. It takes no memory.
    pub fn spare(&self) -> u32
        ensures { result ≡ self.now.spare }
    {
        self.spare
    }

    /// Takes pages out that are free, as `adjust_va_to_fit_type` does for a given place. Their block may be cut in two: one
    /// spare node is used up, whether it is or not. It takes no memory.
    pub fn carve_at(&mut self, span: Span)
        requires free { IsFree self.old.blocks span }
        requires spare { 1 ≤ self.old.spare }
        ensures carved { LeavesRunsWithout self.old self.new (holds span) }
        ensures cover { (page : ℕ) → covers self.new.blocks page
            ≡ (covers self.old.blocks page && not (holds span page)) }
        ensures spare { self.new.spare + 1 ≡ self.old.spare }
    {
        self.spare -= 1;
        if span.pages == 0 {
            return;
        }
        let near = self.blocks.neighbours(span.start);
        let Some(block) = near.before else {
            unreachable!();
        };
        let index = near.index - 1;
        cut_out(&mut self.blocks, &mut self.stock, index, block, span);
    }

    /// Gives pages back, as `merge_or_add_vmap_area_augment` does for each span: blocks that touch become one. An error
    /// comes only for want of a node for each span, and leaves the blocks as they were.
    pub fn release_all(&mut self, spans: &[Span]) -> Result<(), AllocError>
        requires pages { All (λ (s : Span). 1 ≤ s.pages) spans.now }
        requires ends { All (λ (s : Span). end_of s ≤ 1048576) spans.now }
        requires disjoint { (page : ℕ) → times page spans.now ≤ 1 }
        requires taken { (page : ℕ) → covers spans.now page ≡ true
            → covers self.old.blocks page ≡ false }
        ensures ok { OnOk result (GivesRunsWith self.old self.new spans.now) }
        ensures spare { self.new.spare ≡ self.old.spare }
        ensures err { OnErr result (self.new ≡ self.old) }
    {
        self.stock.fill(spans.len() + self.spare as usize)?;
        put_back_all(&mut self.blocks, &mut self.stock, spans);
        Ok(())
    }

    /// The block that holds a page, or none where the page isn't free: `find_vmap_area`, over the free blocks. It takes no
    /// memory.
    pub fn enclosing(&self, page: u32) -> Option<Span>
        ensures block { result ≡ find (λ (b : Span). holds b page) self.now.blocks }
        ensures blocks { AreBlocks self.now.blocks }
    {
        self.blocks.block_with(page)
    }

    /// The highest of the blocks that end at a page or before it, or none where no block does. The end is the page behind
    /// a block's last one. It takes no memory.
    pub fn last_ending_by(&self, page: u32) -> Option<Span>
        ensures block { result ≡ last_of
            (filter (λ (b : Span). nat_le (end_of b) page) self.now.blocks) }
        ensures blocks { AreBlocks self.now.blocks }
    {
        self.blocks.block_before(page)
    }

    /// The pages of the largest block, or 0 where nothing is free. It takes no memory.
    pub fn largest(&self) -> u32
        ensures { result ≡ (longest_of self.now.blocks).pages }
    {
        self.blocks.largest()
    }

    /// How many blocks there are. It takes no memory.
    pub fn len(&self) -> u32
        ensures count { result ≡ length self.now.blocks }
        ensures separate { AreSeparateFrom 0 self.now.blocks }
    {
        self.blocks.len()
    }

    /// All blocks by rising start, in one pass.
    pub fn blocks(&self, alloc: Global) -> Result<Vec<Span>, AllocError>
        ensures { IfOk result (λ blocks. blocks.items ≡ self.now.blocks) }
    {
        let mut blocks = Vec::new(alloc);
        blocks.reserve(self.blocks.len() as usize)?;
        self.blocks.append_to(&mut blocks)?;
        Ok(blocks)
    }

    /// The block with this index by rising start. It takes no memory.
    pub fn block_at(&self, index: u32) -> Span
        requires { index < length self.now.blocks }
        ensures { slice_get self.now.blocks index ≡ Some result }
    {
        self.blocks.get(index)
    }
}
