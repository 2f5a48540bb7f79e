//! What holds of every side of blocks by itself.
ghost use Rattle.std.specs.Prelude.{All, map};
ghost use Rattle.vm_model.specs.PlainMap.{Block};
ghost use Rattle.map_blocks.specs.BlockSpans.{block_span, part_spans, LiesIn, ShareNoPage};

use crate::block_side::BlockSide;

/// Each part of a block has pages of its own, all of them in its block, and each block has pages of its own. So pages that
/// `vb_alloc` gives are given to nobody else until the block is gone.
pub fn parts_are_disjoint(side: &BlockSide)
    ensures apart { All (λ (b : Block). ShareNoPage (part_spans b)) side.now.blocks }
    ensures inside { All (λ (b : Block). All (LiesIn (block_span side.now.pages b)) (part_spans b))
        side.now.blocks }
    ensures blocks { ShareNoPage (map (block_span side.now.pages) side.now.blocks) }
{
    side.keeps_apart();
}
