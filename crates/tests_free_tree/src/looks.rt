//! Looks at each page of a span: what a call on free blocks may be told of them.
ghost use Rattle.std.specs.Prelude.{◌≡◌, ◌≤◌, ℕ, true, false, IsTrue};
ghost use Rattle.vm_model.specs.Space.{holds, covers, end_of};
ghost use Rattle.augmented_tree.specs.FreeBlocks.{IsFree};

use augmented_tree::FreeSide;
use vm_model::Span;

/// Whether the blocks hold all these pages.
pub fn are_free(side: &FreeSide, span: Span) -> bool
    requires { end_of span ≤ 1048576 }
    ensures { IsTrue result → IsFree side.now.blocks span }
{
    for page in span.start..span.start + span.pages {
        if side.enclosing(page).is_none() {
            return false;
        }
    }
    true
}

/// Whether the blocks hold none of these pages.
pub fn are_taken(side: &FreeSide, span: Span) -> bool
    requires { end_of span ≤ 1048576 }
    ensures { IsTrue result → (page : ℕ) → holds span page ≡ true
        → covers side.now.blocks page ≡ false }
{
    for page in span.start..span.start + span.pages {
        if side.enclosing(page).is_some() {
            return false;
        }
    }
    true
}
