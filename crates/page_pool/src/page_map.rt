//! Which frame each page has, as the kernel's page tables keep it.
ghost use Rattle.std.specs.Prelude.{◌≡◌, ◌<◌, None, IfOk, length, replicate, slice_index_or, slice_set};

use crate::own_groups::{GROUP, own_group};
use std::alloc::{AllocError, Global};
use std::marker::Model;

/// The frames of pages. A group of pages none of which ever had one takes 4 bytes, and shares the frames of the group with
/// number 0, which are none.
#[derive(Drop)]
pub(crate) struct PageMap {
    numbers: Vec<u32>,
    written: Vec<Option<u32>>,
    pages: u32,
}

impl Model for PageMap {
    ghost use Rattle.std.specs.Prelude.{List, Option, None, ℕ, length, vec_capacity};
    ghost use Rattle.page_pool.specs.GroupedLists.{with_groups, HasGroups};

    ghost Value = { List (Option ℕ) };

    ghost view = { λ m. with_groups None m.numbers.items m.written.items m.pages };

    ghost invariant = { λ m. HasGroups (Option ℕ) None m.pages m.numbers.items m.written.items
        (vec_capacity m.written) };
}

impl PageMap {
    /// So many pages without a frame.
    pub(crate) fn unmapped(alloc: Global, pages: u32) -> Result<PageMap, AllocError>
        ensures { IfOk result (λ map. map ≡ replicate pages None) }
    {
        let groups = pages.div_ceil(GROUP as u32) as usize;
        let numbers = vec![in alloc; 0; groups]?;
        let mut written = Vec::with_capacity(alloc, (groups + 1) * GROUP)?;
        written.resize(GROUP, None)?;
        Ok(PageMap {
            numbers,
            written,
            pages,
        })
    }

    /// How many pages there are.
    pub(crate) fn len(&self) -> u32
        ensures { result ≡ length self.now }
    {
        self.pages
    }

    /// The frame of a page.
    pub(crate) fn at(&self, page: u32) -> Option<u32>
        requires { page < length self.now }
        ensures { result ≡ slice_index_or self.now page result }
    {
        let place = page as usize;
        let number = self.numbers[place / GROUP] as usize;
        self.written[number * GROUP + place % GROUP]
    }

    /// Gives a page another frame, or none. The room for it was there from the start.
    #[inline]
    pub(crate) fn set(&mut self, page: u32, frame: Option<u32>)
        requires { page < length self.old }
        ensures { self.new ≡ slice_set self.old page frame }
    {
        let place = page as usize;
        let first = own_group(&mut self.numbers, &mut self.written, None, place / GROUP);
        self.written[first + place % GROUP] = frame;
    }
}
