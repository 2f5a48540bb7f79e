//! The words of memory.
ghost use Rattle.std.specs.Prelude.{◌≡◌, ◌*◌, ◌+◌, ◌%◌, ◌<◌, ◌≤◌, ◌^◌, IfOk, IsTrue, length, replicate, slice_index_or, slice_set, pos};
ghost use Rattle.vm_model.specs.Space.{span, holds, paint};
ghost use Rattle.page_pool.specs.MemoryWords.{AreBlank};

use crate::own_groups::{GROUP, own_group};
use std::alloc::{AllocError, Global};
use std::marker::Model;

/// How many cells a frame has.
const CELLS: usize = 1024;

/// How many groups of cells a frame has.
const GROUPS: usize = CELLS / GROUP;

/// The most frames whose groups have numbers.
const MOST_FRAMES: u32 = 1 << 28;

/// The cells of frames, 1,024 of 4 bytes a frame. A group of cells none of which was ever written takes 4 bytes, and
/// shares the words of the group with number 0, which are 0.
#[derive(Drop)]
pub(crate) struct Cells {
    numbers: Vec<u32>,
    written: Vec<i64>,
    frames: u32,
}

impl Model for Cells {
    ghost use Rattle.std.specs.Prelude.{◌*◌, ℤ, List, pos, vec_capacity};
    ghost use Rattle.page_pool.specs.GroupedLists.{with_groups, HasGroups};

    ghost Value = { List ℤ };

    ghost view = { λ c. with_groups (pos 0) c.numbers.items c.written.items (1024 * c.frames) };

    ghost invariant = { λ c. HasGroups ℤ (pos 0) (1024 * c.frames) c.numbers.items c.written.items
        (vec_capacity c.written) };
}

/// So many words from one on are 0.
fn clear_words(words: &mut [i64], first: usize, count: usize)
    requires { first + count ≤ length words.old }
    ensures { words.new ≡ paint (holds (span first count)) (pos 0) words.old }
{
    for place in first..first + count {
        words[place] = 0;
    }
}

impl Cells {
    /// The cells of so many frames, each 0. An error comes also where there are more than 2 ^ 28.
    pub(crate) fn zero(alloc: Global, frames: u32) -> Result<Cells, AllocError>
        ensures { IfOk result (λ cells. cells ≡ replicate (1024 * frames) (pos 0)) }
    {
        if frames > MOST_FRAMES {
            return Err(AllocError);
        }
        let groups = GROUPS * frames as usize;
        let numbers = vec![in alloc; 0; groups]?;
        let mut written = Vec::with_capacity(alloc, (groups + 1) * GROUP)?;
        written.resize(GROUP, 0)?;
        Ok(Cells {
            numbers,
            written,
            frames,
        })
    }

    /// How many cells there are.
    fn len(&self) -> usize
        ensures { result ≡ length self.now }
    {
        CELLS * self.frames as usize
    }

    /// Whether no cell was ever written. Each is 0 then.
    pub(crate) fn is_blank(&self) -> bool
        ensures { IsTrue result → AreBlank self.now }
    {
        self.written.len() == GROUP
    }

    /// The word in a cell, and 0 where there is no such cell.
    pub(crate) fn read(&self, cell: usize) -> i64
        ensures { result ≡ slice_index_or self.now cell (pos 0) }
    {
        if cell >= self.len() {
            return 0;
        }
        let number = self.numbers[cell / GROUP] as usize;
        self.written[number * GROUP + cell % GROUP]
    }

    /// Writes a cell. The room for it was there from the start.
    pub(crate) fn write(&mut self, cell: usize, word: i64)
        requires { cell < length self.old }
        ensures { self.new ≡ slice_set self.old cell word }
    {
        let first = own_group(&mut self.numbers, &mut self.written, 0, cell / GROUP);
        self.written[first + cell % GROUP] = word;
    }

    /// So many cells of one group are 0. It takes no time where none of the group was ever written.
    fn clear_in_group(&mut self, first: usize, count: usize)
        requires inside { first + count ≤ length self.old }
        requires group { first % 128 + count ≤ 128 }
        requires some { 0 < count }
        ensures { self.new ≡ paint (holds (span first count)) (pos 0) self.old }
    {
        let number = self.numbers[first / GROUP] as usize;
        if number > 0 {
            clear_words(
                self.written.as_mut_slice(),
                number * GROUP + first % GROUP,
                count,
            );
        }
    }

    /// So many cells from one on are 0. It takes time for each group, and for each cell of those that were written.
    pub(crate) fn clear(&mut self, first: usize, count: usize)
        requires { first + count < 2 ^ 64 }
        ensures { self.new ≡ paint (holds (span first count)) (pos 0) self.old }
    {
        let end = (first + count).min(self.len());
        let mut cell = first;
        while cell < end {
            let count = (GROUP - cell % GROUP).min(end - cell);
            self.clear_in_group(cell, count);
            cell += count;
        }
    }
}
