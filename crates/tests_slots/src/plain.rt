//! Chunks and their objects as plain lists, and what a scan of them finds.
ghost use Rattle.std.specs.Prelude.{◌≤◌};

use std::alloc::{AllocError, Global};
use std::process::Abort;
use vm_model::plain_longest;

/// A live object of a chunk.
#[derive(Clone, Copy)]
pub struct PlainObject {
    /// Its offset, in bytes.
    pub off: u32,
    /// Its bytes.
    pub bytes: u32,
    /// Its serial.
    pub serial: u32,
}

/// A chunk: of each word of 4 bytes whether it is taken, of each page whether it is populated, and the live objects.
#[derive(Drop)]
pub struct PlainChunk {
    /// Its number.
    pub number: u32,
    /// Its base, in pages.
    pub base: u32,
    /// Its words, true where taken.
    pub words: Vec<bool>,
    /// Its pages, true where populated.
    pub pages: Vec<bool>,
    /// Its live objects, in any order.
    pub objects: Vec<PlainObject>,
}

/// What a chunk is asked for.
#[derive(Clone, Copy)]
pub enum Sought {
    /// So many free words from a multiple of an alignment on, in populated pages alone where it is atomic.
    Words {
        count: u32,
        align: u32,
        atomic: bool,
    },
    /// The lowest page that is not populated.
    Unpopulated,
}

/// The slot of a size in bytes: how many digits it has beyond three, and at least one.
fn slot_for(bytes: u32) -> u32 {
    let mut slot = 1;
    for digits in 5..32 {
        if bytes >> (digits - 1) > 0 {
            slot = digits - 3;
        }
    }
    slot
}

impl PlainChunk {
    /// A chunk with no object and no populated page. An error comes for want of memory only.
    pub fn new(alloc: Global, number: u32, base: u32, pages: u32) -> Result<PlainChunk, AllocError>
        requires { pages ≤ 64 }
    {
        Ok(PlainChunk {
            number,
            base,
            words: vec![in alloc; false; 1024 * pages as usize]?,
            pages: vec![in alloc; false; pages as usize]?,
            objects: Vec::new(alloc),
        })
    }

    /// The longest run of free words, by its first one and its length.
    pub fn longest(&self, rt: &impl Abort) -> (u32, u32) {
        assert!(rt; self.words.len() <= 65_536);
        plain_longest(&self.words)
    }

    /// The slot of its longest run, from a scan: slot 0 where no word is free, and the last one but one for an empty chunk.
    pub fn slot(&self, rt: &impl Abort) -> u32 {
        let (_, run) = self.longest(rt);
        if run == 0 {
            0
        } else if run as usize == self.words.len() {
            slot_for(run.saturating_mul(4)).saturating_add(2)
        } else {
            slot_for(run.saturating_mul(4))
        }
    }

    /// The lowest word or page that is as asked.
    fn find(&self, sought: Sought) -> Option<usize> {
        match sought {
            Sought::Words {
                count,
                align,
                atomic,
            } => self.lowest_fit(count, align, atomic),
            Sought::Unpopulated => self.pages.iter().position(|page| !*page),
        }
    }

    fn lowest_fit(&self, count: u32, align: u32, atomic: bool) -> Option<usize> {
        let mut lowest = None;
        let mut free: usize = 0;
        for place in (0..self.words.len()).rev() {
            let barred = atomic && self.pages.get(place / 1024) != Some(&true);
            free = if barred || self.words[place] {
                0
            } else {
                free.saturating_add(1)
            };
            if free >= count as usize && place % align.max(1) as usize == 0 {
                lowest = Some(place);
            }
        }
        lowest
    }

    /// Marks the words of so many bytes from an offset on as taken or free.
    pub fn mark(&mut self, off: u32, bytes: u32, taken: bool) {
        for word in off / 4..(off / 4).saturating_add(bytes / 4) {
            if let Some(mark) = self.words.get_mut(word as usize) {
                *mark = taken;
            }
        }
    }

    /// Marks the pages of so many bytes from an offset on as populated.
    pub fn populate(&mut self, off: u32, bytes: u32) {
        for word in off / 4..(off / 4).saturating_add(bytes / 4) {
            if let Some(mark) = self.pages.get_mut(word as usize / 1024) {
                *mark = true;
            }
        }
    }

    /// How many words are free.
    pub fn free(&self) -> usize {
        self.words.iter().filter(|word| !**word).count()
    }

    /// How many pages are populated.
    pub fn populated(&self) -> usize {
        self.pages.iter().filter(|page| **page).count()
    }

    /// How many populated pages have no taken word.
    pub fn empty(&self) -> u32 {
        let mut empty: u32 = 0;
        for page in 0..self.pages.len() {
            let words = self.words.iter().skip(page.saturating_mul(1024)).take(1024);
            if self.pages[page] && words.filter(|word| **word).count() == 0 {
                empty = empty.saturating_add(1);
            }
        }
        empty
    }
}

/// Of the chunks that have what is asked for, the first one of the least slot, by its index, and the place there.
pub fn first_by_slot(
    rt: &impl Abort,
    chunks: &[PlainChunk],
    sought: Sought,
) -> Option<(usize, usize)> {
    let mut first = None;
    let mut least = u32::MAX;
    for (index, chunk) in chunks.iter().enumerate() {
        let slot = chunk.slot(rt);
        if slot >= least {
            continue;
        }
        if let Some(place) = chunk.find(sought) {
            first = Some((index, place));
            least = slot;
        }
    }
    first
}
