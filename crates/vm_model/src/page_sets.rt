//! Sets of the pages of a unit.
ghost use Rattle.std.specs.Prelude.{◌≡◌, ◌+◌, ◌<◌, ◌≤◌, ◌&&◌, ◌||◌, ◌==◌, not, ℕ, nat_le, nat_lt, length, filter, slice_get};
ghost use Rattle.std.specs.Int.{bit_at};
ghost use Rattle.vm_model.specs.PageSets.{has_page};
ghost use Rattle.vm_model.specs.Space.{count_from};

use crate::areas::PageSet;

impl PageSet {
    /// So many pages from the first one on.
    pub fn pages_from(first: u32, count: u32) -> PageSet
        requires some { 1 ≤ count }
        requires within { first + count ≤ 64 }
        ensures { (page : ℕ) → page < 64
            → has_page result page ≡ (nat_le first page && nat_lt page (first + count)) }
    {
        PageSet {
            mask: u64::MAX >> (64 - count) << first,
        }
    }

    /// Whether a page is in the set.
    pub fn contains(self, page: u32) -> bool
        requires { page < 64 }
        ensures { result ≡ has_page self page }
    {
        self.mask >> page & 1 == 1
    }

    /// The pages of either set.
    pub fn with(self, other: PageSet) -> PageSet
        ensures { (page : ℕ) → page < 64
            → has_page result page ≡ (has_page self page || has_page other page) }
    {
        PageSet {
            mask: self.mask | other.mask,
        }
    }

    /// The pages of this set that are not in the other.
    pub fn without(self, other: PageSet) -> PageSet
        ensures { (page : ℕ) → page < 64
            → has_page result page ≡ (has_page self page && not (has_page other page)) }
    {
        PageSet {
            mask: mask_without(self.mask, other.mask),
        }
    }

    /// How many of so many first pages are in the set.
    pub fn count(self, pages: u32) -> u32
        requires { pages ≤ 64 }
        ensures { result ≡ length (filter (has_page self) (count_from pages 0)) }
    {
        let mut found = 0;
        for page in 0..pages {
            if self.contains(page) {
                found += 1;
            }
        }
        found
    }

    /// The lowest of so many first pages that is not in the set.
    pub fn lowest_missing(self, pages: u32) -> Option<u32>
        requires { pages ≤ 64 }
        ensures { result ≡ slice_get
            (filter (λ page. not (has_page self page)) (count_from pages 0)) 0 }
    {
        for page in 0..pages {
            if !self.contains(page) {
                return Some(page);
            }
        }
        None
    }
}

/// The bits of a mask that are not in another.
fn mask_without(one: u64, other: u64) -> u64
    ensures { (place : ℕ) → place < 64
        → (bit_at result place == 1) ≡ ((bit_at one place == 1) && not (bit_at other place == 1)) }
{
    one & !other
}
