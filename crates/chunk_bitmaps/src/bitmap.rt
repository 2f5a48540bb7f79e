//! Bitmaps over words of 64 bits, as `lib/bitmap.c` and `lib/find_bit.c` have them.
ghost use Rattle.std.specs.Prelude.{◌≡◌, ◌+◌, ◌-◌, ◌*◌, ◌/◌, ◌%◌, ◌^◌, ◌<◌, ◌≤◌, ℕ, Bool, false, IfOk, if◌then◌else◌, ◌==◌, not, length, replicate};
ghost use Rattle.std.specs.Int.{bit_at};
ghost use Rattle.vm_model.specs.Space.{span, holds, paint, one_if};
ghost use Rattle.chunk_bitmaps.specs.Bitmap.{IsNextBit, IsLastBit, IsWordUpTo};
ghost use Rattle.vm_model.specs.Bits.{value_at};

use std::alloc::{AllocError, Global};
use std::marker::Model;

/// How many bits a word has: the kernel's `BITS_PER_LONG`.
const WORD: u32 = 64;

/// Bits in words, bit `p` by the weight 2 ^ (p % 64) of word `p / 64`.
#[derive(Drop)]
pub struct Bitmap {
    words: Vec<u64>,
    bits: u32,
}

impl Model for Bitmap {
    ghost use Rattle.std.specs.Prelude.{List, Bool};
    ghost use Rattle.chunk_bitmaps.specs.Bitmap.{bits_of, HasRoom};

    ghost Value = { List Bool };

    ghost view = { λ b. bits_of b.words.items b.bits };

    ghost invariant = { λ b. HasRoom b.words.items b.bits };
}

/// The word with the bits of the mask all set, or all clear.
fn with_bits(word: u64, mask: u64, value: bool) -> u64
    ensures inside { (i : ℕ) → i < 64 → bit_at mask i ≡ 1 → bit_at result i ≡ one_if value }
    ensures outside { (i : ℕ) → i < 64 → bit_at mask i ≡ 0 → bit_at result i ≡ bit_at word i }
{
    if value { word | mask } else { word & !mask }
}

/// The word whose set bits are so many from the given one on.
fn mask_of(low: u32, count: u32) -> u64
    requires some { 1 ≤ count }
    requires within { low + count ≤ 64 }
    ensures { result ≡ 2 ^ (low + count) - 2 ^ low }
{
    u64::MAX >> (WORD - count) << low
}

/// The word whose bits are all set, or all clear.
fn whole_word(value: bool) -> u64
    ensures { (i : ℕ) → i < 64 → bit_at result i ≡ one_if value }
{
    if value { u64::MAX } else { 0 }
}

impl Bitmap {
    /// So many bits, all clear.
    pub fn clear(alloc: Global, bits: u32) -> Result<Bitmap, AllocError>
        requires { bits ≤ 2 ^ 31 }
        ensures { IfOk result (λ bitmap. bitmap ≡ replicate bits false) }
    {
        let words = vec![in alloc; 0; bits.div_ceil(WORD) as usize]?;
        Ok(Bitmap { words, bits })
    }

    /// How many bits there are.
    pub fn len(&self) -> u32
        ensures len { result ≡ length self.now }
        ensures small { result ≤ 2 ^ 31 }
    {
        self.bits
    }

    /// Whether the bit is set: `test_bit`.
    pub fn contains(&self, place: u32) -> bool
        requires { place < length self.now }
        ensures { result ≡ value_at self.now place }
    {
        self.words[(place / WORD) as usize] >> (place % WORD) & 1 == 1
    }

    /// A word whose set bits are those that have the value, from a place to the end of its word.
    fn word_from(&self, place: u32, value: bool) -> u64
        requires { place < length self.now }
        ensures rest { (i : ℕ) → i < 64 - place % 64 → place + i < length self.now
            → bit_at result i ≡ one_if (if value then value_at self.now (place + i)
            else not (value_at self.now (place + i))) }
        ensures above { (i : ℕ) → 64 - place % 64 ≤ i → bit_at result i ≡ 0 }
    {
        let word = self.words[(place / WORD) as usize];
        (if value { word } else { !word }) >> (place % WORD)
    }

    /// The first bit with the value from a place on and before the end, or the end: `find_next_bit` and
    /// `find_next_zero_bit`.
    pub fn find_next(&self, value: bool, from: u32, end: u32) -> u32
        requires order { from ≤ end }
        requires within { end ≤ length self.now }
        ensures { IsNextBit self.now value from end result }
    {
        let _ = &self.bits;
        let mut place = from;
        while place < end {
            let word = self.word_from(place, value);
            if word != 0 {
                return end.min(place + word.trailing_zeros());
            }
            place += WORD - place % WORD;
        }
        end
    }

    /// A word whose set bits are those that have the value, from the start of a place's word to the place.
    fn word_up_to(&self, place: u32, value: bool) -> u64
        requires { place < length self.now }
        ensures { IsWordUpTo self.now place value result }
    {
        let word = self.words[(place / WORD) as usize];
        (if value { word } else { !word }) & mask_of(0, place % WORD + 1)
    }

    /// The place behind the last bit with the value from a place on and before the end, or that place: `find_last_bit`.
    pub fn find_last(&self, value: bool, from: u32, end: u32) -> u32
        requires order { from ≤ end }
        requires within { end ≤ length self.now }
        ensures { IsLastBit self.now value from end result }
    {
        let _ = &self.bits;
        let mut place = end;
        while from < place {
            let start = (place - 1) / WORD * WORD;
            let word = self.word_up_to(place - 1, value);
            if word != 0 {
                return from.max(start + WORD - word.leading_zeros());
            }
            place = start;
        }
        from
    }

    /// Sets or clears the bits between two places of one word.
    fn fill_in_word(&mut self, start: u32, end: u32, value: bool)
        requires order { start ≤ end }
        requires word { start % 64 + (end - start) ≤ 64 }
        requires within { end ≤ length self.old }
        ensures { self.new ≡ paint (holds (span start (end - start))) value self.old }
    {
        let _ = &self.bits;
        if start == end {
            return;
        }
        let word = &mut self.words[(start / WORD) as usize];
        *word = with_bits(*word, mask_of(start % WORD, end - start), value);
    }

    /// Sets or clears all bits of the words from one on and before another.
    fn fill_words(&mut self, first: u32, end: u32, value: bool)
        requires order { first ≤ end }
        requires within { 64 * end ≤ length self.old }
        ensures { self.new ≡ paint (holds (span (64 * first) (64 * (end - first)))) value self.old }
    {
        let _ = &self.bits;
        for index in first..end {
            self.words[index as usize] = whole_word(value);
        }
    }

    /// Sets or clears one bit: `__set_bit` and `__clear_bit`.
    pub fn put(&mut self, place: u32, value: bool)
        requires { place < length self.old }
        ensures { self.new ≡ paint (holds (span place 1)) value self.old }
    {
        let _ = &self.bits;
        let word = &mut self.words[(place / WORD) as usize];
        *word = with_bits(*word, mask_of(place % WORD, 1), value);
    }

    /// Sets or clears so many bits from a place on, whole words where it can: `bitmap_set` and `bitmap_clear`.
    pub fn fill(&mut self, start: u32, bits: u32, value: bool)
        requires { start + bits ≤ length self.old }
        ensures { self.new ≡ paint (holds (span start bits)) value self.old }
    {
        let _few = self.len();
        let end = start + bits;
        let head = end.min(start.div_ceil(WORD) * WORD);
        let tail = head.max(end / WORD * WORD);
        self.fill_in_word(start, head, value);
        self.fill_words(head / WORD, tail / WORD, value);
        self.fill_in_word(tail, end, value);
    }
}
