//! The bits of a chunk as a plain list, true where taken, and what a scan of all of them finds.
ghost use Rattle.std.specs.Prelude.{◌^◌, ◌<◌, ◌≤◌, length};

use vm_model::{PageSet, plain_longest};

/// Sets so many bits from a place on.
pub fn set_bits(bits: &mut [bool], at: u32, count: u32, value: bool) {
    for place in at..at.saturating_add(count) {
        if let Some(bit) = bits.get_mut(place as usize) {
            *bit = value;
        }
    }
}

/// How many bits from a place on are free.
pub fn run_at(bits: &[bool], at: u32) -> usize {
    bits.iter()
        .skip(at as usize)
        .take_while(|bit| !**bit)
        .count()
}

/// The lowest multiple of the alignment from which so many bits are free and in pages of the set.
pub fn lowest_fit(bits: &[bool], count: usize, align: usize, pages: PageSet) -> Option<usize>
    requires bits { length bits.now ≤ 65536 }
    requires align { 1 ≤ align }
{
    let mut lowest = None;
    let mut free: usize = 0;
    for place in (0..bits.len()).rev() {
        free = if bits[place] || !pages.contains(place as u32 / 1024) {
            0
        } else {
            free.saturating_add(1)
        };
        if free >= count && place % align == 0 {
            lowest = Some(place);
        }
    }
    lowest
}

/// The longest run by its start and its length, the free bits at both ends, and the first free bit.
pub fn hint_numbers(bits: &[bool]) -> [usize; 5]
    requires { length bits.now < 2 ^ 32 }
{
    let (run_start, run) = plain_longest(bits);
    let all = bits.len();
    [
        run_start as usize,
        run as usize,
        bits.iter().position(|bit| *bit).unwrap_or(all),
        bits.iter().rev().position(|bit| *bit).unwrap_or(all),
        bits.iter().position(|bit| !*bit).unwrap_or(all),
    ]
}
