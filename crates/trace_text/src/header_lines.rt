//! The lines of the header, as they are read.
ghost use Rattle.std.specs.Prelude.{◌≡◌, ◌++◌, codes};
ghost use Rattle.trace_text.specs.Reading.{Reading};
ghost use Rattle.trace_text.specs.LineWords.{one_of, words_of_header};
ghost use Rattle.trace_text.specs.SpelledLines.{Blocks, Units};
ghost use Rattle.trace_text.specs.Grammar.{is_allowed};
ghost use Rattle.trace_text.specs.HeldLines.{IsHeld, Steps, StepsIn};

use crate::fields::{number, pair};
use crate::progress::{BLOCK, CALLERS, COUNTERS, FRAMES, LAZY, Progress, SPACE, UNIT, VERSION};

/// How many pages a space may have.
const MOST_PAGES: u64 = 1_048_576;

/// How many frames of memory there may be.
const MOST_FRAMES: u64 = 8_192;

/// How many pages a block has at least.
const LEAST_BLOCK_PAGES: u64 = 8;

/// How many pages a block may have.
const MOST_BLOCK_PAGES: u64 = 1_024;

/// How many pages a processor's unit has at least.
const LEAST_UNIT_PAGES: u64 = 8;

/// How many pages a processor's unit may be asked to have.
const MOST_UNIT_PAGES: u64 = 64;

/// How many pages there may be of which a chunk's base is a multiple.
const MOST_ATOM: u64 = 64;

/// How many callers there may be beside the opening.
const MOST_CALLERS: u64 = 16;

/// How many counters there may be.
const MOST_COUNTERS: u64 = 256;

/// The largest amount at which a counter's cell may move into its count.
const MOST_BATCH: u64 = 1_000_000;

/// Reads `vmtrace 1`.
fn read_version(progress: &mut Progress) -> bool
    ensures { (r : Reading) → IsHeld progress.old r
        → Steps r (codes "vmtrace 1") result progress.new }
{
    if progress.rank != 0 {
        return false;
    }
    progress.rank = VERSION;
    true
}

/// Reads `space P`, after its word.
fn read_space(progress: &mut Progress, field: &[u8]) -> bool
    ensures { (r : Reading) → IsHeld progress.old r
        → Steps r (codes "space " ++ field.now) result progress.new }
{
    let Some(pages) = number(field) else {
        return false;
    };
    if progress.rank != VERSION || pages < 1 || MOST_PAGES < pages {
        return false;
    }
    progress.space = pages as u32;
    progress.rank = SPACE;
    true
}

/// Reads `frames N`, after its word.
fn read_frames(progress: &mut Progress, field: &[u8]) -> bool
    ensures { (r : Reading) → IsHeld progress.old r
        → Steps r (codes "frames " ++ field.now) result progress.new }
{
    let Some(frames) = number(field) else {
        return false;
    };
    if progress.rank < SPACE || FRAMES <= progress.rank || MOST_FRAMES < frames {
        return false;
    }
    progress.frames = frames as u32;
    progress.rank = FRAMES;
    true
}

/// Reads `lazy L`, after its word.
fn read_lazy(progress: &mut Progress, field: &[u8]) -> bool
    ensures { (r : Reading) → IsHeld progress.old r
        → Steps r (codes "lazy " ++ field.now) result progress.new }
{
    let Some(pages) = number(field) else {
        return false;
    };
    if progress.rank < SPACE || LAZY <= progress.rank || MOST_PAGES < pages {
        return false;
    }
    progress.lazy = pages as u32;
    progress.rank = LAZY;
    true
}

/// Whether a block may have so many pages, and so many cut from it at most.
fn are_block_sizes(pages: u64, part_limit: u64) -> bool
    ensures { (r : Reading) → result ≡ is_allowed r (Blocks pages part_limit) }
{
    pages.is_power_of_two()
        && LEAST_BLOCK_PAGES <= pages
        && pages <= MOST_BLOCK_PAGES
        && part_limit.is_power_of_two()
        && 1 <= part_limit
        && part_limit <= pages / 2
}

/// Reads `block B M`, after its word.
fn read_block(progress: &mut Progress, text: &[u8]) -> bool
    ensures { (r : Reading) → IsHeld progress.old r
        → Steps r (codes "block " ++ text.now) result progress.new }
{
    let Some((pages, part_limit)) = pair(text) else {
        return false;
    };
    if progress.rank < SPACE || BLOCK <= progress.rank {
        return false;
    }
    if !are_block_sizes(pages, part_limit) {
        return false;
    }
    progress.block_pages = pages as u32;
    progress.part_limit = part_limit as u32;
    progress.rank = BLOCK;
    true
}

/// Whether a processor's unit may have so many pages, and a chunk's base be a multiple of so many.
fn are_unit_sizes(pages: u64, atom: u64) -> bool
    ensures { (r : Reading) → result ≡ is_allowed r (Units pages atom) }
{
    LEAST_UNIT_PAGES <= pages
        && pages <= MOST_UNIT_PAGES
        && atom.is_power_of_two()
        && 1 <= atom
        && atom <= MOST_ATOM
}

/// Reads `unit U A`, after its word.
fn read_unit(progress: &mut Progress, text: &[u8]) -> bool
    ensures { (r : Reading) → IsHeld progress.old r
        → Steps r (codes "unit " ++ text.now) result progress.new }
{
    let Some((pages, atom)) = pair(text) else {
        return false;
    };
    if progress.rank < SPACE || UNIT <= progress.rank {
        return false;
    }
    if !are_unit_sizes(pages, atom) {
        return false;
    }
    progress.unit_pages = pages as u32;
    progress.atom = atom as u32;
    progress.rank = UNIT;
    true
}

/// Reads `callers N`, after its word.
fn read_callers(progress: &mut Progress, field: &[u8]) -> bool
    ensures { (r : Reading) → IsHeld progress.old r
        → Steps r (codes "callers " ++ field.now) result progress.new }
{
    let Some(callers) = number(field) else {
        return false;
    };
    if progress.rank < SPACE || CALLERS <= progress.rank || callers < 1 || MOST_CALLERS < callers {
        return false;
    }
    progress.callers = callers as u16;
    progress.rank = CALLERS;
    true
}

/// Reads `counters K T`, after its word.
fn read_counters(progress: &mut Progress, text: &[u8]) -> bool
    ensures { (r : Reading) → IsHeld progress.old r
        → Steps r (codes "counters " ++ text.now) result progress.new }
{
    let Some((counters, batch)) = pair(text) else {
        return false;
    };
    if progress.rank < SPACE || COUNTERS <= progress.rank {
        return false;
    }
    if MOST_COUNTERS < counters || batch < 1 || MOST_BATCH < batch {
        return false;
    }
    progress.counters = counters as u16;
    progress.batch = batch as u32;
    progress.rank = COUNTERS;
    true
}

/// Reads a line of the header other than that of a group, where one with this text stands.
pub fn read_header_line(progress: &mut Progress, line: &[u8]) -> bool
    ensures { (r : Reading) → IsHeld progress.old r
        → StepsIn (one_of words_of_header) r line.now result progress.new }
{
    if let Some(field) = line.strip_prefix(b"callers ") {
        return read_callers(progress, field);
    }
    if let Some(field) = line.strip_prefix(b"frames ") {
        return read_frames(progress, field);
    }
    if let Some(text) = line.strip_prefix(b"block ") {
        return read_block(progress, text);
    }
    if let Some(field) = line.strip_prefix(b"lazy ") {
        return read_lazy(progress, field);
    }
    if let Some(field) = line.strip_prefix(b"space ") {
        return read_space(progress, field);
    }
    if let Some(text) = line.strip_prefix(b"unit ") {
        return read_unit(progress, text);
    }
    if let Some(text) = line.strip_prefix(b"counters ") {
        return read_counters(progress, text);
    }
    if line == b"vmtrace 1".as_slice() {
        return read_version(progress);
    }
    false
}
