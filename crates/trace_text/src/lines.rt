//! The lines of a trace, as they are read.
ghost use Rattle.std.specs.Prelude.{◌≡◌, ◌++◌, ◌==◌, List, ℕ, None, if◌then◌else◌, IfOk, codes};
ghost use Rattle.trace_text.specs.Reading.{Reading};
ghost use Rattle.trace_text.specs.Names.{place_of};
ghost use Rattle.trace_text.specs.LineWords.{is_percpu_or_header};
ghost use Rattle.trace_text.specs.HeldLines.{IsHeld, Steps, StepsIn};

use crate::call_lines::{
    read_map_ram, read_unmap_aliases, read_unmap_ram, read_vfree, read_vmalloc,
};
use crate::count_lines::read_count;
use crate::fields::number;
use crate::groups::read_group;
use crate::header_lines::read_header_line;
use crate::names::Names;
use crate::object_lines::{
    read_add, read_alloc_atomic, read_alloc_percpu, read_balance, read_free_percpu, read_sum,
};
use crate::picks::read_picks;
use crate::progress::{CALLS, END, ORDER, Progress, SPACE};
use crate::sections::close_section;
use std::alloc::{AllocError, Global};
use std::mem;

/// Ends the names of the open section. Those of the opening are kept. The callers' sections, one after another, have slots
/// for twice an even share of the names.
fn close_names(alloc: Global, progress: &mut Progress)
    ensures none { (name : List ℕ) → place_of progress.new.names name ≡ None }
    ensures kept { progress.new.opening_names
        ≡ (if progress.old.caller == 0 then progress.old.names else progress.old.opening_names) }
    ensures same { progress.new ≡ record progress.old
        { names = progress.new.names; opening_names = progress.new.opening_names } }
{
    if progress.caller == 0 {
        let slots = progress.names.wanted() / (progress.callers as usize / 2).max(1);
        let names = Names::new(alloc, slots);
        progress.opening_names = mem::replace(&mut progress.names, names);
    } else {
        progress.names.clear();
    }
}

/// Reads `caller N`, after its word: the open section ends, and that of the caller begins.
fn read_caller(alloc: Global, progress: &mut Progress, field: &[u8]) -> Result<bool, AllocError>
    ensures { IfOk result (λ stood. (r : Reading) → IsHeld progress.old r
        → Steps r (codes "caller " ++ field.now) stood progress.new) }
{
    let Some(caller) = number(field) else {
        return Ok(false);
    };
    if progress.rank < SPACE || CALLS < progress.rank {
        return Ok(false);
    }
    if caller <= progress.caller as u64 || (progress.callers as u64) < caller {
        return Ok(false);
    }
    let calls = mem::replace(&mut progress.calls, Vec::new(alloc));
    let last = caller as u16 - 1;
    close_section(alloc, &mut progress.closed, calls, progress.caller, last)?;
    close_names(alloc, progress);
    progress.caller = caller as u16;
    progress.rank = CALLS;
    Ok(true)
}

/// Reads `order C C C`, after its word.
fn read_order(progress: &mut Progress, text: &[u8]) -> Result<bool, AllocError>
    ensures { IfOk result (λ stood. (r : Reading) → IsHeld progress.old r
        → Steps r (codes "order " ++ text.now) stood progress.new) }
{
    if progress.rank < SPACE || ORDER < progress.rank {
        return Ok(false);
    }
    if !read_picks(&mut progress.picks, progress.callers, text)? {
        return Ok(false);
    }
    progress.rank = ORDER;
    Ok(true)
}

/// Reads `end`.
fn read_end(progress: &mut Progress) -> bool
    ensures { (r : Reading) → IsHeld progress.old r → Steps r (codes "end") result progress.new }
{
    if progress.rank < SPACE || END <= progress.rank {
        return false;
    }
    progress.rank = END;
    true
}

/// Reads a line of per-CPU objects or counters, or one of the header, where one with this text stands.
fn read_percpu_line(progress: &mut Progress, line: &[u8]) -> Result<bool, AllocError>
    requires held { (r : Reading) × IsHeld progress.old r }
    ensures { IfOk result (λ stood. (r : Reading) → IsHeld progress.old r
        → StepsIn is_percpu_or_header r line.now stood progress.new) }
{
    if let Some(text) = line.strip_prefix(b"alloc_percpu ") {
        return read_alloc_percpu(progress, text);
    }
    if let Some(text) = line.strip_prefix(b"alloc_atomic ") {
        return read_alloc_atomic(progress, text);
    }
    if let Some(text) = line.strip_prefix(b"free_percpu ") {
        return read_free_percpu(progress, text);
    }
    if let Some(text) = line.strip_prefix(b"add ") {
        return read_add(progress, text);
    }
    if let Some(text) = line.strip_prefix(b"sum ") {
        return read_sum(progress, text);
    }
    if let Some(text) = line.strip_prefix(b"count ") {
        return read_count(progress, text);
    }
    if line == b"balance".as_slice() {
        return read_balance(progress);
    }
    Ok(read_header_line(progress, line))
}

/// Reads a line, where one with this text stands.
pub fn read_line(alloc: Global, progress: &mut Progress, line: &[u8]) -> Result<bool, AllocError>
    requires held { (r : Reading) × IsHeld progress.old r }
    ensures { IfOk result (λ stood. (r : Reading) → IsHeld progress.old r
        → Steps r line.now stood progress.new) }
{
    if let Some(text) = line.strip_prefix(b"order ") {
        return read_order(progress, text);
    }
    if let Some(text) = line.strip_prefix(b"vmalloc ") {
        return read_vmalloc(progress, text);
    }
    if let Some(text) = line.strip_prefix(b"vfree ") {
        return read_vfree(progress, text);
    }
    if let Some(text) = line.strip_prefix(b"map_ram ") {
        return read_map_ram(progress, text);
    }
    if let Some(text) = line.strip_prefix(b"unmap_ram ") {
        return read_unmap_ram(progress, text);
    }
    if line == b"unmap_aliases".as_slice() {
        return read_unmap_aliases(progress);
    }
    if let Some(field) = line.strip_prefix(b"caller ") {
        return read_caller(alloc, progress, field);
    }
    if let Some(text) = line.strip_prefix(b"group ") {
        return read_group(progress, text);
    }
    if line == b"end".as_slice() {
        return Ok(read_end(progress));
    }
    read_percpu_line(progress, line)
}
