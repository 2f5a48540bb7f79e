//! The sections of callers, line by line.
ghost use Rattle.std.specs.Prelude.{◌≡◌, ◌%◌, ◌-ℤ◌, ◌++◌, ◌∷◌, [], None, OnOk, codes, decimal, pos};
ghost use Rattle.std.specs.Fmt.{signed_decimal};
ghost use Rattle.std.specs.List.{last_or};
ghost use Rattle.vm_model.specs.Words.{line};
ghost use Rattle.trace_maker.specs.Generated.{Section, no_lines, next, drawn, takes_area, takes_part, takes_object, frees_area, frees_part, frees_object, adds_to, counts, step_of};
ghost use Rattle.trace_maker.specs.WrittenSections.{IsWritten, IsStep};

use crate::draws::Draws;
use crate::queues::{free_oldest, newest, put_balance, take};
use std::alloc::{AllocError, Global};
use std::collections::VecDeque;
use text_lines::Field::{Amount, Number, Tagged};
use text_lines::put_line;

/// How many processors the machine has.
const CPUS: u32 = 4;

/// How many counters there are.
const COUNTERS: u32 = 4;

/// The lines of a caller as text, and the numbers of the lines whose names still stand in its queues.
#[derive(Drop)]
pub struct SectionText {
    pub lines: Vec<u8>,
    /// Areas that aren't freed, the oldest first.
    pub areas: VecDeque<u32>,
    /// Parts that aren't unmapped, the oldest first.
    pub parts: VecDeque<u32>,
    /// Objects that aren't freed, the oldest first.
    pub objects: VecDeque<u32>,
}

/// A section without lines. It takes no memory.
pub fn no_lines(alloc: Global) -> SectionText
    ensures { IsWritten result no_lines }
{
    SectionText {
        lines: Vec::new(alloc),
        areas: VecDeque::new(alloc),
        parts: VecDeque::new(alloc),
        objects: VecDeque::new(alloc),
    }
}

/// Takes an area of 1 to 32,768 bytes.
fn take_area(section: &mut SectionText, draws: &mut Draws, number: u32) -> Result<(), AllocError>
    ensures { OnOk result ((s : Section) → IsWritten section.old s
        → IsStep section.new draws.new.state (takes_area draws.old.state number s)) }
{
    let bytes = 1 + draws.draw();
    take(
        &mut section.lines,
        &mut section.areas,
        b"vmalloc",
        b"a",
        number,
        (bytes, 4096),
    )
}

/// Frees the oldest area.
fn free_area(section: &mut SectionText) -> Result<(), AllocError>
    ensures { OnOk result ((s : Section) → IsWritten section.old s
        → IsWritten section.new (frees_area s s.areas)) }
{
    free_oldest(&mut section.lines, &mut section.areas, b"vfree", b"a")
}

/// Takes a part of 1 to 16 pages on one of the processors.
fn take_part(section: &mut SectionText, draws: &mut Draws, number: u32) -> Result<(), AllocError>
    ensures { OnOk result ((s : Section) → IsWritten section.old s
        → IsStep section.new draws.new.state (takes_part draws.old.state number s)) }
{
    let cpu = draws.draw_below(CPUS);
    let pages = 1 + draws.draw_below(16);
    take(
        &mut section.lines,
        &mut section.parts,
        b"map_ram",
        b"r",
        number,
        (cpu, pages),
    )
}

/// Unmaps the oldest part.
fn free_part(section: &mut SectionText) -> Result<(), AllocError>
    ensures { OnOk result ((s : Section) → IsWritten section.old s
        → IsWritten section.new (frees_part s s.parts)) }
{
    free_oldest(&mut section.lines, &mut section.parts, b"unmap_ram", b"r")
}

/// Takes an object of 4 to 1,027 bytes.
fn take_object(section: &mut SectionText, draws: &mut Draws, number: u32) -> Result<(), AllocError>
    ensures { OnOk result ((s : Section) → IsWritten section.old s
        → IsStep section.new draws.new.state (takes_object draws.old.state number s)) }
{
    let bytes = 4 + draws.draw_below(1024);
    take(
        &mut section.lines,
        &mut section.objects,
        b"alloc_percpu",
        b"p",
        number,
        (bytes, 8),
    )
}

/// Frees the oldest object.
fn free_object(section: &mut SectionText) -> Result<(), AllocError>
    ensures { OnOk result ((s : Section) → IsWritten section.old s
        → IsWritten section.new (frees_object s s.objects)) }
{
    free_oldest(
        &mut section.lines,
        &mut section.objects,
        b"free_percpu",
        b"p",
    )
}

/// Adds to the newest object's first word, or asks for a balance where there is none.
fn add_amount(section: &mut SectionText, draws: &mut Draws) -> Result<(), AllocError>
    ensures { OnOk result ((s : Section) → IsWritten section.old s
        → IsStep section.new draws.new.state (adds_to draws.old.state s (last_or None s.objects))) }
{
    let Some(object) = newest(&section.objects) else {
        return put_balance(&mut section.lines);
    };
    let target = Tagged(b"p", u64::from(object));
    let cpu = Number(u64::from(draws.draw_below(CPUS)));
    let amount = Amount(i64::from(draws.draw_below(1000)));
    put_line(
        &mut section.lines,
        b"add",
        &[target, cpu, Number(0), amount],
    )
}

/// What a draw below 101 adds to a counter.
fn centered(draw: u32) -> i64
    ensures { result ≡ pos draw -ℤ pos 50 }
{
    i64::from(draw) - 50
}

/// Writes a line that adds what was drawn to a counter.
fn put_count(lines: &mut Vec<u8>, counter: u32, cpu: u32, draw: u32) -> Result<(), AllocError>
    ensures { OnOk result (lines.new.items
        ≡ lines.old.items ++ line (codes "count" ∷ decimal counter ∷ decimal cpu
        ∷ signed_decimal (pos draw -ℤ pos 50) ∷ [])) }
{
    let counter = Number(u64::from(counter));
    let cpu = Number(u64::from(cpu));
    let amount = Amount(centered(draw));
    put_line(lines, b"count", &[counter, cpu, amount])
}

/// Adds an amount of -50 to 50 to a counter.
fn count(section: &mut SectionText, draws: &mut Draws) -> Result<(), AllocError>
    ensures { OnOk result ((s : Section) → IsWritten section.old s
        → IsStep section.new draws.new.state (counts draws.old.state s)) }
{
    let counter = draws.draw_below(COUNTERS);
    let cpu = draws.draw_below(CPUS);
    let amount = draws.draw_below(101);
    put_count(&mut section.lines, counter, cpu, amount)
}

/// Puts the line of this number behind the others: its kind is drawn, and then its fields.
pub fn add_line(section: &mut SectionText, draws: &mut Draws, number: u32) -> Result<(), AllocError>
    ensures { OnOk result ((s : Section) → IsWritten section.old s
        → IsStep section.new draws.new.state
        (let kind = next draws.old.state in step_of (drawn kind % 16) kind number s)) }
{
    let kind = draws.draw_below(16);
    if kind < 3 {
        take_area(section, draws, number)
    } else if kind < 6 {
        free_area(section)
    } else if kind < 8 {
        take_part(section, draws, number)
    } else if kind < 10 {
        free_part(section)
    } else if kind < 12 {
        take_object(section, draws, number)
    } else if kind < 14 {
        free_object(section)
    } else if kind < 15 {
        add_amount(section, draws)
    } else {
        count(section, draws)
    }
}
