//! The report, the schedule and the line of a fault.
ghost use Rattle.std.specs.Prelude.{◌≡◌, ◌++◌, OnOk, IfOk};
ghost use Rattle.report_text.specs.Report.{report, call_lines, space_lines, row_lines, number_lines, schedule, fault_line};
ghost use Rattle.report_text.specs.declared.faults.Fault.TheVariants.{Layout};

use crate::audit_lines::put_audit;
use crate::entry_lines::put_tally;
use crate::faults::Fault;
use crate::rows::put_rows;
use crate::table_lines::{put_counters, put_events, put_frames, put_spans};
use std::alloc::{AllocError, Global};
use text_lines::Field::{Number, Word};
use text_lines::{Text, put_field, put_line, put_words};
use unit_layout::LayoutError;
use vm_model::{CounterList, CounterRow, Tables};

/// Room for the line of a reply, in bytes. Few are longer.
const LINE: usize = 32;

/// Writes the replies, and how many events there were.
fn put_calls(text: &mut Vec<u8>, tables: &Tables) -> Result<(), AllocError>
    ensures { OnOk result (text.new.items ≡ text.old.items ++ call_lines tables.now) }
{
    put_rows(text, tables.entries.as_slice())?;
    put_tally(text, tables.entries.as_slice())?;
    put_events(text, tables.events)
}

/// Writes the frames, and what is free, in use and waiting.
fn put_space(text: &mut Vec<u8>, tables: &Tables) -> Result<(), AllocError>
    ensures { OnOk result (text.new.items ≡ text.old.items ++ space_lines tables.now) }
{
    put_frames(text, tables.frames, tables.mapped, tables.stale)?;
    put_spans(text, b"free", tables.free.as_slice())?;
    put_rows(text, tables.areas.as_slice())?;
    put_spans(text, b"wait", tables.waiting.as_slice())
}

/// Writes the blocks and the chunks, with what lives in them.
fn put_tables(text: &mut Vec<u8>, tables: &Tables) -> Result<(), AllocError>
    ensures { OnOk result (text.new.items ≡ text.old.items ++ row_lines tables.now) }
{
    put_rows(text, tables.blocks.as_slice())?;
    put_rows(text, tables.parts.as_slice())?;
    put_rows(text, tables.chunks.as_slice())?;
    put_rows(text, tables.objects.as_slice())
}

/// Writes the counters and, where they are asked for, the audit lines.
fn put_numbers(
    text: &mut Vec<u8>,
    tables: &Tables,
    counters: &[CounterRow],
    audit: bool,
) -> Result<(), AllocError>
    ensures { OnOk result (text.new.items
        ≡ text.old.items ++ number_lines tables.now counters.now audit) }
{
    put_counters(text, counters)?;
    if audit {
        put_audit(text, tables, counters)
    } else {
        Ok(())
    }
}

/// Writes the report of a run that has ended, with or without its audit lines.
pub fn write_report(
    alloc: Global,
    tables: &Tables,
    counters: &CounterList,
    audit: bool,
) -> Result<Text, AllocError>
    ensures { IfOk result (λ text. text ≡ report tables.now counters.now audit) }
{
    let mut text = Vec::with_capacity(alloc, tables.entries.as_slice().len().saturating_mul(LINE))?;
    put_line(&mut text, b"vmreport", &[Word(b"1")])?;
    put_calls(&mut text, tables)?;
    put_space(&mut text, tables)?;
    put_tables(&mut text, tables)?;
    put_numbers(&mut text, tables, counters.as_slice(), audit)?;
    put_line(&mut text, b"end", &[])?;
    Ok(Text::of(text))
}

/// Writes the callers of the events.
pub fn write_schedule(alloc: Global, picks: &[u16]) -> Result<Text, AllocError>
    ensures { IfOk result (λ text. text ≡ schedule picks.now) }
{
    let mut text = Vec::new(alloc);
    put_field(&mut text, Word(b"schedule"))?;
    for pick in picks {
        put_words(&mut text, &[Number(*pick as u64)])?;
    }
    put_field(&mut text, Word(b"\n"))?;
    Ok(Text::of(text))
}

/// Writes the line of a layout that is refused.
fn put_layout_fault(text: &mut Vec<u8>, error: LayoutError) -> Result<(), AllocError>
    ensures { OnOk result (text.new.items ≡ text.old.items ++ fault_line (Layout error)) }
{
    let layout = Word(b"layout");
    match error {
        LayoutError::NoCpu { group } => put_line(
            text,
            b"fault",
            &[layout, Word(b"no-cpu"), Number(group as u64)],
        ),
        LayoutError::TooManyGroups { groups } => put_line(
            text,
            b"fault",
            &[layout, Word(b"groups"), Number(groups as u64)],
        ),
        LayoutError::Overlap { first, second } => put_line(
            text,
            b"fault",
            &[
                layout,
                Word(b"overlap"),
                Number(first as u64),
                Number(second as u64),
            ],
        ),
        LayoutError::TooWide { pages } => {
            put_line(text, b"fault", &[layout, Word(b"wide"), Number(pages)])
        }
    }
}

fn put_fault(text: &mut Vec<u8>, fault: &Fault) -> Result<(), AllocError>
    ensures { OnOk result (text.new.items ≡ text.old.items ++ fault_line fault.now) }
{
    match fault {
        Fault::Usage => put_line(text, b"fault", &[Word(b"usage")]),
        Fault::Line { line } => put_line(text, b"fault", &[Word(b"line"), Number(*line as u64)]),
        Fault::Layout(error) => put_layout_fault(text, *error),
        Fault::Length => put_line(text, b"fault", &[Word(b"length")]),
    }
}

/// Writes what is wrong.
pub fn write_fault(alloc: Global, fault: &Fault) -> Result<Text, AllocError>
    ensures { IfOk result (λ text. text ≡ fault_line fault.now) }
{
    let mut text = Vec::new(alloc);
    put_fault(&mut text, fault)?;
    Ok(Text::of(text))
}
