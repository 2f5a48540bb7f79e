//! The kept numbers, each beside that of a plain scan.
ghost use Rattle.std.specs.Prelude.{◌≡◌, ◌++◌, ◌∷◌, [], ◌≤◌, OnOk, codes, decimal, length, map};
ghost use Rattle.std.specs.Fmt.{signed_decimal};
ghost use Rattle.vm_model.specs.Words.{fields};
ghost use Rattle.report_text.specs.AuditLines.{tree_audit, chunk_audit, own_hints, chunk_audits, counter_audit, counter_audits, audit_lines};

use crate::rows::{Row, put_rows};
use std::alloc::AllocError;
use text_lines::Field::{Amount, Number, Pair, Word};
use text_lines::{put_field, put_line, put_words};
use vm_model::{ChunkAudit, ChunkRow, CounterRow, HintRow, Tables};

fn put_tree(text: &mut Vec<u8>, tables: &Tables) -> Result<(), AllocError>
    ensures { OnOk result (text.new.items ≡ text.old.items ++ tree_audit tables.now) }
{
    let rest = [
        Word(b"tree"),
        Word(b"blocks"),
        Number(tables.tree_blocks as u64),
        Word(b"largest"),
        Number(tables.tree_largest as u64),
        Word(b"plain"),
        Number(tables.plain_largest as u64),
    ];
    put_line(text, b"audit", &rest)
}

fn put_chunk_audit(
    text: &mut Vec<u8>,
    chunk: &ChunkRow,
    plain: &ChunkAudit,
) -> Result<(), AllocError>
    ensures { OnOk result (text.new.items ≡ text.old.items ++ chunk_audit chunk.now plain.now) }
{
    let rest = [
        Word(b"chunk"),
        Number(chunk.chunk as u64),
        Word(b"run"),
        Pair(chunk.run_start as u64, b"+", chunk.run as u64),
        Word(b"plain"),
        Pair(plain.run_start as u64, b"+", plain.run as u64),
        Word(b"slot"),
        Number(chunk.slot as u64),
        Word(b"plain"),
        Number(plain.slot as u64),
        Word(b"empty"),
        Number(chunk.empty as u64),
        Word(b"plain"),
        Number(plain.empty as u64),
    ];
    put_line(text, b"audit", &rest)
}

impl Row for HintRow {
    ghost use Rattle.report_text.specs.AuditLines.{hint_audit};

    ghost line = { hint_audit };

    fn put(&self, text: &mut Vec<u8>) -> Result<(), AllocError> {
        let rest = [
            Word(b"hint"),
            Number(self.chunk as u64),
            Number(self.block as u64),
            Word(b"run"),
            Pair(self.kept.run_start as u64, b"+", self.kept.run as u64),
            Word(b"left"),
            Number(self.kept.left as u64),
            Word(b"right"),
            Number(self.kept.right as u64),
            Word(b"first"),
            Number(self.kept.first as u64),
            Word(b"plain"),
            Pair(self.plain.run_start as u64, b"+", self.plain.run as u64),
            Word(b"left"),
            Number(self.plain.left as u64),
            Word(b"right"),
            Number(self.plain.right as u64),
            Word(b"first"),
            Number(self.plain.first as u64),
        ];
        put_line(text, b"audit", &rest)
    }
}

/// How many hints at the front are this chunk's.
fn own_hints(chunk: u32, hints: &[HintRow]) -> usize
    ensures value { result ≡ own_hints chunk hints.now }
    ensures within { result ≤ length hints.now }
{
    for i in 0..hints.len() {
        if hints[i].chunk != chunk {
            return i;
        }
    }
    hints.len()
}

/// Writes each chunk's line, and then those of its hints.
fn put_chunk_audits(
    text: &mut Vec<u8>,
    chunks: &[ChunkRow],
    plains: &[ChunkAudit],
    hints: &[HintRow],
) -> Result<(), AllocError>
    ensures { OnOk result (text.new.items
        ≡ text.old.items ++ chunk_audits chunks.now plains.now hints.now) }
{
    let mut rest = hints;
    for i in 0..chunks.len().min(plains.len()) {
        put_chunk_audit(text, &chunks[i], &plains[i])?;
        let (own, others) = rest.split_at(own_hints(chunks[i].chunk, rest));
        put_rows(text, own)?;
        rest = others;
    }
    Ok(())
}

/// Writes an amount, a space before it.
fn put_cell(text: &mut Vec<u8>, cell: &i64) -> Result<(), AllocError>
    ensures { OnOk result (text.new.items ≡ text.old.items ++ 32 ∷ signed_decimal cell.now) }
{
    put_words(text, &[Amount(*cell)])
}

/// Writes amounts, a space before each.
fn put_cells(text: &mut Vec<u8>, cells: &[i64]) -> Result<(), AllocError>
    ensures { OnOk result (text.new.items
        ≡ text.old.items ++ fields ([] ∷ map signed_decimal cells.now)) }
{
    for cell in cells {
        put_cell(text, cell)?;
    }
    Ok(())
}

/// Writes a counter's number and its count, before its cells.
fn put_count(text: &mut Vec<u8>, number: u64, counter: &CounterRow) -> Result<(), AllocError>
    ensures { OnOk result (text.new.items
        ≡ text.old.items ++ fields ([] ∷ codes "counter" ∷ decimal number ∷ codes "count"
        ∷ signed_decimal counter.now.count ∷ codes "cells" ∷ [])) }
{
    let words = [
        Word(b"counter"),
        Number(number),
        Word(b"count"),
        Amount(counter.count),
        Word(b"cells"),
    ];
    put_words(text, &words)
}

fn put_counter_audit(
    text: &mut Vec<u8>,
    number: u64,
    counter: &CounterRow,
) -> Result<(), AllocError>
    ensures { OnOk result (text.new.items ≡ text.old.items ++ counter_audit number counter.now) }
{
    put_field(text, Word(b"audit"))?;
    put_count(text, number, counter)?;
    put_cells(text, counter.cells.as_slice())?;
    put_field(text, Word(b"\n"))
}

fn put_counter_audits(text: &mut Vec<u8>, counters: &[CounterRow]) -> Result<(), AllocError>
    ensures { OnOk result (text.new.items ≡ text.old.items ++ counter_audits counters.now) }
{
    for (i, counter) in counters.iter().enumerate() {
        put_counter_audit(text, i as u64, counter)?;
    }
    Ok(())
}

/// Writes all audit lines.
pub fn put_audit(
    text: &mut Vec<u8>,
    tables: &Tables,
    counters: &[CounterRow],
) -> Result<(), AllocError>
    ensures { OnOk result (text.new.items ≡ text.old.items ++ audit_lines tables.now counters.now) }
{
    put_tree(text, tables)?;
    put_chunk_audits(
        text,
        tables.chunks.as_slice(),
        tables.chunk_audit.as_slice(),
        tables.hints.as_slice(),
    )?;
    put_counter_audits(text, counters)
}
