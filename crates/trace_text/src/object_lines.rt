//! The lines of calls on per-CPU objects, as they are read.
ghost use Rattle.std.specs.Prelude.{◌≡◌, ◌++◌, IfOk, codes};
ghost use Rattle.trace_text.specs.Reading.{Reading};
ghost use Rattle.trace_text.specs.Grammar.{has_word, is_object};
ghost use Rattle.trace_text.specs.HeldLines.{IsHeld, Steps};

use crate::call_lines::{add_call, add_named_call, aimed_at, has_place};
use crate::fields::{named_pair, numbered, numbered_amount};
use crate::groups::cpu_count;
use crate::progress::Progress;
use std::alloc::AllocError;
use vm_model::Call;

/// The bytes of a word of an object.
const WORD_BYTES: u64 = 4;

/// Reads `alloc_percpu NAME BYTES ALIGN`, after its word.
pub fn read_alloc_percpu(progress: &mut Progress, text: &[u8]) -> Result<bool, AllocError>
    ensures { IfOk result (λ stood. (r : Reading) → IsHeld progress.old r
        → Steps r (codes "alloc_percpu " ++ text.now) stood progress.new) }
{
    let Some((name, bytes, align)) = named_pair(text) else {
        return Ok(false);
    };
    if !has_place(progress) {
        return Ok(false);
    }
    if !add_named_call(progress, name, Call::AllocPercpu { bytes, align })? {
        return Ok(false);
    }
    Ok(true)
}

/// Reads `alloc_atomic NAME BYTES ALIGN`, after its word.
pub fn read_alloc_atomic(progress: &mut Progress, text: &[u8]) -> Result<bool, AllocError>
    ensures { IfOk result (λ stood. (r : Reading) → IsHeld progress.old r
        → Steps r (codes "alloc_atomic " ++ text.now) stood progress.new) }
{
    let Some((name, bytes, align)) = named_pair(text) else {
        return Ok(false);
    };
    if !has_place(progress) {
        return Ok(false);
    }
    if !add_named_call(progress, name, Call::AllocAtomic { bytes, align })? {
        return Ok(false);
    }
    Ok(true)
}

fn is_object(call: Call) -> bool
    ensures { result ≡ is_object call }
{
    matches!(call, Call::AllocPercpu { .. } | Call::AllocAtomic { .. })
}

/// Whether the call's object has a word of this number, words counted from 0.
fn has_word(call: Call, index: u64) -> bool
    ensures { result ≡ has_word index call }
{
    match call {
        Call::AllocPercpu { bytes, .. } | Call::AllocAtomic { bytes, .. } => {
            index < bytes.div_ceil(WORD_BYTES)
        }
        _ => false,
    }
}

/// Reads `free_percpu TARGET`, after its word. The target's line stands in the same section.
pub fn read_free_percpu(progress: &mut Progress, text: &[u8]) -> Result<bool, AllocError>
    requires held { (r : Reading) × IsHeld progress.old r }
    ensures { IfOk result (λ stood. (r : Reading) → IsHeld progress.old r
        → Steps r (codes "free_percpu " ++ text.now) stood progress.new) }
{
    if !has_place(progress) {
        return Ok(false);
    }
    let Some((target, call)) = aimed_at(progress, text) else {
        return Ok(false);
    };
    if target.opening {
        return Ok(false);
    }
    if !is_object(call) {
        return Ok(false);
    }
    add_call(progress, Call::FreePercpu { target })?;
    Ok(true)
}

/// Reads `add TARGET CPU INDEX AMOUNT`, after its word.
pub fn read_add(progress: &mut Progress, text: &[u8]) -> Result<bool, AllocError>
    requires held { (r : Reading) × IsHeld progress.old r }
    ensures { IfOk result (λ stood. (r : Reading) → IsHeld progress.old r
        → Steps r (codes "add " ++ text.now) stood progress.new) }
{
    if !has_place(progress) {
        return Ok(false);
    }
    let Some((aim, cpu, index, amount)) = numbered_amount(text) else {
        return Ok(false);
    };
    if u64::from(cpu_count(progress)) <= cpu {
        return Ok(false);
    }
    let Some((target, call)) = aimed_at(progress, aim) else {
        return Ok(false);
    };
    if !has_word(call, index) {
        return Ok(false);
    }
    let add = Call::Add {
        target,
        cpu: cpu as u16,
        index: index as u32,
        amount,
    };
    add_call(progress, add)?;
    Ok(true)
}

/// Reads `sum TARGET INDEX`, after its word.
pub fn read_sum(progress: &mut Progress, text: &[u8]) -> Result<bool, AllocError>
    requires held { (r : Reading) × IsHeld progress.old r }
    ensures { IfOk result (λ stood. (r : Reading) → IsHeld progress.old r
        → Steps r (codes "sum " ++ text.now) stood progress.new) }
{
    if !has_place(progress) {
        return Ok(false);
    }
    let Some((aim, index)) = numbered(text) else {
        return Ok(false);
    };
    let Some((target, call)) = aimed_at(progress, aim) else {
        return Ok(false);
    };
    if !has_word(call, index) {
        return Ok(false);
    }
    let index = index as u32;
    add_call(progress, Call::Sum { target, index })?;
    Ok(true)
}

/// Reads `balance`.
pub fn read_balance(progress: &mut Progress) -> Result<bool, AllocError>
    ensures { IfOk result (λ stood. (r : Reading) → IsHeld progress.old r
        → Steps r (codes "balance") stood progress.new) }
{
    if !has_place(progress) {
        return Ok(false);
    }
    add_call(progress, Call::Balance)?;
    Ok(true)
}
