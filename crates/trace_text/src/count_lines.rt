//! The count lines, as they are read.
ghost use Rattle.std.specs.Prelude.{◌++◌, IfOk, codes};
ghost use Rattle.trace_text.specs.Reading.{Reading};
ghost use Rattle.trace_text.specs.HeldLines.{IsHeld, Steps};

use crate::call_lines::has_place;
use crate::fields::pair_and_amount;
use crate::groups::cpu_count;
use crate::progress::{CALLS, Progress};
use std::alloc::AllocError;
use vm_model::CountLine;

/// Reads `count K CPU AMOUNT`, after its word. It stands behind the calls of its section that came before it.
pub fn read_count(progress: &mut Progress, text: &[u8]) -> Result<bool, AllocError>
    requires held { (r : Reading) × IsHeld progress.old r }
    ensures { IfOk result (λ stood. (r : Reading) → IsHeld progress.old r
        → Steps r (codes "count " ++ text.now) stood progress.new) }
{
    if !has_place(progress) {
        return Ok(false);
    }
    let Some((counter, cpu, amount)) = pair_and_amount(text) else {
        return Ok(false);
    };
    if u64::from(progress.counters) <= counter {
        return Ok(false);
    }
    if u64::from(cpu_count(progress)) <= cpu {
        return Ok(false);
    }
    let line = CountLine {
        caller: progress.caller,
        after: progress.calls.len() as u32,
        counter: counter as u16,
        cpu: cpu as u16,
        amount,
    };
    progress.counts.push(line)?;
    progress.lines += 1;
    progress.rank = CALLS;
    Ok(true)
}
