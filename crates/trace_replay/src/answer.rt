//! What is written for the bytes of a trace.
ghost use Rattle.std.specs.Prelude.{◌≡◌, ◌≤◌, ◌<◌, IfOk, length};
ghost use Rattle.kernel_steps.specs.Kernels.{tables_for};
ghost use Rattle.trace_text.specs.Reading.{Reading};
ghost use Rattle.report_text.specs.Report.{fault_line};
ghost use Rattle.trace_text.specs.ToldTraces.{Tells};
ghost use Rattle.trace_rules.specs.RuledTraces.{IsRuledTrace};
ghost use Rattle.trace_replay.specs.Headline.{IsReport, Writes, Reports, setup, history_of_trace, most_bytes};

use crate::counts::counters_of_trace;
use crate::status::Status;
use crate::words::Mode;
use kernel_steps::Kernel;
use report_text::{Fault, Text, write_fault, write_report};
use std::alloc::{AllocError, Global};
use trace_text::{Trace, TraceError, read_trace};
use vm_model::Tables;

/// A status, and the text that is written with it.
#[derive(Drop)]
pub struct Outcome {
    pub status: Status,
    pub text: Text,
}

/// The replies and tables of a trace, in which the rows that an audit alone reads stand with one only.
fn tables_of_trace(alloc: Global, trace: Trace, audit: bool) -> Result<Tables, AllocError>
    requires { (reading : Reading) × IsRuledTrace reading × Tells trace reading }
    ensures { IfOk result (λ tables. (reading : Reading) → IsRuledTrace reading
        → Tells trace reading
        → tables ≡ tables_for audit (setup reading) (history_of_trace reading)) }
{
    let Trace {
        config,
        calls,
        picks,
        ..
    } = trace;
    let mut kernel = Kernel::start(alloc, config, calls)?;
    kernel.run(picks.as_slice())?;
    kernel.finish()?;
    kernel.tables(audit)
}

/// The report of a trace.
fn report(alloc: Global, mode: Mode, trace: Trace) -> Result<Outcome, AllocError>
    requires { (reading : Reading) × IsRuledTrace reading × Tells trace reading }
    ensures { IfOk result (λ outcome. (reading : Reading) → IsRuledTrace reading
        → Tells trace reading → Reports (IsReport mode) reading outcome.status outcome.text) }
{
    let counters = counters_of_trace(alloc, &trace)?;
    let audit = mode.audits();
    let tables = tables_of_trace(alloc, trace, audit)?;
    let text = write_report(alloc, &tables, &counters, audit)?;
    Ok(Outcome {
        status: Status::Done,
        text,
    })
}

/// A fault line.
pub fn fault(alloc: Global, status: Status, fault: &Fault) -> Result<Outcome, AllocError>
    ensures { IfOk result (λ outcome. (outcome.status ≡ status)
        × (outcome.text ≡ fault_line fault.now)) }
{
    let text = write_fault(alloc, fault)?;
    Ok(Outcome { status, text })
}

/// The answer to all bytes of a source.
pub fn answer(alloc: Global, mode: Mode, bytes: &[u8]) -> Result<Outcome, AllocError>
    requires { length bytes.now ≤ most_bytes }
    ensures { IfOk result (λ outcome. Writes
        (IsReport mode) bytes.now outcome.status outcome.text) }
{
    match read_trace(alloc, bytes) {
        Ok(trace) => report(alloc, mode, trace),
        Err(TraceError::BadLine { line }) => {
            fault(alloc, Status::BadTrace { line }, &Fault::Line { line })
        }
        Err(TraceError::Layout(error)) => {
            fault(alloc, Status::BadLayout(error), &Fault::Layout(error))
        }
        Err(TraceError::OutOfMemory) => Err(AllocError),
    }
}

/// The answer to a source with too many bytes.
pub fn too_long(alloc: Global) -> Result<Outcome, AllocError>
    ensures { IfOk result (λ outcome. (outcome.status ≡ Status.TooLong)
        × (outcome.text ≡ fault_line Fault.Length)) }
{
    fault(alloc, Status::TooLong, &Fault::Length)
}

/// The answer to words that name no command.
pub fn usage(alloc: Global) -> Result<Outcome, AllocError>
    ensures { IfOk result (λ outcome. (outcome.status ≡ Status.Usage)
        × (outcome.text ≡ fault_line Fault.Usage)) }
{
    fault(alloc, Status::Usage, &Fault::Usage)
}
