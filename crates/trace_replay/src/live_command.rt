//! A trace whose callers run on threads of their own.
ghost use Rattle.std.specs.Prelude.{◌≡◌, ◌≢◌, ◌≤◌, Err, IfOk, length};
ghost use Rattle.trace_text.specs.Reading.{Reading};
ghost use Rattle.trace_text.specs.ToldTraces.{Tells};
ghost use Rattle.trace_rules.specs.RuledTraces.{IsRuledTrace};
ghost use Rattle.trace_replay.specs.Streams.{RoseByOne};
ghost use Rattle.trace_replay.specs.Headline.{Writes, HasRoomFor, Reports, IsSilent, most_bytes};
ghost use Rattle.trace_replay.specs.Commands.{IsMadeOf, IsCutShort, Replays, TellsFaults};
ghost use Rattle.trace_replay.specs.LiveReports.{IsLiveReport};

use crate::answer::{Outcome, fault, too_long};
use crate::commands::tell;
use crate::gather::{Cut, gather};
use crate::live_counts::{Counting, finish_counts, start_counts};
use crate::sink::Sink;
use crate::source::Source;
use crate::status::Status;
use caller_threads::{Lived, live_kernel};
use report_text::{Fault, Text, write_report, write_schedule};
use section_table::Gate;
use std::alloc::{AllocError, Global};
use std::sync::Wait;
use std::thread::Threads;
use trace_text::{Trace, TraceError, read_trace};

/// The order that happened, and the report of the trace with this order. Each caller does its count lines between its calls.
fn live_report<G: Gate + Sync, R: Threads + Wait + Sync>(
    rt: &R,
    alloc: Global,
    trace: Trace,
    gate: &G,
) -> Result<Outcome, AllocError>
    requires { (reading : Reading) × IsRuledTrace reading × Tells trace reading }
    ensures { IfOk result (λ outcome. (reading : Reading) → IsRuledTrace reading
        → Tells trace reading → Reports IsLiveReport reading outcome.status outcome.text) }
{
    let Counting {
        counters,
        pass,
        shares,
    } = start_counts(alloc, &trace)?;
    let Trace { config, calls, .. } = trace;
    let Lived {
        kernel,
        opening,
        shares,
    } = live_kernel(rt, alloc, config, calls, &counters, shares, gate)?;
    let rows = finish_counts(alloc, counters, pass, shares)?;
    let tables = kernel.tables(false)?;
    let schedule = write_schedule(alloc, &kernel.moved()[opening..])?;
    let report = write_report(alloc, &tables, &rows, false)?;
    let mut bytes = schedule.into_vec();
    bytes.extend_from_slice(report.as_slice())?;
    Ok(Outcome {
        status: Status::Done,
        text: Text::of(bytes),
    })
}

/// The answer to all bytes of a source.
fn live_answer<G: Gate + Sync, R: Threads + Wait + Sync>(
    rt: &R,
    alloc: Global,
    bytes: &[u8],
    gate: &G,
) -> Result<Outcome, AllocError>
    requires { length bytes.now ≤ most_bytes }
    ensures { IfOk result (λ outcome. Writes IsLiveReport bytes.now outcome.status outcome.text) }
{
    match read_trace(alloc, bytes) {
        Ok(trace) => live_report(rt, alloc, trace, gate),
        Err(TraceError::BadLine { line }) => {
            fault(alloc, Status::BadTrace { line }, &Fault::Line { line })
        }
        Err(TraceError::Layout(error)) => {
            fault(alloc, Status::BadLayout(error), &Fault::Layout(error))
        }
        Err(TraceError::OutOfMemory) => Err(AllocError),
    }
}

/// The answer to all that a source gives.
fn live_outcome<S: Source, G: Gate + Sync, R: Threads + Wait + Sync>(
    rt: &R,
    alloc: Global,
    source: &mut S,
    gate: &G,
) -> Result<Outcome, Cut>
    ensures made { IfOk result
        (λ o. IsMadeOf IsLiveReport (S.left source.old) (S.left source.new) o.status o.text) }
    ensures failed { result ≡ Err Cut.Failed
        → RoseByOne (S.faults source.old) (S.faults source.new) }
    ensures cut_short { result ≡ Err Cut.Failed
        → IsCutShort (S.left source.old) (S.left source.new) }
    ensures not_cut { result ≢ Err Cut.TooLong }
    ensures no_fault { result ≢ Err Cut.Failed → S.faults source.new ≡ S.faults source.old }
{
    match gather(alloc, source) {
        Ok(bytes) => Ok(live_answer(rt, alloc, bytes.as_slice(), gate)?),
        Err(Cut::TooLong) => Ok(too_long(alloc)?),
        Err(Cut::Failed) => Err(Cut::Failed),
        Err(Cut::OutOfMemory) => Err(Cut::OutOfMemory),
    }
}

/// Reads a trace to its end and runs each of its callers on a thread of its own, which tells a gate of its sections. It
/// writes the order of their events, and then the report of just that order, or the line that tells what is wrong with the
/// trace. Its `order` lines are ignored. It may wait.
pub fn live<S: Source, K: Sink, G: Gate + Sync, R: Threads + Wait + Sync>(
    rt: &R,
    alloc: Global,
    source: &mut S,
    sink: &mut K,
    gate: &G,
) -> Status
    requires { HasRoomFor IsLiveReport (S.left source.old) (K.room sink.old) }
    ensures replays { Replays IsLiveReport (S.left source.old) (S.left source.new)
        (K.taken sink.old) (K.taken sink.new) result }
    ensures faults { TellsFaults result (S.faults source.old) (S.faults source.new)
        (K.faults sink.old) (K.faults sink.new) }
    ensures silent { IsSilent result → K.taken sink.new ≡ K.taken sink.old }
    ensures usage { result ≢ Status.Usage }
{
    match live_outcome(rt, alloc, source, gate) {
        Ok(outcome) => tell(sink, outcome),
        Err(Cut::Failed) => Status::ReadFault,
        Err(_) => Status::OutOfMemory,
    }
}
