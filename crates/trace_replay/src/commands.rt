//! The commands: what each reads, and what it writes.
ghost use Rattle.std.specs.Prelude.{◌≡◌, ◌≢◌, ◌≤◌, ◌<◌, ◌^◌, ℕ, Err, IfOk};
ghost use Rattle.trace_replay.specs.Streams.{RoseByOne};
ghost use Rattle.report_text.specs.Report.{fault_line};
ghost use Rattle.report_text.specs.declared.faults.Fault.{Fault};
ghost use Rattle.trace_maker.specs.Generated.{generated};
ghost use Rattle.trace_replay.specs.declared.words.Mode.{Mode};
ghost use Rattle.trace_replay.specs.CommandWords.{Names, NamesNone, ReadsNothing};
ghost use Rattle.trace_replay.specs.LiveReports.{IsLiveReport};
ghost use Rattle.trace_replay.specs.Headline.{IsReport, HasRoomFor, IsTold, IsSilent, HasRoomOf};
ghost use Rattle.trace_replay.specs.Commands.{IsMadeOf, IsCutShort, Replays, Sends, TellsFaults};

use crate::answer::{Outcome, answer, too_long, usage};
use crate::gather::{Cut, gather};
use crate::live_command::live;
use crate::send::send;
use crate::sink::Sink;
use crate::source::Source;
use crate::status::Status;
use crate::words::{Command, Mode, find_command};
use section_table::Gate;
use std::alloc::Global;
use std::sync::Wait;
use std::thread::Threads;
use trace_maker::make_trace;

/// The answer to all that a source gives.
fn outcome_of<S: Source>(alloc: Global, mode: Mode, source: &mut S) -> Result<Outcome, Cut>
    ensures made { IfOk result (λ o. IsMadeOf (IsReport mode) (S.left source.old)
        (S.left source.new) o.status o.text) }
    ensures failed { result ≡ Err Cut.Failed
        → RoseByOne (S.faults source.old) (S.faults source.new) }
    ensures cut_short { result ≡ Err Cut.Failed
        → IsCutShort (S.left source.old) (S.left source.new) }
    ensures not_cut { result ≢ Err Cut.TooLong }
    ensures no_fault { result ≢ Err Cut.Failed → S.faults source.new ≡ S.faults source.old }
{
    match gather(alloc, source) {
        Ok(bytes) => Ok(answer(alloc, mode, bytes.as_slice())?),
        Err(Cut::TooLong) => Ok(too_long(alloc)?),
        Err(Cut::Failed) => Err(Cut::Failed),
        Err(Cut::OutOfMemory) => Err(Cut::OutOfMemory),
    }
}

/// Writes an outcome's text.
pub(crate) fn tell<K: Sink>(sink: &mut K, outcome: Outcome) -> Status
    requires { HasRoomOf outcome.text (K.room sink.old) }
    ensures told { IsTold outcome.status outcome.text result (K.taken sink.old) (K.taken sink.new)
        (K.faults sink.old) (K.faults sink.new) }
    ensures no_fault { result ≢ Status.WriteFault → K.faults sink.new ≡ K.faults sink.old }
{
    match send(sink, outcome.text.as_slice()) {
        Ok(()) => outcome.status,
        Err(_) => Status::WriteFault,
    }
}

/// Reads a trace to its end and writes its report, or the line that tells what is wrong with it. The whole text is made
/// before its first byte is written, and the first failed read or write ends the command.
pub fn replay<S: Source, K: Sink>(alloc: Global, mode: Mode, source: &mut S, sink: &mut K) -> Status
    requires { HasRoomFor (IsReport mode) (S.left source.old) (K.room sink.old) }
    ensures replays { Replays (IsReport mode) (S.left source.old) (S.left source.new)
        (K.taken sink.old) (K.taken sink.new) result }
    ensures faults { TellsFaults result (S.faults source.old) (S.faults source.new)
        (K.faults sink.old) (K.faults sink.new) }
    ensures silent { IsSilent result → K.taken sink.new ≡ K.taken sink.old }
    ensures usage { result ≢ Status.Usage }
{
    match outcome_of(alloc, mode, source) {
        Ok(outcome) => tell(sink, outcome),
        Err(Cut::Failed) => Status::ReadFault,
        Err(_) => Status::OutOfMemory,
    }
}

/// Writes the trace that these numbers generate: where its draws start, and how many lines of calls and counts it has.
pub fn make<K: Sink>(alloc: Global, start: u32, calls: u32, sink: &mut K) -> Status
    requires start { start < 2 ^ 31 }
    requires calls { calls ≤ 100000 }
    requires room { HasRoomOf (generated start calls) (K.room sink.old) }
    ensures sends { Sends Status.Done (generated start calls) (K.taken sink.old)
        (K.taken sink.new) result }
    ensures silent { IsSilent result → K.taken sink.new ≡ K.taken sink.old }
    ensures write_fault { result ≡ Status.WriteFault
        → RoseByOne (K.faults sink.old) (K.faults sink.new) }
    ensures failed_write { result ≢ Status.WriteFault → K.faults sink.new ≡ K.faults sink.old }
{
    match make_trace(alloc, start, calls) {
        Ok(text) => {
            let status = Status::Done;
            tell(sink, Outcome { status, text })
        }
        Err(_) => Status::OutOfMemory,
    }
}

/// Writes that the words name no command.
fn refuse<K: Sink>(alloc: Global, sink: &mut K) -> Status
    requires { HasRoomOf (fault_line Fault.Usage) (K.room sink.old) }
    ensures sends { Sends Status.Usage (fault_line Fault.Usage) (K.taken sink.old)
        (K.taken sink.new) result }
    ensures silent { IsSilent result → K.taken sink.new ≡ K.taken sink.old }
    ensures write_fault { result ≡ Status.WriteFault
        → RoseByOne (K.faults sink.old) (K.faults sink.new) }
    ensures failed_write { result ≢ Status.WriteFault → K.faults sink.new ≡ K.faults sink.old }
{
    match usage(alloc) {
        Ok(outcome) => tell(sink, outcome),
        Err(_) => Status::OutOfMemory,
    }
}

/// Does the named command. `replay` reads a trace and writes its report, and `audit` writes it with the audit lines.
/// `live` reads a trace and runs its callers on threads of their own, which tell the gate of their sections; it may wait.
/// `make START CALLS` writes a generated trace, and reads nothing. Other words are refused before anything is read.
///
/// | Status | Written |
/// |---|---|
/// | `Done` | the report, behind the schedule line where the run was live, or the generated trace |
/// | `BadTrace`, `BadLayout`, `Usage`, `TooLong` | the line that tells the fault |
/// | `WriteFault` | a prefix of the text that was being written |
/// | `ReadFault`, `OutOfMemory` | nothing |
pub fn run<S: Source, K: Sink, G: Gate + Sync, R: Threads + Wait + Sync>(
    rt: &R,
    alloc: Global,
    words: &[String],
    source: &mut S,
    sink: &mut K,
    gate: &G,
) -> Status
    // The sink has room for what the named command may write.
    requires room { (mode : Mode) → Names words.now (Command.Replay mode)
        → HasRoomFor (IsReport mode) (S.left source.old) (K.room sink.old) }
    requires live_room { Names words.now Command.Live
        → HasRoomFor IsLiveReport (S.left source.old) (K.room sink.old) }
    requires make_room { (start calls : ℕ) → Names words.now (Command.Make start calls)
        → HasRoomOf (generated start calls) (K.room sink.old) }
    requires usage_room { NamesNone words.now
        → HasRoomOf (fault_line Fault.Usage) (K.room sink.old) }

    // What each command does; `replay`, `live` and `make` say the same of themselves.
    ensures replays { (mode : Mode) → Names words.now (Command.Replay mode)
        → Replays (IsReport mode) (S.left source.old) (S.left source.new) (K.taken sink.old)
        (K.taken sink.new) result }
    ensures lives { Names words.now Command.Live
        → Replays IsLiveReport (S.left source.old) (S.left source.new) (K.taken sink.old)
        (K.taken sink.new) result }
    ensures makes { (start calls : ℕ) → Names words.now (Command.Make start calls)
        → Sends Status.Done (generated start calls) (K.taken sink.old) (K.taken sink.new) result }
    ensures refuses { NamesNone words.now
        → Sends Status.Usage (fault_line Fault.Usage) (K.taken sink.old) (K.taken sink.new) result }
    ensures usage { result ≡ Status.Usage → NamesNone words.now }

    // Only a replay and a live run read.
    ensures unread { ReadsNothing words.now → S.left source.new ≡ S.left source.old }
    ensures silent { IsSilent result → K.taken sink.new ≡ K.taken sink.old }
    ensures faults { TellsFaults result (S.faults source.old) (S.faults source.new)
        (K.faults sink.old) (K.faults sink.new) }
{
    match find_command(words) {
        Some(Command::Replay(mode)) => replay(alloc, mode, source, sink),
        Some(Command::Live) => live(rt, alloc, source, sink, gate),
        Some(Command::Make { start, calls }) => make(alloc, start, calls, sink),
        None => refuse(alloc, sink),
    }
}
