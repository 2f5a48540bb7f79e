//! The counters of a trace.
ghost use Rattle.std.specs.Prelude.{◌≡◌, ◌≤◌, All, IfOk, length};
ghost use Rattle.trace_text.specs.Reading.{Reading, cpus_of};
ghost use Rattle.trace_text.specs.ToldTraces.{Tells};
ghost use Rattle.report_text.specs.CounterTotals as totals;
ghost use Rattle.trace_rules.specs.RuledTraces.{IsCount, IsRuledTrace};

use percpu_counters::Counters;
use std::alloc::{AllocError, Global};
use trace_text::Trace;
use vm_model::{CountLine, CounterList};

/// So many counters of so many processors after these lines, which one pass adds in their order.
fn counter_rows(
    alloc: Global,
    counters: u16,
    cpus: u16,
    batch: u32,
    lines: &[CountLine],
) -> Result<CounterList, AllocError>
    requires few { length lines.now ≤ 100000 }
    requires batch { 1 ≤ batch }
    requires lines { All (IsCount counters cpus) lines.now }
    ensures { IfOk result (λ rows. rows ≡ totals.counter_rows counters cpus batch lines.now) }
{
    let (counted, mut pass) = Counters::start(alloc, cpus, counters, batch, lines.len() as u32)?;
    for line in lines {
        counted.add(&mut pass, line.counter, line.cpu, line.amount);
    }
    counted.close(alloc, pass)
}

/// The counters of a trace after its count lines.
pub(crate) fn counters_of_trace(alloc: Global, trace: &Trace) -> Result<CounterList, AllocError>
    requires { (reading : Reading) × IsRuledTrace reading × Tells trace.now reading }
    ensures { IfOk result (λ rows. (reading : Reading) → IsRuledTrace reading
        → Tells trace.now reading
        → rows ≡ totals.counter_rows reading.header.counters
        (cpus_of reading.header) reading.header.batch reading.counts) }
{
    counter_rows(
        alloc,
        trace.counters,
        trace.config.layout.units().len() as u16,
        trace.batch,
        trace.counts.as_slice(),
    )
}
