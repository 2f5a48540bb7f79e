//! The callers of a table that the test makes, driven at once.
ghost use Rattle.trace_text.specs.Reading.{Reading};
ghost use Rattle.trace_text.specs.ToldTraces.{Tells};
ghost use Rattle.trace_rules.specs.RuledTraces.{IsRuledTrace};

use crate::holding::Holding;
use crate::replayed::TWO;
use caller_threads::{CoreParts, drive};
use count_lines::share_out;
use kernel_steps::{Kernel, KernelParts};
use percpu_counters::Counters;
use section_table::Gate;
use section_table::sections::Sections;
use std::alloc::{AllocError, Global};
use std::process::Abort;
use std::sync::Wait;
use std::test::Fail;
use std::thread::Threads;
use trace_text::{Trace, TraceError, read_trace};

/// The picks of a table of a trace's kernel, whose callers were driven.
fn driven<G: Gate + Sync, R: Threads + Wait + Sync>(
    rt: &R,
    alloc: Global,
    trace: Trace,
    gate: &G,
) -> Result<Vec<u16>, AllocError>
    requires { (reading : Reading) × IsRuledTrace reading × Tells trace reading }
{
    let lines = trace.counts.as_slice();
    let cpus = trace.config.layout.units().len() as u16;
    let adds = lines.len() as u32;
    let (counters, mut sum) = Counters::start(alloc, cpus, trace.counters, trace.batch, adds)?;
    let shares = share_out(alloc, &counters, &mut sum, lines, trace.callers)?;
    let Trace { config, calls, .. } = trace;
    let kernel = Kernel::start(alloc, config, calls)?;
    let KernelParts {
        alloc,
        regions,
        locals,
        ..
    } = kernel.into_parts();
    let (table, pass) = Sections::<CoreParts>::start(alloc, regions, locals)?;
    let (pass, _) = drive(rt, alloc, &table, pass, &counters, shares, gate)?;
    let closed = table.close(pass)?;
    Ok(closed.picks)
}

/// The same of a text.
fn driven_text<G: Gate + Sync, R: Threads + Wait + Sync>(
    rt: &R,
    alloc: Global,
    bytes: &[u8],
    gate: &G,
) -> Result<Vec<u16>, TraceError> {
    let trace = read_trace(alloc, bytes)?;
    Ok(driven(rt, alloc, trace, gate)?)
}

#[test]
fn callers_are_driven_at_once(rt: HostRuntime) -> Result<(), Fail> {
    let gate = Holding::new();
    let picks = driven_text(&rt, rt.alloc(), TWO, &gate)?;
    let missed = gate.missed();
    assert!(rt; missed == 0, "{missed} looks in vain");
    assert!(rt;
        picks.as_slice() == [2, 2, 2, 1, 1, 1, 1, 1, 1].as_slice(),
        "another order"
    );
    Ok(())
}
