//! The counters of a live run, whose callers do their count lines themselves.
ghost use Rattle.std.specs.Prelude.{◌≡◌, ◌+◌, ◌++◌, All, IfOk, length, map};
ghost use Rattle.std.specs.List.{flat_map};
ghost use Rattle.trace_text.specs.Reading.{Reading};
ghost use Rattle.trace_text.specs.ToldTraces.{Tells};
ghost use Rattle.trace_rules.specs.RuledTraces.{IsRuledTrace};
ghost use Rattle.percpu_counters.specs.Passes.{shape_of, adds_of, spare_of, IsPassOf};
ghost use Rattle.percpu_counters.specs.RowsFromWords.{totals_of};
ghost use Rattle.count_lines.specs.LinesOfCaller.{added_by};
ghost use Rattle.count_lines.specs.Shares.{lines_in, IsShareOf, IsFinished};
ghost use Rattle.trace_replay.specs.LiveCounts.{IsCountingFor, totals_in};

use count_lines::{Share, join_all, share_out};
use percpu_counters::{CountPass, Counters};
use std::alloc::{AllocError, Global};
use trace_text::Trace;
use vm_model::CounterList;

/// The counters of a trace, a pass over them, and a share of it for each caller.
#[derive(Drop)]
pub(crate) struct Counting {
    pub(crate) counters: Counters,
    pub(crate) pass: CountPass,
    pub(crate) shares: Vec<Share>,
}

/// Adds the opening's count lines, and gives each caller a share with its own.
pub(crate) fn start_counts(alloc: Global, trace: &Trace) -> Result<Counting, AllocError>
    requires { (reading : Reading) × IsRuledTrace reading × Tells trace.now reading }
    ensures { IfOk result (λ counting. (reading : Reading) → IsRuledTrace reading
        → Tells trace.now reading
        → IsCountingFor reading counting.counters counting.pass counting.shares.items) }
{
    let lines = trace.counts.as_slice();
    let cpus = trace.config.layout.units().len() as u16;
    let adds = lines.len() as u32;
    let (counters, mut pass) = Counters::start(alloc, cpus, trace.counters, trace.batch, adds)?;
    let shares = share_out(alloc, &counters, &mut pass, lines, trace.callers)?;
    Ok(Counting {
        counters,
        pass,
        shares,
    })
}

/// The rows of the counters, once all count lines were added.
pub(crate) fn finish_counts(
    alloc: Global,
    counters: Counters,
    mut pass: CountPass,
    shares: Vec<Share>,
) -> Result<CounterList, AllocError>
    requires pass { IsPassOf counters pass }
    requires shares { All (IsShareOf counters) shares.items }
    requires finished { All IsFinished shares.items }
    requires all { length (adds_of pass) + spare_of pass + length (flat_map lines_in shares.items)
        ≡ (shape_of counters).adds }
    ensures { IfOk result (λ rows. totals_in rows ≡ totals_of (shape_of counters)
        (adds_of pass ++ map added_by (flat_map lines_in shares.items))) }
{
    join_all(&counters, &mut pass, shares);
    counters.close(alloc, pass)
}
