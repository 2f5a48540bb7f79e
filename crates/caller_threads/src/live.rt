//! The callers of a trace, each on a thread of its own.
ghost use Rattle.std.specs.Prelude.{◌≡◌, ◌≤◌, ℕ, List, All, IfOk, drop, length, map};
ghost use Rattle.std.specs.List.{range_with_len};
ghost use Rattle.unit_layout.specs.Config.{setup_of};
ghost use Rattle.kernel_steps.specs.Kernels.{CanStart, callers_of};
ghost use Rattle.count_lines.specs.Shares.{caller_of, IsShareOf, HaveFinished};
ghost use Rattle.kernel_steps.specs.KernelRuns.{HasEnded};

use crate::driving::drive;
use crate::parts::CoreParts;
use count_lines::Share;
use kernel_steps::{Kernel, KernelParts};
use percpu_counters::Counters;
use section_table::Gate;
use section_table::closed::Closed;
use section_table::sections::Sections;
use std::alloc::{AllocError, Global};
use std::sync::Wait;
use std::thread::Threads;
use unit_layout::Config;
use vm_model::CallsList;

/// A kernel whose callers have all ended, how many events its opening made, and the shares whose lines were all done.
#[derive(Drop)]
pub struct Lived {
    pub kernel: Kernel,
    pub opening: usize,
    pub shares: Vec<Share>,
}

/// Starts a kernel, and makes the calls of each caller, each of which has a share, on a thread of its own, with its count lines
/// between them. The picks are the callers of the events after the opening's own: each of them moves, and after the last all
/// callers have ended.
pub fn live_kernel<G: Gate + Sync, R: Threads + Wait + Sync>(
    rt: &R,
    alloc: Global,
    config: Config,
    sections: CallsList,
    counters: &Counters,
    shares: Vec<Share>,
    gate: &G,
) -> Result<Lived, AllocError>
    requires can { CanStart (setup_of config) sections }
    requires shares { All (IsShareOf counters.now) shares.items }
    requires callers { map caller_of shares.items
        ≡ range_with_len 1 (length (callers_of sections)) }
    ensures run { IfOk result (λ lived. (picks : List ℕ)
        × HasEnded (setup_of config) sections picks lived.kernel
        × (drop lived.opening lived.kernel.moved ≡ picks)) }
    ensures opening { IfOk result (λ lived. lived.opening ≤ length lived.kernel.moved) }
    ensures shares { IfOk result
        (λ lived. HaveFinished counters.now shares.items lived.shares.items) }
{
    let kernel = Kernel::start(alloc, config, sections)?;
    let KernelParts {
        alloc,
        regions,
        locals,
        mut moved,
    } = kernel.into_parts();
    let opening = moved.len();
    let (table, pass) = Sections::<CoreParts>::start(alloc, regions, locals)?;
    let (pass, shares) = drive(rt, alloc, &table, pass, counters, shares, gate)?;
    let Closed {
        regions,
        locals,
        mut picks,
    } = table.close(pass)?;
    moved.append(&mut picks)?;
    let kernel = Kernel::from_parts(KernelParts {
        alloc,
        regions,
        locals,
        moved,
    });
    Ok(Lived {
        kernel,
        opening,
        shares,
    })
}
