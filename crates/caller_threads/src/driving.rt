//! All callers of a table, each on a thread of its own.
ghost use Rattle.std.specs.Prelude.{◌≡◌, ◌+◌, ◌<◌, ◌≤◌, ℕ, All, IfOk, length, map};
ghost use Rattle.section_table.specs.PassViews.{HasAll, HasCaller};
ghost use Rattle.count_lines.specs.Shares.{IsShareOf, HaveFinished};
ghost use Rattle.caller_threads.specs.Workers.{AllEnded, IsWorkerOf, HasWorked, share_of, AreNumbered, IsDone};

use crate::parts::CoreParts;
use crate::worker::{Worker, make_events, work};
use count_lines::Share;
use percpu_counters::Counters;
use section_table::Gate;
use section_table::pass::Pass;
use section_table::sections::Sections;
use std::alloc::{AllocError, Global};
use std::sync::Wait;
use std::thread::{Threads, map_vec};

/// A pass of its own for the caller of each share. The callers are numbered from 1.
fn hand_out(
    alloc: Global,
    table: &Sections<CoreParts>,
    pass: &mut Pass<CoreParts>,
    counters: &Counters,
    shares: Vec<Share>,
) -> Result<Vec<Worker>, AllocError>
    requires table { pass.old.place.table_id ≡ table.now.table.shared.table_id }
    requires all { (k : ℕ) → 1 ≤ k → k < 1 + length shares.items → HasCaller k pass.old.place.me.0 }
    requires shares { All (IsShareOf counters.now) shares.items }
    requires numbered { AreNumbered 1 shares.items }
    ensures workers { IfOk result
        (λ workers. All (IsWorkerOf table.now.table.shared.table_id counters.now) workers.items) }
    ensures shares { IfOk result (λ workers. map share_of workers.items ≡ shares.items) }
{
    let mut workers = Vec::new(alloc);
    for share in shares {
        let own = table.split(pass, share.caller())?;
        workers.push(Worker {
            pass: own,
            share,
            ended: false,
        })?;
    }
    Ok(workers)
}

/// The passes of all workers become one, whose callers have all ended. Want of memory, too, where one of them has not.
fn gather(
    alloc: Global,
    table: &Sections<CoreParts>,
    pass: &mut Pass<CoreParts>,
    workers: Vec<Worker>,
) -> Result<Vec<Share>, AllocError>
    requires table { pass.old.place.table_id ≡ table.now.table.shared.table_id }
    requires opening { HasCaller 0 pass.old.place.me.0 × AllEnded pass.old.place.me.0 }
    requires workers { All (IsDone table.now.table.shared.table_id) workers.items }
    requires numbered { AreNumbered 1 (map share_of workers.items) }
    ensures table { pass.new.place.table_id ≡ pass.old.place.table_id }
    ensures all { IfOk result (λ _. HasAll (1 + length workers.items) pass.new.place.me.0) }
    ensures ended { IfOk result (λ _. AllEnded pass.new.place.me.0) }
    ensures shares { IfOk result (λ shares. shares.items ≡ map share_of workers.items) }
{
    let mut shares = Vec::with_capacity(alloc, workers.len())?;
    for worker in workers {
        let Worker {
            pass: own,
            share,
            ended,
        } = worker;
        if !ended {
            return Err(AllocError);
        }
        match table.join(pass, own) {
            Ok(()) => shares.push(share)?,
            Err((_, error)) => return Err(error),
        }
    }
    Ok(shares)
}

/// Makes the events of all callers of a table, of each on a thread of its own, with its count lines between its calls: of the
/// opening, caller 0, and then of the caller of each share. The callers are numbered from 1. Where a thread can't be had,
/// its work is done on this one. Want of memory where memory was wanting on any of the threads, which halts all.
pub fn drive<G: Gate + Sync, R: Threads + Wait + Sync>(
    rt: &R,
    alloc: Global,
    table: &Sections<CoreParts>,
    pass: Pass<CoreParts>,
    counters: &Counters,
    shares: Vec<Share>,
    gate: &G,
) -> Result<(Pass<CoreParts>, Vec<Share>), AllocError>
    requires table { pass.place.table_id ≡ table.now.table.shared.table_id }
    requires all { HasAll (1 + length shares.items) pass.place.me.0 }
    requires shares { All (IsShareOf counters.now) shares.items }
    requires numbered { AreNumbered 1 shares.items }
    ensures table { IfOk result (λ done. done.0.place.table_id ≡ table.now.table.shared.table_id) }
    ensures all { IfOk result (λ done. HasAll (1 + length shares.items) done.0.place.me.0) }
    ensures ended { IfOk result (λ done. AllEnded done.0.place.me.0) }
    ensures shares { IfOk result (λ done. HaveFinished counters.now shares.items done.1.items) }
{
    let mut rest = pass;
    let mut pass = table.split(&mut rest, 0)?;
    if !make_events(rt, table, &mut pass, 0, gate) {
        return Err(AllocError);
    }
    let workers = hand_out(alloc, table, &mut rest, counters, shares)?;
    let workers = map_vec(
        rt,
        workers,
        &|worker: Worker| -> Worker
            requires { IsWorkerOf table.now.table.shared.table_id counters.now worker }
            ensures { HasWorked table.entry.now.table.shared.table_id counters.entry.now worker
                result }
        { work(rt, table, counters, worker, gate) },
    )?;
    let shares = gather(alloc, table, &mut pass, workers)?;
    Ok((pass, shares))
}
