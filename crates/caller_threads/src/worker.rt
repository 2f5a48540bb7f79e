//! What the thread of one caller does.
ghost use Rattle.std.specs.Prelude.{◌≡◌, ◌<◌, true, Option, None};
ghost use Rattle.count_lines.specs.Shares.{caller_of, IsShareOf, HasSameLines};
ghost use Rattle.caller_threads.specs.Workers.{HasOnly, AllEnded, IsWorkerOf, HasWorked};

use crate::parts::CoreParts;
use count_lines::Share;
use percpu_counters::Counters;
use section_table::Gate;
use section_table::acted::Acted;
use section_table::pass::Pass;
use section_table::sections::Sections;
use std::sync::Wait;
use std::thread::yield_now;

/// A caller that goes to a thread of its own: the pass that has it alone, its count lines, and whether it has ended.
#[derive(Drop)]
pub struct Worker {
    pub(crate) pass: Pass<CoreParts>,
    pub(crate) share: Share,
    pub(crate) ended: bool,
}

/// One event of a caller, which its gate is told of. None where the caller goes on, or else whether it has ended.
fn make_event<G: Gate, R: Wait>(
    rt: &R,
    table: &Sections<CoreParts>,
    pass: &mut Pass<CoreParts>,
    caller: u16,
    gate: &G,
) -> Option<bool>
    requires table { pass.old.place.table_id ≡ table.now.table.shared.table_id }
    requires only { HasOnly caller pass.old.place.me.0 }
    ensures table { pass.new.place.table_id ≡ pass.old.place.table_id }
    ensures only { HasOnly caller pass.new.place.me.0 }
    ensures ended { result ≡ Some true → AllEnded pass.new.place.me.0 }
{
    match table.act(rt, pass, caller, gate) {
        Ok(Acted::Moved { .. }) => {
            gate.between(caller);
            None
        }
        Ok(Acted::Ended) => Some(true),
        Ok(Acted::Halted) | Err(_) => Some(false),
    }
}

/// The events of a caller that has no count lines, until it has ended or all are to halt. It tells whether it has ended.
pub(crate) fn make_events<G: Gate, R: Wait>(
    rt: &R,
    table: &Sections<CoreParts>,
    pass: &mut Pass<CoreParts>,
    caller: u16,
    gate: &G,
) -> bool
    requires table { pass.old.place.table_id ≡ table.now.table.shared.table_id }
    requires only { HasOnly caller pass.old.place.me.0 }
    ensures table { pass.new.place.table_id ≡ pass.old.place.table_id }
    ensures only { HasOnly caller pass.new.place.me.0 }
    ensures ended { result ≡ true → AllEnded pass.new.place.me.0 }
{
    for _ in rt.forever() {
        if let Some(ended) = make_event(rt, table, pass, caller, gate) {
            return ended;
        }
    }
    unreachable!()
}

/// Lets others run where more calls are answered than before.
fn give_way(now: u32, before: &mut u32) {
    if now != *before {
        *before = now;
        yield_now();
    }
}

/// The events of a caller, and before each of them the count lines that it has come to, until it has ended or all are to
/// halt. It tells whether it has ended.
fn make_calls<G: Gate, R: Wait>(
    rt: &R,
    table: &Sections<CoreParts>,
    pass: &mut Pass<CoreParts>,
    counters: &Counters,
    share: &mut Share,
    gate: &G,
) -> bool
    requires table { pass.old.place.table_id ≡ table.now.table.shared.table_id }
    requires only { HasOnly (caller_of share.old) pass.old.place.me.0 }
    requires share { IsShareOf counters.now share.old }
    ensures table { pass.new.place.table_id ≡ pass.old.place.table_id }
    ensures only { HasOnly (caller_of share.old) pass.new.place.me.0 }
    ensures share { IsShareOf counters.now share.new }
    ensures lines { HasSameLines share.old share.new }
    ensures ended { result ≡ true → AllEnded pass.new.place.me.0 }
{
    let caller = share.caller();
    let mut answered = 0;
    for _ in rt.forever() {
        give_way(pass.local(caller).answered(), &mut answered);
        share.count_up_to(counters, answered);
        if let Some(ended) = make_event(rt, table, pass, caller, gate) {
            return ended;
        }
    }
    unreachable!()
}

/// All that the thread of a caller does: its events, with its count lines between its calls. Those that are left when it
/// ends are done then.
pub(crate) fn work<G: Gate, R: Wait>(
    rt: &R,
    table: &Sections<CoreParts>,
    counters: &Counters,
    worker: Worker,
    gate: &G,
) -> Worker
    requires { IsWorkerOf table.now.table.shared.table_id counters.now worker }
    ensures { HasWorked table.now.table.shared.table_id counters.now worker result }
{
    let Worker {
        mut pass,
        mut share,
        ended: _,
    } = worker;
    let ended = make_calls(rt, table, &mut pass, counters, &mut share, gate);
    share.finish(counters);
    Worker { pass, share, ended }
}
