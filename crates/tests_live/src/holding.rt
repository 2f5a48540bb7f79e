//! Two callers, each inside a region of its own at the same time.
use crate::replayed::{TWO, is_replayed, lived};
use section_table::Gate;
use std::alloc::AllocError;
use std::process::Abort;
use std::sync::atomic::{AtomicU64, Ordering};
use std::thread::yield_now;

/// How often a caller that is held looks for the other.
const LOOKS: u64 = 1_000_000_000;

/// The number of the free blocks, and of the blocks of processor 0.
const FREE_BLOCKS: u16 = 3;

const BLOCKS: u16 = 8;

/// Caller 2 is held among the free blocks until caller 1 is among the blocks of its processor, and caller 1 is held there
/// until caller 2 has made three events.
#[derive(Drop)]
pub struct Holding {
    inside: AtomicU64,
    events: AtomicU64,
    free_blocks: AtomicU64,
    missed: AtomicU64,
}

impl Holding {
    /// A gate at which no caller has been.
    pub fn new() -> Holding {
        Holding {
            inside: AtomicU64::new(0),
            events: AtomicU64::new(0),
            free_blocks: AtomicU64::new(0),
            missed: AtomicU64::new(0),
        }
    }

    /// How often a caller looked in vain.
    pub fn missed(&self) -> u64 {
        self.missed.load(Ordering::SeqCst)
    }

    /// Waits until so many are counted.
    fn hold(&self, counted: &AtomicU64, wanted: u64) {
        for _ in 0..LOOKS {
            if counted.load(Ordering::SeqCst) >= wanted {
                return;
            }
            yield_now();
        }
        self.missed.fetch_add(1, Ordering::SeqCst);
    }
}

impl Gate for Holding {
    fn inside(&self, caller: u16, region: u16) {
        if caller == 2 && region == FREE_BLOCKS && self.free_blocks.swap(1, Ordering::SeqCst) == 0 {
            self.hold(&self.inside, 1);
        }
        if caller == 1 && region == BLOCKS && self.inside.swap(1, Ordering::SeqCst) == 0 {
            self.hold(&self.events, 3);
        }
    }

    fn between(&self, caller: u16) {
        if caller == 2 {
            self.events.fetch_add(1, Ordering::SeqCst);
        }
    }
}

const FIRST_LINES: &[u8] = b"schedule 2 2 2 1 1 1 1 1 1
vmreport 1
1.1 0xffffc90000008000 @9
2.1 0xffffc90000000000 @3
";

#[test]
fn two_callers_are_inside_at_once(rt: HostRuntime) -> Result<(), AllocError> {
    let gate = Holding::new();
    let (status, written) = lived(&rt, rt.alloc(), TWO, &gate);
    assert!(rt; status == 0, "status {status}");
    let missed = gate.missed();
    assert!(rt; missed == 0, "{missed} looks in vain");
    let text = written.as_slice();
    assert!(rt; text.starts_with(FIRST_LINES), "another order");
    assert!(rt; text.ends_with(b"counter 0 total 5\nend\n"), "the total");
    assert!(rt; is_replayed(rt.alloc(), TWO, text)?, "replayed otherwise");
    Ok(())
}
