//! A gate at which two callers meet.
use crate::replayed::{is_replayed, lived};
use section_table::Gate;
use std::alloc::AllocError;
use std::process::Abort;
use std::sync::atomic::{AtomicU64, Ordering};
use std::thread::yield_now;

/// How often a caller looks for the other.
const LOOKS: u64 = 10_000_000;

/// How many events callers 1 and 2 have made, and how often one of them looked in vain.
#[derive(Drop)]
struct Meeting {
    first: AtomicU64,
    second: AtomicU64,
    missed: AtomicU64,
}

impl Meeting {
    /// Waits until an event is counted.
    fn meet(&self, other: &AtomicU64) {
        for _ in 0..LOOKS {
            if other.load(Ordering::SeqCst) != 0 {
                return;
            }
            yield_now();
        }
        self.missed.fetch_add(1, Ordering::SeqCst);
    }
}

impl Gate for Meeting {
    fn inside(&self, _caller: u16, _region: u16) {}

    /// Each of the two goes on once the other has made an event.
    fn between(&self, caller: u16) {
        if caller == 1 {
            self.first.fetch_add(1, Ordering::SeqCst);
            self.meet(&self.second);
        } else {
            self.second.fetch_add(1, Ordering::SeqCst);
            self.meet(&self.first);
        }
    }
}

const TRACE: &[u8] = b"vmtrace 1
space 64
callers 2
caller 1
vmalloc a 4096 1
caller 2
vmalloc b 4096 1
end
";

#[test]
fn two_callers_meet(rt: HostRuntime) -> Result<(), AllocError> {
    let gate = Meeting {
        first: AtomicU64::new(0),
        second: AtomicU64::new(0),
        missed: AtomicU64::new(0),
    };
    let (status, written) = lived(&rt, rt.alloc(), TRACE, &gate);
    assert!(rt; status == 0, "status {status}");
    let missed = gate.missed.load(Ordering::SeqCst);
    assert!(rt; missed == 0, "{missed} looks in vain");
    let text = written.as_slice();
    assert!(rt;
        text.starts_with(b"schedule 1 2 ") || text.starts_with(b"schedule 2 1 "),
        "one after the other"
    );
    assert!(rt; is_replayed(rt.alloc(), TRACE, text)?, "replayed otherwise");
    Ok(())
}
