//! Calls that are counted, and of which those with a listed number fail.
ghost use Rattle.std.specs.Prelude.{◌≡◌, ◌≤◌, ◌↔◌, IfOk, IsErr, IsTrue};
ghost use Rattle.trace_replay.specs.FailingCalls.{counted, next_fails};

use crate::source::Failed;
use std::alloc::{AllocError, Global};
use std::marker::Model;

/// A count of calls and of those that failed, with the numbers of those that fail.
#[derive(Drop)]
pub struct FailingCalls {
    failing: Vec<u32>,
    made: u32,
    faults: u64,
}

impl Model for FailingCalls {
    ghost use Rattle.trace_replay.specs.FailingCalls.{Calls};

    ghost Value = { Calls };

    ghost view = { λ s. record { failing = s.failing.items; made = s.made; faults = s.faults } };
}

impl FailingCalls {
    /// No call yet. The calls whose numbers, from 1, are listed will fail.
    pub fn new(alloc: Global, failing: &[u32]) -> Result<FailingCalls, AllocError>
        ensures { IfOk result (λ calls. calls ≡ record {
          failing = failing.now;
          made = 0;
          faults = 0;
        }) }
    {
        let failing = Vec::from_slice(alloc, failing)?;
        Ok(FailingCalls {
            failing,
            made: 0,
            faults: 0,
        })
    }

    /// Counts one more call, which fails where its number is listed.
    pub fn count(&mut self) -> Result<(), Failed>
        ensures counted { self.new ≡ counted self.old }
        ensures fails { IsErr result ↔ IsTrue (next_fails self.old) }
        ensures never_falls { self.old.faults ≤ self.new.faults }
    {
        self.made = self.made.saturating_add(1);
        if self.failing.as_slice().contains(&self.made) {
            self.faults = self.faults.saturating_add(1);
            return Err(Failed);
        }
        Ok(())
    }
}
