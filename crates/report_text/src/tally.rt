//! How many replies there are of each kind.
ghost use Rattle.std.specs.Prelude.{◌≡◌};
ghost use Rattle.report_text.specs.Tally.{tally_of, kind_of, Counts, IsRoomy};

use vm_model::{Entry, Reply};

/// How many replies there are of each kind.
#[derive(Clone, Copy)]
pub struct Tally {
    /// Addresses, sums, counts and calls that were done.
    pub ok: u64,
    /// Calls that found no hole.
    pub no_space: u64,
    /// Calls that found too few free frames.
    pub no_frames: u64,
    /// Atomic calls that found no populated place.
    pub no_atomic: u64,
    /// Calls whose target was no longer live.
    pub not_live: u64,
    /// Sizes, alignments and targets that were refused.
    pub refused: u64,
}

impl Tally {
    /// Counts a reply.
    fn count(&mut self, reply: &Reply)
        requires { IsRoomy self.old }
        ensures { Counts self.old self.new (kind_of reply.now) }
    {
        match reply {
            Reply::Address(_) | Reply::Done | Reply::Sum(_) | Reply::Count(_) => self.ok += 1,
            Reply::NoSpace => self.no_space += 1,
            Reply::NoFrames => self.no_frames += 1,
            Reply::NoAtomic => self.no_atomic += 1,
            Reply::NotLive => self.not_live += 1,
            Reply::BadSize | Reply::BadAlign | Reply::Unbound => self.refused += 1,
        }
    }
}

/// Counts all replies, in one pass.
pub fn tally_of(entries: &[Entry]) -> Tally
    ensures { result ≡ tally_of entries.now }
{
    let mut tally = Tally {
        ok: 0,
        no_space: 0,
        no_frames: 0,
        no_atomic: 0,
        not_live: 0,
        refused: 0,
    };
    for entry in entries {
        tally.count(&entry.reply);
    }
    tally
}
