//! The groups of processors, as they are read.
ghost use Rattle.std.specs.Prelude.{◌≡◌, ◌≤◌, ◌+◌, ◌++◌, IfOk, IsTrue, codes};
ghost use Rattle.vm_model.specs.Words.{is_number};
ghost use Rattle.trace_text.specs.SpelledLines.{GroupOf};
ghost use Rattle.trace_text.specs.Reading.{Reading, cpus_of, groups_of};
ghost use Rattle.trace_text.specs.Grammar.{is_allowed};
ghost use Rattle.trace_text.specs.HeldLines.{IsHeld, Steps};

use crate::fields::pair;
use crate::progress::{GROUP, Progress, SPACE};
use std::alloc::AllocError;
use unit_layout::{GroupList, GroupSpec};

/// How many processors all groups may have together.
const MOST_CPUS: u64 = 64;

/// How many processors there are: those of the groups that lines named, or one where none did.
pub fn cpu_count(progress: &Progress) -> u16
    ensures { (r : Reading) → IsHeld progress.now r → result ≡ cpus_of r.header }
{
    if progress.groups.is_empty() {
        return 1;
    }
    progress.cpus
}

/// Whether a group of so many processors, from an offset on, may be named behind the groups before it.
fn may_follow(progress: &Progress, cpus: u64, offset: u64) -> bool
    requires number { IsTrue (is_number cpus) }
    ensures rule { (r : Reading) → IsHeld progress.now r
        → result ≡ is_allowed r (GroupOf cpus offset) }
    ensures few { IsTrue result → progress.now.cpus + cpus ≤ 64 }
{
    u64::from(progress.cpus) + cpus <= MOST_CPUS
        && offset.is_multiple_of(u64::from(progress.atom))
        && (offset == 0 || !progress.groups.is_empty())
}

/// Reads `group N O`, after its word.
pub fn read_group(progress: &mut Progress, text: &[u8]) -> Result<bool, AllocError>
    ensures { IfOk result (λ stood. (r : Reading) → IsHeld progress.old r
        → Steps r (codes "group " ++ text.now) stood progress.new) }
{
    let Some((cpus, offset)) = pair(text) else {
        return Ok(false);
    };
    if progress.rank < SPACE || GROUP < progress.rank {
        return Ok(false);
    }
    if !may_follow(progress, cpus, offset) {
        return Ok(false);
    }
    progress.groups.push(GroupSpec {
        cpus: cpus as u32,
        offset,
    })?;
    progress.cpus += cpus as u16;
    progress.rank = GROUP;
    Ok(true)
}

/// The groups that lines named, or one processor from the base on where none did.
pub fn groups_of(named: Vec<GroupSpec>) -> Result<GroupList, AllocError>
    ensures { IfOk result (λ groups. groups ≡ groups_of named.items) }
{
    let mut groups = named;
    if groups.is_empty() {
        groups.push(GroupSpec { cpus: 1, offset: 0 })?;
    }
    Ok(GroupList::of(groups))
}
