//! The lists that callers carry beside their places, and where these lead them.
ghost use Rattle.std.specs.Prelude.{◌≡◌, ◌≤◌, ◌<◌, ◌+◌, ◌++◌, ℕ, suc, nat_lt, if◌then◌else◌, List, All, Option, length, option_to_list, vec_capacity};
ghost use Rattle.vm_model.specs.declared.calls.Call.{Call};
ghost use Rattle.vm_model.specs.declared.calls.Reply.TheVariants as reply;
ghost use Rattle.vm_model.specs.Space as space;
ghost use Rattle.vm_model.specs.Space.{HasEnd};
ghost use Rattle.vm_model.specs.Places as model;
ghost use Rattle.vm_model.specs.Places.{ReplyWith};
ghost use Rattle.vm_model.specs.Next.{after_fragments};
ghost use Rattle.callers.specs.CarriedPlaces.{Carried, place_of, then_of, filled_by, IsSized, IsSizedAfter};
ghost use Rattle.callers.specs.CallerParts.{HasCall};

use crate::place::{After, Place};
use lazy_purge::Batch;
use vm_model::{Reply, Span, hull, wider};

/// Puts a range behind those that are there, if there is one.
pub fn push_range(ranges: &mut Vec<Span>, range: Option<Span>)
    requires { length ranges.old.items + 1 ≤ vec_capacity ranges.old }
    ensures items { ranges.new.items ≡ ranges.old.items ++ option_to_list range }
    ensures capacity { vec_capacity ranges.new ≡ vec_capacity ranges.old }
{
    if let Some(range) = range {
        ranges.push_reserved(range);
    }
}

/// The hull of what waited, and of an extra span.
pub fn joined_hull(batch: &Batch, extra: Option<Span>) -> Option<Span>
    requires ends { All HasEnd batch.now }
    requires end { All HasEnd (option_to_list extra) }
    ensures { result ≡ space.hull (batch.now ++ option_to_list extra) }
{
    match extra {
        Some(extra) => Some(wider(extra, batch.hull())),
        None => batch.hull(),
    }
}

/// Where a purge goes on to once it has taken out the fragmented blocks of a processor: to the next processor, or to unlink
/// all of them, if there are any.
pub fn after_fragments(cpu: u8, cpus: u16, gone: &[u32], extra: Option<Span>, after: After) -> Place
    requires few { cpus ≤ 64 }
    requires cpu { cpu < cpus }
    requires sized { IsSizedAfter after }
    ensures place { (carried : Carried) → carried.gone ≡ gone.now
        → place_of result carried
        ≡ (if nat_lt (suc cpu) cpus then model.PurgeFragmenting (suc cpu) gone.now extra
        (then_of after) else after_fragments gone.now extra (then_of after)) }
    ensures sized { IsSized result }
    ensures unfilled { filled_by result ≡ 0 }
    ensures at_hand { (answered : ℕ) (calls : List Call) → answered < length calls
        → HasCall result answered calls }
{
    if u16::from(cpu) + 1 < cpus {
        let cpu = cpu + 1;
        return Place::PurgeFragmenting { cpu, extra, after };
    }
    if gone.is_empty() {
        Place::PurgeCollecting { extra, after }
    } else {
        Place::PurgeUnlinking { extra, after }
    }
}

/// Where an `unmap_aliases` goes on to once it has seen the dirty ranges of a processor: to the next processor, or to a
/// purge that flushes the hull of them all.
pub fn after_range(cpu: u8, cpus: u16, ranges: &[Span]) -> Place
    requires few { cpus ≤ 64 }
    requires cpu { cpu < cpus }
    requires ends { All HasEnd ranges.now }
    ensures place { (carried : Carried) → carried.ranges ≡ ranges.now
        → place_of result carried
        ≡ (if nat_lt (suc cpu) cpus then model.LookingAtDirty (suc cpu) ranges.now
        else model.PurgeTaking (space.hull ranges.now) (ReplyWith reply.Done)) }
    ensures sized { IsSized result }
    ensures unfilled { filled_by result ≡ 0 }
    ensures at_hand { (answered : ℕ) (calls : List Call) → answered < length calls
        → HasCall result answered calls }
{
    if u16::from(cpu) + 1 < cpus {
        return Place::LookingAtDirty { cpu: cpu + 1 };
    }
    Place::PurgeTaking {
        extra: hull(ranges),
        after: After::Reply(Reply::Done),
    }
}
