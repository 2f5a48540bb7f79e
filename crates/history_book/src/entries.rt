//! The entries of a book in the table of replies.
ghost use Rattle.std.specs.Prelude.{◌≡◌, ◌-◌, ◌≤◌, ◌<◌, ◌++◌, List, All, Some, length, take, slice_get, slice_index, OnOk, OnErr};
ghost use Rattle.vm_model.specs.Events.{Event};
ghost use Rattle.vm_model.specs.Calls.{Answered};
ghost use Rattle.vm_model.specs.Tables.{numbers_of, entries_from};
ghost use Rattle.history_book.specs.declared.noted.Noted.{Noted};
ghost use Rattle.history_book.specs.BookEntries.{places_of, entries_noted, AreNotedOf};

use crate::book::Book;
use std::alloc::AllocError;
use vm_model::Entry;

/// The first so many callers of a list, and how often a caller is among them.
#[derive(Clone, Copy)]
struct Passed {
    callers: usize,
    own: u32,
}

/// The index of a caller's next place behind those that are passed.
fn next_own(moved: &[u16], caller: u16, passed: Passed) -> usize
    requires callers { passed.callers ≤ length moved.now }
    requires counted { passed.own ≡ length (places_of caller 1 (take passed.callers moved.now)) }
    requires there { passed.own < length (places_of caller 1 moved.now) }
    ensures within { result < length moved.now }
    ensures own { slice_index moved.now result ≡ caller }
    ensures counted { passed.own ≡ length (places_of caller 1 (take result moved.now)) }
{
    let mut next = passed.callers;
    while moved[next] != caller {
        next += 1;
    }
    next
}

/// Passes on to a caller's place of the given number, from 1, which is still to come.
fn pass_to(moved: &[u16], caller: u16, place: u32, from: Passed) -> Passed
    requires callers { from.callers ≤ length moved.now }
    requires counted { from.own ≡ length (places_of caller 1 (take from.callers moved.now)) }
    requires ahead { from.own < place }
    requires there { place ≤ length (places_of caller 1 moved.now) }
    ensures callers { result.callers ≤ length moved.now }
    ensures counted { result.own ≡ length (places_of caller 1 (take result.callers moved.now)) }
    ensures place { slice_get (places_of caller 1 moved.now) (place - 1) ≡ Some result.callers }
{
    let mut passed = from;
    while passed.own < place {
        let next = next_own(moved, caller, passed);
        passed = Passed {
            callers: next + 1,
            own: passed.own + 1,
        };
    }
    passed
}

/// Puts the entries of the book's caller behind the others, by call. The event of a call is the number, from 1, of the
/// place in `moved` at which the caller stands there for the `own_event`-th time. An error leaves the entries as they
/// were. It takes time for the length of `moved` once, where the own events rise from call to call.
pub fn number(book: &Book, moved: &[u16], into: &mut Vec<Entry>) -> Result<(), AllocError>
    requires { All (λ (n : Noted).
        n.own_event ≤ length (places_of book.now.caller 1 moved.now)) book.now.rows }
    ensures ok { OnOk result (into.new.items
        ≡ into.old.items ++ entries_noted (places_of book.now.caller 1 moved.now) book.now.caller 1
        book.now.rows) }

    // they are the entries of that caller in the table of replies
    ensures history { OnOk result ((answers : List Answered) (events : List Event)
        → AreNotedOf book.now.rows moved.now answers events
        → into.new.items ≡ into.old.items
        ++ entries_from (numbers_of book.now.caller 1 events) book.now.caller 1 answers) }
    ensures err { OnErr result (into.new.items ≡ into.old.items) }
{
    let rows = book.rows();
    let caller = book.caller();
    into.reserve(rows.len())?;
    let mut passed = Passed { callers: 0, own: 0 };
    for (index, noted) in rows.iter().enumerate() {
        if noted.own_event <= passed.own {
            passed = Passed { callers: 0, own: 0 };
        }
        passed = pass_to(moved, caller, noted.own_event, passed);
        into.push_reserved(Entry {
            caller,
            call: index as u32 + 1,
            reply: noted.reply,
            event: passed.callers as u64,
        });
    }
    Ok(())
}
