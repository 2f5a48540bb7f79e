//! How many objects the calls of a trace can place.
ghost use Rattle.std.specs.Prelude.{◌≡◌, ◌≤◌, length, sum_by, count_by};
ghost use Rattle.vm_model.specs.Calls.{can_place};
ghost use Rattle.vm_model.specs.History.{placing_calls};
ghost use Rattle.vm_model.specs.declared.calls.Call.{Call};

use vm_model::{Call, CallsList};

/// Whether calls of this kind place an object.
fn can_place(call: &Call) -> bool
    ensures { result ≡ can_place call.now }
{
    matches!(call, Call::AllocPercpu { .. } | Call::AllocAtomic { .. })
}

/// How many of these calls can place an object.
fn placing_in(calls: &[Call]) -> u32
    requires { length calls.now ≤ 100000 }
    ensures { result ≡ count_by can_place calls.now }
{
    calls.iter().filter(|call| can_place(call)).count() as u32
}

/// How many calls of all sections can place an object: the room for objects of a trace.
pub fn placing_calls(sections: &CallsList) -> u32
    requires { sum_by length sections.now ≤ 100000 }
    ensures { result ≡ placing_calls sections.now }
{
    let mut count = 0;
    for calls in sections.as_slice() {
        count += placing_in(calls.as_slice());
    }
    count
}
