//! The sections of a trace, as they end.
ghost use Rattle.std.specs.Prelude.{◌≡◌, ◌-◌, ◌++◌, ◌∷◌, [], OnOk, replicate};

use std::alloc::{AllocError, Global};
use vm_model::{Call, CallerCalls};

/// Ends the section of a caller: its calls go behind the sections before it, and an empty section for each of
/// the callers from the next one to the last.
pub fn close_section(
    alloc: Global,
    sections: &mut Vec<CallerCalls>,
    calls: Vec<Call>,
    caller: u16,
    last: u16,
) -> Result<(), AllocError>
    ensures { OnOk result (sections.new.items
        ≡ sections.old.items ++ calls.items ∷ replicate (last - caller) []) }
{
    sections.push(CallerCalls::of(calls))?;
    for _later in caller..last {
        sections.push(CallerCalls::of(Vec::new(alloc)))?;
    }
    Ok(())
}
