//! The law of a kernel's start, and what may go to other threads.
ghost use Rattle.kernel_steps.specs.StartLaw.{TheStartHasAllCallers};

use crate::kernel::Kernel;
use callers::Local;
use section_core::Region;
use std::marker::Send;

/// A kernel starts with the opening's caller and one for each list behind it.
pub fn starts()
    ensures { TheStartHasAllCallers }
{}

/// What may be sent to another thread.
fn is_sent<T: Send>() {}

/// A kernel, its regions and its callers may be sent to other threads.
pub fn all_are_sent() {
    is_sent::<Region>();
    is_sent::<Local>();
    is_sent::<Kernel>();
}
