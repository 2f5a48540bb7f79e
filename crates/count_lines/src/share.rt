//! The count lines of one caller, and the right to add them.
ghost use Rattle.std.specs.Prelude.{◌≡◌, ◌≤◌, ◌+◌, length, map, take};
ghost use Rattle.percpu_counters.specs.Passes.{adds_of, spare_of};
ghost use Rattle.count_lines.specs.LinesOfCaller.{added_by};

use percpu_counters::CountPass;
use vm_model::CountLine;

/// The count lines of one caller, of which the first so many were added, and the right to add the others.
#[derive(Drop)]
pub struct Share {
    pub(crate) caller: u16,
    pub(crate) lines: Vec<CountLine>,
    pub(crate) done: usize,
    pub(crate) pass: CountPass,
    ghost within: { done ≤ length lines.items },
    ghost counted: { adds_of pass ≡ map added_by (take done lines.items) },
    ghost room: { spare_of pass + done ≡ length lines.items },
}
