//! What a trace says.
ghost use Rattle.std.specs.Prelude.{◌≡◌, IfOk, OnOk};
ghost use Rattle.unit_layout.specs.NumberRanges.{IsInRange};
ghost use Rattle.unit_layout.specs.Refusals.{refusal};
ghost use Rattle.unit_layout.specs.LayoutRule.{layout_of};
ghost use Rattle.trace_text.specs.HeldLines.{IsHeld, header_of};
ghost use Rattle.trace_text.specs.Reading.{Reading};
ghost use Rattle.trace_text.specs.ToldTraces.{Tells, asked_layout, config_of, layout_spec};

use crate::groups::groups_of;
use crate::progress::Progress;
use crate::sections::close_section;
use std::alloc::Global;
use std::mem;
use unit_layout::{BuildError, Config, GroupSpec, Layout, LayoutError, LayoutSpec};
use vm_model::{CallsList, CountLineList, PickList};

/// The header, the calls and the order of a trace.
#[derive(Drop)]
pub struct Trace {
    /// The numbers of the header that an allocator has, with the layout of the processors' units.
    pub config: Config,
    /// The calls of the opening, and then those of each caller from 1 on.
    pub calls: CallsList,
    /// The count lines, in the order of the text.
    pub counts: CountLineList,
    /// The callers that the `order` lines name, in their order.
    pub picks: PickList,
    /// How many callers there are beside the opening, 1 to 16.
    pub callers: u16,
    /// How many counters there are, 0 to 256.
    pub counters: u16,
    /// The amount at which a counter's cell moves into its count, 1 to 1,000,000.
    pub batch: u32,
}

/// The layout of the groups that lines named.
fn layout(alloc: Global, unit: u32, atom: u32, named: Vec<GroupSpec>) -> Result<Layout, BuildError>
    requires { IsInRange (asked_layout unit atom named.items) }
    ensures layout { IfOk result (λ layout.
        layout ≡ layout_of (asked_layout unit atom named.items)) }
    ensures stands { OnOk result (refusal (asked_layout unit atom named.items) ≡ None) }
    ensures refused { (error : LayoutError) → result ≡ Err (BuildError.Layout error)
        → refusal (asked_layout unit atom named.items) ≡ Some error }
{
    let groups = groups_of(named)?;
    Layout::build(alloc, &LayoutSpec { unit, atom, groups })
}

/// The configuration that the header says, with this layout.
fn config(progress: &Progress, layout: Layout) -> Config
    ensures { result ≡ record (config_of (header_of progress.now)) { layout = layout } }
{
    Config {
        space: progress.space,
        frames: progress.frames,
        lazy: progress.lazy,
        block_pages: progress.block_pages,
        part_limit: progress.part_limit,
        layout,
    }
}

/// The trace whose lines were read, where its layout isn't refused.
pub fn trace_of(alloc: Global, mut progress: Progress) -> Result<Trace, BuildError>
    requires { IsInRange (layout_spec (header_of progress)) }
    ensures trace { IfOk result (λ trace. (r : Reading) → IsHeld progress r → Tells trace r) }
    ensures stands { OnOk result (refusal (layout_spec (header_of progress)) ≡ None) }
    ensures layout { (error : LayoutError) → result ≡ Err (BuildError.Layout error)
        → refusal (layout_spec (header_of progress)) ≡ Some error }
{
    let groups = mem::replace(&mut progress.groups, Vec::new(alloc));
    let layout = layout(alloc, progress.unit_pages, progress.atom, groups)?;
    let config = config(&progress, layout);
    let Progress {
        callers,
        counters,
        batch,
        caller,
        calls,
        closed,
        counts,
        picks,
        ..
    } = progress;
    let mut sections = closed;
    close_section(alloc, &mut sections, calls, caller, callers)?;
    Ok(Trace {
        config,
        calls: CallsList::of(sections),
        counts: CountLineList::of(counts),
        picks: PickList::of(picks),
        callers,
        counters,
        batch,
    })
}
