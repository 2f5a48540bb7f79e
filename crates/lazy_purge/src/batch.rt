//! What a purge takes at once.
ghost use Rattle.std.specs.Prelude.{◌≡◌, All};
ghost use Rattle.vm_model.specs.Space.{hull};
ghost use Rattle.lazy_purge.specs.WaitingSet.{HasPage, AreWhole};

use std::marker::Model;
use vm_model::{Span, hull};

/// Spans that waited, in the order of the waits: the list that the kernel's `__purge_vmap_area_lazy` moves to its own.
#[derive(Drop)]
pub struct Batch {
    spans: Vec<Span>,
}

impl Model for Batch {
    ghost use Rattle.std.specs.Prelude.{List};
    ghost use Rattle.vm_model.specs.declared.areas.Span.{Span};
    ghost use Rattle.lazy_purge.specs.WaitingSet.{AreWhole};

    ghost Value = { List Span };

    ghost view = { λ b. b.spans.items };

    ghost invariant = { λ b. AreWhole b.spans.items };
}

impl Batch {
    /// These spans.
    pub(crate) fn of(spans: Vec<Span>) -> Batch
        requires { AreWhole spans.items }
        ensures { result ≡ spans.items }
    {
        Batch { spans }
    }

    /// From the lowest start to the highest end, where there is a span: what `__purge_vmap_area_lazy` gives to one
    /// `flush_tlb_kernel_range`. It takes time for each span, and no memory.
    pub fn hull(&self) -> Option<Span>
        ensures hull { result ≡ hull self.now }
    {
        hull(&self.spans)
    }

    /// The spans, in the order in which they were added. It takes no memory.
    pub fn spans(&self) -> &[Span]
        ensures spans { result.now ≡ self.now }
        ensures some { All HasPage result.now }
    {
        self.spans.as_slice()
    }
}
