//! What a search carves.
ghost use Rattle.std.specs.Prelude.{◌≡◌, ◌+◌, ◌<◌, ◌++◌, ◌∷◌, [], length};

use smallvec::SmallVec;
use std::alloc::Global;
use std::marker::Model;
use vm_model::Span;

/// The spans of the groups of a layout, at most 8. They are kept in the value itself.
#[derive(Drop)]
pub struct GroupSpans {
    spans: SmallVec<Span, 8>,
}

impl Model for GroupSpans {
    ghost use Rattle.std.specs.Prelude.{◌≡◌, List};
    ghost use Rattle.vm_model.specs.declared.areas.Span.{Span};

    ghost Value = { List Span };

    ghost view = { λ s. s.spans.items };

    // there is room for 8, and no allocation
    ghost invariant = { λ s. s.spans.capacity ≡ 8 };
}

impl GroupSpans {
    /// No spans.
    pub(crate) fn new(alloc: Global) -> GroupSpans
        ensures { result ≡ [] }
    {
        GroupSpans {
            spans: SmallVec::new(alloc),
        }
    }

    /// Puts a span behind the others. It takes no memory.
    pub(crate) fn push(&mut self, span: Span)
        requires { length self.old < 8 }
        ensures { self.new ≡ self.old ++ span ∷ [] }
    {
        self.spans.push_reserved(span);
    }

    /// The spans, in the order of the groups. It takes no memory.
    pub fn as_slice(&self) -> &[Span]
        ensures { result.now ≡ self.now }
    {
        self.spans.as_slice()
    }
}

/// Congruent spans: each group's lies at its offset from one base.
#[derive(Drop)]
pub struct Bundle {
    /// The page from which the offsets count.
    pub base: u32,
    /// The span of each group.
    pub spans: GroupSpans,
}
