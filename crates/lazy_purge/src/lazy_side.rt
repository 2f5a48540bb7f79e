//! The spans that wait: the kernel's `purge_vmap_area_list`.
ghost use Rattle.std.specs.Prelude.{◌≡◌, ◌≤◌, ◌<◌, ℕ, [], ◌++◌, All, IfOk, OnOk, OnErr};
ghost use Rattle.vm_model.specs.Space.{sum_of_pages, times, HasEnd};
ghost use Rattle.lazy_purge.specs.WaitingSet.{HasPage};

use crate::batch::Batch;
use std::alloc::{AllocError, Global};
use std::marker::Model;
use std::mem;
use vm_model::Span;

/// The spans that wait for a purge, in the order of the waits, and how many pages they have: the kernel's
/// `purge_vmap_area_list`, whose order is by address and which merges neighbours, and its count `vmap_lazy_nr`.
#[derive(Drop)]
pub struct LazySide {
    spans: Vec<Span>,
    pages: u32,
    alloc: Global,
}

impl Model for LazySide {
    ghost use Rattle.std.specs.Prelude.{List};
    ghost use Rattle.vm_model.specs.declared.areas.Span.{Span};
    ghost use Rattle.lazy_purge.specs.WaitingSet.{AreCounted};

    ghost Value = { List Span };

    ghost view = { λ s. s.spans.items };

    ghost invariant = { λ s. AreCounted s.spans.items s.pages };
}

/// How many pages the spans have together.
fn pages_of(spans: &[Span]) -> u32
    requires { sum_of_pages spans.now ≤ 1048576 }
    ensures { result ≡ sum_of_pages spans.now }
{
    spans.iter().map(|span| span.pages).sum()
}

impl LazySide {
    /// Nothing waits. It takes no memory.
    pub fn new(alloc: Global) -> LazySide
        ensures empty { result ≡ [] }
    {
        LazySide {
            spans: Vec::new(alloc),
            pages: 0,
            alloc,
        }
    }

    /// Puts spans behind those that wait, and tells how many pages wait then, as `free_vmap_area_noflush` puts one and
    /// adds its pages to `vmap_lazy_nr`. An error comes for want of memory only.
    pub fn add(&mut self, spans: &[Span]) -> Result<u32, AllocError>
        requires some { All HasPage spans.now }
        requires ends { All HasEnd spans.now }
        requires disjoint { (page : ℕ) → times page (self.old ++ spans.now) ≤ 1 }
        ensures pages { IfOk result (λ pages. pages ≡ sum_of_pages (self.old ++ spans.now)) }
        ensures ok { OnOk result (self.new ≡ self.old ++ spans.now) }
        ensures err { OnErr result (self.new ≡ self.old) }
    {
        let pages = self.pages + pages_of(spans);
        self.spans.extend_from_slice(spans)?;
        self.pages = pages;
        Ok(pages)
    }

    /// Takes all spans that wait, as `__purge_vmap_area_lazy` moves them to a list of its own before it flushes them.
    /// It takes no memory.
    pub fn take(&mut self) -> Batch
        ensures batch { result ≡ self.old }
        ensures some { All HasPage result }
        ensures ends { All HasEnd result }
        ensures empty { self.new ≡ [] }
    {
        let spans = mem::replace(&mut self.spans, Vec::new(self.alloc));
        self.pages = 0;
        Batch::of(spans)
    }

    /// The spans that wait, in the order in which they were added. It takes no memory.
    pub fn spans(&self) -> &[Span]
        ensures spans { result.now ≡ self.now }
        ensures some { All HasPage result.now }
    {
        self.spans.as_slice()
    }

    /// How many pages wait: `vmap_lazy_nr`, which is kept and not counted. It takes no memory.
    pub fn pages(&self) -> u32
        ensures count { result ≡ sum_of_pages self.now }
    {
        self.pages
    }
}
