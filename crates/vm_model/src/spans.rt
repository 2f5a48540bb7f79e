//! Spans of pages, and their hulls: from the lowest page to the highest.
ghost use Rattle.std.specs.Prelude.{◌≡◌, ◌^◌, ◌<◌, All, Some};
ghost use Rattle.std.specs.Option.{ForSome};
ghost use Rattle.vm_model.specs.Space as model;
ghost use Rattle.vm_model.specs.Space.{HasEnd, end_of, holds};

use crate::areas::Span;

impl Span {
    /// The first page behind the span.
    pub fn end(self) -> u32
        requires { end_of self < 2 ^ 32 }
        ensures { result ≡ end_of self }
    {
        self.start + self.pages
    }

    /// Whether a page is in the span.
    pub fn contains(self, page: u32) -> bool
        ensures { result ≡ holds self page }
    {
        self.start <= page && page - self.start < self.pages
    }

    /// From the lower start of two spans to the higher end.
    pub fn hull_with(self, other: Span) -> Span
        requires end { HasEnd self }
        requires other { HasEnd other }
        ensures hull { result ≡ model.wider self (Some other) }
        ensures end { HasEnd result }
    {
        let start = self.start.min(other.start);
        Span {
            start,
            pages: self.end().max(other.end()) - start,
        }
    }
}

/// The hull of a span and of what other spans have as theirs, if there are others. It takes no memory.
pub fn wider(span: Span, others: Option<Span>) -> Span
    requires end { HasEnd span }
    requires ends { ForSome others HasEnd }
    ensures wider { result ≡ model.wider span others }
    ensures end { HasEnd result }
{
    match others {
        Some(hull) => span.hull_with(hull),
        None => span,
    }
}

/// From the lowest start of spans to their highest end, where there is one. It takes no memory.
pub fn hull(spans: &[Span]) -> Option<Span>
    requires { All HasEnd spans.now }
    ensures { result ≡ model.hull spans.now }
{
    let mut hull = None;
    for index in (0..spans.len()).rev() {
        hull = Some(wider(spans[index], hull));
    }
    hull
}
