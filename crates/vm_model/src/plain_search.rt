//! The plain search: each start in turn, page by page.
ghost use Rattle.std.specs.Prelude.{◌≡◌, ◌≤◌, drop};
ghost use Rattle.vm_model.specs.Space.{covers, lowest, begins_free, taken_by};

use crate::areas::Span;

/// Whether a page is in one of the spans.
fn is_covered(spans: &[Span], page: u32) -> bool
    ensures { result ≡ covers spans.now page }
{
    for s in spans {
        if s.contains(page) {
            return true;
        }
    }
    false
}

/// Whether the pages from a start on lie in the space and are in none of the spans.
fn is_open(spans: &[Span], space: u32, start: u32, pages: u32) -> bool
    requires { start ≤ space }
    ensures { result ≡ begins_free pages (drop start (taken_by spans.now space)) }
{
    if pages > space - start {
        return false;
    }
    for page in start..start + pages {
        if is_covered(spans, page) {
            return false;
        }
    }
    true
}

/// The least start at a multiple of `align` from which `pages` pages lie in the space and are in none of the taken spans,
/// by looking at each. All numbers are pages. It takes no memory, and time for each start, page and span.
pub fn plain_lowest(taken: &[Span], space: u32, pages: u32, align: u32) -> Option<u32>
    requires pages { 1 ≤ pages }
    requires align { 1 ≤ align }
    ensures { result ≡ lowest (taken_by taken.now space) pages align }
{
    for start in 0..space {
        if start % align == 0 && is_open(taken, space, start, pages) {
            return Some(start);
        }
    }
    None
}
