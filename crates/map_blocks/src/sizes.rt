//! Pages rounded up to a power of two.
ghost use Rattle.std.specs.Prelude.{◌≡◌, ◌≤◌, ◌-◌};
ghost use Rattle.vm_model.specs.Bits as bits;
ghost use Rattle.vm_model.specs.Blocks as model;

use vm_model::binary_digits;

/// The least order with so many pages, the kernel's `get_order`.
pub fn order_of(pages: u32) -> u8
    requires low { 1 ≤ pages }
    requires high { pages ≤ 1024 }
    ensures order { result ≡ bits.binary_digits (pages - 1) }
    ensures high { result ≤ 10 }
{
    binary_digits(pages - 1) as u8
}

/// The pages of that order.
pub fn rounded(pages: u32) -> u32
    requires low { 1 ≤ pages }
    requires high { pages ≤ 1024 }
    ensures { result ≡ model.rounded pages }
{
    1 << order_of(pages)
}
