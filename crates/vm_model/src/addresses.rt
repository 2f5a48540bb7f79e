//! Addresses of the space's pages.
ghost use Rattle.std.specs.Prelude.{◌≡◌};
ghost use Rattle.vm_model.specs.Space as model;

/// The bytes of a page, the kernel's `PAGE_SIZE`.
pub const PAGE_SIZE: u64 = 4096;

/// The pages of the largest space, which are 4 GiB.
pub const LARGEST_SPACE: u32 = 1_048_576;

/// The address of page 0, the kernel's `VMALLOC_START`.
pub const FIRST_ADDRESS: u64 = 0xffff_c900_0000_0000;

/// The address of a page's first byte.
pub fn address_of(page: u32) -> u64
    ensures { result ≡ model.address_of page }
{
    FIRST_ADDRESS + PAGE_SIZE * page as u64
}
