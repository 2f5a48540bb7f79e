//! The slots of sizes.
ghost use Rattle.std.specs.Prelude.{◌≡◌, ◌≤◌};
ghost use Rattle.vm_model.specs.Bits.{slot_for as model_slot_for};

use vm_model::binary_digits;

/// The slot of a size in bytes: the kernel's `__pcpu_size_to_slot`.
pub(crate) fn slot_for(bytes: u32) -> u32
    ensures slot { result ≡ model_slot_for bytes }
    ensures most { result ≤ 29 }
{
    binary_digits(bytes).saturating_sub(3).max(1)
}
