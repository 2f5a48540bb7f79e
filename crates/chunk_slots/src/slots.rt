//! The chunks by slot and number, and the choice of a chunk.
ghost use Rattle.std.specs.Prelude.{◌≡◌, ◌≢◌, ◌+◌, ◌-◌, ◌/◌, ◌%◌, ◌<◌, ◌≤◌, ◌==◌, Some, None, IfSome, IfNone, filter, map, find, slice_get, vec_len, vec_capacity};
ghost use Rattle.chunk_slots.specs.Rising.{IsRising, index_by};
ghost use Rattle.chunk_slots.specs.ChunksBySlot.{slot_key, key_of_slot, slots_of, moved};
ghost use Rattle.chunk_slots.specs.declared.slots.InSlot.{InSlot};
ghost use Rattle.chunk_slots.specs.SlotFits.{NothingFitsBelowItsSlot};
ghost use Rattle.chunk_slots.specs.SlotOrder.{TheFirstInOrderIsChosen, AreNumbered};
ghost use Rattle.chunk_slots.specs.KeptChunkSides.{Each};
ghost use Rattle.chunk_slots.specs.Choices.{chosen_row, IsTaken};

use crate::kept_chunk::KeptChunk;
use crate::rising::{Keyed, index_of, put, rank, take_out};
use crate::sizes::slot_for;

/// The first chunk with a fit in the order of slots and numbers is the one that the rule chooses, and no chunk below the
/// slot of a size has a fit for it.
fn slot_order()
    ensures order { TheFirstInOrderIsChosen }
    ensures below { NothingFitsBelowItsSlot }
{}

/// A chunk in the list of its slot.
#[derive(Clone, Copy)]
pub(crate) struct InSlot {
    pub(crate) slot: u32,
    pub(crate) chunk: u32,
}

/// The key of a chunk in its slot.
pub(crate) fn key_in_slot(slot: u32, chunk: u32) -> u64
    ensures { result ≡ slot_key slot chunk }
{
    (u64::from(slot) << 32) + u64::from(chunk)
}

impl Keyed for InSlot {
    ghost use Rattle.chunk_slots.specs.ChunksBySlot.{key_of_slot};

    ghost key = { key_of_slot };

    fn key(&self) -> u64 {
        key_in_slot(self.slot, self.chunk)
    }
}

/// Moves a chunk from its slot to another: the kernel's `pcpu_chunk_relocate`. It takes no memory.
pub(crate) fn relocate(slots: &mut Vec<InSlot>, chunk: u32, from: u32, to: u32)
    requires rising { IsRising key_of_slot slots.old.items }
    requires there { find (λ (s : InSlot). key_of_slot s == slot_key from chunk) slots.old.items
        ≡ Some (record { slot = from; chunk = chunk }) }
    requires room { vec_len slots.old ≤ vec_capacity slots.old }
    requires other { from ≢ to → index_by key_of_slot (slot_key to chunk) slots.old.items ≡ None }
    ensures slots { slots.new.items ≡ moved chunk from to slots.old.items }
    ensures len { vec_len slots.new ≡ vec_len slots.old }
    ensures capacity { vec_capacity slots.old ≤ vec_capacity slots.new }
{
    if from == to {
        return;
    }
    let _ = take_out(slots, key_in_slot(from, chunk));
    put(slots, InSlot { slot: to, chunk });
}

/// A place that was taken: the chunk by its index, what it was before, and the first bit.
#[derive(Clone, Copy)]
pub(crate) struct Taken {
    pub(crate) index: usize,
    pub(crate) slot: u32,
    pub(crate) empty: u32,
    pub(crate) bit: u32,
}

/// Takes the lowest fit in the least chunk with one, by slot and then by number, as `pcpu_alloc` goes through its slots
/// from the size's own upward. None comes exactly where no chunk has a fit. It takes no memory.
pub(crate) fn take_fit(
    chunks: &mut [KeptChunk],
    slots: &[InSlot],
    bytes: u32,
    align: u32,
    atomic: bool,
) -> Option<Taken>
    requires bytes { 4 ≤ bytes }
    requires words { bytes % 4 ≡ 0 }
    requires align { 4 ≤ align }
    requires numbers { AreNumbered chunks.old }
    requires slots { slots.now ≡ slots_of chunks.old }
    requires rising { IsRising key_of_slot slots.now }
    ensures taken { IfSome result (IsTaken atomic (bytes / 4) (align / 4) chunks.old chunks.new) }
    ensures none { IfNone result (chosen_row atomic (bytes / 4) (align / 4) chunks.old ≡ None) }
    ensures unchanged { IfNone result (chunks.new ≡ chunks.old) }
{
    let first = rank(slots, key_in_slot(slot_for(bytes), 0));
    for place in first..slots.len() {
        let in_slot = slots[place];
        let Some(index) = index_of(chunks, u64::from(in_slot.chunk)) else {
            unreachable!();
        };
        let empty = chunks[index].empty();
        let bit = chunks[index].place(bytes / 4, align / 4, atomic);
        if let Some(bit) = bit {
            return Some(Taken {
                index,
                slot: in_slot.slot,
                empty,
                bit,
            });
        }
    }
    None
}

/// The chunk at a place in a slot, its chunks by rising number. None comes exactly where the slot has no such place.
pub(crate) fn nth_in_slot(slots: &[InSlot], slot: u32, nth: u32) -> Option<u32>
    requires rising { IsRising key_of_slot slots.now }
    requires small { Each (λ (s : InSlot). s.chunk < 4294967296) slots.now }
    ensures { result ≡ slice_get
        (map (λ (s : InSlot). s.chunk) (filter (λ (s : InSlot). s.slot == slot) slots.now)) nth }
{
    let place = rank(slots, key_in_slot(slot, 0)) + nth as usize;
    if place < slots.len() && slots[place].slot == slot {
        Some(slots[place].chunk)
    } else {
        None
    }
}
