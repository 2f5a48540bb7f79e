//! Who has each object, and under which serial it lives.
ghost use Rattle.std.specs.Prelude.{◌≡◌, ◌+◌, ◌≤◌, ℕ, Some, None, IsSome, IfOk};
ghost use Rattle.std.specs.Map.{update};
ghost use Rattle.chunk_slots.specs.declared.holders.Holder.{Holder};
ghost use Rattle.chunk_slots.specs.KeptObjects.{object_key, holder_in, room_in, nat_eq};

use std::alloc::{AllocError, Global};
use std::collections::HashMap;

/// The caller that placed an object, and its serial, which is 0 while the caller has it in hand.
#[derive(Clone, Copy)]
pub(crate) struct Holder {
    pub(crate) caller: u16,
    pub(crate) serial: u32,
}

/// The holders of all objects by chunk and offset, with room for all that can be placed: the kernel's `obj_cgroups`.
#[derive(Drop)]
pub(crate) struct Holders {
    by_place: HashMap<u64, Holder>,
}

/// The key of an object, by its chunk and then by its offset.
fn key_of(chunk: u32, off: u32) -> u64
    ensures { result ≡ object_key chunk off }
{
    (u64::from(chunk) << 32) + u64::from(off)
}

impl Holders {
    /// No holders, with room for so many.
    pub(crate) fn with_room(alloc: Global, objects: u32) -> Result<Holders, AllocError>
        ensures room { IfOk result (λ holders. objects ≤ room_in holders) }
    {
        Ok(Holders {
            by_place: HashMap::with_capacity(alloc, objects as usize)?,
        })
    }

    /// The holder of the object at an offset of a chunk.
    pub(crate) fn get(&self, chunk: u32, off: u32) -> Option<Holder>
        ensures { result ≡ holder_in self.now (object_key chunk off) }
    {
        self.by_place.get(&key_of(chunk, off)).copied()
    }

    /// An object has this holder from here on. It takes no memory where there is room, or it had one before.
    pub(crate) fn put(&mut self, chunk: u32, off: u32, holder: Holder)
        requires { holder_in self.old (object_key chunk off) ≡ None → 1 ≤ room_in self.old }
        ensures holders { (key : ℕ)
            → holder_in self.new key ≡ update nat_eq (holder_in self.old) (object_key chunk off)
            (Some holder) key }
        ensures room { room_in self.old ≤ room_in self.new + 1 }
    {
        if self.by_place.insert(key_of(chunk, off), holder).is_err() {
            unreachable!();
        }
    }

    /// An object lives under a serial from here on.
    pub(crate) fn settle(&mut self, chunk: u32, off: u32, serial: u32)
        requires { IsSome (holder_in self.old (object_key chunk off)) }
        ensures holders { (old : Holder) → holder_in self.old (object_key chunk off) ≡ Some old
            → (key : ℕ) → holder_in self.new key ≡ update nat_eq (holder_in self.old)
            (object_key chunk off) (Some (record { caller = old.caller; serial = serial })) key }
        ensures room { room_in self.new ≡ room_in self.old }
    {
        if let Some(holder) = self.by_place.get_mut(&key_of(chunk, off)) {
            holder.serial = serial;
        }
    }

    /// An object is gone.
    pub(crate) fn take_out(&mut self, chunk: u32, off: u32)
        ensures holders { (key : ℕ)
            → holder_in self.new key ≡ update nat_eq (holder_in self.old)
            (object_key chunk off) None key }
        ensures room { room_in self.old ≤ room_in self.new }
    {
        let _ = self.by_place.remove(&key_of(chunk, off));
    }
}
