//! The live objects of the side, by chunk and then by offset.
ghost use Rattle.std.specs.Prelude.{◌≡◌, ◌<◌, Some, IfOk, length, slice_get};
ghost use Rattle.chunk_slots.specs.ChunkRegion.{object_table};
ghost use Rattle.chunk_slots.specs.LiveObjectRows.{seek};

use super::PcpuSide;
use crate::object_rows::{Sought, push_rows, seek_in};
use std::alloc::{AllocError, Global};
use vm_model::ObjectRow;

impl PcpuSide {
    /// Seeks the live object behind so many others, by chunk and then by offset.
    fn seek(&self, skip: u32) -> Sought
        ensures { result ≡ seek (object_table self.now) skip }
    {
        let mut left = skip;
        for chunk in &self.chunks {
            match seek_in(chunk, &self.holders, left) {
                Sought::Found(row) => return Sought::Found(row),
                Sought::Past(rest) => left = rest,
            }
        }
        Sought::Past(left)
    }

    /// How many objects live. It goes over all objects, and takes no memory.
    pub fn objects(&self) -> u32
        ensures { result ≡ length (object_table self.now) }
    {
        let _few = self.spare;
        match self.seek(u32::MAX) {
            Sought::Past(left) => u32::MAX - left,
            Sought::Found(_) => unreachable!(),
        }
    }

    /// A live object by its index, by chunk and then by offset. It goes over those before it, and takes no memory.
    pub fn object_at(&self, index: u32) -> ObjectRow
        requires { index < length (object_table self.now) }
        ensures { slice_get (object_table self.now) index ≡ Some result }
    {
        match self.seek(index) {
            Sought::Found(row) => row,
            Sought::Past(_) => unreachable!(),
        }
    }

    /// The rows of all live objects, by chunk and then by offset, in one pass. It takes memory for them.
    pub fn object_rows(&self, alloc: Global) -> Result<Vec<ObjectRow>, AllocError>
        ensures { IfOk result (λ rows. rows.items ≡ object_table self.now) }
    {
        let mut rows = Vec::new(alloc);
        for chunk in &self.chunks {
            push_rows(chunk, &self.holders, &mut rows)?;
        }
        Ok(rows)
    }
}
