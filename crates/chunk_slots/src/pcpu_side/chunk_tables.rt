//! The tables of the chunks, by number.
ghost use Rattle.std.specs.Prelude.{◌≡◌, IfOk};
ghost use Rattle.chunk_slots.specs.ChunkRegion.{chunk_table, audit_table, hint_table};

use super::PcpuSide;
use std::alloc::{AllocError, Global};
use vm_model::{ChunkAudit, ChunkRow, HintRow};

impl PcpuSide {
    /// The rows of all chunks, by number, in one pass: what is kept of each. It takes memory for them.
    pub fn chunk_rows(&self, alloc: Global) -> Result<Vec<ChunkRow>, AllocError>
        ensures { IfOk result (λ rows. rows.items ≡ chunk_table self.now) }
    {
        let mut rows = Vec::new(alloc);
        for chunk in &self.chunks {
            rows.push(chunk.row())?;
        }
        Ok(rows)
    }

    /// The numbers of all chunks, by number, as a scan of their bits finds them. It takes memory for them and for the bits
    /// of a chunk.
    pub fn chunk_audits(&self, alloc: Global) -> Result<Vec<ChunkAudit>, AllocError>
        ensures { IfOk result (λ rows. rows.items ≡ audit_table self.now) }
    {
        let mut rows = Vec::new(alloc);
        for chunk in &self.chunks {
            let plain = chunk.plain_bits(alloc)?;
            rows.push(chunk.audit(&plain))?;
        }
        Ok(rows)
    }

    /// The hints of all pages of bits, by chunk and then by page: each as it is kept, and as a scan finds it. It takes
    /// memory for them and for the bits of a chunk.
    pub fn hint_rows(&self, alloc: Global) -> Result<Vec<HintRow>, AllocError>
        ensures { IfOk result (λ rows. rows.items ≡ hint_table self.now) }
    {
        let mut rows = Vec::new(alloc);
        for chunk in &self.chunks {
            let plain = chunk.plain_bits(alloc)?;
            chunk.push_hints(&plain, &mut rows)?;
        }
        Ok(rows)
    }
}
