//! A caller as a pass keeps it.
ghost use Rattle.std.specs.Prelude.{◌≡◌, ◌<◌, ◌^◌, true, IfOk, vec_len, vec_capacity};

use std::alloc::AllocError;

/// What is kept of a caller, and the stamps of its events, as they rise.
#[derive(Drop)]
pub struct Caller<L> {
    pub local: L,
    pub stamps: Vec<u64>,
}

impl<L> Caller<L> {
    /// Makes room for one more stamp. False where there are 2^58.
    pub(crate) fn ready(&mut self) -> Result<bool, AllocError>
        ensures local { self.new.local ≡ self.old.local }
        ensures stamps { self.new.stamps.items ≡ self.old.stamps.items }
        ensures room { IfOk result (λ b. b ≡ true
            → (vec_len self.new.stamps < vec_capacity self.new.stamps)
            × (vec_len self.new.stamps < 2 ^ 58)) }
    {
        if self.stamps.len() >= 1 << 58 {
            return Ok(false);
        }
        self.stamps.reserve(1)?;
        Ok(true)
    }

    /// The local alone.
    pub(crate) fn into_local(self) -> L
        ensures local { result ≡ self.local }
    {
        let Caller { local, stamps: _ } = self;
        local
    }
}
