//! Who has been in a room.
ghost use Rattle.std.specs.Prelude.{◌≡◌, ℕ, List, [], ◌∷◌, ◌++◌, length, OnErr, OnOk};

use std::alloc::{AllocError, Global};
use std::marker::Model;

/// The numbers of walkers, in the order in which they came.
#[derive(Drop)]
pub struct Guests {
    numbers: Vec<u16>,
}

impl Model for Guests {
    ghost Value = { List ℕ };

    ghost view = { λ g. g.numbers.items };
}

impl Guests {
    /// Nobody.
    pub fn none(alloc: Global) -> Guests
        ensures { result ≡ [] }
    {
        Guests {
            numbers: Vec::new(alloc),
        }
    }

    /// How many came.
    pub fn count(&self) -> usize
        ensures { result ≡ length self.now }
    {
        self.numbers.len()
    }

    /// One more.
    pub fn note(&mut self, number: u16) -> Result<(), AllocError>
        ensures noted { OnOk result (self.new ≡ self.old ++ number ∷ []) }
        ensures refused { OnErr result (self.new ≡ self.old) }
    {
        self.numbers.push(number)?;
        Ok(())
    }

    /// All that came.
    pub fn as_slice(&self) -> &[u16]
        ensures { result.now ≡ self.now }
    {
        self.numbers.as_slice()
    }
}
