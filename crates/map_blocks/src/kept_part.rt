//! A part as its block keeps it.
ghost use Rattle.std.specs.Prelude.{◌≡◌, ◌≤◌, IsTrue, ◌↔◌, true};
ghost use Rattle.vm_model.specs.PlainMap.{InHand, Lives, Ended, is_in_hand, is_live, serial_of, lives_as};
ghost use Rattle.vm_model.specs.Blocks.{size_of};

use crate::sizes::rounded;
use std::marker::Model;

/// A caller has it in hand, it lives under a serial, or it has ended.
#[derive(Clone, Copy)]
enum KeptLife {
    InHand(u16),
    Lives(u32),
    Ended,
}

/// Pages of a block from an offset on.
#[derive(Drop)]
pub struct KeptPart {
    offset: u32,
    pages: u32,
    caller: u16,
    life: KeptLife,
}

impl Model for KeptPart {
    ghost use Rattle.vm_model.specs.PlainMap.{Part};
    ghost use Rattle.map_blocks.specs.KeptLives.{life_of};

    ghost Value = { Part };

    ghost view = { λ p. record {
      offset = p.offset;
      pages = p.pages;
      caller = p.caller;
      life = life_of p.life;
    } };
}

impl KeptPart {
    /// A part that its caller has in hand.
    pub fn new(offset: u32, pages: u32, caller: u16) -> KeptPart
        ensures { result ≡ record {
          offset = offset;
          pages = pages;
          caller = caller;
          life = InHand caller;
        } }
    {
        KeptPart {
            offset,
            pages,
            caller,
            life: KeptLife::InHand(caller),
        }
    }

    /// Where it begins, in pages from its block's start.
    pub fn offset(&self) -> u32
        ensures { result ≡ self.now.offset }
    {
        self.offset
    }

    /// Its mapped pages.
    pub fn pages(&self) -> u32
        ensures { result ≡ self.now.pages }
    {
        self.pages
    }

    /// The caller that made it.
    pub fn caller(&self) -> u16
        ensures { result ≡ self.now.caller }
    {
        self.caller
    }

    /// The pages of its block that it has.
    pub fn size(&self) -> u32
        requires low { 1 ≤ self.now.pages }
        requires high { self.now.pages ≤ 1024 }
        ensures { result ≡ size_of self.now }
    {
        rounded(self.pages)
    }

    /// Whether it lives.
    pub fn is_live(&self) -> bool
        ensures { IsTrue result ↔ (is_live self.now.life ≡ true) }
    {
        matches!(self.life, KeptLife::Lives(_))
    }

    /// Whether a caller has it in hand.
    pub fn is_in_hand(&self) -> bool
        ensures { IsTrue result ↔ (is_in_hand self.now.life ≡ true) }
    {
        matches!(self.life, KeptLife::InHand(_))
    }

    /// Whether it lives under this serial.
    pub fn lives_as(&self, serial: u32) -> bool
        ensures { IsTrue result ↔ (lives_as serial self.now.life ≡ true) }
    {
        match self.life {
            KeptLife::Lives(own) => own == serial,
            _ => false,
        }
    }

    /// Its serial, or 0 where it doesn't live.
    pub fn serial(&self) -> u32
        ensures { result ≡ serial_of self.now.life }
    {
        match self.life {
            KeptLife::Lives(serial) => serial,
            _ => 0,
        }
    }

    /// It lives under a serial from here on.
    pub fn settle(&mut self, serial: u32)
        ensures { self.new ≡ record self.old { life = Lives serial } }
    {
        self.life = KeptLife::Lives(serial);
    }

    /// A caller has it in hand from here on.
    pub fn hold(&mut self, caller: u16)
        ensures { self.new ≡ record self.old { life = InHand caller } }
    {
        self.life = KeptLife::InHand(caller);
    }

    /// It has ended.
    pub fn end(&mut self)
        ensures { self.new ≡ record self.old { life = Ended } }
    {
        self.life = KeptLife::Ended;
    }
}
