//! What calls were answered, and what they made.
use vm_model::{Call, ItemList, Reply};

/// Where an object lies: its chunk by number and base page, and its offset and size in each unit, in bytes.
#[derive(Clone, Copy)]
pub struct ObjectPlace {
    pub chunk: u32,
    pub base: u32,
    pub off: u32,
    pub bytes: u32,
}

/// What an answered call made.
#[derive(Clone, Copy)]
pub enum Made {
    /// Nothing that a later call could name.
    Nothing,
    /// An area, by its first page and its serial.
    Area { start: u32, serial: u32 },
    /// A part of a block of a processor, by its first page and its serial.
    Part { cpu: u8, page: u32, serial: u32 },
    /// A per-CPU object, by its place and its serial.
    Object { object: ObjectPlace, serial: u32 },
}

/// What an answered call made, and whether a later call of its section freed it as a per-CPU object.
#[derive(Clone, Copy)]
pub struct Outcome {
    pub made: Made,
    pub freed: bool,
}

/// An answered call: its reply, its outcome, and the number of its last event among its caller's own, from 1.
#[derive(Clone, Copy)]
pub struct Answered {
    pub call: Call,
    pub reply: Reply,
    pub outcome: Outcome,
    pub own_event: u32,
}

/// The answers of a section's calls, in their order.
pub type AnswerList = ItemList<Answered>;
