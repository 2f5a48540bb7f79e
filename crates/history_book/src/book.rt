//! A book of replies.
ghost use Rattle.std.specs.Prelude.{◌≡◌, ◌+◌, ◌-◌, ◌≤◌, ◌++◌, ◌∷◌, [], Some, length, slice_get, option_map, IfOk, IsTrue, ◌↔◌, ◌^◌, ◌<◌, All};
ghost use Rattle.history_book.specs.declared.noted.Noted.{Noted};
ghost use Rattle.history_book.specs.BookRows.{BookRows};

use crate::noted::Noted;
use std::alloc::{AllocError, Global};
use std::marker::Model;
use vm_model::Reply;

/// The replies of one caller's calls, in their order, with room for all that are to come.
#[derive(Drop)]
pub struct Book {
    caller: u16,
    rows: Vec<Noted>,
    spare: u32,
}

impl Model for Book {
    ghost use Rattle.std.specs.Prelude.{vec_capacity};
    ghost use Rattle.history_book.specs.BookRows.{BookRows, HasRoom};

    ghost Value = { BookRows };

    ghost view = { λ b. record { caller = b.caller; rows = b.rows.items; spare = b.spare } };

    // there is room for what is spare, and each call has an event
    ghost invariant = { λ b. HasRoom b.rows.items (vec_capacity b.rows) b.spare };
}

impl Book {
    /// An empty book of a caller, with room for so many calls. It takes all the memory that the book ever needs.
    pub fn with_room(alloc: Global, caller: u16, calls: u32) -> Result<Book, AllocError>
        ensures { IfOk result (λ book.
            book ≡ record { caller = caller; rows = []; spare = calls }) }
    {
        let rows = Vec::with_capacity(alloc, calls as usize)?;
        Ok(Book {
            caller,
            rows,
            spare: calls,
        })
    }

    /// Notes the reply of the caller's next call, and the number of its last event among the caller's own, from 1. It
    /// takes no memory.
    pub fn note(&mut self, reply: Reply, own_event: u32)
        requires room { 1 ≤ self.old.spare }
        requires event { 1 ≤ own_event }
        ensures { self.new ≡ record self.old {
          rows = self.old.rows ++ record { reply = reply; own_event = own_event } ∷ [];
          spare = self.old.spare - 1;
        } }
    {
        self.rows.push_reserved(Noted { reply, own_event });
        self.spare -= 1;
    }

    /// How many more calls find room.
    pub fn spare(&self) -> u32
        ensures { result ≡ self.now.spare }
    {
        self.spare
    }

    /// How many calls were noted.
    pub fn len(&self) -> u32
        ensures { result ≡ length self.now.rows }
    {
        self.rows.len() as u32
    }

    /// Whether no call was noted.
    pub fn is_empty(&self) -> bool
        ensures { IsTrue result ↔ (self.now.rows ≡ []) }
    {
        self.rows.is_empty()
    }

    /// The caller whose book it is; 0 is the opening.
    pub fn caller(&self) -> u16
        ensures { result ≡ self.now.caller }
    {
        self.caller
    }

    /// The reply of a call, by its number from 1.
    pub fn reply_at(&self, call: u32) -> Reply
        requires first { 1 ≤ call }
        requires last { call ≤ length self.now.rows }
        ensures { option_map (λ (n : Noted). n.reply) (slice_get self.now.rows (call - 1))
            ≡ Some result }
    {
        self.rows[call as usize - 1].reply
    }

    /// The number of a call's last event among the caller's own, from 1, by the call's number from 1.
    pub fn own_event_at(&self, call: u32) -> u32
        requires first { 1 ≤ call }
        requires last { call ≤ length self.now.rows }
        ensures place { option_map (λ (n : Noted). n.own_event) (slice_get self.now.rows (call - 1))
            ≡ Some result }
        ensures event { 1 ≤ result }
    {
        self.rows[call as usize - 1].own_event
    }

    /// What was noted, by call.
    pub(crate) fn rows(&self) -> &[Noted]
        ensures rows { result.now ≡ self.now.rows }
        ensures events { All (λ (n : Noted). 1 ≤ n.own_event) result.now }
        ensures count { length result.now < 2 ^ 32 }
    {
        self.rows.as_slice()
    }
}
