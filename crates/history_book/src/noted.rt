//! What is noted of a call.
use vm_model::Reply;

/// A call's reply, and the number of its last event among its caller's own.
#[derive(Clone, Copy)]
pub struct Noted {
    /// How the call ended.
    pub reply: Reply,
    /// The number of its last event among the caller's own, from 1.
    pub own_event: u32,
}
