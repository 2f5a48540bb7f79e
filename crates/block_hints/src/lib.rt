//! What is known of the free bits of a per-CPU chunk, page by page, and the search that it serves.
//!
//! The value of `HintedChunk` is that of its bits. An object is placed at the lowest fit of the plain bits, and none comes
//! exactly where they have none, also where a fit spans pages or an alignment spoils the longest run. The hint of each page
//! of bits and of the whole chunk is kept, and is that of the bits after every call, though `place` reads no page anew but
//! those of the object whose longest run is cut, and `free` reads the free run alone in which the object's bits lie then. `new`
//! alone takes memory.
//!
//! - `HintedChunk::place`, `place_populated`, `free`: the place is the lowest fit of the plain bits, or of those in
//!   the pages of a set, none comes exactly where they have none, and then nothing changes.
//! - `hint`, `longest`: after each call they are the hints of the bits (`hint_of`), mended from those before.
#![tactic(auto)]

mod block_scan;
mod frees;
mod hinted_chunk;
mod joins;
mod search;
mod takes;

pub use hinted_chunk::HintedChunk;
