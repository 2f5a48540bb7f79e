//! Lines of text, each written as the list of its fields.
//!
//! - `put_field`, `put_words`, `put_line`, `put_fields`: what a field is written as (`field_text`), a space before each
//!   field, and the end of a line.
#![tactic(auto)]

pub mod field;
pub mod line;
mod line_end;

pub use field::{Field, put_field};
pub use line::{put_fields, put_line, put_words};
use vm_model::ItemList;

/// Bytes in a row, which read as a slice.
pub type Text = ItemList<u8>;
