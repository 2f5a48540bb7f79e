//! Writing the report of a run, its schedule and the line of a fault.
//!
//! - `write_report`, `write_schedule`, `write_fault`: exactly the defined bytes.
//! - `laws::reports`, `laws::counters`: worked reports and counters.
#![tactic(auto)]

mod audit_lines;
mod entry_lines;
pub mod faults;
pub mod laws;
mod numerals;
mod rows;
mod table_lines;
mod tally;
pub mod writer;

pub use faults::Fault;
pub use text_lines::Text;
pub use writer::{write_fault, write_report, write_schedule};
