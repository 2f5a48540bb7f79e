//! Why a line can't stand, in words: what a person at a terminal is told beside the fault line. The text quotes the
//! line that is named, and only memory can be wanting; which reason it gives is a help, and no promise.
//!
//! - `reason`: the text begins with the line that the number names, as it is shown (`quotes`, `head`), and
//!   only memory can be wanting. Which reason is told behind it is a help, and no contract's matter.
#![tactic(auto)]

mod before;
pub mod forms;
mod lines;
mod quotes;
mod texts;
mod wrongs;

pub use texts::reason;
