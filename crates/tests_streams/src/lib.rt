//! Sources and sinks: calls that fail or are interrupted, and the most bytes and calls that a text may have. What is said
//! of texts that are no traces.
#![tactic(auto)]

#[cfg(test)]
mod error_texts;
#[cfg(test)]
mod failing;
#[cfg(test)]
mod lengths;
#[cfg(test)]
mod memory;
#[cfg(test)]
mod replayed;
#[cfg(test)]
mod two_areas;
