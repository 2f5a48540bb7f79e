//! Live runs: each order that happened, replayed and compared; two callers that a gate makes meet, and two that it
//! holds inside regions of their own at once, also by `drive` itself. No code.
#![tactic(auto)]

#[cfg(test)]
mod driven;
#[cfg(test)]
mod holding;
#[cfg(test)]
mod meeting;
#[cfg(test)]
mod replayed;
