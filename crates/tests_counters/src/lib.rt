//! Tests of the per-CPU counters: worked adds of one pass, two passes whose folds cross, and four threads. No code.
#![tactic(auto)]

#[cfg(test)]
mod tests;
