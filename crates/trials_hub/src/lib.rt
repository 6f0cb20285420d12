//! Tests of the hub lock over a small state, with threads.
#![tactic(auto)]

mod numbers;

pub use numbers::Numbers;

#[cfg(test)]
mod turns;
