//! Trials of the texts of configurations and scenarios.
//!
//! The expected answers were worked out by hand from the rules of the two languages.
#![tactic(auto)]

#[cfg(test)]
mod configurations;
#[cfg(test)]
mod scenarios;
