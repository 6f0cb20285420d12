//! Trials of a network that is stepped and looked at.
#![tactic(auto)]

#[cfg(test)]
mod nodes;
