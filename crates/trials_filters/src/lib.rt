//! Trials of path filters: their texts, and what they pass.
//!
//! They show what no contract can: that the definitions give the answers that a user of XPath expects, and that each
//! call which takes memory succeeds where there is some.
#![tactic(auto)]

#[cfg(test)]
mod costs;
#[cfg(test)]
mod passes;
#[cfg(test)]
mod texts;
