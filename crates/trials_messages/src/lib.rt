//! Trials of the messages of the transport: how they are written and read, and why a tree is none.
//!
//! They show that the definitions give the texts that the transport's documents show, and that each call which takes
//! memory succeeds where there is some.
#![tactic(auto)]

#[cfg(test)]
mod messages;
