//! Trials of the crates that read and write the field's formats, a module a crate.
//!
//! They show what no contract can: that the definitions give the values that the standards and the protocol's worked
//! examples give, and that each call which takes memory succeeds where there is some.
#![tactic(auto)]

#[cfg(test)]
mod digest;
#[cfg(test)]
mod framing;
#[cfg(test)]
mod packet;
#[cfg(test)]
mod time;
#[cfg(test)]
mod tree;
#[cfg(test)]
mod values;
#[cfg(test)]
mod written;
