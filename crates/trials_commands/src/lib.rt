//! Trials of the commands through the top call, over sources and sinks in memory.
//!
//! The expected lines were worked out by hand from the rules of packets and messages.
#![tactic(auto)]

#[cfg(test)]
mod call;
#[cfg(test)]
mod documents;
#[cfg(test)]
mod filters;
#[cfg(test)]
mod journals;
#[cfg(test)]
mod limits;
