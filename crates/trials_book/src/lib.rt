//! Trials of a node's book over disks in memory.
//!
//! It has nothing but tests: of the bytes that a book writes and reads, of each public call once with ample memory, and
//! of a crash and a fault at each device call. What is tried stands in tables of payloads, as they are on the disk.
#![tactic(auto)]

#[cfg(test)]
mod asking;
#[cfg(test)]
mod failing;
#[cfg(test)]
mod files;
#[cfg(test)]
mod payloads;
#[cfg(test)]
mod support;
