//! Trials of the disk and the gate journal over disks in memory and over real files.
//!
//! It has nothing but tests: of what no contract says, as real files, and of each public call once with ample memory.
#![tactic(auto)]

#[cfg(test)]
mod files;
#[cfg(test)]
mod memory;
