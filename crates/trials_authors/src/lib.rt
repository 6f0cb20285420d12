//! Trials of an author over disks in memory.
#![tactic(auto)]

#[cfg(test)]
mod author;
#[cfg(test)]
mod full;
#[cfg(test)]
mod support;
