//! Trials of ends over disks in memory. Those of an author stand in `trials_authors`.
#![tactic(auto)]

#[cfg(test)]
mod broker;
#[cfg(test)]
mod full;
#[cfg(test)]
mod loading;
#[cfg(test)]
mod subscriber;
#[cfg(test)]
mod support;
