//! Trials of the network, by the program's command line.
#![tactic(auto)]

#[cfg(test)]
mod call;
#[cfg(test)]
mod faults;
#[cfg(test)]
mod limits;
#[cfg(test)]
mod refusals;
#[cfg(test)]
mod rows;
#[cfg(test)]
mod stepped;
#[cfg(test)]
mod trial_disks;
