//! Tests of what clients share: slots of hosts, and numbers of jobs that threads draw.
#![tactic(auto)]

#[cfg(test)]
mod slots;
#[cfg(test)]
mod tickets;
