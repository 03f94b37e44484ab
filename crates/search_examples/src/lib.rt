//! Tables of searches over a tree of files: the places of each form of asking, in order.
#![tactic(auto)]

#[cfg(test)]
mod calls;
#[cfg(test)]
mod chains;
#[cfg(test)]
mod first;
#[cfg(test)]
mod included;
#[cfg(test)]
mod keys;
#[cfg(test)]
mod next;
#[cfg(test)]
mod tree;
