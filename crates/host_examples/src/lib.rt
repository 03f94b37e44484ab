//! Tests of what stands over the host's files: the tree that shows them, and the folder that outputs are written to.
#![tactic(auto)]

#[cfg(test)]
mod folders;
#[cfg(test)]
mod outs;
#[cfg(test)]
mod test_folder;
