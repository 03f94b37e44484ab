//! Tables of compile words and the jobs that they give, by GCC's manual of its options.
#![tactic(auto)]

#[cfg(test)]
mod directories;
#[cfg(test)]
mod effects;
#[cfg(test)]
mod keys;
#[cfg(test)]
mod limits;
#[cfg(test)]
mod macros;
#[cfg(test)]
mod notation;
#[cfg(test)]
mod outputs;
#[cfg(test)]
mod refusals;
