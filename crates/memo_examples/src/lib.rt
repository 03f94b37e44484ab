//! Tables of calls on a memo: what each looks for or publishes, and the step of the history that it is.
#![tactic(auto)]

#[cfg(test)]
mod calls;
#[cfg(test)]
mod limits;
#[cfg(test)]
mod shared;
#[cfg(test)]
mod weights;
