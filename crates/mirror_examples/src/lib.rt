//! Tables of mirrors: why lists of entries make none, and what they show of paths.
#![tactic(auto)]

#[cfg(test)]
mod entries;
#[cfg(test)]
mod reasons;
#[cfg(test)]
mod shown;
