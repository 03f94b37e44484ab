//! Tables of cases for the public calls of the layers that need no tree of files.
#![tactic(auto)]

#[cfg(test)]
mod checks;
#[cfg(test)]
mod edges;
#[cfg(test)]
mod layouts;
#[cfg(test)]
mod lists;
#[cfg(test)]
mod serving;
