//! Tables of jobs over trees of files: what preprocessing them gives, by their words.
#![tactic(auto)]

#[cfg(test)]
mod chains;
#[cfg(test)]
mod checked;
#[cfg(test)]
mod forced;
#[cfg(test)]
mod jobs;
#[cfg(test)]
mod links;
