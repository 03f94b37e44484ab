//! The analysis of a job: which files and directories preprocessing it may need, found without preprocessing it, and
//! the request that carries just these.
#![tactic(auto)]

mod bodies;
mod entries;
mod fixpoint;
mod job_analysis;
mod law;
mod lengths;
mod naming;
mod nodes;
mod plan;
mod searches;
mod targets;
mod visits;
mod walked;
mod wanting;
mod worklist;

pub use bodies::Bodies;
pub use entries::{Gathered, gather};
pub use fixpoint::{Closure, Fixpoint, Next};
pub use job_analysis::{Analysed, Refusal, analyse, request_of};
pub use law::{closures, gathered_are_sent, refusals_hold};
