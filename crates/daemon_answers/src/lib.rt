//! What a daemon answers to a job and its entries: the outcome of preprocessing, as a reply.
#![tactic(auto)]

mod answering;

pub use answering::answer_of;
