//! The clients of a build: the path under which the top call and the programs know what stands in `job_ends`, what a client
//! does at its end, in `client_steps`, its machine of needs and answers, and in `client_order`, runs of several in turns.
#![tactic(auto)]

pub use client_order::{
    Progress, Totals, Unwatched, run_order, run_order_watched, runs_are_bounded,
};
pub use client_steps::{Client, Need, Reply};
pub use job_ends::{
    Cause, Done, End, JobOutcome, Prepared, Replied, Way, ask_host, ask_wire, conclude, do_job,
    do_locally, exchange, prepare, put_text, records_agree,
};
