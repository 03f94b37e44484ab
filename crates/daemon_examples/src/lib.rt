//! Tests of a daemon that serves one request: what it replies, however the request comes in pieces.
#![tactic(auto)]

#[cfg(test)]
mod repliers;
#[cfg(test)]
mod served;
