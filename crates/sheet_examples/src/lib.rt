//! Tests of sheets, their keys and their memo.
#![tactic(auto)]

#[cfg(test)]
mod sheets;
