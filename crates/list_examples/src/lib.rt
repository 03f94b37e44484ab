//! Tests of the words of the top call, and of compile lists.
#![tactic(auto)]

#[cfg(test)]
mod lists;
#[cfg(test)]
mod words;
