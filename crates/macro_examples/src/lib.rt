//! Tables of cases for macros, with what ISO C says of them.
#![tactic(auto)]

#[cfg(test)]
mod definitions;
