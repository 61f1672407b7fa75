//! Worked rows of lowered programs, as tests.
#![tactic(auto)]

#[cfg(test)]
mod lowered;
