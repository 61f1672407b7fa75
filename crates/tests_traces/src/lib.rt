//! Worked rows of runs to print, and of their lines, as tests.
#![tactic(auto)]

#[cfg(test)]
mod traces;
